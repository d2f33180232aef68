//! The job `patch`: a capture whose packets are edited in place.
ghost use Rattle.std.specs.Prelude.{◌≡◌, ◌+◌, ◌≤◌, length, Some};
ghost use Rattle.narc_bits.specs.declared.limits.TheConstants.{MAX_FRAME};
ghost use Rattle.narc_run.specs.declared.job.EditWay.TheVariants.{InPlace};
ghost use Rattle.narc_run.specs.RecordEdits.{PatchesFrame};
ghost use Rattle.narc_run.specs.Findings.{entry_cost};
ghost use Rattle.narc_run.specs.Job.{Capture, Patch};
ghost use Rattle.narc_run.specs.Run.{IsRight};
ghost use Rattle.narc_run.specs.StreamRun.{run_of};

use crate::capture_octets::print_entry;
use crate::editor::{CaptureEdits, Editor, run_editor};
use crate::entry::judge_record;
use crate::outcome::Outcome;
use crate::steps::RunSteps;
use narc_edit::Edits;
use narc_patch::patch_frame;
use narc_pcap::{Reader, Record};
use narc_text::Page;
use narc_world::{Edit, Failed, Sink, Source};
use std::alloc::Global;
use std::sync::ledger::Ledger;

/// Edits of a frame in place.
#[derive(Drop)]
struct FrameEdits<'a> {
    edits: &'a Edits,
}

impl Edit for FrameEdits<'_> {
    ghost use Rattle.narc_packet.specs.PacketView.{PacketView};
    ghost use Rattle.narc_packet.specs.Frame.{IsFrame};
    ghost use Rattle.narc_patch.specs.Patched.{patched};

    ghost can_edit = { λ by frame. (p : PacketView) × IsFrame p frame };

    ghost edited = { λ by frame. patched by.edits.now frame };

    fn edit(&self, frame: &mut [u8]) {
        patch_frame(self.edits, frame);
    }
}

/// Patches the frame of the reader's record, where it is a packet's.
fn patch_record<L: Ledger, J: Ledger>(
    edits: &Edits,
    head: &Record,
    reader: &mut Reader,
    steps: &mut RunSteps<L, J>,
)
    requires { length reader.old.frame ≤ MAX_FRAME }
    ensures patched { PatchesFrame edits.now head.now reader.old reader.new }
    ensures cost { steps.new ≤ steps.old + entry_cost (record { head = head.now; octets = reader.old.frame }) }
{
    if let Some(Ok(())) = judge_record(head, reader.frame(), steps) {
        reader.edit(&FrameEdits { edits });
    }
}

/// Edits packets in place.
#[derive(Drop)]
struct Patcher;

impl Editor for Patcher {
    ghost way = { InPlace };

    ghost is_ready = { λ patcher. Unit {0} };

    fn print_edited<K: Sink, L: Ledger, J: Ledger>(
        &mut self,
        by: &CaptureEdits,
        head: &Record,
        reader: &mut Reader,
        page: &mut Page,
        sink: &mut K,
        steps: &mut RunSteps<L, J>,
    ) -> Result<(), Failed> {
        patch_record(&by.edits, head, reader, steps);
        print_entry(by.big, head, reader.frame(), page, sink)
    }
}

/// Reads a capture from the source, and writes it with its packets edited in place as it comes.
pub(crate) fn run_patch<S: Source, K: Sink, L: Ledger, J: Ledger>(
    alloc: Global,
    edits: Edits,
    source: &mut S,
    sink: &mut K,
    steps: &mut RunSteps<L, J>,
) -> Outcome
    ensures { IsRight (run_of (Some (Capture (Patch edits))) (S.left source.old) (S.left source.new) (K.held sink.old) (K.held sink.new) (S.faults source.old) (S.faults source.new) (K.faults sink.old) (K.faults sink.new) steps.old steps.new result.status result.at) (source.new ≡ source.old) (sink.new ≡ sink.old) }
{
    run_editor(alloc, edits, Patcher, source, sink, steps)
}
