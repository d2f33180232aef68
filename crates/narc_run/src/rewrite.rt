//! The job `rewrite`: a capture with edited packets, whose frames are written anew.
ghost use Rattle.std.specs.Prelude.{◌≡◌, ◌≤◌, Some, length, OnErr};
ghost use Rattle.narc_world.specs.Outside.{CountsFaults};
ghost use Rattle.narc_pcap.specs.declared.record.TheConstants.{LONGEST_RECORD};
ghost use Rattle.narc_text.specs.Printing.{IsPrinted};
ghost use Rattle.narc_run.specs.declared.job.EditWay.TheVariants.{Anew};
ghost use Rattle.narc_run.specs.Editing.{edited_as};
ghost use Rattle.narc_run.specs.EntryAnswer.{IsWritable, entry_answer};
ghost use Rattle.narc_run.specs.Job.{Capture, Rewrite};
ghost use Rattle.narc_run.specs.Run.{IsRight};
ghost use Rattle.narc_run.specs.StreamRun.{run_of};

use crate::capture_octets::{print_entry, print_frame};
use crate::editor::{CaptureEdits, Editor, run_editor};
use crate::entry::{Answered, answer_record};
use crate::outcome::Outcome;
use crate::steps::RunSteps;
use narc_edit::Edits;
use narc_pcap::{LONGEST_RECORD, Reader, Record};
use narc_text::Page;
use narc_world::{Failed, Sink, Source, zeros};
use std::alloc::Global;
use std::sync::ledger::Ledger;

/// Writes the frames of edited packets anew.
#[derive(Drop)]
struct Rewriter {
    /// The record of an edited packet that is longer than a page.
    store: Vec<u8>,
}

impl Rewriter {
    /// Prints what a record becomes: a packet's is edited, and every other stays as it came.
    fn print_rewritten<K: Sink>(
        &mut self,
        by: &CaptureEdits,
        head: &Record,
        octets: &[u8],
        answer: &mut Answered<'_>,
        page: &mut Page,
        sink: &mut K,
    ) -> Result<(), Failed>
        requires writable { IsWritable answer.old }
        requires store { LONGEST_RECORD ≤ length self.old.store.items }
        ensures printed { IsPrinted result (edited_as Anew by.now.edits by.now.big (record { head = head.now; octets = octets.now }) (entry_answer answer.old)) page.old page.new (K.held sink.old) (K.held sink.new) }
        ensures faults { CountsFaults (OnErr result) (K.faults sink.old) (K.faults sink.new) }
        ensures len { length self.new.store.items ≡ length self.old.store.items }
    {
        match answer {
            Some(Ok(packet)) => {
                by.edits.apply(packet);
                print_frame(by.big, head, packet, &mut self.store, page, sink)
            }
            None | Some(Err(_)) => print_entry(by.big, head, octets, page, sink),
        }
    }
}

impl Editor for Rewriter {
    ghost way = { Anew };

    ghost is_ready = { λ rewriter. LONGEST_RECORD ≤ length rewriter.store.items };

    fn print_edited<K: Sink, L: Ledger, J: Ledger>(
        &mut self,
        by: &CaptureEdits,
        head: &Record,
        reader: &mut Reader,
        page: &mut Page,
        sink: &mut K,
        steps: &mut RunSteps<L, J>,
    ) -> Result<(), Failed> {
        let mut answer = answer_record(head, reader.frame(), steps);
        self.print_rewritten(by, head, reader.frame(), &mut answer, page, sink)
    }
}

/// Reads a capture from the source, and writes it with the frames of its edited packets as it comes.
pub(crate) fn run_rewrite<S: Source, K: Sink, L: Ledger, J: Ledger>(
    alloc: Global,
    edits: Edits,
    source: &mut S,
    sink: &mut K,
    steps: &mut RunSteps<L, J>,
) -> Outcome
    ensures { IsRight (run_of (Some (Capture (Rewrite edits))) (S.left source.old) (S.left source.new) (K.held sink.old) (K.held sink.new) (S.faults source.old) (S.faults source.new) (K.faults sink.old) (K.faults sink.new) steps.old steps.new result.status result.at) (source.new ≡ source.old) (sink.new ≡ sink.old) }
{
    match zeros(alloc, LONGEST_RECORD) {
        Ok(store) => run_editor(alloc, edits, Rewriter { store }, source, sink, steps),
        Err(_) => Outcome::no_memory(),
    }
}
