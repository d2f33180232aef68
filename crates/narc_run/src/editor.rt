//! The jobs that edit the packets of a capture.
ghost use Rattle.std.specs.Prelude.{◌≡◌, ◌+◌, ◌≤◌, Some, length, OnErr, IfSome};
ghost use Rattle.narc_bits.specs.declared.limits.TheConstants.{MAX_FRAME};
ghost use Rattle.narc_world.specs.Outside.{CountsFaults};
ghost use Rattle.narc_run.specs.declared.job.EditWay.{EditWay};
ghost use Rattle.narc_run.specs.Job.{Capture, Edit};
ghost use Rattle.narc_run.specs.RecordEdits.{EditsRecord};
ghost use Rattle.narc_run.specs.Findings.{entry_cost};
ghost use Rattle.narc_run.specs.Run.{IsRight};
ghost use Rattle.narc_run.specs.StreamRun.{run_of};

use crate::capture_octets::print_capture_header;
use crate::job::EditWay;
use crate::outcome::Outcome;
use crate::patch::run_patch;
use crate::rewrite::run_rewrite;
use crate::steps::RunSteps;
use crate::visitor::Visitor;
use crate::walk::run_walk;
use narc_edit::Edits;
use narc_pcap::{End, Header, Reader, Record};
use narc_text::Page;
use narc_world::{Failed, Sink, Source};
use std::alloc::Global;
use std::sync::ledger::Ledger;

/// The edits of a capture.
#[derive(Drop)]
pub(crate) struct CaptureEdits {
    pub(crate) edits: Edits,
    /// Whether the capture's numbers are most significant octet first.
    pub(crate) big: bool,
}

/// Edits records in one of the ways.
pub(crate) trait Editor {
    ghost way: { EditWay };

    /// It has all that it edits by.
    ghost is_ready: { Self → Type 0 };

    /// Prints what a record becomes, whose frame is the reader's. The frame may be edited in place.
    fn print_edited<K: Sink, L: Ledger, J: Ledger>(
        &mut self,
        by: &CaptureEdits,
        head: &Record,
        reader: &mut Reader,
        page: &mut Page,
        sink: &mut K,
        steps: &mut RunSteps<L, J>,
    ) -> Result<(), Failed>
        requires ready { is_ready self.old }
        requires fits { length reader.old.frame ≤ MAX_FRAME }
        ensures ready { is_ready self.new }
        ensures edited { EditsRecord way by.now.edits by.now.big (record { head = head.now; octets = reader.old.frame }) result page.old page.new (K.held sink.old) (K.held sink.new) }
        ensures kept { reader.new ≡ record reader.old { frame = reader.new.frame } }
        ensures cost { steps.new ≤ steps.old + entry_cost (record { head = head.now; octets = reader.old.frame }) }
        ensures faults { CountsFaults (OnErr result) (K.faults sink.old) (K.faults sink.new) };
}

/// Writes a capture with its packets edited.
#[derive(Drop)]
struct Editing<E: Editor> {
    by: CaptureEdits,
    editor: E,
}

impl<E: Editor> Visitor for Editing<E> {
    ghost job = { λ editing. Edit E.way editing.by.edits };

    ghost saw = { λ editing header told. E.is_ready editing.editor × IfSome header (λ h. editing.by.big ≡ h.big) };

    fn header<K: Sink>(
        &mut self,
        header: &Header,
        page: &mut Page,
        sink: &mut K,
    ) -> Result<(), Failed> {
        self.by.big = header.big;
        print_capture_header(header, page, sink)
    }

    fn record<K: Sink, L: Ledger, J: Ledger>(
        &mut self,
        head: &Record,
        reader: &mut Reader,
        page: &mut Page,
        sink: &mut K,
        steps: &mut RunSteps<L, J>,
    ) -> Result<(), Failed> {
        self.editor
            .print_edited(&self.by, head, reader, page, sink, steps)
    }

    fn end<K: Sink>(&self, _end: End, _page: &mut Page, _sink: &mut K) -> Result<(), Failed> {
        Ok(())
    }

    fn status(&self) -> u8 {
        0
    }
}

/// Reads a capture from the source, and writes it with its packets edited by an editor as it comes.
pub(crate) fn run_editor<E: Editor + Drop, S: Source, K: Sink, L: Ledger, J: Ledger>(
    alloc: Global,
    edits: Edits,
    editor: E,
    source: &mut S,
    sink: &mut K,
    steps: &mut RunSteps<L, J>,
) -> Outcome
    requires { E.is_ready editor }
    ensures { IsRight (run_of (Some (Capture (Edit E.way edits))) (S.left source.old) (S.left source.new) (K.held sink.old) (K.held sink.new) (S.faults source.old) (S.faults source.new) (K.faults sink.old) (K.faults sink.new) steps.old steps.new result.status result.at) (source.new ≡ source.old) (sink.new ≡ sink.old) }
{
    let mut editing = Editing {
        by: CaptureEdits { edits, big: false },
        editor,
    };
    run_walk(alloc, &mut editing, source, sink, steps)
}

/// Reads a capture from the source, and writes it with its packets edited this way as it comes.
pub(crate) fn run_edit<S: Source, K: Sink, L: Ledger, J: Ledger>(
    alloc: Global,
    way: EditWay,
    edits: Edits,
    source: &mut S,
    sink: &mut K,
    steps: &mut RunSteps<L, J>,
) -> Outcome
    ensures { IsRight (run_of (Some (Capture (Edit way edits))) (S.left source.old) (S.left source.new) (K.held sink.old) (K.held sink.new) (S.faults source.old) (S.faults source.new) (K.faults sink.old) (K.faults sink.new) steps.old steps.new result.status result.at) (source.new ≡ source.old) (sink.new ≡ sink.old) }
{
    match way {
        EditWay::Anew => run_rewrite(alloc, edits, source, sink, steps),
        EditWay::InPlace => run_patch(alloc, edits, source, sink, steps),
    }
}
