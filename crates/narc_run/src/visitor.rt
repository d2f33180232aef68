//! What a job does with a capture as it comes.
ghost use Rattle.std.specs.Prelude.{◌≡◌, ◌+◌, ◌≤◌, List, Option, Some, None, [], length, OnErr};
ghost use Rattle.narc_bits.specs.declared.limits.TheConstants.{MAX_FRAME};
ghost use Rattle.narc_world.specs.Outside.{CountsFaults};
ghost use Rattle.narc_pcap.specs.declared.header.Header.{Header};
ghost use Rattle.narc_text.specs.Printing.{IsPrinted};
ghost use Rattle.narc_run.specs.Job.{CaptureJob};
ghost use Rattle.narc_run.specs.Findings.{Told, entry_cost};
ghost use Rattle.narc_run.specs.Output.{header_text};
ghost use Rattle.narc_run.specs.Visiting.{HasRoom, IsStatus, VisitsEnd, VisitsRecord};

use crate::steps::RunSteps;
use narc_pcap::{End, Header, Reader, Record};
use narc_text::Page;
use narc_world::{Failed, Sink};
use std::sync::ledger::Ledger;

/// What a job does with a capture as it comes: what it prints of the header, of each record and of the end.
pub(crate) trait Visitor {
    ghost job: { Self → CaptureJob };

    /// It saw this header, if there is one, and then these records.
    ghost saw: { Self → Option Header → List Told → Type 0 };

    /// Prints what is written for the header.
    fn header<K: Sink>(
        &mut self,
        header: &Header,
        page: &mut Page,
        sink: &mut K,
    ) -> Result<(), Failed>
        requires fresh { saw self.old None [] }
        ensures same_job { job self.new ≡ job self.old }
        ensures seen { saw self.new (Some header.now) [] }
        ensures printed { IsPrinted result (header_text (job self.old) header.now) page.old page.new (K.held sink.old) (K.held sink.new) }
        ensures faults { CountsFaults (OnErr result) (K.faults sink.old) (K.faults sink.new) };

    /// Prints what is written for a record, whose frame is the reader's. The frame may be edited in place.
    fn record<K: Sink, L: Ledger, J: Ledger>(
        &mut self,
        head: &Record,
        reader: &mut Reader,
        page: &mut Page,
        sink: &mut K,
        steps: &mut RunSteps<L, J>,
    ) -> Result<(), Failed>
        requires fits { length reader.old.frame ≤ MAX_FRAME }
        requires room { HasRoom (saw self.old) }
        ensures same_job { job self.new ≡ job self.old }
        ensures visited { VisitsRecord (job self.old) (saw self.old) (saw self.new) (record { head = head.now; octets = reader.old.frame }) result page.old page.new (K.held sink.old) (K.held sink.new) }
        ensures kept { reader.new ≡ record reader.old { frame = reader.new.frame } }
        ensures cost { steps.new ≤ steps.old + entry_cost (record { head = head.now; octets = reader.old.frame }) }
        ensures faults { CountsFaults (OnErr result) (K.faults sink.old) (K.faults sink.new) };

    /// Prints what is written for the end.
    fn end<K: Sink>(&self, end: End, page: &mut Page, sink: &mut K) -> Result<(), Failed>
        ensures printed { VisitsEnd (job self.now) (saw self.now) end result page.old page.new (K.held sink.old) (K.held sink.new) }
        ensures faults { CountsFaults (OnErr result) (K.faults sink.old) (K.faults sink.new) };

    /// The status where the capture ends well.
    fn status(&self) -> u8
        ensures value { IsStatus (job self.now) (saw self.now) result }
        ensures bound { result ≤ 1 };
}
