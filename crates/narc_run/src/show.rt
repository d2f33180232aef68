//! The job `show`: a capture as text, record by record.
ghost use Rattle.std.specs.Prelude.{◌≡◌, ◌+◌, ◌≤◌, ◌++◌, length, OnErr};
ghost use Rattle.narc_world.specs.Outside.{CountsFaults};
ghost use Rattle.narc_text.specs.Printing.{IsPrinted};
ghost use Rattle.narc_run.specs.Job.{Capture, Show};
ghost use Rattle.narc_run.specs.Output.{header_line};
ghost use Rattle.narc_run.specs.Tallies.{tally_line, tally_of};
ghost use Rattle.narc_run.specs.Run.{IsRight};
ghost use Rattle.narc_run.specs.StreamRun.{run_of};

use crate::entry::{answer_record, print_record};
use crate::outcome::Outcome;
use crate::steps::RunSteps;
use crate::tally::Tally;
use crate::visitor::Visitor;
use crate::walk::run_walk;
use narc_pcap::{End, Header, Reader, Record, Unit};
use narc_text::{LINE, PAGE_SIZE, Page, put_decimal};
use narc_world::{Failed, Sink, Source};
use std::alloc::Global;
use std::sync::ledger::Ledger;

/// The line of a capture's header.
fn print_header<K: Sink>(header: &Header, page: &mut Page, sink: &mut K) -> Result<(), Failed>
    ensures printed { IsPrinted result (header_line header.now) page.old page.new (K.held sink.old) (K.held sink.new) }
    ensures faults { CountsFaults (OnErr result) (K.faults sink.old) (K.faults sink.new) }
{
    page.make_room(LINE, sink)?;
    put_header(header, page);
    Ok(())
}

fn put_header(header: &Header, page: &mut Page)
    requires { length page.old + LINE ≤ PAGE_SIZE }
    ensures { page.new ≡ page.old ++ header_line header.now }
{
    match header.unit {
        Unit::Micro => page.put(b"capture us "),
        Unit::Nano => page.put(b"capture ns "),
    }
    put_decimal(page, u64::from(header.snap));
    page.put(b"\n");
}

/// The last line of a capture.
fn put_end(end: End, tally: &Tally, page: &mut Page)
    requires { length page.old + LINE ≤ PAGE_SIZE }
    ensures { page.new ≡ page.old ++ tally_line tally.now end }
{
    match end {
        End::Clean => put_counts(tally, page),
        End::Torn(at) => {
            page.put(b"torn ");
            put_decimal(page, at);
            page.put(b"\n");
        }
        End::Bad(at) => {
            page.put(b"bad ");
            put_decimal(page, at);
            page.put(b"\n");
        }
    }
}

fn put_counts(tally: &Tally, page: &mut Page)
    requires { length page.old + LINE ≤ PAGE_SIZE }
    ensures { page.new ≡ page.old ++ tally_line tally.now End.Clean }
{
    page.put(b"end ");
    put_decimal(page, tally.records);
    page.put(b" ");
    put_decimal(page, tally.packets);
    page.put(b" ");
    put_decimal(page, tally.refused);
    page.put(b" ");
    put_decimal(page, tally.snapped);
    page.put(b"\n");
}

/// Lists the records, and counts them.
#[derive(Drop)]
struct Lister {
    tally: Tally,
}

impl Visitor for Lister {
    ghost job = { λ lister. Show };

    ghost saw = { λ lister header told. lister.tally ≡ tally_of told };

    fn header<K: Sink>(
        &mut self,
        header: &Header,
        page: &mut Page,
        sink: &mut K,
    ) -> Result<(), Failed> {
        print_header(header, page, sink)
    }

    fn record<K: Sink, L: Ledger, J: Ledger>(
        &mut self,
        head: &Record,
        reader: &mut Reader,
        page: &mut Page,
        sink: &mut K,
        steps: &mut RunSteps<L, J>,
    ) -> Result<(), Failed> {
        let answer = answer_record(head, reader.frame(), steps);
        self.tally.count(&answer);
        print_record(head, &answer, page, sink)
    }

    fn end<K: Sink>(&self, end: End, page: &mut Page, sink: &mut K) -> Result<(), Failed> {
        page.make_room(LINE, sink)?;
        put_end(end, &self.tally, page);
        Ok(())
    }

    fn status(&self) -> u8 {
        0
    }
}

/// Reads a capture from the source, and prints it as it comes.
pub(crate) fn run_show<S: Source, K: Sink, L: Ledger, J: Ledger>(
    alloc: Global,
    source: &mut S,
    sink: &mut K,
    steps: &mut RunSteps<L, J>,
) -> Outcome
    ensures { IsRight (run_of (Some (Capture Show)) (S.left source.old) (S.left source.new) (K.held sink.old) (K.held sink.new) (S.faults source.old) (S.faults source.new) (K.faults sink.old) (K.faults sink.new) steps.old steps.new result.status result.at) (source.new ≡ source.old) (sink.new ≡ sink.old) }
{
    let mut lister = Lister {
        tally: Tally::new(),
    };
    run_walk(alloc, &mut lister, source, sink, steps)
}
