//! The walk over the records of a capture, which every job takes that reads one.
ghost use Rattle.std.specs.Prelude.{◌≡◌, ◌≤◌, ◌++◌, [], None, length, IfOk, OnErr};
ghost use Rattle.narc_world.specs.Outside.{CountsFaults};
ghost use Rattle.narc_text.specs.Printing.{IsPrinted};
ghost use Rattle.narc_run.specs.Visiting.{Closes, Ends, Finishes};
ghost use Rattle.narc_run.specs.StreamRun.{EndsStream, IsShown, StreamRun, run_of};
ghost use Rattle.narc_run.specs.Job.{Capture};
ghost use Rattle.narc_run.specs.Run.{AreCounted, IsRight};

use crate::outcome::Outcome;
use crate::steps::RunSteps;
use crate::visitor::Visitor;
use narc_pcap::{End, LONGEST_RECORD, Next, Reader, Started};
use narc_text::Page;
use narc_world::{Failed, INPUT_BUFFER, Sink, Source, zeros};
use std::alloc::Global;
use std::sync::ledger::Ledger;

/// Prints what is written for the end, and pushes all that is on the page.
fn finish<V: Visitor, K: Sink>(
    visitor: &V,
    end: End,
    page: &mut Page,
    sink: &mut K,
) -> Result<Outcome, Failed>
    ensures printed { Finishes (V.job visitor.now) (V.saw visitor.now) end result page.old (K.held sink.old) (K.held sink.new) }
    ensures status { IfOk result (λ outcome. outcome.status ≤ 3) }
    ensures faults { CountsFaults (OnErr result) (K.faults sink.old) (K.faults sink.new) }
{
    visitor.end(end, page, sink)?;
    page.flush(sink)?;
    Ok(Outcome::of_capture(visitor.status(), end))
}

/// Pushes all that is on the page, and ends with this outcome.
fn end_early<K: Sink>(outcome: Outcome, page: &mut Page, sink: &mut K) -> Result<Outcome, Failed>
    ensures printed { IsShown result page.old (record { status = outcome.status; at = outcome.at }) (K.held sink.old) (K.held sink.new) }
    ensures faults { CountsFaults (OnErr result) (K.faults sink.old) (K.faults sink.new) }
{
    page.flush(sink)?;
    Ok(outcome)
}

/// Ends a walk where so many octets were taken and no further record was read.
fn close<V: Visitor, K: Sink>(
    visitor: &V,
    last: Next,
    taken: u64,
    page: &mut Page,
    sink: &mut K,
) -> Result<Outcome, Failed>
    requires { Ends last }
    ensures printed { Closes (V.job visitor.now) (V.saw visitor.now) last taken result page.old (K.held sink.old) (K.held sink.new) }
    ensures status { IfOk result (λ outcome. outcome.status ≡ 6 → ⊥) }
    ensures source { IfOk result (λ outcome. outcome.status ≡ 5 → last ≡ Next.ReadFault) }
    ensures faults { CountsFaults (OnErr result) (K.faults sink.old) (K.faults sink.new) }
{
    match last {
        Next::End => finish(visitor, End::Clean, page, sink),
        Next::Torn(at) => finish(visitor, End::Torn(at), page, sink),
        Next::Bad(at) => finish(visitor, End::Bad(at), page, sink),
        Next::ReadFault => end_early(Outcome::source_fault(taken), page, sink),
        Next::Long => end_early(Outcome::limit(), page, sink),
        Next::Rec(_) => unreachable!(),
    }
}

/// Pushes all that is on the page before a record that has to be pulled, so that who reads sees the lines at once.
fn tell_waiting<K: Sink>(reader: &Reader, page: &mut Page, sink: &mut K) -> Result<(), Failed>
    ensures printed { IsPrinted result [] page.old page.new (K.held sink.old) (K.held sink.new) }
    ensures faults { CountsFaults (OnErr result) (K.faults sink.old) (K.faults sink.new) }
{
    if page.is_empty() || reader.is_ready() {
        return Ok(());
    }
    page.flush(sink)
}

/// Reads a capture from the source, and shows it to the visitor as it comes.
fn walk<V: Visitor, S: Source, K: Sink, L: Ledger, J: Ledger>(
    visitor: &mut V,
    input: Vec<u8>,
    source: &mut S,
    sink: &mut K,
    steps: &mut RunSteps<L, J>,
) -> Result<Outcome, Failed>
    requires room { LONGEST_RECORD ≤ length input.items }
    requires fresh { V.saw visitor.old None [] }
    ensures run { EndsStream (Capture (V.job visitor.old)) (S.left source.old) (S.left source.new) (K.held sink.old) (K.held sink.new) steps.old steps.new result }
    ensures source_faults { CountsFaults (λ rose. IfOk result (λ outcome. outcome.status ≡ 5 → rose)) (S.faults source.old) (S.faults source.new) }
    ensures status { IfOk result (λ outcome. outcome.status ≡ 6 → ⊥) }
    ensures sink_faults { CountsFaults (OnErr result) (K.faults sink.old) (K.faults sink.new) }
{
    let mut reader = Reader::new(input);
    let mut page = Page::new();
    let header = match reader.start(source) {
        Started::Ok(header) => header,
        Started::Torn => return finish(visitor, End::Torn(0), &mut page, sink),
        Started::Bad(at) => return finish(visitor, End::Bad(at), &mut page, sink),
        Started::ReadFault => return Ok(Outcome::source_fault(reader.taken())),
    };
    visitor.header(&header, &mut page, sink)?;
    'records: loop {
        tell_waiting(&reader, &mut page, sink)?;
        match reader.next(source) {
            Next::Rec(head) => visitor.record(&head, &mut reader, &mut page, sink, steps)?,
            last => return close(visitor, last, reader.taken(), &mut page, sink),
        }
    }
}

/// Reads a capture from the source by way of the buffer, and shows it to the visitor as it comes.
fn walk_to_end<V: Visitor, S: Source, K: Sink, L: Ledger, J: Ledger>(
    visitor: &mut V,
    input: Vec<u8>,
    source: &mut S,
    sink: &mut K,
    steps: &mut RunSteps<L, J>,
) -> Outcome
    requires room { LONGEST_RECORD ≤ length input.items }
    requires fresh { V.saw visitor.old None [] }
    ensures run { StreamRun (Capture (V.job visitor.old)) (S.left source.old) (S.left source.new) (K.held sink.old) (K.held sink.new) steps.old steps.new result.status result.at }
    ensures faults { AreCounted result.status result.at (S.faults source.old) (S.faults source.new) (K.faults sink.old) (K.faults sink.new) }
{
    match walk(visitor, input, source, sink, steps) {
        Ok(outcome) => outcome,
        Err(_) => Outcome::sink_fault(),
    }
}

/// Reads a capture from the source by way of a buffer of its own, and shows it to the visitor as it comes.
pub(crate) fn run_walk<V: Visitor, S: Source, K: Sink, L: Ledger, J: Ledger>(
    alloc: Global,
    visitor: &mut V,
    source: &mut S,
    sink: &mut K,
    steps: &mut RunSteps<L, J>,
) -> Outcome
    requires { V.saw visitor.old None [] }
    ensures { IsRight (run_of (Some (Capture (V.job visitor.old))) (S.left source.old) (S.left source.new) (K.held sink.old) (K.held sink.new) (S.faults source.old) (S.faults source.new) (K.faults sink.old) (K.faults sink.new) steps.old steps.new result.status result.at) (source.new ≡ source.old) (sink.new ≡ sink.old) }
{
    match zeros(alloc, INPUT_BUFFER) {
        Ok(input) => walk_to_end(visitor, input, source, sink, steps),
        Err(_) => Outcome::no_memory(),
    }
}
