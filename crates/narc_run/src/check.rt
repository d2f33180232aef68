//! The job `check`: how many packets and refusals a capture has.
ghost use Rattle.std.specs.Prelude.{◌≡◌, ◌+◌, ◌*◌, ◌-◌, ◌≤◌, ◌++◌, ◌∷◌, [], decimal, length};
ghost use Rattle.narc_packet.specs.declared.field.TheConstants.{COUNT};
ghost use Rattle.narc_run.specs.Job.{Capture, Check};
ghost use Rattle.narc_run.specs.Output.{check_end, refused_line};
ghost use Rattle.narc_run.specs.Counting.{AreCounts, counts_lines, refusal_lines};
ghost use Rattle.narc_run.specs.Run.{IsRight};
ghost use Rattle.narc_run.specs.StreamRun.{run_of};

use crate::counts::{Counts, NUMBERS};
use crate::entry::judge_record;
use crate::outcome::Outcome;
use crate::steps::RunSteps;
use crate::visitor::Visitor;
use crate::walk::run_walk;
use narc_format::Field;
use narc_packet::field;
use narc_pcap::{End, Header, Reader, Record};
use narc_text::{PAGE_SIZE, Page, put_decimal};
use narc_world::{Failed, Sink, Source};
use std::alloc::Global;
use std::sync::ledger::Ledger;

/// As many octets as a line has at most: a word, a space or two, a field's name and a number.
const LINE: usize = 64;

/// As many octets as the lines of all fields have at most.
const REFUSALS: usize = field::COUNT as usize * LINE;

/// A word with a space behind it, and a number.
fn put_line(word: &[u8], number: u64, page: &mut Page)
    requires few { length word.now ≤ 40 }
    requires room { length page.old + LINE ≤ PAGE_SIZE }
    ensures value { page.new ≡ page.old ++ (word.now ++ (decimal number ++ 10 ∷ [])) }
    ensures bound { length page.new ≤ length page.old + LINE }
{
    page.put(word);
    put_decimal(page, number);
    page.put(b"\n");
}

/// The line of a field with so many refusals, where there are any.
fn put_refused(number: u8, count: u64, page: &mut Page)
    requires room { length page.old + LINE ≤ PAGE_SIZE }
    ensures value { page.new ≡ page.old ++ refused_line number count }
    ensures bound { length page.new ≤ length page.old + LINE }
{
    if count == 0 {
        return;
    }
    page.put(b"refused ");
    page.put(field::name(Field::of(number)).as_bytes());
    page.put(b" ");
    put_decimal(page, count);
    page.put(b"\n");
}

/// The lines of the fields with a refusal, in the order of their numbers.
fn put_refusals(refused: &[u64; NUMBERS], page: &mut Page)
    requires { length page.old + REFUSALS ≤ PAGE_SIZE }
    ensures value { page.new ≡ page.old ++ refusal_lines refused.now COUNT }
    ensures bound { length page.new ≤ length page.old + REFUSALS }
{
    for lesser in 0..field::COUNT {
        let number = lesser + 1;
        put_refused(number, refused[usize::from(number)], page);
    }
}

/// The last line.
fn put_end(records: u64, end: End, page: &mut Page)
    requires { length page.old + LINE ≤ PAGE_SIZE }
    ensures { page.new ≡ page.old ++ check_end records end }
{
    match end {
        End::Clean => put_line(b"end ", records, page),
        End::Torn(at) => put_line(b"torn ", at, page),
        End::Bad(at) => put_line(b"bad ", at, page),
    }
}

/// All lines.
fn put_counts(counts: &Counts, end: End, page: &mut Page)
    requires { length page.old + 2 * REFUSALS ≤ PAGE_SIZE }
    ensures { page.new ≡ page.old ++ counts_lines counts.now.tally counts.now.refused end }
{
    put_line(b"packets ", counts.tally.packets, page);
    put_line(b"snapped ", counts.tally.snapped, page);
    put_refusals(&counts.refused, page);
    put_end(counts.tally.records, end, page);
}

impl Visitor for Counts {
    ghost job = { λ counts. Check };

    ghost saw = { λ counts header told. AreCounts counts told };

    fn header<K: Sink>(&mut self, _: &Header, _: &mut Page, _: &mut K) -> Result<(), Failed> {
        Ok(())
    }

    fn record<K: Sink, L: Ledger, J: Ledger>(
        &mut self,
        head: &Record,
        reader: &mut Reader,
        _: &mut Page,
        _: &mut K,
        steps: &mut RunSteps<L, J>,
    ) -> Result<(), Failed> {
        self.count(&judge_record(head, reader.frame(), steps));
        Ok(())
    }

    fn end<K: Sink>(&self, end: End, page: &mut Page, sink: &mut K) -> Result<(), Failed> {
        page.make_room(2 * REFUSALS, sink)?;
        put_counts(self, end, page);
        Ok(())
    }

    fn status(&self) -> u8 {
        if self.tally.refused == 0 { 0 } else { 1 }
    }
}

/// Reads a capture from the source, and writes what it counted.
pub(crate) fn run_check<S: Source, K: Sink, L: Ledger, J: Ledger>(
    alloc: Global,
    source: &mut S,
    sink: &mut K,
    steps: &mut RunSteps<L, J>,
) -> Outcome
    ensures { IsRight (run_of (Some (Capture Check)) (S.left source.old) (S.left source.new) (K.held sink.old) (K.held sink.new) (S.faults source.old) (S.faults source.new) (K.faults sink.old) (K.faults sink.new) steps.old steps.new result.status result.at) (source.new ≡ source.old) (sink.new ≡ sink.old) }
{
    run_walk(alloc, &mut Counts::new(), source, sink, steps)
}
