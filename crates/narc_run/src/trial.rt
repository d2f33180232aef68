//! The job `trial`: packets made from numbers, whose frames are changed in one bit and decoded.
ghost use Rattle.std.specs.Prelude.{◌≡◌, ◌+◌, ◌++◌, ◌≤◌, decimal, length, OnErr};
ghost use Rattle.narc_world.specs.Outside.{CountsFaults, IsPushed};
ghost use Rattle.narc_run.specs.Job.{Trial};
ghost use Rattle.narc_run.specs.Output.{trial_line};
ghost use Rattle.narc_run.specs.UnreadRun.{UnreadRun};

use crate::outcome::Outcome;
use crate::steps::RunSteps;
use narc_text::{PAGE_SIZE, Page, put_decimal};
use narc_trial::{TrialCounts, try_packets};
use narc_world::{FRAME_BUFFER, Failed, STORE_BUFFER, Sink, zeros};
use std::alloc::Global;
use std::sync::ledger::Ledger;

/// More octets than the line has.
const LINE: usize = 192;

/// The most digits of a number.
const DIGITS: usize = 20;

/// A number, with a word and a space in front.
fn put_count(word: &[u8], number: u64, page: &mut Page)
    requires { length page.old + length word.now + DIGITS ≤ PAGE_SIZE }
    ensures value { page.new ≡ page.old ++ word.now ++ decimal number }
    ensures bound { length page.new ≤ length page.old + length word.now + DIGITS }
{
    page.put(word);
    put_decimal(page, number);
}

/// The line of a trial.
fn put_trial(seed: u32, count: u32, counts: &TrialCounts, page: &mut Page)
    requires { length page.old + LINE ≤ PAGE_SIZE }
    ensures { page.new ≡ page.old ++ trial_line seed count counts.now }
{
    put_count(b"trial ", u64::from(seed), page);
    put_count(b" ", u64::from(count), page);
    put_count(b" octets ", counts.octets, page);
    put_count(b" same ", counts.same, page);
    put_count(b" other ", counts.other, page);
    put_count(b" refused ", counts.refused, page);
    page.put(b"\n");
}

/// Writes the line of a trial.
fn tell_trial<K: Sink>(
    seed: u32,
    count: u32,
    counts: &TrialCounts,
    sink: &mut K,
) -> Result<(), Failed>
    ensures pushed { IsPushed result (K.held sink.old) (K.held sink.new) (trial_line seed count counts.now) }
    ensures faults { CountsFaults (OnErr result) (K.faults sink.old) (K.faults sink.new) }
{
    let mut page = Page::new();
    put_trial(seed, count, counts, &mut page);
    page.flush(sink)
}

/// Tries so many packets from a number on, and writes what was found.
pub(crate) fn run_trial<K: Sink, L: Ledger, J: Ledger>(
    alloc: Global,
    seed: u32,
    count: u32,
    sink: &mut K,
    steps: &mut RunSteps<L, J>,
) -> Outcome
    ensures { UnreadRun (Trial seed count) (K.held sink.old) (K.held sink.new) (K.faults sink.old) (K.faults sink.new) steps.old steps.new result (sink.new ≡ sink.old) }
{
    let Ok(mut frame) = zeros(alloc, FRAME_BUFFER) else {
        return Outcome::no_memory();
    };
    let Ok(mut store) = zeros(alloc, STORE_BUFFER) else {
        return Outcome::no_memory();
    };
    let counts = try_packets(seed, count, &mut frame, &mut store, &mut steps.decoding);
    match tell_trial(seed, count, &counts, sink) {
        Ok(()) => Outcome::done(),
        Err(_) => Outcome::sink_fault(),
    }
}
