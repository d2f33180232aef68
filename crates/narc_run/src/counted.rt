//! The same call with counts of steps of its own.
ghost use Rattle.std.specs.Prelude.{◌≡◌, ℕ};
ghost use Rattle.narc_run.specs.Job.{job};
ghost use Rattle.narc_run.specs.Run.{IsRight};

use crate::command::run;
use crate::outcome::Outcome;
use crate::steps::RunSteps;
use narc_world::{Sink, Source, Words};
use std::alloc::Global;
use std::sync::ledger::{Blank, Ledger};

/// How a run ended, and the steps that it took.
#[derive(Drop)]
pub struct Counted<L: Ledger, J: Ledger> {
    pub outcome: Outcome,
    pub steps: RunSteps<L, J>,
}

/// Does the job of the words with two new counts of steps, one of decoding and one of judging: what `run` promises, from 0.
pub fn count_run<S: Source, K: Sink, L: Ledger, J: Ledger>(
    alloc: Global,
    words: &Words,
    source: &mut S,
    sink: &mut K,
    decoding: Blank,
    judging: Blank,
) -> Counted<L, J>
    requires decoding_name { decoding.name ≡ L.name }
    requires decoding_parts { decoding.parts ≡ L.parts }
    requires decoding_one { decoding.parts ≡ 1 }
    requires judging_name { judging.name ≡ J.name }
    requires judging_parts { judging.parts ≡ J.parts }
    requires judging_one { judging.parts ≡ 1 }
    ensures { IsRight (record {
      asked = job words.now;
      left_before = S.left source.old;
      left_after = S.left source.new;
      held_before = K.held sink.old;
      held_after = K.held sink.new;
      source_before = S.faults source.old;
      source_after = S.faults source.new;
      sink_before = K.faults sink.old;
      sink_after = K.faults sink.new;
      steps_before = 0;
      steps_after = result.steps;
      status = result.outcome.status;
      at = result.outcome.at;
    }) (source.new ≡ source.old) (sink.new ≡ sink.old) }
{
    let mut steps = RunSteps::<L, J>::new(decoding, judging);
    let outcome = run(alloc, words, source, sink, &mut steps);
    Counted { outcome, steps }
}

/// Does the same, and drops the counts: so of the steps its clauses say nothing.
pub fn run_counted<S: Source, K: Sink, L: Ledger, J: Ledger>(
    alloc: Global,
    words: &Words,
    source: &mut S,
    sink: &mut K,
    decoding: Blank,
    judging: Blank,
) -> Outcome
    requires decoding_name { decoding.name ≡ L.name }
    requires decoding_parts { decoding.parts ≡ L.parts }
    requires decoding_one { decoding.parts ≡ 1 }
    requires judging_name { judging.name ≡ J.name }
    requires judging_parts { judging.parts ≡ J.parts }
    requires judging_one { judging.parts ≡ 1 }
    ensures { (steps : ℕ) × IsRight (record {
      asked = job words.now;
      left_before = S.left source.old;
      left_after = S.left source.new;
      held_before = K.held sink.old;
      held_after = K.held sink.new;
      source_before = S.faults source.old;
      source_after = S.faults source.new;
      sink_before = K.faults sink.old;
      sink_after = K.faults sink.new;
      steps_before = 0;
      steps_after = steps;
      status = result.status;
      at = result.at;
    }) (source.new ≡ source.old) (sink.new ≡ sink.old) }
{
    let counted: Counted<L, J> = count_run(alloc, words, source, sink, decoding, judging);
    counted.outcome
}
