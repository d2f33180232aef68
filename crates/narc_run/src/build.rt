//! The job `build`: a capture made of its text.
ghost use Rattle.std.specs.Prelude.{◌≡◌, ℕ, length};
ghost use Rattle.narc_world.specs.declared.buffers.TheConstants.{STORE_BUFFER};
ghost use Rattle.narc_build.specs.declared.limits.TheConstants.{LINE_BUFFER, OUTPUT_BUFFER};
ghost use Rattle.narc_run.specs.Job.{Build};
ghost use Rattle.narc_run.specs.Run.{AreCounted, IsRight};
ghost use Rattle.narc_run.specs.StreamRun.{StreamRun, run_of};

use crate::outcome::Outcome;
use crate::steps::RunSteps;
use narc_build::{LINE_BUFFER, OUTPUT_BUFFER, build};
use narc_world::{NoMemory, STORE_BUFFER, Sink, Source, zeros};
use std::alloc::Global;
use std::sync::ledger::Ledger;

/// The buffers of the job.
#[derive(Drop)]
struct Buffers {
    /// The lines in hand.
    line: Vec<u8>,
    /// What the packet of a line is made of.
    store: Vec<u8>,
    /// What is made of the lines in hand.
    output: Vec<u8>,
    ghost line_size: { length line.items ≡ LINE_BUFFER },
    ghost store_size: { length store.items ≡ STORE_BUFFER },
    ghost output_size: { length output.items ≡ OUTPUT_BUFFER },
}

impl Buffers {
    fn new(alloc: Global) -> Result<Buffers, NoMemory> {
        Ok(Buffers {
            line: zeros(alloc, LINE_BUFFER)?,
            store: zeros(alloc, STORE_BUFFER)?,
            output: zeros(alloc, OUTPUT_BUFFER)?,
        })
    }
}

/// Reads the text of a capture by way of the buffers, and writes the capture as it comes.
fn build_to_end<S: Source, K: Sink>(buffers: Buffers, source: &mut S, sink: &mut K) -> Outcome
    ensures run { (steps : ℕ) → StreamRun Build (S.left source.old) (S.left source.new) (K.held sink.old) (K.held sink.new) steps steps result.status result.at }
    ensures faults { AreCounted result.status result.at (S.faults source.old) (S.faults source.new) (K.faults sink.old) (K.faults sink.new) }
{
    let Buffers {
        line,
        mut store,
        output,
    } = buffers;
    match build(line, &mut store, output, source, sink) {
        Ok(ending) => Outcome::of_built(ending),
        Err(_) => Outcome::sink_fault(),
    }
}

/// Reads the text of a capture by way of buffers of its own, and writes the capture as it comes.
pub(crate) fn run_build<S: Source, K: Sink, L: Ledger, J: Ledger>(
    alloc: Global,
    source: &mut S,
    sink: &mut K,
    steps: &mut RunSteps<L, J>,
) -> Outcome
    ensures { IsRight (run_of (Some Build) (S.left source.old) (S.left source.new) (K.held sink.old) (K.held sink.new) (S.faults source.old) (S.faults source.new) (K.faults sink.old) (K.faults sink.new) steps.old steps.new result.status result.at) (source.new ≡ source.old) (sink.new ≡ sink.old) }
{
    match Buffers::new(alloc) {
        Ok(buffers) => build_to_end(buffers, source, sink),
        Err(_) => Outcome::no_memory(),
    }
}
