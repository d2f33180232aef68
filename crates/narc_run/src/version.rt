//! The job `version`: the version of the command.
ghost use Rattle.std.specs.Prelude.{◌≡◌};
ghost use Rattle.narc_run.specs.Job.{Version};
ghost use Rattle.narc_run.specs.UnreadRun.{UnreadRun};

use crate::outcome::Outcome;
use narc_world::Sink;

const VERSION: &[u8] = b"narc 1\n";

/// Writes the version line, which takes no memory.
pub(crate) fn run_version<K: Sink>(sink: &mut K) -> Outcome
    ensures { UnreadRun Version (K.held sink.old) (K.held sink.new) (K.faults sink.old) (K.faults sink.new) 0 0 result (sink.new ≡ sink.old) }
{
    match sink.push(VERSION) {
        Ok(()) => Outcome::done(),
        Err(_) => Outcome::sink_fault(),
    }
}
