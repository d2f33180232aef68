//! The answer to words that are no job.
ghost use Rattle.narc_run.specs.UnreadRun.{UsageRun};

use crate::outcome::Outcome;
use narc_world::Sink;

const USAGE: &[u8] =
    b"usage: narc frame|show|check|build|rewrite [SET]...|patch [SET]...|trial SEED COUNT|version\n";

/// Writes the usage line.
pub(crate) fn run_usage<K: Sink>(sink: &mut K) -> Outcome
    ensures { UsageRun (K.held sink.old) (K.held sink.new) (K.faults sink.old) (K.faults sink.new) result }
{
    match sink.push(USAGE) {
        Ok(()) => Outcome::usage(),
        Err(_) => Outcome::sink_fault(),
    }
}
