//! The whole input of a job, in a buffer.
ghost use Rattle.std.specs.Prelude.{◌≡◌, length};
ghost use Rattle.narc_world.specs.Outside.{CountsFaults};
ghost use Rattle.narc_run.specs.Filling.{IsFilled, FaultOf};

use narc_world::{Pulled, Source};

/// What came of reading the input.
#[derive(Drop)]
pub(crate) enum Filled {
    /// The input ended after so many octets, which are at the front of the buffer.
    Whole(usize),
    /// The buffer is full, and the input may go on.
    Full,
    /// The source failed after so many octets.
    Failed(usize),
}

/// Pulls octets into the buffer, in as large pieces as the source gives.
pub(crate) fn fill<S: Source>(buffer: &mut [u8], source: &mut S) -> Filled
    ensures len { length buffer.new ≡ length buffer.old }
    ensures filled { IsFilled result buffer.new (S.left source.old) (S.left source.new) }
    ensures faults { CountsFaults (FaultOf result) (S.faults source.old) (S.faults source.new) }
{
    let mut count = 0;
    while count < buffer.len() {
        match source.pull(&mut buffer[count..]) {
            Pulled::Got(more) => count += more,
            Pulled::End => return Filled::Whole(count),
            Pulled::Failed => return Filled::Failed(count),
        }
    }
    Filled::Full
}
