//! Where octets go.

ghost use Rattle.std.specs.Prelude.{◌≤◌, ℕ, List, OnErr, Option};
ghost use Rattle.narc_world.specs.Outside.{CountsFaults, IsPushed};

use crate::error::Failed;

/// Where octets go.
pub trait Sink {
    /// The octets taken so far, where the sink tells them.
    ghost held: { Self → Option (List ℕ) };

    /// How many calls have failed.
    ghost faults: { Self → ℕ };

    /// Puts the octets at the end of what is held: all of them, or a front of them where the sink
    /// fails. `Failed` only where the count of faults rose, or stands at its last value.
    fn push(&mut self, bytes: &[u8]) -> Result<(), Failed>
        ensures octets { IsPushed result (held self.old) (held self.new) bytes.now }
        ensures faults { CountsFaults (OnErr result) (faults self.old) (faults self.new) };
}
