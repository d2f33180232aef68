//! Where octets come from.

ghost use Rattle.std.specs.Prelude.{◌<◌, ◌≤◌, ℕ, List, Option, length};
ghost use Rattle.narc_world.specs.Outside.{CountsFaults, IsPulled, OnFailed};

/// What a pull gave.
#[derive(Debug, Drop, PartialEq)]
pub enum Pulled {
    /// So many octets, at least one, at the front of the slice.
    Got(usize),
    /// Nothing more will come.
    End,
    /// The source failed, and nothing was taken from it.
    Failed,
}

/// Where octets come from.
pub trait Source {
    /// The octets that are still to come, where the source tells them.
    ghost left: { Self → Option (List ℕ) };

    /// How many calls have failed.
    ghost faults: { Self → ℕ };

    /// Takes octets from the front of what is left and puts them at the front of `into`. Nothing is
    /// said of the octets of `into` behind them.
    fn pull(&mut self, into: &mut [u8]) -> Pulled
        requires { 0 < length into.old }
        ensures octets { IsPulled result (left self.old) (left self.new) into.new }
        ensures faults { CountsFaults (OnFailed result) (faults self.old) (faults self.new) };
}
