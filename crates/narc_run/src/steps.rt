//! The steps of a run.
ghost use Rattle.std.specs.Prelude.{◌≡◌};

use narc_bits::Steps;
use narc_stack::Judging;
use std::marker::Model;
use std::sync::ledger::{Blank, Ledger};

/// The steps of a run: of the frames that it decodes, and of those that it judges.
#[derive(Drop)]
pub struct RunSteps<L: Ledger, J: Ledger> {
    pub(crate) decoding: Steps<L>,
    pub(crate) judging: Steps<Judging<J>>,
}

impl<L: Ledger, J: Ledger> Model for RunSteps<L, J> {
    ghost use Rattle.std.specs.Prelude.{ℕ, ◌+◌};

    ghost Value = { ℕ };

    ghost view = { λ s. s.decoding + s.judging };
}

impl<L: Ledger, J: Ledger> RunSteps<L, J> {
    /// No step was taken.
    pub fn new(decoding: Blank, judging: Blank) -> RunSteps<L, J>
        requires decoding_name { decoding.name ≡ L.name }
        requires decoding_parts { decoding.parts ≡ L.parts }
        requires decoding_one { decoding.parts ≡ 1 }
        requires judging_name { judging.name ≡ J.name }
        requires judging_parts { judging.parts ≡ J.parts }
        requires judging_one { judging.parts ≡ 1 }
        ensures { result ≡ 0 }
    {
        RunSteps {
            decoding: Steps::new(decoding),
            judging: Steps::new(judging),
        }
    }
}
