//! Judging whole frames.
ghost use Rattle.std.specs.Prelude.{◌+◌, ◌*◌, ◌≤◌, length};
ghost use Rattle.narc_stack.specs.Judgement.{IsOnlyJudgement};

use crate::decode::decode_frame;
use crate::refusal::Refusal;
use narc_bits::{MAX_FRAME, Steps};
use std::marker::PhantomData;
use std::sync::ledger::Ledger;

/// A ledger of the steps of judging.
///
/// The compiler makes the reading of a frame once for each type of ledger. `judge_frame` looks at no packet, so the reading
/// that it makes for this type builds none.
pub struct Judging<L: Ledger> {
    marker: PhantomData<L>,
}

impl<L: Ledger> Ledger for Judging<L> {
    ghost name = { L.name };

    ghost parts = { L.parts };
}

/// Whether at most `MAX_FRAME` octets are a frame of a packet: what `decode_frame` answers, without the packet.
pub fn judge_frame<L: Ledger>(bytes: &[u8], steps: &mut Steps<Judging<L>>) -> Result<(), Refusal>
    requires { length bytes.now ≤ MAX_FRAME }
    ensures only { IsOnlyJudgement bytes.now result }
    ensures cost { steps.new ≤ steps.old + 16 * length bytes.now + 1 }
{
    match decode_frame(bytes, steps) {
        Ok(_) => Ok(()),
        Err(refusal) => Err(refusal),
    }
}
