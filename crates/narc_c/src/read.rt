//! Frames read with no ledger of steps kept.
ghost use Rattle.std.specs.Prelude.{◌≡◌, ◌≤◌, IfOk, length};
ghost use Rattle.narc_packet.specs.Answer.{IsOnlyAnswer};
ghost use Rattle.narc_stack.specs.AnswerView.{answer_view};
ghost use Rattle.narc_c.specs.Places.{EthBodyLies};
ghost use Rattle.narc_stack.specs.Judgement.{IsOnlyJudgement};

use narc_bits::{MAX_FRAME, Steps};
use narc_packet::Packet;
use narc_stack::{Judging, Refusal, decode_frame, judge_frame};
use std::marker::Brand;
use std::sync::ledger::{Blank, Ledger};

fn judge_with<L: Ledger>(frame: &[u8], blank: Blank) -> Result<(), Refusal>
    requires small { length frame.now ≤ MAX_FRAME }
    requires name { blank.name ≡ L.name }
    requires parts { blank.parts ≡ L.parts }
    requires one { blank.parts ≡ 1 }
    ensures only { IsOnlyJudgement frame.now result }
{
    let mut steps = Steps::<Judging<L>>::new(blank);
    judge_frame(frame, &mut steps)
}

fn decode_with<'a, L: Ledger>(frame: &'a [u8], blank: Blank) -> Result<Packet<'a>, Refusal>
    requires small { length frame.now ≤ MAX_FRAME }
    requires name { blank.name ≡ L.name }
    requires parts { blank.parts ≡ L.parts }
    requires one { blank.parts ≡ 1 }
    ensures only { IsOnlyAnswer frame.now (answer_view result) }
    ensures lies { IfOk result (λ packet. EthBodyLies frame.now packet.body) }
{
    let mut steps = Steps::<L>::new(blank);
    match decode_frame(frame, &mut steps) {
        Ok(packet) => Ok(packet),
        Err(refusal) => Err(refusal),
    }
}

/// Whether the octets are a frame of a packet.
pub(crate) fn judge(frame: &[u8]) -> Result<(), Refusal>
    requires small { length frame.now ≤ MAX_FRAME }
    ensures only { IsOnlyJudgement frame.now result }
{
    judge_with::<Brand>(frame, Blank::new(1))
}

/// The packet that the octets are a frame of.
pub(crate) fn decode(frame: &[u8]) -> Result<Packet<'_>, Refusal>
    requires small { length frame.now ≤ MAX_FRAME }
    ensures only { IsOnlyAnswer frame.now (answer_view result) }
    ensures lies { IfOk result (λ packet. EthBodyLies frame.now packet.body) }
{
    decode_with::<Brand>(frame, Blank::new(1))
}
