//! Reading whole frames.
ghost use Rattle.std.specs.Prelude.{◌+◌, ◌*◌, ◌≤◌, IfOk, length};
ghost use Rattle.narc_packet.specs.Answer.{IsAnswer, IsOnlyAnswer};
ghost use Rattle.narc_packet.specs.PacketView.{view};
ghost use Rattle.narc_packet.specs.WellFormed.{IsWellFormed, SpellsOptions};
ghost use Rattle.narc_stack.specs.AnswerView.{answer_view};

use crate::frame_part::FramePart;
use crate::refusal::Refusal;
use narc_bits::{Cursor, MAX_FRAME, Steps};
use narc_compose::Part;
use narc_packet::Packet;
use std::sync::ledger::Ledger;

/// The packet that at most `MAX_FRAME` octets are an Ethernet II frame of (RFC 894): ARP (RFC 826), or IPv4 (RFC 791) with
/// UDP (RFC 768), TCP (RFC 793) or other data.
///
/// The refusal names the first field in layout order without an admissible reading. The steps rise by at most 16 for each
/// octet and one more.
pub fn decode_frame<'a, L: Ledger>(
    bytes: &'a [u8],
    steps: &mut Steps<L>,
) -> Result<Packet<'a>, Refusal>
    requires small { length bytes.now ≤ MAX_FRAME }
    ensures answer { IsAnswer bytes.now (answer_view result) }
    ensures only { IsOnlyAnswer bytes.now (answer_view result) }
    ensures well_formed { IfOk result (λ packet. IsWellFormed (view packet)) }
    ensures spelled { IfOk result (λ packet. SpellsOptions packet) }
    ensures cost { steps.new ≤ steps.old + 16 * length bytes.now + 1 }
{
    let mut cursor = Cursor::new(bytes);
    match <FramePart as Part<Cursor<'a>>>::read((), &mut cursor, steps) {
        Ok(packet) => Ok(packet),
        Err(fault) => Err(Refusal {
            field: fault.field,
            at: fault.at / 8,
        }),
    }
}
