//! Whole frames by their calls alone: what decodes and encodes them goes no further into their type.
ghost use Rattle.narc_stack.specs.FramePart.{frame_part, frame_part_laws};

use crate::frame::Frame;
use narc_bits::{Cursor, Steps, Writer};
use narc_compose::Part;
use narc_format::{Fault, Tail};
use narc_packet::Packet;
use std::sync::ledger::Ledger;

/// The tail that `FramePart` hands on to.
pub type FramePartTail = Frame;

/// `Frame` by its calls.
pub struct FramePart;

impl<'a> Part<Cursor<'a>> for FramePart {
    type Ctx = ();

    type Value = Packet<'a>;

    ghost meaning = { frame_part };

    #[tactic(auto, unfolding(crate::specs::FramePart::frame_part))]
    fn read<L: Ledger>(
        ctx: (),
        cursor: &mut Cursor<'a>,
        steps: &mut Steps<L>,
    ) -> Result<Packet<'a>, Fault> {
        <FramePartTail as Tail<Cursor<'a>>>::read(ctx, cursor, steps)
    }

    #[tactic(auto, unfolding(crate::specs::FramePart::frame_part))]
    fn size(ctx: (), value: &Packet<'a>) -> usize {
        <FramePartTail as Tail<Cursor<'a>>>::size(ctx, value)
    }

    #[tactic(auto, unfolding(crate::specs::FramePart::frame_part))]
    fn write(ctx: (), value: &Packet<'a>, room: &mut [u8], writer: &mut Writer) {
        <FramePartTail as Tail<Cursor<'a>>>::write(ctx, value, room, writer)
    }

    ghost laws = { frame_part_laws };
}
