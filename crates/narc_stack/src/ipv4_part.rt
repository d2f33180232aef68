//! IPv4 packets by their calls alone: a frame's type names no more of them.
ghost use Rattle.narc_stack.specs.Ipv4Part.{ipv4_part, ipv4_part_laws};

use crate::ipv4::Ipv4Format;
use narc_bits::{Cursor, Steps, Writer};
use narc_compose::Part;
use narc_format::{Fault, Tail};
use narc_packet::Ipv4;
use std::sync::ledger::Ledger;

/// The tail that `Ipv4Part` hands on to.
pub type Ipv4PartTail = Ipv4Format;

/// `Ipv4Format` by its calls.
pub struct Ipv4Part;

impl<'a> Part<Cursor<'a>> for Ipv4Part {
    type Ctx = ();

    type Value = Ipv4<'a>;

    ghost meaning = { ipv4_part };

    #[tactic(auto, unfolding(crate::specs::Ipv4Part::ipv4_part))]
    fn read<L: Ledger>(
        ctx: (),
        cursor: &mut Cursor<'a>,
        steps: &mut Steps<L>,
    ) -> Result<Ipv4<'a>, Fault> {
        <Ipv4PartTail as Tail<Cursor<'a>>>::read(ctx, cursor, steps)
    }

    #[tactic(auto, unfolding(crate::specs::Ipv4Part::ipv4_part))]
    fn size(ctx: (), value: &Ipv4<'a>) -> usize {
        <Ipv4PartTail as Tail<Cursor<'a>>>::size(ctx, value)
    }

    #[tactic(auto, unfolding(crate::specs::Ipv4Part::ipv4_part))]
    fn write(ctx: (), value: &Ipv4<'a>, room: &mut [u8], writer: &mut Writer) {
        <Ipv4PartTail as Tail<Cursor<'a>>>::write(ctx, value, room, writer)
    }

    ghost laws = { ipv4_part_laws };
}
