//! An ARP packet by its calls alone: a frame's type names no more of it.
ghost use Rattle.narc_eth.specs.ArpPacket.{arp_format};
ghost use Rattle.narc_eth.specs.Laws.{arp_laws};

use crate::arp::ArpFormat;
use narc_bits::{Input, Steps, Writer};
use narc_compose::FormatPart;
use narc_format::{Fault, Format};
use narc_packet::Arp;
use std::sync::ledger::Ledger;

/// `ArpFormat` by its calls.
pub struct ArpPart;

impl<I: Input> FormatPart<I> for ArpPart {
    type Ctx = ();

    type Value = Arp;

    ghost meaning = { arp_format };

    fn read<L: Ledger>(ctx: (), cursor: &mut I, steps: &mut Steps<L>) -> Result<Arp, Fault> {
        <ArpFormat as Format<I>>::read(ctx, cursor, steps)
    }

    fn size(ctx: (), value: &Arp) -> usize {
        <ArpFormat as Format<I>>::size(ctx, value)
    }

    fn write(ctx: (), value: &Arp, room: &mut [u8], writer: &mut Writer) {
        <ArpFormat as Format<I>>::write(ctx, value, room, writer)
    }

    ghost laws = { arp_laws };
}
