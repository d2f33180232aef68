//! Datagrams and segments by their calls alone: a frame's type names no more of them.
ghost use Rattle.narc_transport.specs.Parts.{tcp_part, tcp_part_laws, udp_part, udp_part_laws};

use crate::as_tcp::TcpWithOffset;
use crate::context::Ends;
use crate::tcp::TcpFormat;
use crate::udp::UdpFormat;
use narc_bits::{Cursor, Steps, Writer};
use narc_compose::Part;
use narc_format::{Fault, Tail};
use narc_packet::Udp;
use std::sync::ledger::Ledger;

/// The tail that `UdpPart` hands on to.
pub type UdpPartTail = UdpFormat;

/// `UdpFormat` by its calls.
pub struct UdpPart;

impl<'a> Part<Cursor<'a>> for UdpPart {
    type Ctx = (Ends, usize);

    type Value = Udp<'a>;

    ghost meaning = { udp_part };

    #[tactic(auto, unfolding(crate::specs::Parts::udp_part))]
    fn read<L: Ledger>(
        ctx: (Ends, usize),
        cursor: &mut Cursor<'a>,
        steps: &mut Steps<L>,
    ) -> Result<Udp<'a>, Fault> {
        <UdpPartTail as Tail<Cursor<'a>>>::read(ctx, cursor, steps)
    }

    #[tactic(auto, unfolding(crate::specs::Parts::udp_part))]
    fn size(ctx: (Ends, usize), value: &Udp<'a>) -> usize {
        <UdpPartTail as Tail<Cursor<'a>>>::size(ctx, value)
    }

    #[tactic(auto, unfolding(crate::specs::Parts::udp_part))]
    fn write(ctx: (Ends, usize), value: &Udp<'a>, room: &mut [u8], writer: &mut Writer) {
        <UdpPartTail as Tail<Cursor<'a>>>::write(ctx, value, room, writer)
    }

    ghost laws = { udp_part_laws };
}

/// The tail that `TcpPart` hands on to.
pub type TcpPartTail = TcpFormat;

/// `TcpFormat` by its calls.
pub struct TcpPart;

impl<'a> Part<Cursor<'a>> for TcpPart {
    type Ctx = (Ends, usize);

    type Value = TcpWithOffset<'a>;

    ghost meaning = { tcp_part };

    #[tactic(auto, unfolding(crate::specs::Parts::tcp_part))]
    fn read<L: Ledger>(
        ctx: (Ends, usize),
        cursor: &mut Cursor<'a>,
        steps: &mut Steps<L>,
    ) -> Result<TcpWithOffset<'a>, Fault> {
        <TcpPartTail as Tail<Cursor<'a>>>::read(ctx, cursor, steps)
    }

    #[tactic(auto, unfolding(crate::specs::Parts::tcp_part))]
    fn size(ctx: (Ends, usize), value: &TcpWithOffset<'a>) -> usize {
        <TcpPartTail as Tail<Cursor<'a>>>::size(ctx, value)
    }

    #[tactic(auto, unfolding(crate::specs::Parts::tcp_part))]
    fn write(ctx: (Ends, usize), value: &TcpWithOffset<'a>, room: &mut [u8], writer: &mut Writer) {
        <TcpPartTail as Tail<Cursor<'a>>>::write(ctx, value, room, writer)
    }

    ghost laws = { tcp_part_laws };
}
