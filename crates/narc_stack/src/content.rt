//! The data of an IPv4 packet.
ghost use Rattle.narc_stack.specs.Content.{by_udp, by_tcp, IsContentContext};

use narc_compose::{Either, Parted, Pick, Union};
use narc_list::{Bytes, Count};
use narc_packet::{TCP_PROTOCOL, UDP_PROTOCOL, Udp};
use narc_transport::{Ends, TcpPart, TcpWithOffset, UdpPart};

/// What the data of an IPv4 packet is read with.
#[derive(Clone, Copy, Drop)]
pub struct ContentContext {
    pub ends: Ends,
    pub protocol: u8,
    /// More fragments follow, or this is not the first.
    pub fragment: bool,
    /// How many octets the data has.
    pub octets: usize,
}

/// A datagram, a segment, or data that is kept unread.
pub type IpContent = Union<ByUdp, Parted<UdpPart>, Union<ByTcp, Parted<TcpPart>, Bytes>>;

pub(crate) type RawContent<'a> = Either<Udp<'a>, Either<TcpWithOffset<'a>, &'a [u8]>>;

/// A UDP datagram, where the packet has its protocol and is no fragment.
pub struct ByUdp;

impl Pick<(Ends, usize), ContentContext> for ByUdp {
    type Ctx = ContentContext;

    ghost pick_of = { by_udp };

    ghost valid = { IsContentContext };

    fn pick(ctx: ContentContext) -> Either<(Ends, usize), ContentContext> {
        if ctx.protocol == UDP_PROTOCOL && !ctx.fragment {
            Either::Left((ctx.ends, ctx.octets))
        } else {
            Either::Right(ctx)
        }
    }
}

/// A TCP segment, where the packet has its protocol and is no fragment.
pub struct ByTcp;

impl Pick<(Ends, usize), ()> for ByTcp {
    type Ctx = ContentContext;

    ghost pick_of = { by_tcp };

    ghost valid = { IsContentContext };

    fn pick(ctx: ContentContext) -> Either<(Ends, usize), ()> {
        if ctx.protocol == TCP_PROTOCOL && !ctx.fragment {
            Either::Left((ctx.ends, ctx.octets))
        } else {
            Either::Right(())
        }
    }
}

/// As many octets as the header says.
pub struct ContentOctets;

impl Count for ContentOctets {
    type Ctx = ContentContext;

    ghost count_of = { λ c. c.octets };

    ghost valid = { IsContentContext };

    fn count(ctx: ContentContext) -> usize {
        ctx.octets
    }
}
