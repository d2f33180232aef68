//! UDP datagrams.
ghost use Rattle.std.specs.Prelude.{◌-◌, ◌<◌};
ghost use Rattle.narc_transport.specs.Context.{IsThere};
ghost use Rattle.narc_transport.specs.Udp.{udp_pseudo_of};

use crate::as_udp::AsUdp;
use crate::context::Ends;
use crate::pseudo::ends_sum;
use crate::udp_front::{RawUdpFront, UdpFront};
use narc_compose::{Carry, Gap, Named, Seq, SeqTail, Strip};
use narc_list::Pad;
use narc_packet::field;
use narc_rules::SizedBytes;
use narc_sum::{CheckedOrNone, Pseudo};

// 32 bits a line (RFC 768):
//
//     +-------------------------------+-------------------------------+
//  0  |            source             |          destination          |
//     +-------------------------------+-------------------------------+
//  4  |            length             |           checksum            |
//     +-------------------------------+-------------------------//----+
//  8  |                            payload                            |
//     +---------------------------------------------------------//----+
type Datagram = Seq<Gap<UdpFront>, SizedBytes, PayloadOf>;

type Summed = Named<CheckedOrNone<Datagram, UdpPseudo>, { field::UDP_CHECKSUM }>;

/// A UDP datagram (RFC 768), and any surplus behind it, in the context of the addresses and of how many octets both have.
pub type UdpFormat = Strip<SeqTail<Summed, Pad, Surplus>, AsUdp>;

/// The payload has the octets of the length but for the header's.
pub struct PayloadOf;

impl Carry<RawUdpFront, usize, usize> for PayloadOf {
    type Ctx = (Ends, usize);

    ghost first_of = { λ c. c.1 };

    ghost second_of = { λ c v. v.1 - 8 };

    ghost valid = { IsThere };

    fn first(ctx: (Ends, usize)) -> usize {
        ctx.1
    }

    fn second(_ctx: (Ends, usize), value: &RawUdpFront) -> usize {
        value.1.saturating_sub(8) as usize
    }
}

/// The surplus has what the length leaves.
pub struct Surplus;

impl<V> Carry<(RawUdpFront, V), (Ends, usize), usize> for Surplus {
    type Ctx = (Ends, usize);

    ghost first_of = { λ c. c };

    ghost second_of = { λ c v. c.1 - v.0.1 };

    ghost valid = { IsThere };

    fn first(ctx: (Ends, usize)) -> (Ends, usize) {
        ctx
    }

    fn second(ctx: (Ends, usize), value: &(RawUdpFront, V)) -> usize {
        (ctx.1 as u64).saturating_sub(value.0.1) as usize
    }
}

/// Addresses, protocol and length.
pub struct UdpPseudo;

impl Pseudo<(Ends, usize)> for UdpPseudo {
    ghost pseudo_of = { udp_pseudo_of };

    fn sum(ctx: (Ends, usize), octets: usize) -> u64 {
        ends_sum(ctx.0, 17, octets)
    }
}
