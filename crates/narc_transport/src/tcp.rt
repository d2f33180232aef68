//! TCP segments.
ghost use Rattle.std.specs.Prelude.{◌-◌, ◌<◌};
ghost use Rattle.narc_transport.specs.Context.{IsThere};
ghost use Rattle.narc_transport.specs.Tcp.{tcp_pseudo_of, tcp_area_length};

use crate::as_tcp::AsTcp;
use crate::context::Ends;
use crate::pseudo::ends_sum;
use crate::tcp_front::{RawTcpFront, TcpFront};
use narc_compose::{Carry, ForFirst, ForSecond, Gap, Named, Seq, SeqTail, Strip};
use narc_list::Bytes;
use narc_options::OptionRegion;
use narc_packet::field;
use narc_scalar::Word;
use narc_sum::{CheckedTail, Pseudo};

// 32 bits a line (RFC 793, section 3.1):
//
//     +-------------------------------+-------------------------------+
//  0  |            source             |          destination          |
//     +-------------------------------+-------------------------------+
//  4  |                           sequence                            |
//     +---------------------------------------------------------------+
//  8  |                        acknowledgment                         |
//     +-------+-----------+-----------+-------------------------------+
// 12  |offset | reserved  |   flags   |            window             |
//     +-------+-----------+-----------+-------------------------------+
// 16  |           checksum            |            urgent             |
//     +-------------------------------+-------------------------//----+
// 20  |                            options                            |
//     +---------------------------------------------------------//----+
//     |                            payload                            |
//     +---------------------------------------------------------//----+
type Urgent = Word<16>;

type Options = Named<OptionRegion, { field::TCP_OPTIONS }>;

type Behind = SeqTail<Seq<Urgent, Options, ForSecond>, Bytes, ForFirst>;

type Segment = SeqTail<Gap<TcpFront>, Behind, AreaBehind>;

type Summed = Named<CheckedTail<Segment, TcpPseudo>, { field::TCP_CHECKSUM }>;

/// A TCP segment (RFC 793) with its offset, in the context of the addresses and of how many octets it has.
pub type TcpFormat = Strip<Summed, AsTcp>;

/// The options area has what the offset leaves behind 20 octets.
pub struct AreaBehind;

impl Carry<RawTcpFront, usize, usize> for AreaBehind {
    type Ctx = (Ends, usize);

    ghost first_of = { λ c. c.1 };

    ghost second_of = { λ c v. tcp_area_length v.1.0 };

    ghost valid = { IsThere };

    fn first(ctx: (Ends, usize)) -> usize {
        ctx.1
    }

    fn second(_ctx: (Ends, usize), value: &RawTcpFront) -> usize {
        (4 * (value.1.0 / 4096 % 16)).saturating_sub(20) as usize
    }
}

/// Addresses, protocol and length.
pub struct TcpPseudo;

impl Pseudo<(Ends, usize)> for TcpPseudo {
    ghost pseudo_of = { tcp_pseudo_of };

    fn sum(ctx: (Ends, usize), octets: usize) -> u64 {
        ends_sum(ctx.0, 6, octets)
    }
}
