//! The first 6 octets of a UDP datagram.
ghost use Rattle.narc_transport.specs.Udp.{is_udp_length};

use narc_compose::{ForSecond, Named, Seq, Then};
use narc_packet::field;
use narc_scalar::{Test, Where, Word};

type Source = Named<Word<16>, { field::UDP_SOURCE }>;

type Destination = Named<Word<16>, { field::UDP_DESTINATION }>;

type Length = Named<Where<Word<16>, IsUdpLength>, { field::UDP_LENGTH }>;

/// The first 6 octets, in the context of how many octets there are.
pub type UdpFront = Seq<Then<Source, Destination>, Length, ForSecond>;

pub type RawUdpFront = ((u64, u64), u64);

/// At least the header, and at most what is there.
pub struct IsUdpLength;

impl Test for IsUdpLength {
    type Ctx = usize;

    type Value = u64;

    ghost holds = { is_udp_length };

    fn holds(ctx: usize, value: &u64) -> bool {
        8 <= *value && *value <= ctx as u64
    }
}
