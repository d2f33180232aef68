//! The first 16 octets of a TCP segment.
ghost use Rattle.narc_transport.specs.Tcp.{is_offset};

use narc_compose::{ForFirst, ForSecond, Named, Seq, Then};
use narc_packet::field;
use narc_scalar::{Test, Where, Word};

type Source = Named<Word<16>, { field::TCP_SOURCE }>;

type Destination = Named<Word<16>, { field::TCP_DESTINATION }>;

type Sequence = Named<Word<32>, { field::TCP_SEQUENCE }>;

type Acknowledgment = Named<Word<32>, { field::TCP_ACKNOWLEDGMENT }>;

/// Offset, reserved bits and flags, in one word.
type Offset = Named<Where<Word<16>, IsOffset>, { field::TCP_OFFSET }>;

type Window = Word<16>;

/// The first 16 octets, in the context of how many octets there are.
pub type TcpFront = Seq<
    Then<Then<Source, Destination>, Then<Sequence, Acknowledgment>>,
    Seq<Offset, Window, ForFirst>,
    ForSecond,
>;

pub type RawTcpFront = (((u64, u64), (u64, u64)), (u64, u64));

/// At least five words, and at most what is there.
pub struct IsOffset;

impl Test for IsOffset {
    type Ctx = usize;

    type Value = u64;

    ghost holds = { is_offset };

    fn holds(ctx: usize, value: &u64) -> bool {
        let words = *value / 4096;
        5 <= words && 4 * (words % 16) <= ctx as u64
    }
}
