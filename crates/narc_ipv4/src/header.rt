//! The header of an IPv4 packet.
ghost use Rattle.std.specs.Prelude.{◌*◌, ◌-◌, ◌%◌, ◌<◌, ◌^◌};
ghost use Rattle.narc_ipv4.specs.Header.{is_version, is_header_length, is_total_length, is_flags, header_length_of, area_length_of};

use crate::as_header::{AsHeader, RawBefore};
use crate::part::BeforePart;
use narc_compose::{Carry, ForFirst, ForSecond, Gap, Named, PartedFormat, Seq, Strip, Then};
use narc_options::OptionRegion;
use narc_packet::field;
use narc_scalar::{Octets4, Test, Where, Word};
use narc_sum::{Checked, NoPseudo};

// 32 bits a line, from the first octet of the header (RFC 791, section 3.1):
//
//     +-------+-------+---------------+-------------------------------+
//  0  |version| length| type of serv. |         total length          |
//     +-------+-------+---------------+-+-+-+-------------------------+
//  4  |        identification         |0|D|M|     fragment offset     |
//     +---------------+---------------+-+-+-+-------------------------+
//  8  | time to live  |   protocol    |           checksum            |
//     +---------------+---------------+-------------------------------+
// 12  |                            source                             |
//     +---------------------------------------------------------------+
// 16  |                          destination                          |
//     +-------------------------------------------------------//------+
// 20  |                            options                            |
//     +-------------------------------------------------------//------+

/// Version and header length, in one octet.
type FirstOctet = Named<
    Where<Named<Where<Word<8>, IsVersion>, { field::IPV4_VERSION }>, IsHeaderLength>,
    { field::IPV4_HEADER_LENGTH },
>;

type Tos = Named<Word<8>, { field::IPV4_TOS }>;

type TotalLength = Named<Where<Word<16>, IsTotalLength>, { field::IPV4_TOTAL_LENGTH }>;

type Identification = Word<16>;

/// A bit 0, the two flags and the offset, in one word.
type Fragment = Named<Where<Word<16>, IsFlags>, { field::IPV4_FLAGS }>;

type Ttl = Word<8>;

type Protocol = Word<8>;

type Source = Octets4;

type Destination = Octets4;

/// The options, in as many octets as the header's length leaves behind 20.
pub type IpArea = Named<OptionRegion, { field::IPV4_OPTIONS }>;

/// The first 4 octets, in the context of how many octets there are.
type Lengths = Seq<Then<FirstOctet, Tos>, TotalLength, LengthsIn>;

/// The octets before the checksum.
pub type Before = Seq<Lengths, Then<Then<Identification, Fragment>, Then<Ttl, Protocol>>, ForFirst>;

/// The octets behind the checksum.
type Behind = Seq<Then<Source, Destination>, IpArea, ForSecond>;

/// The fields of a header, where its checksum is free.
pub type Fields = Seq<Gap<PartedFormat<BeforePart>>, Behind, AreaOf>;

/// The header of an IPv4 packet (RFC 791, section 3.1), in the context of how many octets the packet and what follows it
/// have.
///
/// Octets are refused with the first field that they do not hold, or that is out of its range, at its first bit; a bad
/// option at its own first bit; and then, where all else stands, with the checksum, at its first bit.
pub type IpHead = Strip<Named<Checked<Fields, NoPseudo>, { field::IPV4_CHECKSUM }>, AsHeader>;

/// The version is 4.
pub struct IsVersion;

impl Test for IsVersion {
    type Ctx = ();

    type Value = u64;

    ghost holds = { is_version };

    fn holds(_ctx: (), value: &u64) -> bool {
        *value / 16 == 4
    }
}

/// At least five words.
pub struct IsHeaderLength;

impl Test for IsHeaderLength {
    type Ctx = ();

    type Value = u64;

    ghost holds = { is_header_length };

    fn holds(_ctx: (), value: &u64) -> bool {
        5 <= *value % 16
    }
}

/// At least the header, and at most what is there.
pub struct IsTotalLength;

impl Test for IsTotalLength {
    /// The octets of the header, and those that are there.
    type Ctx = (u64, usize);

    type Value = u64;

    ghost holds = { is_total_length };

    fn holds(ctx: (u64, usize), value: &u64) -> bool {
        ctx.0 <= *value && *value <= ctx.1 as u64
    }
}

/// The first bit is 0.
pub struct IsFlags;

impl Test for IsFlags {
    type Ctx = ();

    type Value = u64;

    ghost holds = { is_flags };

    fn holds(_ctx: (), value: &u64) -> bool {
        *value / 32768 != 1
    }
}

/// The total length is judged by the header's length and the octets that are there.
pub struct LengthsIn;

impl Carry<(u64, u64), (), (u64, usize)> for LengthsIn {
    type Ctx = usize;

    ghost first_of = { λ n. tt };

    ghost second_of = { λ n v. (header_length_of v.0, n) };

    ghost valid = { λ n. n < 2 ^ 64 };

    fn first(_ctx: usize) {}

    fn second(ctx: usize, value: &(u64, u64)) -> (u64, usize) {
        (4 * (value.0 % 16), ctx)
    }
}

/// The options area has what the header's length leaves behind 20 octets.
pub struct AreaOf;

impl Carry<RawBefore, usize, usize> for AreaOf {
    type Ctx = usize;

    ghost first_of = { λ n. n };

    ghost second_of = { λ n v. area_length_of v.0.0.0 };

    ghost valid = { λ n. n < 2 ^ 64 };

    fn first(ctx: usize) -> usize {
        ctx
    }

    fn second(_ctx: usize, value: &RawBefore) -> usize {
        (4 * (value.0.0.0 % 16)).saturating_sub(20) as usize
    }
}
