//! IPv4 packets.
ghost use Rattle.std.specs.Prelude.{◌≡◌, ◌-◌, ◌<◌, ◌^◌};
ghost use Rattle.narc_packet.specs.declared.limits.TheConstants.{MAX_LENGTH};
ghost use Rattle.narc_stack.specs.Ipv4.{context_of, zeros_of, IsPadded};

use crate::as_ipv4::AsIpv4;
use crate::content::{ContentContext, ContentOctets, IpContent};
use narc_compose::{Carry, Measure, Measured, PartedFormat, SeqTail, Strip};
use narc_ipv4::{IpHeadPart, IpHeader};
use narc_list::{Pad, Region};
use narc_packet::MAX_LENGTH;
use narc_transport::Ends;

/// The data in as many octets as the header says, and any padding behind it.
type PaddedContent = SeqTail<Region<IpContent, ContentOctets>, Pad, ZerosBehind>;

/// An IPv4 packet (RFC 791), and any padding behind it.
pub type Ipv4Format = Strip<
    Measured<SeqTail<PartedFormat<IpHeadPart>, PaddedContent, ContentOf>, OctetsThere>,
    AsIpv4,
>;

/// With the octets that are there.
pub struct OctetsThere;

impl Measure<usize> for OctetsThere {
    type Ctx = ();

    ghost measured_of = { λ c n. n };

    ghost written_of = { λ c. MAX_LENGTH };

    ghost valid = { λ c. Unit {0} };

    fn measured(_ctx: (), octets: usize) -> usize {
        octets
    }

    fn written(_ctx: ()) -> usize {
        MAX_LENGTH
    }
}

/// The data is read with what the header says, and padding fills a frame of 60 octets behind it.
pub struct ContentOf;

impl<'a> Carry<IpHeader<'a>, usize, (ContentContext, usize)> for ContentOf {
    type Ctx = usize;

    ghost first_of = { λ n. n };

    ghost second_of = { λ n h. (context_of h, zeros_of h) };

    ghost valid = { λ n. n < 2 ^ 64 };

    // A method that does not name the header's lifetime gets no clauses from the trait: they stand here.
    fn first(ctx: usize) -> usize
        ensures { result ≡ ctx }
    {
        ctx
    }

    fn second(_ctx: usize, header: &IpHeader<'a>) -> (ContentContext, usize) {
        let ends = Ends {
            src: header.src,
            dst: header.dst,
        };
        let context = ContentContext {
            ends,
            protocol: header.protocol,
            fragment: header.mf || header.offset != 0,
            octets: header.total.saturating_sub(u16::from(header.length)) as usize,
        };
        (context, 46u16.saturating_sub(header.total) as usize)
    }
}

/// The padding behind the data.
pub struct ZerosBehind;

impl<V> Carry<V, ContentContext, usize> for ZerosBehind {
    type Ctx = (ContentContext, usize);

    ghost first_of = { λ c. c.0 };

    ghost second_of = { λ c v. c.1 };

    ghost valid = { IsPadded };

    fn first(ctx: (ContentContext, usize)) -> ContentContext {
        ctx.0
    }

    fn second(ctx: (ContentContext, usize), _value: &V) -> usize {
        ctx.1
    }
}
