//! The packet that a header and its data are.
ghost use Rattle.std.specs.Prelude.{◌≡◌, ◌+◌, ◌%◌};
ghost use Rattle.narc_stack.specs.Ipv4.{words_of, protocol_of, octets_of, raw_content, ipv4_of, raw_ipv4, SameIpv4};

use crate::content::RawContent;
use narc_compose::{Choose, Either};
use narc_ipv4::IpHeader;
use narc_packet::{IpBody, Ipv4, TCP_PROTOCOL, UDP_PROTOCOL};
use narc_transport::TcpWithOffset;

type RawIpv4<'a> = (IpHeader<'a>, (RawContent<'a>, ()));

/// How many words of 32 bits hold so many octets.
fn words(octets: usize) -> usize
    ensures { result ≡ words_of octets }
{
    octets.div_ceil(4)
}

/// The lowest 16 bits of the sum.
///
/// `choose` answers for every packet, also for one that is too long to be written, whose lengths have more bits.
fn sum_of(a: usize, b: usize) -> u16
    ensures { result ≡ (a + b) % 65536 }
{
    ((a % 65536) as u16).wrapping_add((b % 65536) as u16)
}

/// The protocol, how many octets, in 16 bits, and the value of the data that is written.
fn written_content<'a>(body: &IpBody<'a>) -> (u8, u16, RawContent<'a>)
    ensures { result ≡ (protocol_of body.now, octets_of body.now % 65536, raw_content body.now) }
{
    match body {
        IpBody::Udp(udp) => {
            let octets = sum_of(8, udp.payload.len());
            (UDP_PROTOCOL, octets, Either::Left(*udp))
        }
        IpBody::Tcp(tcp) => {
            let offset = 5 + words(tcp.options.spelled.len());
            let segment = TcpWithOffset {
                offset: (offset % 256) as u8,
                tcp: *tcp,
            };
            let octets = sum_of(4 * offset, tcp.payload.len());
            (TCP_PROTOCOL, octets, Either::Right(Either::Left(segment)))
        }
        IpBody::Raw { protocol, payload } => {
            let octets = sum_of(0, payload.len());
            (*protocol, octets, Either::Right(Either::Right(*payload)))
        }
    }
}

/// A header and its data as the packet. The shortest header is written, and data without a surplus.
pub struct AsIpv4;

impl<'a> Choose<(), RawIpv4<'a>> for AsIpv4 {
    type Value = Ipv4<'a>;

    ghost strip_of = { ipv4_of };

    ghost choose_of = { λ c p. raw_ipv4 p };

    ghost alike = { SameIpv4 };

    fn strip(raw: RawIpv4<'a>) -> Ipv4<'a> {
        let (header, (content, ())) = raw;
        let body = match content {
            Either::Left(udp) => IpBody::Udp(udp),
            Either::Right(Either::Left(segment)) => IpBody::Tcp(segment.tcp),
            Either::Right(Either::Right(payload)) => IpBody::Raw {
                protocol: header.protocol,
                payload,
            },
        };
        Ipv4 {
            tos: header.tos,
            id: header.id,
            df: header.df,
            mf: header.mf,
            offset: header.offset,
            ttl: header.ttl,
            src: header.src,
            dst: header.dst,
            options: header.options,
            body,
        }
    }

    fn choose(_ctx: (), packet: &Ipv4<'a>) -> RawIpv4<'a> {
        let (protocol, octets, content) = written_content(&packet.body);
        let length = 20 + 4 * words(packet.options.spelled.len());
        let header = IpHeader {
            length: (length % 256) as u8,
            tos: packet.tos,
            total: sum_of(length, usize::from(octets)),
            id: packet.id,
            df: packet.df,
            mf: packet.mf,
            offset: packet.offset,
            ttl: packet.ttl,
            protocol,
            src: packet.src,
            dst: packet.dst,
            options: packet.options,
        };
        (header, (content, ()))
    }
}
