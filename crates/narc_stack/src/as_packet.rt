//! The packet that a frame's fields are.
ghost use Rattle.narc_stack.specs.RawFrame.{packet_of, raw_frame, SamePacket};

use crate::frame::{ARP, IPV4};
use narc_compose::{Choose, Either};
use narc_packet::{Arp, EthBody, Ipv4, Packet};

/// The fields of an Ethernet header: destination, source and type.
pub(crate) type Header = ([u8; 6], ([u8; 6], u64));

/// An ARP packet before its padding, an IPv4 packet, or the data of another type.
type Body<'a> = Either<(Arp, ()), Either<Ipv4<'a>, &'a [u8]>>;

/// The fields of a frame as its packet.
pub struct AsPacket;

impl<'a> Choose<(), (Header, Body<'a>)> for AsPacket {
    type Value = Packet<'a>;

    ghost strip_of = { packet_of };

    ghost choose_of = { λ c p. raw_frame p };

    ghost alike = { SamePacket };

    fn strip(raw: (Header, Body<'a>)) -> Packet<'a> {
        let ((dst, (src, ether_type)), body) = raw;
        let body = match body {
            Either::Left((arp, ())) => EthBody::Arp(arp),
            Either::Right(Either::Left(packet)) => EthBody::Ip(packet),
            Either::Right(Either::Right(payload)) => EthBody::Other {
                ether_type: (ether_type % 65536) as u16,
                payload,
            },
        };
        Packet { dst, src, body }
    }

    fn choose(_ctx: (), packet: &Packet<'a>) -> (Header, Body<'a>) {
        let (ether_type, body) = match &packet.body {
            EthBody::Arp(arp) => (ARP, Either::Left((*arp, ()))),
            EthBody::Ip(packet) => (IPV4, Either::Right(Either::Left(*packet))),
            EthBody::Other {
                ether_type,
                payload,
            } => (
                u64::from(*ether_type),
                Either::Right(Either::Right(*payload)),
            ),
        };
        ((packet.dst, (packet.src, ether_type)), body)
    }
}
