//! Packets that C tells.
ghost use Rattle.std.specs.Prelude.{◌≡◌, ◌↔◌, ◌+◌, ◌≤◌, IsTrue, take, drop, length};
ghost use Rattle.narc_packet.specs.PacketView.{view, udp_view, tcp_view, ip_body_view, ipv4_view, eth_body_view};
ghost use Rattle.narc_c.specs.Seen.{octets_of, arp_of, udp_in, tcp_in, ip_body_in, ipv4_in, eth_body_in, view_in, tcp_spelled_in, SpelledIn};
ghost use Rattle.narc_packet.specs.Options.{AreIpOptions, AreTcpOptions};
ghost use Rattle.narc_packet.specs.WellFormed.{SpellsIpBody, SpellsIpv4, SpellsEthBody, SpellsOptions};

use crate::packet::{NARC_ARP, NARC_RAW, NARC_TCP, NARC_UDP, NarcArp, NarcPacket, NarcSpan};
use narc_packet::{Arp, EthBody, IpBody, IpOptions, Ipv4, Packet, Tcp, TcpOptions, Udp};

impl NarcSpan {
    /// The octets there; past the last there are none.
    fn in_octets<'a>(&self, octets: &'a [u8]) -> &'a [u8]
        ensures { result.now ≡ octets_of octets.now self.now }
    {
        let from = octets.len().min(self.at);
        let rest = &octets[from..];
        &rest[..rest.len().min(self.len)]
    }
}

fn hear_arp(arp: &NarcArp) -> Arp
    ensures { result ≡ arp_of arp.now }
{
    Arp {
        op: arp.op,
        sender_mac: arp.sender_mac,
        sender_ip: arp.sender_ip,
        target_mac: arp.target_mac,
        target_ip: arp.target_ip,
    }
}

fn hear_udp<'a>(told: &NarcPacket, octets: &'a [u8]) -> Udp<'a>
    ensures { udp_view result ≡ udp_in octets.now told.now }
{
    Udp {
        sport: told.udp.sport,
        dport: told.udp.dport,
        payload: told.payload.in_octets(octets),
    }
}

fn hear_tcp<'a>(told: &NarcPacket, octets: &'a [u8]) -> Tcp<'a>
    ensures value { tcp_view result ≡ tcp_in octets.now told.now }
    ensures spelled { result.options.spelled.now ≡ octets_of octets.now told.now.tcp.options }
{
    let tcp = &told.tcp;
    Tcp {
        sport: tcp.sport,
        dport: tcp.dport,
        seq: tcp.seq,
        ack: tcp.ack,
        reserved: tcp.reserved,
        flags: tcp.flags,
        window: tcp.window,
        urgent: tcp.urgent,
        options: TcpOptions {
            spelled: tcp.options.in_octets(octets),
        },
        payload: told.payload.in_octets(octets),
    }
}

fn hear_ip_body<'a>(told: &NarcPacket, octets: &'a [u8]) -> IpBody<'a>
    ensures spelled { SpellsIpBody result ↔ AreTcpOptions (tcp_spelled_in octets.now told.now) }
    ensures value { ip_body_view result ≡ ip_body_in octets.now told.now }
{
    match told.body {
        NARC_UDP => IpBody::Udp(hear_udp(told, octets)),
        NARC_TCP => IpBody::Tcp(hear_tcp(told, octets)),
        _ => IpBody::Raw {
            protocol: told.ip.protocol,
            payload: told.payload.in_octets(octets),
        },
    }
}

fn hear_ipv4<'a>(told: &NarcPacket, octets: &'a [u8]) -> Ipv4<'a>
    ensures spelled { SpellsIpv4 result ↔ (AreIpOptions (octets_of octets.now told.now.ip.options) × AreTcpOptions (tcp_spelled_in octets.now told.now)) }
    ensures value { ipv4_view result ≡ ipv4_in octets.now told.now }
{
    let ip = &told.ip;
    Ipv4 {
        tos: ip.tos,
        id: ip.id,
        df: ip.df,
        mf: ip.mf,
        offset: ip.offset,
        ttl: ip.ttl,
        src: ip.src,
        dst: ip.dst,
        options: IpOptions {
            spelled: ip.options.in_octets(octets),
        },
        body: hear_ip_body(told, octets),
    }
}

fn hear_eth_body<'a>(told: &NarcPacket, octets: &'a [u8]) -> EthBody<'a>
    ensures spelled { SpellsEthBody result ↔ SpelledIn octets.now told.now }
    ensures value { eth_body_view result ≡ eth_body_in octets.now told.now }
{
    match told.body {
        NARC_ARP => EthBody::Arp(hear_arp(&told.arp)),
        NARC_UDP | NARC_TCP | NARC_RAW => EthBody::Ip(hear_ipv4(told, octets)),
        _ => EthBody::Other {
            ether_type: told.ether_type,
            payload: told.payload.in_octets(octets),
        },
    }
}

/// The packet that is told, with the octets in which its options and payload lie.
pub(crate) fn hear<'a>(told: &NarcPacket, octets: &'a [u8]) -> Packet<'a>
    ensures spelled { SpellsOptions result ↔ SpelledIn octets.now told.now }
    ensures value { view result ≡ view_in octets.now told.now }
{
    Packet {
        dst: told.dst,
        src: told.src,
        body: hear_eth_body(told, octets),
    }
}
