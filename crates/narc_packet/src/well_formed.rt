//! Which packets have a frame.
ghost use Rattle.std.specs.Prelude.{◌≡◌, ◌↔◌, ◌≤◌, ◌+◌, IsTrue, length, flat_map};
ghost use Rattle.narc_packet.specs.PacketView.{view, tcp_view, ip_body_view, ipv4_view, eth_body_view};
ghost use Rattle.narc_packet.specs.Ranges.{IsTcpInRange};
ghost use Rattle.narc_packet.specs.Options.{ip_option, tcp_option, IsIpOption, IsTcpOption, AreIpOptions, AreTcpOptions, ip_options_in, tcp_options_in, ip_area, filled};
ghost use Rattle.narc_packet.specs.Ipv4.{IsIpv4InRange, MayHaveBody, is_fragment};
ghost use Rattle.narc_packet.specs.WellFormed.{FitArea, IsWellFormedIpBody, smallest_length, IsWellFormedIpv4, IsWellFormedEthBody, IsWellFormed, SpellsIpBody, SpellsIpv4, SpellsEthBody, SpellsOptions};

use crate::limits::{MAX_AREA, MAX_LENGTH};
use crate::numbers::{ARP_TYPE, IPV4_TYPE, TCP_PROTOCOL, UDP_PROTOCOL};
use crate::options::{IpOptions, TcpOptions, are_options};
use crate::packet::{EthBody, IpBody, Ipv4, Packet, Tcp};
use crate::ranges::{known_arp, known_ip, known_mac, known_udp};
use narc_bits::{MAX_FRAME, known_octets};

/// The most octets of a frame behind its header.
const PAYLOAD: usize = MAX_FRAME - 14;

/// Whether the octets spell options that fit an area, and nothing else.
fn fill_area(octets: &[u8]) -> bool
    ensures { IsTrue result ↔ ((length octets.now ≤ MAX_AREA) × (flat_map ip_option (ip_options_in octets.now) ≡ octets.now)) }
{
    octets.len() <= MAX_AREA && are_options(octets)
}

fn are_ip_options(options: &IpOptions<'_>) -> bool
    ensures { IsTrue result
        ↔ (FitArea ip_option IsIpOption (ip_options_in options.now.spelled.now) × AreIpOptions options.now.spelled.now) }
{
    known_octets(options.spelled);
    fill_area(options.spelled)
}

fn are_tcp_options(options: &TcpOptions<'_>) -> bool
    ensures { IsTrue result
        ↔ (FitArea tcp_option IsTcpOption (tcp_options_in options.now.spelled.now) × AreTcpOptions options.now.spelled.now) }
{
    known_octets(options.spelled);
    fill_area(options.spelled)
}

fn is_tcp_in_range(tcp: &Tcp<'_>) -> bool
    ensures { IsTrue result ↔ IsTcpInRange (tcp_view tcp.now) }
{
    let _numbers = (
        tcp.sport, tcp.dport, tcp.seq, tcp.ack, tcp.window, tcp.urgent,
    );
    known_octets(tcp.payload);
    tcp.reserved < 64 && tcp.flags < 64
}

fn is_ipv4_in_range(ip: &Ipv4<'_>) -> bool
    ensures { IsTrue result ↔ IsIpv4InRange (ipv4_view ip.now) }
{
    let _tos = ip.tos;
    let _id = ip.id;
    let _ttl = ip.ttl;
    known_ip(&ip.src);
    known_ip(&ip.dst);
    ip.offset < 8192
}

/// Whether the body is one that a packet, or a fragment, may have.
fn may_have_body(ip: &Ipv4<'_>) -> bool
    ensures { IsTrue result ↔ MayHaveBody (is_fragment ip.now.mf ip.now.offset) (ip_body_view ip.now.body) }
{
    let is_fragment = ip.mf || ip.offset != 0;
    match &ip.body {
        IpBody::Udp(_) | IpBody::Tcp(_) => !is_fragment,
        IpBody::Raw { protocol, .. } => is_fragment
            || (*protocol != TCP_PROTOCOL && *protocol != UDP_PROTOCOL),
    }
}

fn is_well_formed_ip_body(body: &IpBody<'_>) -> bool
    ensures { IsTrue result ↔ (IsWellFormedIpBody (ip_body_view body.now) × SpellsIpBody body.now) }
{
    match body {
        IpBody::Udp(udp) => {
            known_udp(udp);
            true
        }
        IpBody::Tcp(tcp) => is_tcp_in_range(tcp) && are_tcp_options(&tcp.options),
        IpBody::Raw { protocol, payload } => {
            let _protocol = *protocol;
            known_octets(payload);
            true
        }
    }
}

/// How many octets the shortest area has for options that these octets spell.
fn area_length(spelled: &[u8]) -> usize
    requires { length spelled.now ≤ MAX_AREA }
    ensures value { result ≡ length (filled spelled.now) }
    ensures bound { result ≤ MAX_AREA }
{
    spelled.len() + (4 - spelled.len() % 4) % 4
}

/// Whether the total length can be told, with the shortest areas and no surplus.
fn fits_total_length(ip: &Ipv4<'_>) -> bool
    requires options { length ip.now.options.spelled.now ≤ MAX_AREA }
    requires body { IsWellFormedIpBody (ip_body_view ip.now.body) }
    requires spelled { SpellsIpv4 ip.now }
    ensures { IsTrue result
        ↔ (20 + length (ip_area (ip_options_in ip.now.options.spelled.now)) + smallest_length (ip_body_view ip.now.body) ≤ MAX_LENGTH) }
{
    let room = MAX_LENGTH - 20 - area_length(ip.options.spelled);
    match &ip.body {
        IpBody::Udp(udp) => udp.payload.len() <= room - 8,
        IpBody::Tcp(tcp) => tcp.payload.len() <= room - 20 - area_length(tcp.options.spelled),
        IpBody::Raw { payload, .. } => payload.len() <= room,
    }
}

fn is_well_formed_ipv4(ip: &Ipv4<'_>) -> bool
    ensures { IsTrue result ↔ (IsWellFormedIpv4 (ipv4_view ip.now) × SpellsIpv4 ip.now) }
{
    is_ipv4_in_range(ip)
        && are_ip_options(&ip.options)
        && may_have_body(ip)
        && is_well_formed_ip_body(&ip.body)
        && fits_total_length(ip)
}

fn is_well_formed_eth_body(body: &EthBody<'_>) -> bool
    ensures { IsTrue result ↔ (IsWellFormedEthBody (eth_body_view body.now) × SpellsEthBody body.now) }
{
    match body {
        EthBody::Arp(arp) => {
            known_arp(arp);
            true
        }
        EthBody::Ip(ip) => is_well_formed_ipv4(ip),
        EthBody::Other {
            ether_type,
            payload,
        } => {
            known_octets(payload);
            *ether_type != ARP_TYPE && *ether_type != IPV4_TYPE && payload.len() <= PAYLOAD
        }
    }
}

/// Whether the packet has a frame of at most `MAX_FRAME` octets, and its octets of options spell them and nothing else.
pub fn is_well_formed(packet: &Packet<'_>) -> bool
    ensures { IsTrue result ↔ (IsWellFormed (view packet.now) × SpellsOptions packet.now) }
{
    known_mac(&packet.dst);
    known_mac(&packet.src);
    is_well_formed_eth_body(&packet.body)
}
