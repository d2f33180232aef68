//! What made packets carry.
ghost use Rattle.std.specs.Prelude.{◌≡◌, ◌+◌, ◌%◌};
ghost use Rattle.narc_packet.specs.PacketView.{udp_view, tcp_view, ip_body_view, ipv4_view, eth_body_view};
ghost use Rattle.narc_packet.specs.Options.{AreTcpOptions};
ghost use Rattle.narc_packet.specs.WellFormed.{SpellsIpBody, SpellsIpv4, SpellsEthBody};
ghost use Rattle.narc_trial.specs.Made.{payload_of, dst_mac, src_mac, src_ip, dst_ip, segment_size_octets, arp, udp, tcp, ipv4, eth_body};

use crate::options::{ip_options, tcp_options};
use narc_packet::{Arp, EthBody, IpBody, Ipv4, Tcp, UDP_PROTOCOL, Udp};

/// The network 10.0.0.0/8, and how many addresses it has.
const NETWORK: u32 = 0x0a00_0000;

const ADDRESSES: u32 = 0x0100_0000;

/// A type of local experiments.
const EXPERIMENT: u16 = 34_997;

/// The lowest 16 bits.
fn low(number: u32) -> u16
    ensures { result ≡ number % 65536 }
{
    (number % 65_536) as u16
}

/// The destination's hardware address.
pub(crate) fn dst_mac(number: u32) -> [u8; 6]
    ensures { result ≡ dst_mac number }
{
    let [a, b, c, d] = number.to_be_bytes();
    [2, 0, a, b, c, d]
}

/// The source's hardware address.
pub(crate) fn src_mac(number: u32) -> [u8; 6]
    ensures { result ≡ src_mac number }
{
    let [a, b, c, d] = number.to_be_bytes();
    [2, 1, a, b, c, d]
}

fn src_ip(number: u32) -> [u8; 4]
    ensures { result ≡ src_ip number }
{
    (NETWORK + number % ADDRESSES).to_be_bytes()
}

fn dst_ip(number: u32) -> [u8; 4]
    ensures { result ≡ dst_ip number }
{
    (NETWORK + (ADDRESSES - 1) - number % ADDRESSES).to_be_bytes()
}

fn arp(number: u32) -> Arp
    ensures { result ≡ arp number }
{
    Arp {
        op: 1 + (number % 2) as u16,
        sender_mac: src_mac(number),
        sender_ip: src_ip(number),
        target_mac: dst_mac(number),
        target_ip: dst_ip(number),
    }
}

fn udp(number: u32, payload: &[u8]) -> Udp<'_>
    requires { payload.now ≡ payload_of number }
    ensures { udp_view result ≡ udp number }
{
    Udp {
        sport: low(number),
        dport: low(number.wrapping_add(1)),
        payload,
    }
}

fn tcp<'r>(number: u32, options: &'r [u8], payload: &'r [u8]) -> Tcp<'r>
    requires options { options.now ≡ segment_size_octets number }
    requires payload { payload.now ≡ payload_of number }
    ensures value { tcp_view result ≡ tcp number }
    ensures spelled { AreTcpOptions result.options.spelled.now }
{
    let next = number.wrapping_add(1);
    Tcp {
        sport: low(number),
        dport: low(next),
        seq: number,
        ack: next,
        reserved: (number % 64) as u8,
        flags: (number / 64 % 64) as u8,
        window: low(number),
        urgent: 0,
        options: tcp_options(number, options),
        payload,
    }
}

fn ipv4(number: u32, mf: bool, offset: u16, body: IpBody<'_>) -> Ipv4<'_>
    requires { SpellsIpBody body }
    ensures value { ipv4_view result ≡ ipv4 number mf offset (ip_body_view body.entry) }
    ensures spelled { SpellsIpv4 result }
{
    Ipv4 {
        tos: (number % 256) as u8,
        id: low(number),
        df: false,
        mf,
        offset,
        ttl: 1 + (number % 255) as u8,
        src: src_ip(number),
        dst: dst_ip(number),
        options: ip_options(number),
        body,
    }
}

/// A body of each kind in turn: ARP, another type, UDP, TCP, and a fragment.
pub(crate) fn eth_body<'r>(number: u32, options: &'r [u8], payload: &'r [u8]) -> EthBody<'r>
    requires options { options.now ≡ segment_size_octets number }
    requires payload { payload.now ≡ payload_of number }
    ensures value { eth_body_view result ≡ eth_body number }
    ensures spelled { SpellsEthBody result }
{
    match number % 5 {
        0 => EthBody::Arp(arp(number)),
        1 => EthBody::Other {
            ether_type: EXPERIMENT,
            payload,
        },
        2 => EthBody::Ip(ipv4(number, false, 0, IpBody::Udp(udp(number, payload)))),
        3 => EthBody::Ip(ipv4(number, false, 0, IpBody::Tcp(tcp(number, options, payload)))),
        _ => EthBody::Ip(ipv4(
            number,
            true,
            (number % 8192) as u16,
            IpBody::Raw {
                protocol: UDP_PROTOCOL,
                payload,
            },
        )),
    }
}
