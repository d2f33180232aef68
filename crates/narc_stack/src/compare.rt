//! Comparing packets, wherever their octets lie.
ghost use Rattle.std.specs.Prelude.{◌≡◌, ◌↔◌, IsTrue};
ghost use Rattle.narc_packet.specs.PacketView.{view, udp_view, tcp_view, ip_body_view, ipv4_view, eth_body_view};

use narc_packet::{Arp, EthBody, IpBody, Ipv4, Packet, Tcp, Udp};

fn is_same_udp(a: &Udp<'_>, b: &Udp<'_>) -> bool
    ensures { IsTrue result ↔ (udp_view a.now ≡ udp_view b.now) }
{
    a.sport == b.sport && a.dport == b.dport && a.payload == b.payload
}

fn is_same_tcp(a: &Tcp<'_>, b: &Tcp<'_>) -> bool
    ensures { IsTrue result ↔ (tcp_view a.now ≡ tcp_view b.now) }
{
    a.sport == b.sport
        && a.dport == b.dport
        && a.seq == b.seq
        && a.ack == b.ack
        && a.reserved == b.reserved
        && a.flags == b.flags
        && a.window == b.window
        && a.urgent == b.urgent
        && a.options.is_same_list(&b.options)
        && a.payload == b.payload
}

fn is_same_ip_body(a: &IpBody<'_>, b: &IpBody<'_>) -> bool
    ensures { IsTrue result ↔ (ip_body_view a.now ≡ ip_body_view b.now) }
{
    match (a, b) {
        (IpBody::Udp(a), IpBody::Udp(b)) => is_same_udp(a, b),
        (IpBody::Tcp(a), IpBody::Tcp(b)) => is_same_tcp(a, b),
        (
            IpBody::Raw { protocol, payload },
            IpBody::Raw {
                protocol: other_protocol,
                payload: other_payload,
            },
        ) => protocol == other_protocol && payload == other_payload,
        _ => false,
    }
}

fn is_same_ipv4(packet: &Ipv4<'_>, other: &Ipv4<'_>) -> bool
    ensures { IsTrue result ↔ (ipv4_view packet.now ≡ ipv4_view other.now) }
{
    packet.tos == other.tos
        && packet.id == other.id
        && packet.df == other.df
        && packet.mf == other.mf
        && packet.offset == other.offset
        && packet.ttl == other.ttl
        && packet.src == other.src
        && packet.dst == other.dst
        && packet.options.is_same_list(&other.options)
        && is_same_ip_body(&packet.body, &other.body)
}

fn is_same_arp(a: &Arp, b: &Arp) -> bool
    ensures { IsTrue result ↔ (a.now ≡ b.now) }
{
    a.op == b.op
        && a.sender_mac == b.sender_mac
        && a.sender_ip == b.sender_ip
        && a.target_mac == b.target_mac
        && a.target_ip == b.target_ip
}

fn is_same_eth_body(a: &EthBody<'_>, b: &EthBody<'_>) -> bool
    ensures { IsTrue result ↔ (eth_body_view a.now ≡ eth_body_view b.now) }
{
    match (a, b) {
        (EthBody::Arp(a), EthBody::Arp(b)) => is_same_arp(a, b),
        (EthBody::Ip(a), EthBody::Ip(b)) => is_same_ipv4(a, b),
        (
            EthBody::Other {
                ether_type,
                payload,
            },
            EthBody::Other {
                ether_type: other_type,
                payload: other_payload,
            },
        ) => ether_type == other_type && payload == other_payload,
        _ => false,
    }
}

/// Whether both are the same packet: the same numbers, options and octets, wherever these lie.
pub fn same(a: &Packet<'_>, b: &Packet<'_>) -> bool
    ensures { IsTrue result ↔ (view a.now ≡ view b.now) }
{
    a.dst == b.dst && a.src == b.src && is_same_eth_body(&a.body, &b.body)
}
