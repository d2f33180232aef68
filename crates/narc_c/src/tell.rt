//! Packets told to C.
ghost use Rattle.std.specs.Prelude.{◌≡◌, ◌≤◌, ◌<◌, ◌+◌, IsTrue, length, slice_index_or};
ghost use Rattle.narc_packet.specs.PacketView.{view, ip_body_view, ipv4_view};
ghost use Rattle.narc_c.specs.Places.{ipv4_data_at, tcp_data_at, IpBodyLies, Ipv4Lies, EthBodyLies};
ghost use Rattle.narc_c.specs.Seen.{arp_of, ip_body_in, ipv4_in, view_in, is_ipv4};

use crate::packet::{
    NARC_ARP, NARC_OTHER, NARC_RAW, NARC_TCP, NARC_UDP, NarcArp, NarcIpv4, NarcPacket, NarcSpan,
    NarcTcp, NarcUdp,
};
use narc_packet::{
    ARP_TYPE, Arp, EthBody, IPV4_TYPE, IpBody, Ipv4, Packet, TCP_PROTOCOL, Tcp, UDP_PROTOCOL,
};

/// The octets of the Ethernet header, and of those of IPv4 and TCP before their options.
const ETHERNET: usize = 14;

const IPV4: usize = 20;

const UDP: usize = 8;

const TCP: usize = 20;

impl NarcSpan {
    const NONE: NarcSpan = NarcSpan { at: 0, len: 0 };

    /// The place of octets that lie there.
    fn of(at: usize, part: &[u8]) -> NarcSpan
        ensures at { result.at ≡ at }
        ensures len { result.len ≡ length part.now }
    {
        NarcSpan {
            at,
            len: part.len(),
        }
    }
}

impl NarcPacket {
    /// No packet in particular.
    fn blank() -> NarcPacket
        ensures { result.body ≡ NARC_OTHER }
    {
        NarcPacket {
            body: NARC_OTHER,
            dst: [0; 6],
            src: [0; 6],
            ether_type: 0,
            arp: NarcArp {
                op: 0,
                sender_mac: [0; 6],
                sender_ip: [0; 4],
                target_mac: [0; 6],
                target_ip: [0; 4],
            },
            ip: NarcIpv4 {
                tos: 0,
                ttl: 0,
                protocol: 0,
                df: false,
                mf: false,
                id: 0,
                offset: 0,
                src: [0; 4],
                dst: [0; 4],
                options: NarcSpan::NONE,
            },
            udp: NarcUdp { sport: 0, dport: 0 },
            tcp: NarcTcp {
                sport: 0,
                dport: 0,
                seq: 0,
                ack: 0,
                window: 0,
                urgent: 0,
                reserved: 0,
                flags: 0,
                options: NarcSpan::NONE,
            },
            payload: NarcSpan::NONE,
        }
    }
}

/// The octet at a place, or 0.
fn octet_at(octets: &[u8], at: usize) -> usize
    ensures value { result ≡ slice_index_or octets.now at 0 }
    ensures bound { result < 256 }
{
    match octets.get(at) {
        Some(octet) => usize::from(*octet),
        None => 0,
    }
}

/// Where the data of an IPv4 packet begins, by its header's length.
fn ipv4_data(frame: &[u8]) -> usize
    ensures value { result ≡ ipv4_data_at frame.now }
    ensures bound { result ≤ 74 }
{
    ETHERNET + octet_at(frame, ETHERNET) % 16 * 4
}

/// Where the data of a TCP segment begins, by its data offset.
fn tcp_data(frame: &[u8], at: usize) -> usize
    requires { at ≤ 74 }
    ensures { result ≡ tcp_data_at frame.now at }
{
    at + octet_at(frame, at + 12) / 16 * 4
}

fn tell_arp(arp: &Arp) -> NarcArp
    ensures { arp_of result ≡ arp.now }
{
    NarcArp {
        op: arp.op,
        sender_mac: arp.sender_mac,
        sender_ip: arp.sender_ip,
        target_mac: arp.target_mac,
        target_ip: arp.target_ip,
    }
}

fn tell_tcp(tcp: &Tcp<'_>, at: usize) -> NarcTcp
    requires { at ≤ 74 }
    ensures options { result.options ≡ record { at = at + 20; len = length tcp.now.options.spelled.now } }
    ensures ports { (result.sport ≡ tcp.now.sport) × (result.dport ≡ tcp.now.dport) }
    ensures numbers { (result.seq ≡ tcp.now.seq) × (result.ack ≡ tcp.now.ack) }
    ensures bits { (result.reserved ≡ tcp.now.reserved) × (result.flags ≡ tcp.now.flags) }
    ensures window { (result.window ≡ tcp.now.window) × (result.urgent ≡ tcp.now.urgent) }
{
    NarcTcp {
        sport: tcp.sport,
        dport: tcp.dport,
        seq: tcp.seq,
        ack: tcp.ack,
        window: tcp.window,
        urgent: tcp.urgent,
        reserved: tcp.reserved,
        flags: tcp.flags,
        options: NarcSpan::of(at + TCP, tcp.options.spelled),
    }
}

/// What an IPv4 packet carries.
fn tell_ip_body(body: &IpBody<'_>, frame: &[u8], at: usize, told: &mut NarcPacket)
    requires small { at ≤ 74 }
    requires lies { IpBodyLies frame.now at body.now }
    ensures value { ip_body_in frame.now told.new ≡ ip_body_view body.now }
    ensures kind { IsTrue (is_ipv4 told.new.body) }
    ensures ip { (told.new.ip.tos ≡ told.old.ip.tos) × (told.new.ip.id ≡ told.old.ip.id) × (told.new.ip.df ≡ told.old.ip.df) × (told.new.ip.mf ≡ told.old.ip.mf) × (told.new.ip.offset ≡ told.old.ip.offset) × (told.new.ip.ttl ≡ told.old.ip.ttl) × (told.new.ip.src ≡ told.old.ip.src) × (told.new.ip.dst ≡ told.old.ip.dst) × (told.new.ip.options ≡ told.old.ip.options) }
    ensures addresses { (told.new.dst ≡ told.old.dst) × (told.new.src ≡ told.old.src) }
{
    match body {
        IpBody::Udp(udp) => {
            told.body = NARC_UDP;
            told.ip.protocol = UDP_PROTOCOL;
            told.udp = NarcUdp {
                sport: udp.sport,
                dport: udp.dport,
            };
            told.payload = NarcSpan::of(at + UDP, udp.payload);
        }
        IpBody::Tcp(tcp) => {
            told.body = NARC_TCP;
            told.ip.protocol = TCP_PROTOCOL;
            told.tcp = tell_tcp(tcp, at);
            told.payload = NarcSpan::of(tcp_data(frame, at), tcp.payload);
        }
        IpBody::Raw { protocol, payload } => {
            told.body = NARC_RAW;
            told.ip.protocol = *protocol;
            told.payload = NarcSpan::of(at, payload);
        }
    }
}

fn tell_ipv4(ip: &Ipv4<'_>, frame: &[u8], told: &mut NarcPacket)
    requires lies { Ipv4Lies frame.now ip.now }
    ensures value { ipv4_in frame.now told.new ≡ ipv4_view ip.now }
    ensures kind { IsTrue (is_ipv4 told.new.body) }
    ensures addresses { (told.new.dst ≡ told.old.dst) × (told.new.src ≡ told.old.src) }
{
    told.ip = NarcIpv4 {
        tos: ip.tos,
        ttl: ip.ttl,
        protocol: 0,
        df: ip.df,
        mf: ip.mf,
        id: ip.id,
        offset: ip.offset,
        src: ip.src,
        dst: ip.dst,
        options: NarcSpan::of(ETHERNET + IPV4, ip.options.spelled),
    };
    tell_ip_body(&ip.body, frame, ipv4_data(frame), told);
}

/// The packet of a frame, as C sees it.
pub(crate) fn tell(packet: &Packet<'_>, frame: &[u8]) -> NarcPacket
    requires lies { EthBodyLies frame.now packet.now.body }
    ensures { view_in frame.now result ≡ view packet.now }
{
    let mut told = NarcPacket::blank();
    told.dst = packet.dst;
    told.src = packet.src;
    match &packet.body {
        EthBody::Arp(arp) => {
            told.body = NARC_ARP;
            told.ether_type = ARP_TYPE;
            told.arp = tell_arp(arp);
        }
        EthBody::Ip(ip) => {
            told.ether_type = IPV4_TYPE;
            tell_ipv4(ip, frame, &mut told);
        }
        EthBody::Other {
            ether_type,
            payload,
        } => {
            told.ether_type = *ether_type;
            told.payload = NarcSpan::of(ETHERNET, payload);
        }
    }
    told
}
