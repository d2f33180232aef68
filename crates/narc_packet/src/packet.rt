//! Packets as values. Slices lie in the octets that were read.
use crate::options::{IpOptions, TcpOptions};

/// The packet of an Ethernet II frame (RFC 894): two hardware addresses, and what the frame carries.
#[derive(Drop)]
pub struct Packet<'a> {
    /// The destination's hardware address.
    pub dst: [u8; 6],
    /// The source's hardware address.
    pub src: [u8; 6],
    pub body: EthBody<'a>,
}

/// What an Ethernet frame carries.
#[derive(Drop)]
pub enum EthBody<'a> {
    /// An ARP packet for Ethernet and IPv4.
    Arp(Arp),
    /// An IPv4 packet.
    Ip(Ipv4<'a>),
    /// Data of a type, neither ARP nor IPv4, that is kept unread.
    Other { ether_type: u16, payload: &'a [u8] },
}

/// An ARP packet for Ethernet and IPv4 (RFC 826): an operation, and the addresses of sender and target.
#[derive(Clone, Copy, Drop, PartialEq, Eq)]
pub struct Arp {
    /// The operation: 1 for a request, 2 for a reply, and any other number.
    pub op: u16,
    pub sender_mac: [u8; 6],
    pub sender_ip: [u8; 4],
    pub target_mac: [u8; 6],
    pub target_ip: [u8; 4],
}

/// An IPv4 packet (RFC 791), and what it carries.
#[derive(Clone, Copy, Drop)]
pub struct Ipv4<'a> {
    pub tos: u8,
    pub id: u16,
    /// Do not fragment.
    pub df: bool,
    /// More fragments follow.
    pub mf: bool,
    /// The place of this fragment, in units of 8 octets.
    pub offset: u16,
    pub ttl: u8,
    pub src: [u8; 4],
    pub dst: [u8; 4],
    pub options: IpOptions<'a>,
    pub body: IpBody<'a>,
}

/// What an IPv4 packet carries.
#[derive(Clone, Copy, Drop)]
pub enum IpBody<'a> {
    Udp(Udp<'a>),
    Tcp(Tcp<'a>),
    /// Data of another protocol, or of a fragment, that is kept unread.
    Raw { protocol: u8, payload: &'a [u8] },
}

/// A UDP datagram (RFC 768).
#[derive(Clone, Copy, Drop)]
pub struct Udp<'a> {
    pub sport: u16,
    pub dport: u16,
    pub payload: &'a [u8],
}

/// A TCP segment (RFC 793). The flags are 32 URG, 16 ACK, 8 PSH, 4 RST, 2 SYN, 1 FIN.
#[derive(Clone, Copy, Drop)]
pub struct Tcp<'a> {
    pub sport: u16,
    pub dport: u16,
    pub seq: u32,
    pub ack: u32,
    pub reserved: u8,
    pub flags: u8,
    pub window: u16,
    pub urgent: u16,
    pub options: TcpOptions<'a>,
    pub payload: &'a [u8],
}
