//! Packets as C sees them: numbers, and the places of options and payload in the octets that they lie in.

/// What a `NarcPacket` carries. Any other number is data of an Ethernet type that is kept unread.
pub const NARC_OTHER: u32 = 0;

pub const NARC_ARP: u32 = 1;

pub const NARC_RAW: u32 = 2;

pub const NARC_UDP: u32 = 3;

pub const NARC_TCP: u32 = 4;

/// Octets among others: their place, and how many they are.
#[repr(C)]
#[derive(Clone, Copy, Drop)]
pub struct NarcSpan {
    pub at: usize,
    pub len: usize,
}

/// An ARP packet for Ethernet and IPv4 (RFC 826).
#[repr(C)]
#[derive(Clone, Copy, Drop)]
pub struct NarcArp {
    pub op: u16,
    pub sender_mac: [u8; 6],
    pub sender_ip: [u8; 4],
    pub target_mac: [u8; 6],
    pub target_ip: [u8; 4],
}

/// The header of an IPv4 packet (RFC 791).
#[repr(C)]
#[derive(Clone, Copy, Drop)]
pub struct NarcIpv4 {
    pub tos: u8,
    pub ttl: u8,
    pub protocol: u8,
    pub df: bool,
    pub mf: bool,
    pub id: u16,
    pub offset: u16,
    pub src: [u8; 4],
    pub dst: [u8; 4],
    pub options: NarcSpan,
}

/// The header of a UDP datagram (RFC 768).
#[repr(C)]
#[derive(Clone, Copy, Drop)]
pub struct NarcUdp {
    pub sport: u16,
    pub dport: u16,
}

/// The header of a TCP segment (RFC 793).
#[repr(C)]
#[derive(Clone, Copy, Drop)]
pub struct NarcTcp {
    pub sport: u16,
    pub dport: u16,
    pub seq: u32,
    pub ack: u32,
    pub window: u16,
    pub urgent: u16,
    pub reserved: u8,
    pub flags: u8,
    pub options: NarcSpan,
}

/// The packet of an Ethernet II frame (RFC 894). `body` says which of its members tell it; the others are 0 where it is
/// decoded, and are not looked at where it is encoded.
#[repr(C)]
#[derive(Clone, Copy, Drop)]
pub struct NarcPacket {
    pub body: u32,
    pub dst: [u8; 6],
    pub src: [u8; 6],
    pub ether_type: u16,
    pub arp: NarcArp,
    pub ip: NarcIpv4,
    pub udp: NarcUdp,
    pub tcp: NarcTcp,
    pub payload: NarcSpan,
}
