//! The numbers that say what is carried.

/// The Ethernet type of ARP (RFC 826).
pub const ARP_TYPE: u16 = 0x0806;

/// The Ethernet type of IPv4 (RFC 894).
pub const IPV4_TYPE: u16 = 0x0800;

/// The protocol of TCP (RFC 793).
pub const TCP_PROTOCOL: u8 = 6;

/// The protocol of UDP (RFC 768).
pub const UDP_PROTOCOL: u8 = 17;
