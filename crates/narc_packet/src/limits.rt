//! Limits of packets.

/// The most octets of an options area (RFC 791 and RFC 793, section 3.1).
pub const MAX_AREA: usize = 40;

/// The most blocks of a selective acknowledgment, which fit an options area (RFC 2018, section 3).
pub const MAX_BLOCKS: usize = 4;

/// The most octets that a length in 16 bits tells: those of an IPv4 packet (RFC 791, section 3.1) and of a UDP datagram
/// (RFC 768).
pub const MAX_LENGTH: usize = 65_535;
