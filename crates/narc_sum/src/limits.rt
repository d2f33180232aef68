//! Limits of checksums.

/// The most octets of a tail with a checksum: those of the longest IPv4 packet (RFC 791, section 3.1).
pub const MAX_CHECKED: usize = 65_535;
