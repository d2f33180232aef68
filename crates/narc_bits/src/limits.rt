//! Limits of the product.

/// The most octets that a frame has.
pub const MAX_FRAME: usize = 262_144;

/// The most that one octet adds to an Internet sum, as the high half of a word.
pub const MAX_OCTET_SUM: u64 = 65_280;
