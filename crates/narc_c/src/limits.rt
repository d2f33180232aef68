//! Limits of what C keeps.

/// More octets than the text of any packet has.
pub const LINE_SIZE: usize = 524_304;
