//! Limits of texts.

/// How many octets a page has.
pub const PAGE_SIZE: usize = 65_536;

/// More octets than a line of numbers has.
pub const LINE: usize = 128;
