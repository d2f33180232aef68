//! How long a line is, and what a text and its capture take.

/// The most octets of a line of a capture's text, its line feed among them: of a record with a frame that is kept unread, of
/// 262,130 octets behind its header.
pub const LONGEST_LINE: usize = 524_332;

/// How many octets of a text are in hand. A line has its place, and the rest is for those behind it.
pub const LINE_BUFFER: usize = 530_000;

/// How many octets of a capture are gathered at most: as many as are made of the lines in hand, and of a header.
pub const OUTPUT_BUFFER: usize = LINE_BUFFER + 24;
