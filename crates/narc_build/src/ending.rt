//! How the making of a capture ends.

/// How the making of a capture ends, where the sink did not fail.
#[derive(Clone, Copy, Drop)]
pub enum Built {
    /// The text ended behind its last line.
    Done,
    /// The line at this place is none that may follow those before, or none stands there.
    Bad(u64),
    /// The source failed behind so many octets.
    ReadFault(u64),
    /// As many octets came as a text may have, and then one more.
    Long,
}
