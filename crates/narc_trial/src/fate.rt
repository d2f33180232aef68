//! What becomes of a frame whose bit was changed.

/// What the changed octets stand for.
#[derive(Clone, Copy, Debug, Drop, PartialEq, Eq)]
pub enum Fate {
    /// The same packet still.
    Same,
    /// Another packet.
    Other,
    /// No packet.
    Refused,
}
