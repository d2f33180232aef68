//! How much of a capture is read.
use narc_world::INPUT_LIMIT;

/// The most octets of a capture.
pub const CAPTURE_LIMIT: u64 = INPUT_LIMIT;
