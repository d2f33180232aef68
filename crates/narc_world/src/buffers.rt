//! The buffers that jobs work in.
ghost use Rattle.std.specs.Prelude.{◌≡◌, All, IfOk, length};

use crate::error::NoMemory;
use std::alloc::Global;

/// How many octets of a capture are in hand at most. A record has 262,160, its header of 16 among them; the rest is for
/// those behind it.
pub const INPUT_BUFFER: usize = 327_680;

/// How many octets of a frame are in hand at most: one more than a frame may have.
pub const FRAME_BUFFER: usize = 262_145;

/// How many octets a packet in hand is made of at most: those of its options and its payload.
pub const STORE_BUFFER: usize = 262_144;

/// So many octets that are all zero.
pub fn zeros(alloc: Global, count: usize) -> Result<Vec<u8>, NoMemory>
    ensures length { IfOk result (λ octets. length octets.items ≡ count) }
    ensures zeros { IfOk result (λ octets. All (λ octet. octet ≡ 0) octets.items) }
{
    Ok(vec![in alloc; 0; count]?)
}
