//! Frames that are edited in place: only the assigned fields change, and the checksums over them (RFC 1624).
#![tactic(auto)]

mod change;
mod fields;
mod headers;
pub mod laws;
mod patch;

pub use patch::patch_frame;
