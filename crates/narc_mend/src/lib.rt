//! Internet checksums after a change of what they cover (RFC 1624).
#![tactic(auto)]

pub mod laws;
mod mend;

pub use mend::{Zero, replace};
