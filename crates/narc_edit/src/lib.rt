//! Assignments to the fields of packets.
#![tactic(auto)]

mod apply;
mod assign;
mod edits;
mod ranges;
mod six_bits;
mod values;

pub use edits::Edits;
pub use six_bits::SixBits;
