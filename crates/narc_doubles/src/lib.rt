//! Doubles for the tests of more than one crate: the command between a source and a sink in memory, and a worked capture.
#![tactic(auto)]

mod capture;
mod world;

pub use capture::{CAPTURE, CAPTURE_LINES, CAPTURE_LITTLE, PATCHED, REWRITTEN, TEXT, TEXT_CAPTURE};
pub use world::{Ended, World, end_of};
