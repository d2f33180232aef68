//! Trials: packets made from numbers, whose frames are changed in one bit and decoded.
#![tactic(auto)]

mod body;
mod counts;
mod fate;
mod make;
mod options;
mod trial;

pub use counts::TrialCounts;
pub use fate::Fate;
pub use make::{MADE_OCTETS, made};
pub use trial::try_packets;
