//! Captures made of their texts.
#![tactic(auto)]

mod build_line;
mod capture;
mod encoded;
mod ending;
mod limits;

pub use capture::build;
pub use encoded::Encoded;
pub use ending::Built;
pub use limits::{LINE_BUFFER, LONGEST_LINE, OUTPUT_BUFFER};
