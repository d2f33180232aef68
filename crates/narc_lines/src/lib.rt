//! Texts as streams of lines.
#![tactic(auto)]

mod feed;
mod reader;

pub use reader::{Behind, LineReader, NextLine};
