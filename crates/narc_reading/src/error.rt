//! What can be wrong with a line.
use thiserror::Error;

/// The line, or the word, is the text of no value of the kind that was looked for.
#[derive(Debug, Drop, Error)]
#[error("no such text")]
pub struct BadLine;
