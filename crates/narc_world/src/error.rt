//! What can go wrong outside the program.

use std::alloc::AllocError;
use thiserror::Error;

/// A source or a sink did not do what it was asked.
#[derive(Debug, Drop, Error)]
#[error("device failed")]
pub struct Failed;

/// There is not enough memory.
#[derive(Debug, Drop, Error)]
#[error("no memory")]
pub struct NoMemory;

impl From<AllocError> for NoMemory {
    fn from(_: AllocError) -> NoMemory {
        NoMemory
    }
}
