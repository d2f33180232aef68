//! The one refusal of cursors and rooms.
use thiserror::Error;

/// Too few bits, or too little room, were there.
#[derive(Debug, Drop, Error)]
#[error("too few bits")]
pub struct Short;
