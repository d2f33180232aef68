//! The outside: where octets come from, where they go to, the words of the command, and the buffers
//! to work in.
#![tactic(auto)]

mod buffers;
mod calls;
mod edit;
mod error;
mod input_buffer;
mod memory_sink;
mod memory_source;
mod sink;
mod source;
mod std_sink;
mod std_source;
mod words;

pub use buffers::{FRAME_BUFFER, INPUT_BUFFER, STORE_BUFFER, zeros};
pub use edit::Edit;
pub use error::{Failed, NoMemory};
pub use input_buffer::{INPUT_LIMIT, InputBuffer, Refill};
pub use memory_sink::MemorySink;
pub use memory_source::MemorySource;
pub use sink::Sink;
pub use source::{Pulled, Source};
pub use std_sink::StdSink;
pub use std_source::StdSource;
pub use words::Words;
