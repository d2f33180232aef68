//! Text read back: packets, the lines of a capture, and single words. Each reader answers the value whose text the octets are, and
//! `BadLine` exactly where they are the text of none. Any octets may come.
#![tactic(auto)]

mod decimal;
mod error;
mod hex_digits;
pub mod laws;
mod lines;
mod options;
mod packet;
mod parts;
mod words;

pub use decimal::read_decimal;
pub use error::BadLine;
pub use lines::{CaptureLine, EndLine, RecordLine};
pub use packet::read_packet;
pub use words::{read_flags, read_ip, read_mac};
