//! The header of an IPv4 packet.
#![tactic(auto)]

mod as_header;
mod header;
mod laws;
mod part;

pub use as_header::{AsHeader, IpHeader, RawBefore, RawHeader};
pub use header::{
    AreaOf, Before, Fields, IpArea, IpHead, IsFlags, IsHeaderLength, IsTotalLength, IsVersion,
    LengthsIn,
};
pub use laws::{
    ip_head_admits_what_fits, ip_head_is_its_octets, ip_head_is_refused_by_row, ip_head_is_sound,
    ip_head_is_written_with_its_checksum, ip_head_moves,
};
pub use part::{BeforePart, IpHeadPart};
