//! Whole frames: which packet the octets are a frame of, or which field is refused, and the frame that is written of a packet.
#![tactic(auto)]

mod as_ipv4;
mod as_packet;
mod compare;
mod content;
mod decode;
mod encode;
mod frame;
mod frame_part;
mod ipv4;
mod ipv4_part;
mod judge;
mod laws;
mod refusal;

pub use as_ipv4::AsIpv4;
pub use as_packet::AsPacket;
pub use compare::same;
pub use content::{ByTcp, ByUdp, ContentContext, ContentOctets, IpContent};
pub use decode::decode_frame;
pub use encode::{encode_frame, frame_size};
pub use frame::{
    ByIpv4, ByType, Frame, ShortestFrame, TypeOfHeader, frame_admits_its_packets,
    frame_is_its_octets, frame_is_refused_by_row, frame_is_sound, frame_is_written_with_padding,
    octets_are_a_frame_or_refused,
};
pub use frame_part::{FramePart, FramePartTail};
pub use ipv4::{ContentOf, Ipv4Format, OctetsThere, ZerosBehind};
pub use ipv4_part::{Ipv4Part, Ipv4PartTail};
pub use judge::{Judging, judge_frame};
pub use laws::{canonical_octets_are_a_frame, packets_with_a_frame_are_well_formed};
pub use refusal::Refusal;
