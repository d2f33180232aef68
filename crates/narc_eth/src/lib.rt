//! The formats of Ethernet: the header of a frame, and ARP packets.
#![tactic(auto)]

mod arp;
mod ethernet;
mod part;

pub use arp::{
    ArpFormat, AsArp, arp_format_is_its_octets, arp_format_is_refused_by_row, arp_format_is_sound,
};
pub use ethernet::{
    EthHead, eth_head_is_its_octets, eth_head_is_refused_by_row, eth_head_is_sound,
};
pub use part::ArpPart;
