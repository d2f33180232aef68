//! Packets, and what octets are a frame of one.
#![tactic(auto)]

mod blocks;
pub mod field;
mod limits;
mod numbers;
mod option_list;
mod option_type;
mod options;
mod packet;
mod ranges;
mod well_formed;

pub use blocks::{SackBlock, SackBlockIter, SackBlockList, SackBlocks};
pub use limits::{MAX_AREA, MAX_BLOCKS, MAX_LENGTH};
pub use numbers::{ARP_TYPE, IPV4_TYPE, TCP_PROTOCOL, UDP_PROTOCOL};
pub use option_list::{IpOptionList, OptionError, TcpOptionList};
pub use option_type::TcpOptionType;
pub use options::{IpOption, IpOptionIter, IpOptions, TcpOption, TcpOptionIter, TcpOptions};
pub use packet::{Arp, EthBody, IpBody, Ipv4, Packet, Tcp, Udp};
pub use well_formed::is_well_formed;
