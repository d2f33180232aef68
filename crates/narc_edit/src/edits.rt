//! Which fields of a packet are assigned, and with which values.
use crate::six_bits::SixBits;

/// A value for each field of a packet that is assigned, by the name of the header and that of the field.
#[derive(Debug, Drop, PartialEq, Eq)]
pub struct Edits {
    pub eth_dst: Option<[u8; 6]>,
    pub eth_src: Option<[u8; 6]>,
    pub arp_op: Option<u16>,
    pub arp_sha: Option<[u8; 6]>,
    pub arp_spa: Option<[u8; 4]>,
    pub arp_tha: Option<[u8; 6]>,
    pub arp_tpa: Option<[u8; 4]>,
    pub ip_tos: Option<u8>,
    pub ip_id: Option<u16>,
    /// Do not fragment.
    pub ip_df: Option<bool>,
    pub ip_ttl: Option<u8>,
    pub ip_src: Option<[u8; 4]>,
    pub ip_dst: Option<[u8; 4]>,
    pub udp_sport: Option<u16>,
    pub udp_dport: Option<u16>,
    pub tcp_sport: Option<u16>,
    pub tcp_dport: Option<u16>,
    pub tcp_seq: Option<u32>,
    pub tcp_ack: Option<u32>,
    pub tcp_reserved: Option<SixBits>,
    pub tcp_flags: Option<SixBits>,
    pub tcp_window: Option<u16>,
    pub tcp_urgent: Option<u16>,
}
