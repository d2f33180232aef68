//! Edits as C sees them: which fields are assigned, and their values.
ghost use Rattle.std.specs.Prelude.{◌≡◌, ◌<◌};
ghost use Rattle.narc_c.specs.Edits.{given, edits_of, HaveSixBits};

use narc_edit::{Edits, SixBits};

/// The fields that can be assigned, by their bits in `assigned`.
pub const NARC_SET_ETH_DST: u32 = 0x1;

pub const NARC_SET_ETH_SRC: u32 = 0x2;

pub const NARC_SET_ARP_OP: u32 = 0x4;

pub const NARC_SET_ARP_SHA: u32 = 0x8;

pub const NARC_SET_ARP_SPA: u32 = 0x10;

pub const NARC_SET_ARP_THA: u32 = 0x20;

pub const NARC_SET_ARP_TPA: u32 = 0x40;

pub const NARC_SET_IP_TOS: u32 = 0x80;

pub const NARC_SET_IP_ID: u32 = 0x100;

pub const NARC_SET_IP_DF: u32 = 0x200;

pub const NARC_SET_IP_TTL: u32 = 0x400;

pub const NARC_SET_IP_SRC: u32 = 0x800;

pub const NARC_SET_IP_DST: u32 = 0x1000;

pub const NARC_SET_UDP_SPORT: u32 = 0x2000;

pub const NARC_SET_UDP_DPORT: u32 = 0x4000;

pub const NARC_SET_TCP_SPORT: u32 = 0x8000;

pub const NARC_SET_TCP_DPORT: u32 = 0x10000;

pub const NARC_SET_TCP_SEQ: u32 = 0x20000;

pub const NARC_SET_TCP_ACK: u32 = 0x40000;

pub const NARC_SET_TCP_RESERVED: u32 = 0x80000;

pub const NARC_SET_TCP_FLAGS: u32 = 0x100000;

pub const NARC_SET_TCP_WINDOW: u32 = 0x200000;

pub const NARC_SET_TCP_URGENT: u32 = 0x400000;

/// A value for each field that is assigned. The others are not looked at, but for the bits that six-bit values lack.
#[repr(C)]
#[derive(Clone, Copy, Drop)]
pub struct NarcEdits {
    /// The sum of the bits of the fields that are assigned. Other bits say nothing.
    pub assigned: u32,
    pub eth_dst: [u8; 6],
    pub eth_src: [u8; 6],
    pub arp_op: u16,
    pub arp_sha: [u8; 6],
    pub arp_spa: [u8; 4],
    pub arp_tha: [u8; 6],
    pub arp_tpa: [u8; 4],
    pub ip_tos: u8,
    pub ip_id: u16,
    pub ip_df: bool,
    pub ip_ttl: u8,
    pub ip_src: [u8; 4],
    pub ip_dst: [u8; 4],
    pub udp_sport: u16,
    pub udp_dport: u16,
    pub tcp_sport: u16,
    pub tcp_dport: u16,
    pub tcp_seq: u32,
    pub tcp_ack: u32,
    pub tcp_reserved: u8,
    pub tcp_flags: u8,
    pub tcp_window: u16,
    pub tcp_urgent: u16,
}

impl NarcEdits {
    /// The value, where the field of this bit is assigned.
    fn given<T: Copy>(&self, bit: u32, value: T) -> Option<T>
        requires { 0 < bit }
        ensures { result ≡ given self.now.assigned bit value }
    {
        if self.assigned / bit % 2 == 1 {
            Some(value)
        } else {
            None
        }
    }

    /// The assignments, where the values of six bits have no more.
    pub(crate) fn to_edits(&self) -> Edits
        requires { HaveSixBits self.now }
        ensures { result ≡ edits_of self.now }
    {
        Edits {
            eth_dst: self.given(NARC_SET_ETH_DST, self.eth_dst),
            eth_src: self.given(NARC_SET_ETH_SRC, self.eth_src),
            arp_op: self.given(NARC_SET_ARP_OP, self.arp_op),
            arp_sha: self.given(NARC_SET_ARP_SHA, self.arp_sha),
            arp_spa: self.given(NARC_SET_ARP_SPA, self.arp_spa),
            arp_tha: self.given(NARC_SET_ARP_THA, self.arp_tha),
            arp_tpa: self.given(NARC_SET_ARP_TPA, self.arp_tpa),
            ip_tos: self.given(NARC_SET_IP_TOS, self.ip_tos),
            ip_id: self.given(NARC_SET_IP_ID, self.ip_id),
            ip_df: self.given(NARC_SET_IP_DF, self.ip_df),
            ip_ttl: self.given(NARC_SET_IP_TTL, self.ip_ttl),
            ip_src: self.given(NARC_SET_IP_SRC, self.ip_src),
            ip_dst: self.given(NARC_SET_IP_DST, self.ip_dst),
            udp_sport: self.given(NARC_SET_UDP_SPORT, self.udp_sport),
            udp_dport: self.given(NARC_SET_UDP_DPORT, self.udp_dport),
            tcp_sport: self.given(NARC_SET_TCP_SPORT, self.tcp_sport),
            tcp_dport: self.given(NARC_SET_TCP_DPORT, self.tcp_dport),
            tcp_seq: self.given(NARC_SET_TCP_SEQ, self.tcp_seq),
            tcp_ack: self.given(NARC_SET_TCP_ACK, self.tcp_ack),
            tcp_reserved: self.given(NARC_SET_TCP_RESERVED, SixBits::new(self.tcp_reserved)),
            tcp_flags: self.given(NARC_SET_TCP_FLAGS, SixBits::new(self.tcp_flags)),
            tcp_window: self.given(NARC_SET_TCP_WINDOW, self.tcp_window),
            tcp_urgent: self.given(NARC_SET_TCP_URGENT, self.tcp_urgent),
        }
    }
}
