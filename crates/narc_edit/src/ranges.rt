//! What the types of edits say of their values: each of these calls does nothing, and ensures it.
ghost use Rattle.std.specs.Prelude.{◌<◌, ◌^◌, IfSome};
ghost use Rattle.narc_packet.specs.Ranges.{IsIp, IsMac};
ghost use Rattle.narc_edit.specs.Ranges.{AreInRange};

use crate::edits::Edits;
use crate::six_bits::SixBits;
use narc_bits::known_octets;

fn known_mac(address: &[u8; 6])
    ensures { IsMac address.now }
{
    known_octets(address);
}

fn known_assigned_mac(value: &Option<[u8; 6]>)
    ensures { IfSome value.now IsMac }
{
    if let Some(address) = value {
        known_mac(address);
    }
}

fn known_ip(value: &Option<[u8; 4]>)
    ensures { IfSome value.now IsIp }
{
    if let Some(address) = value {
        known_octets(address);
    }
}

fn known_octet(value: &Option<u8>)
    ensures { IfSome value.now (λ n. n < 256) }
{
    if let Some(number) = value {
        let _number = *number;
    }
}

fn known_short(value: &Option<u16>)
    ensures { IfSome value.now (λ n. n < 2 ^ 16) }
{
    if let Some(number) = value {
        let _number = *number;
    }
}

fn known_long(value: &Option<u32>)
    ensures { IfSome value.now (λ n. n < 2 ^ 32) }
{
    if let Some(number) = value {
        let _number = *number;
    }
}

fn known_six_bits(value: &Option<SixBits>)
    ensures { IfSome value.now (λ n. n < 64) }
{
    if let Some(value) = value {
        let _bits = value.get();
    }
}

impl Edits {
    /// Each assigned value lies in the range of its field: the call does nothing, and ensures it.
    pub fn known_ranges(&self)
        ensures { AreInRange self.now }
    {
        known_assigned_mac(&self.eth_dst);
        known_assigned_mac(&self.eth_src);
        known_short(&self.arp_op);
        known_assigned_mac(&self.arp_sha);
        known_ip(&self.arp_spa);
        known_assigned_mac(&self.arp_tha);
        known_ip(&self.arp_tpa);
        known_octet(&self.ip_tos);
        known_short(&self.ip_id);
        known_octet(&self.ip_ttl);
        known_ip(&self.ip_src);
        known_ip(&self.ip_dst);
        known_short(&self.udp_sport);
        known_short(&self.udp_dport);
        known_short(&self.tcp_sport);
        known_short(&self.tcp_dport);
        known_long(&self.tcp_seq);
        known_long(&self.tcp_ack);
        known_six_bits(&self.tcp_reserved);
        known_six_bits(&self.tcp_flags);
        known_short(&self.tcp_window);
        known_short(&self.tcp_urgent);
    }
}
