//! What the types of a packet's parts say about their numbers: each of these calls does nothing, and ensures it.
ghost use Rattle.narc_packet.specs.PacketView.{udp_view};
ghost use Rattle.narc_packet.specs.Ranges.{IsMac, IsIp, IsArpInRange, IsUdpInRange};

use crate::packet::{Arp, Udp};
use narc_bits::known_octets;

pub(crate) fn known_mac(address: &[u8; 6])
    ensures { IsMac address.now }
{
    known_octets(address);
}

pub(crate) fn known_ip(address: &[u8; 4])
    ensures { IsIp address.now }
{
    known_octets(address);
}

pub(crate) fn known_arp(arp: &Arp)
    ensures { IsArpInRange arp.now }
{
    let _op = arp.op;
    known_mac(&arp.sender_mac);
    known_ip(&arp.sender_ip);
    known_mac(&arp.target_mac);
    known_ip(&arp.target_ip);
}

pub(crate) fn known_udp(udp: &Udp<'_>)
    ensures { IsUdpInRange (udp_view udp.now) }
{
    let _ports = (udp.sport, udp.dport);
    known_octets(udp.payload);
}
