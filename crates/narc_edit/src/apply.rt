//! Assignments to the fields of a packet in hand.
ghost use Rattle.std.specs.Prelude.{◌≡◌, unwrap_or};
ghost use Rattle.narc_packet.specs.PacketView.{view, eth_body_view, ipv4_view, ip_body_view, tcp_view, udp_view};
ghost use Rattle.narc_packet.specs.WellFormed.{IsWellFormed, SpellsEthBody, SpellsIpBody, SpellsIpv4, SpellsOptions};
ghost use Rattle.narc_edit.specs.Edited.{edited, edited_arp, edited_eth_body, edited_ip_body, edited_ipv4, edited_tcp, edited_udp};

use crate::edits::Edits;
use crate::six_bits::SixBits;
use narc_packet::{Arp, EthBody, IpBody, Ipv4, Packet, Tcp, Udp};

/// Sets the field, where there is a value for it.
fn set<T: Copy>(field: &mut T, value: Option<T>)
    ensures { field.new ≡ unwrap_or value field.old }
{
    if let Some(value) = value {
        *field = value;
    }
}

/// The same for a field of six bits.
fn set_six_bits(field: &mut u8, value: Option<SixBits>)
    ensures { field.new ≡ unwrap_or value field.old }
{
    if let Some(value) = value {
        *field = value.get();
    }
}

impl Edits {
    fn apply_to_arp(&self, arp: &mut Arp)
        ensures { arp.new ≡ edited_arp self.now arp.old }
    {
        set(&mut arp.op, self.arp_op);
        set(&mut arp.sender_mac, self.arp_sha);
        set(&mut arp.sender_ip, self.arp_spa);
        set(&mut arp.target_mac, self.arp_tha);
        set(&mut arp.target_ip, self.arp_tpa);
    }

    fn apply_to_udp(&self, udp: &mut Udp<'_>)
        ensures { udp_view udp.new ≡ edited_udp self.now (udp_view udp.old) }
    {
        set(&mut udp.sport, self.udp_sport);
        set(&mut udp.dport, self.udp_dport);
    }

    fn apply_to_tcp(&self, tcp: &mut Tcp<'_>)
        ensures value { tcp_view tcp.new ≡ edited_tcp self.now (tcp_view tcp.old) }
        ensures options { tcp.new.options ≡ tcp.old.options }
    {
        set(&mut tcp.sport, self.tcp_sport);
        set(&mut tcp.dport, self.tcp_dport);
        set(&mut tcp.seq, self.tcp_seq);
        set(&mut tcp.ack, self.tcp_ack);
        set_six_bits(&mut tcp.reserved, self.tcp_reserved);
        set_six_bits(&mut tcp.flags, self.tcp_flags);
        set(&mut tcp.window, self.tcp_window);
        set(&mut tcp.urgent, self.tcp_urgent);
    }

    fn apply_to_ip_body(&self, body: &mut IpBody<'_>)
        ensures value { ip_body_view body.new ≡ edited_ip_body self.now (ip_body_view body.old) }
        ensures spelled { SpellsIpBody body.old → SpellsIpBody body.new }
    {
        match body {
            IpBody::Udp(udp) => self.apply_to_udp(udp),
            IpBody::Tcp(tcp) => self.apply_to_tcp(tcp),
            IpBody::Raw { .. } => {}
        }
    }

    fn apply_to_ipv4(&self, ip: &mut Ipv4<'_>)
        ensures value { ipv4_view ip.new ≡ edited_ipv4 self.now (ipv4_view ip.old) }
        ensures spelled { SpellsIpv4 ip.old → SpellsIpv4 ip.new }
    {
        set(&mut ip.tos, self.ip_tos);
        set(&mut ip.id, self.ip_id);
        set(&mut ip.df, self.ip_df);
        set(&mut ip.ttl, self.ip_ttl);
        set(&mut ip.src, self.ip_src);
        set(&mut ip.dst, self.ip_dst);
        self.apply_to_ip_body(&mut ip.body);
    }

    fn apply_to_eth_body(&self, body: &mut EthBody<'_>)
        ensures value { eth_body_view body.new ≡ edited_eth_body self.now (eth_body_view body.old) }
        ensures spelled { SpellsEthBody body.old → SpellsEthBody body.new }
    {
        match body {
            EthBody::Arp(arp) => self.apply_to_arp(arp),
            EthBody::Ip(ip) => self.apply_to_ipv4(ip),
            EthBody::Other { .. } => {}
        }
    }

    /// Sets each assigned field that the packet has. All others stay, and an assignment to a field that it does not have
    /// changes nothing.
    pub fn apply(&self, packet: &mut Packet<'_>)
        ensures edited { view packet.new ≡ edited self.now (view packet.old) }
        ensures well_formed { IsWellFormed (view packet.old) → IsWellFormed (view packet.new) }
        ensures spelled { SpellsOptions packet.old → SpellsOptions packet.new }
    {
        self.known_ranges();
        set(&mut packet.dst, self.eth_dst);
        set(&mut packet.src, self.eth_src);
        self.apply_to_eth_body(&mut packet.body);
    }
}
