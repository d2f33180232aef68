//! Assignments, read from words.
ghost use Rattle.std.specs.Prelude.{◌≡◌, ◌≤◌, None, Some, MatchOption, drop, length, option_map};
ghost use Rattle.narc_edit.specs.declared.edits.Edits.{Edits};
ghost use Rattle.narc_edit.specs.Assignments.{edits_of, once, no_edits, with_value, with_word};

use crate::edits::Edits;
use crate::values::{bit, flags, ip, long, mac, octet, short, six_bits};
use narc_world::Words;

/// Gives the field the value, where it has none yet.
fn assign<T: Copy>(field: &mut Option<T>, value: Option<T>) -> Option<()>
    ensures { MatchOption (once field.old value) (result ≡ None) (λ v. (result ≡ Some tt) × (field.new ≡ Some v)) }
{
    if field.is_some() {
        return None;
    }
    *field = Some(value?);
    Some(())
}

impl Edits {
    /// No field is assigned.
    fn new() -> Edits
        ensures { result ≡ no_edits }
    {
        Edits {
            eth_dst: None,
            eth_src: None,
            arp_op: None,
            arp_sha: None,
            arp_spa: None,
            arp_tha: None,
            arp_tpa: None,
            ip_tos: None,
            ip_id: None,
            ip_df: None,
            ip_ttl: None,
            ip_src: None,
            ip_dst: None,
            udp_sport: None,
            udp_dport: None,
            tcp_sport: None,
            tcp_dport: None,
            tcp_seq: None,
            tcp_ack: None,
            tcp_reserved: None,
            tcp_flags: None,
            tcp_window: None,
            tcp_urgent: None,
        }
    }

    /// Assigns the field of this name, where it was not assigned before, and the value is spelled as its values are.
    fn assign(&mut self, name: &str, value: &str) -> Option<()>
        ensures { option_map (λ _. self.new) result ≡ with_value self.old name.now value.now }
    {
        match name {
            "eth.dst" => assign(&mut self.eth_dst, mac(value)),
            "eth.src" => assign(&mut self.eth_src, mac(value)),
            "arp.op" => assign(&mut self.arp_op, short(value)),
            "arp.sha" => assign(&mut self.arp_sha, mac(value)),
            "arp.spa" => assign(&mut self.arp_spa, ip(value)),
            "arp.tha" => assign(&mut self.arp_tha, mac(value)),
            "arp.tpa" => assign(&mut self.arp_tpa, ip(value)),
            "ip.tos" => assign(&mut self.ip_tos, octet(value)),
            "ip.id" => assign(&mut self.ip_id, short(value)),
            "ip.df" => assign(&mut self.ip_df, bit(value)),
            "ip.ttl" => assign(&mut self.ip_ttl, octet(value)),
            "ip.src" => assign(&mut self.ip_src, ip(value)),
            "ip.dst" => assign(&mut self.ip_dst, ip(value)),
            "udp.sport" => assign(&mut self.udp_sport, short(value)),
            "udp.dport" => assign(&mut self.udp_dport, short(value)),
            "tcp.sport" => assign(&mut self.tcp_sport, short(value)),
            "tcp.dport" => assign(&mut self.tcp_dport, short(value)),
            "tcp.seq" => assign(&mut self.tcp_seq, long(value)),
            "tcp.ack" => assign(&mut self.tcp_ack, long(value)),
            "tcp.reserved" => assign(&mut self.tcp_reserved, six_bits(value)),
            "tcp.flags" => assign(&mut self.tcp_flags, flags(value)),
            "tcp.window" => assign(&mut self.tcp_window, short(value)),
            "tcp.urgent" => assign(&mut self.tcp_urgent, short(value)),
            _ => None,
        }
    }

    /// Assigns what a word says.
    fn assign_word(&mut self, word: &str) -> Option<()>
        ensures { option_map (λ _. self.new) result ≡ with_word self.old word.now }
    {
        let (name, value) = word.split_once('=')?;
        self.assign(name, value)
    }

    /// The assignments of the words from this one on. None where one of them is no assignment, or two assign the same field.
    pub fn read(words: &Words, from: usize) -> Option<Edits>
        requires { from ≤ length words.now }
        ensures { result ≡ edits_of (drop from words.now) }
    {
        let mut edits = Edits::new();
        for i in from..words.len() {
            edits.assign_word(words.word(i))?;
        }
        Some(edits)
    }
}
