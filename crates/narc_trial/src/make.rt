//! Packets made from numbers.
ghost use Rattle.std.specs.Prelude.{◌≡◌, ◌≤◌, length};
ghost use Rattle.narc_packet.specs.PacketView.{view};
ghost use Rattle.narc_packet.specs.WellFormed.{IsWellFormed, SpellsOptions};
ghost use Rattle.narc_trial.specs.Made.{counting, made};

use crate::body::{dst_mac, eth_body, src_mac};
use crate::options::{TCP_OPTIONS, segment_size_octets};
use narc_packet::Packet;

/// A payload has fewer octets than this.
const PAYLOADS: usize = 1400;

/// How many octets a packet is made in: the options of TCP, and behind them the payload.
pub const MADE_OCTETS: usize = TCP_OPTIONS + PAYLOADS;

/// Writes octets that count up from the number.
fn count_up(octets: &mut [u8], number: u32)
    ensures { octets.new ≡ counting (length octets.old) number }
{
    for (j, octet) in octets.iter_mut().enumerate() {
        *octet = ((number as usize + j) % 256) as u8;
    }
}

/// The packet of a number, whose options of TCP and payload lie in the store: ARP, data of another type, UDP, TCP, or a
/// fragment, in turn, with numbers of its own in each field.
pub fn made(number: u32, store: &mut [u8]) -> Packet<'_>
    requires { MADE_OCTETS ≤ length store.old }
    ensures value { view result ≡ made number }
    ensures well_formed { IsWellFormed (view result) }
    ensures spelled { SpellsOptions result }
{
    let size = number as usize % PAYLOADS;
    store[..TCP_OPTIONS].copy_from_slice(&segment_size_octets(number));
    count_up(&mut store[TCP_OPTIONS..TCP_OPTIONS + size], number);
    Packet {
        dst: dst_mac(number),
        src: src_mac(number),
        body: eth_body(
            number,
            &store[..TCP_OPTIONS],
            &store[TCP_OPTIONS..TCP_OPTIONS + size],
        ),
    }
}
