//! Trials: many packets are made, and one bit of each frame is changed.
ghost use Rattle.std.specs.Prelude.{◌≡◌, ◌+◌, ◌*◌, ◌<◌, ◌≤◌, length, take};
ghost use Rattle.narc_packet.specs.PacketView.{view};
ghost use Rattle.narc_packet.specs.WellFormed.{IsWellFormed, SpellsOptions};
ghost use Rattle.narc_trial.specs.Made.{made};
ghost use Rattle.narc_trial.specs.Hurt.{hurt, hurt_place, made_size, with_bit_changed};
ghost use Rattle.narc_trial.specs.Trying.{IsFate, numbers};
ghost use Rattle.narc_trial.specs.Counting.{IsTrial, hurt_cost};

use crate::counts::TrialCounts;
use crate::fate::Fate;
use crate::make::{MADE_OCTETS, made};
use narc_bits::{MAX_FRAME, Steps};
use narc_packet::Packet;
use narc_stack::{decode_frame, encode_frame, frame_size, same};
use std::sync::ledger::Ledger;

/// The size of a frame as it was written, and what became of it.
#[derive(Drop)]
struct Attempt {
    size: usize,
    fate: Fate,
}

/// Changes the lowest bit of one octet, whose place goes by the packet's number.
fn change_bit(octets: &mut [u8], number: u32)
    requires { 0 < length octets.old }
    ensures { octets.new ≡ with_bit_changed (hurt_place number (length octets.old)) octets.old }
{
    let place = (12 + 7 * number as usize) % octets.len();
    octets[place] ^= 1;
}

/// What the octets stand for, beside the packet.
fn fate_of<L: Ledger>(packet: &Packet<'_>, octets: &[u8], steps: &mut Steps<L>) -> Fate
    requires { length octets.now ≤ MAX_FRAME }
    ensures fate { IsFate (view packet.now) octets.now result }
    ensures cost { steps.new ≤ steps.old + (16 * length octets.now + 1) }
{
    match decode_frame(octets, steps) {
        Ok(read) => {
            if same(packet, &read) {
                Fate::Same
            } else {
                Fate::Other
            }
        }
        Err(_) => Fate::Refused,
    }
}

/// Writes the frame of the packet of a number with its bit changed, and answers how many octets it has.
fn put_hurt(number: u32, packet: &Packet<'_>, frame: &mut [u8]) -> usize
    requires made { view packet.now ≡ made number }
    requires well_formed { IsWellFormed (view packet.now) }
    requires spelled { SpellsOptions packet.now }
    requires frame { MAX_FRAME ≤ length frame.old }
    ensures size { result ≡ made_size number }
    ensures bound { result ≤ MAX_FRAME }
    ensures hurt { take result frame.new ≡ hurt number }
{
    let size = frame_size(packet);
    let octets = &mut frame[..size];
    encode_frame(packet, octets).unwrap();
    change_bit(octets, number);
    size
}

/// Makes the packet of a number, and decodes its frame with a bit changed.
fn try_packet<L: Ledger>(
    number: u32,
    frame: &mut [u8],
    store: &mut [u8],
    steps: &mut Steps<L>,
) -> Attempt
    requires frame { MAX_FRAME ≤ length frame.old }
    requires store { MADE_OCTETS ≤ length store.old }
    ensures size { result.size ≡ made_size number }
    ensures bound { result.size ≤ MAX_FRAME }
    ensures fate { IsFate (made number) (hurt number) result.fate }
    ensures cost { steps.new ≤ steps.old + (16 * length (hurt number) + 1) }
{
    let packet = made(number, store);
    let size = put_hurt(number, &packet, frame);
    let fate = fate_of(&packet, &frame[..size], steps);
    Attempt { size, fate }
}

/// Tries so many packets from a number on; 0 follows the greatest number. The frames are written in the one buffer, and the
/// packets made in the other.
pub fn try_packets<L: Ledger>(
    seed: u32,
    count: u32,
    frame: &mut [u8],
    store: &mut [u8],
    steps: &mut Steps<L>,
) -> TrialCounts
    requires frame { MAX_FRAME ≤ length frame.old }
    requires store { MADE_OCTETS ≤ length store.old }
    ensures trial { IsTrial seed count result }
    ensures cost { steps.new ≤ steps.old + hurt_cost (numbers seed count) }
{
    let mut counts = TrialCounts::new();
    for i in 0..count {
        let tried = try_packet(seed.wrapping_add(i), frame, store, steps);
        counts.count(tried.size, tried.fate);
    }
    counts
}
