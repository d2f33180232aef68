//! A packet that is encoded into the place of its frame.
ghost use Rattle.std.specs.Prelude.{◌≡◌, ◌≤◌, length, take};

use narc_bits::Short;
use narc_packet::Packet;
use narc_pcap::{Fill, LONGEST_FRAME};
use narc_stack::encode_frame;

/// A packet that is encoded into the place of its frame.
#[derive(Drop)]
pub struct Encoded<'a> {
    pub packet: &'a Packet<'a>,
}

impl Fill for Encoded<'_> {
    ghost use Rattle.narc_packet.specs.Canonical.{canonical_frame};
    ghost use Rattle.narc_packet.specs.PacketView.{view};
    ghost use Rattle.narc_packet.specs.WellFormed.{IsWellFormed, SpellsOptions};

    ghost can_fill = { λ e. IsWellFormed (view e.packet.now) × SpellsOptions e.packet.now };

    ghost frame = { λ e. canonical_frame (view e.packet.now) };

    fn fill(&self, room: &mut [u8]) -> usize {
        match encode_frame(self.packet, room) {
            Ok(count) => count,
            Err(Short) => unreachable!(),
        }
    }
}
