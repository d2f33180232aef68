//! Lines of text in the caller's memory.
ghost use Rattle.std.specs.Prelude.{◌≡◌, OnErr, length, take};
ghost use Rattle.narc_packet.specs.PacketView.{view};
ghost use Rattle.narc_packet.specs.WellFormed.{IsWellFormed};
ghost use Rattle.narc_text.specs.PacketText.{text};
ghost use Rattle.narc_world.specs.Outside.{CountsFaults, IsPushed};

use crate::limits::LINE_SIZE;
use narc_packet::Packet;
use narc_text::put_packet;
use narc_world::{Failed, Sink};

/// Text, of which `len` octets are written. No text fills a line: one that is full has lost octets.
#[repr(C)]
#[derive(Drop)]
pub struct NarcLine {
    pub len: usize,
    pub octets: [u8; LINE_SIZE],
}

impl Sink for NarcLine {
    ghost use Rattle.std.specs.Prelude.{◌-◌, ◌^◌, Some, take, nat_lt, if◌then◌else◌};
    ghost use Rattle.narc_c.specs.declared.limits.TheConstants.{LINE_SIZE};

    ghost held = { λ line. Some (take line.len line.octets) };

    ghost faults = { λ line. if nat_lt line.len LINE_SIZE then 0 else 2 ^ 64 - 1 };

    fn push(&mut self, bytes: &[u8]) -> Result<(), Failed> {
        let at = self.len.min(LINE_SIZE);
        let room = LINE_SIZE - at;
        let count = bytes.len().min(room);
        self.octets[at..at + count].copy_from_slice(&bytes[..count]);
        self.len = at + count;
        if bytes.len() < room {
            Ok(())
        } else {
            Err(Failed)
        }
    }
}

impl NarcLine {
    /// A line has `LINE_SIZE` octets: the call does nothing, and ensures it.
    fn known_size(&self)
        ensures { length self.now.octets ≡ LINE_SIZE }
    {
        let _octets: &[u8] = &self.octets;
    }

    /// Writes the text of a packet that has a frame, for which each line has room.
    pub(crate) fn write(&mut self, packet: &Packet<'_>)
        requires { IsWellFormed (view packet.now) }
        ensures { take self.new.len self.new.octets ≡ text (view packet.now) }
    {
        self.len = 0;
        let written = put_packet(packet, self);
        self.known_size();
        written.unwrap();
    }
}
