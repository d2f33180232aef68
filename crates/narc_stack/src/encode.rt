//! Writing whole frames.
ghost use Rattle.std.specs.Prelude.{◌≡◌, ◌↔◌, ◌≤◌, ◌++◌, IsOk, IfOk, OnErr, length, take, drop};
ghost use Rattle.narc_packet.specs.Canonical.{canonical_frame};
ghost use Rattle.narc_packet.specs.PacketView.{view};
ghost use Rattle.narc_packet.specs.WellFormed.{IsWellFormed, SpellsOptions};

use crate::frame_part::FramePart;
use narc_bits::{Cursor, MAX_FRAME, Short, Writer, known_octets};
use narc_compose::Part;
use narc_packet::Packet;

/// How many octets `encode_frame` writes for a packet that has a frame: at most `MAX_FRAME`.
pub fn frame_size<'a>(packet: &Packet<'a>) -> usize
    requires well_formed { IsWellFormed (view packet.now) }
    requires spelled { SpellsOptions packet.now }
    ensures size { result ≡ length (canonical_frame (view packet.now)) }
    ensures bound { result ≤ MAX_FRAME }
{
    <FramePart as Part<Cursor<'a>>>::size((), packet) / 8
}

/// Writes the frame of a packet into the front of a room that is large enough.
fn write_frame<'a>(packet: &Packet<'a>, room: &mut [u8])
    requires well_formed { IsWellFormed (view packet.now) }
    requires spelled { SpellsOptions packet.now }
    requires small { length room.old ≤ MAX_FRAME }
    requires enough { length (canonical_frame (view packet.now)) ≤ length room.old }
    ensures { room.new ≡ canonical_frame (view packet.now) ++ drop (length (canonical_frame (view packet.now))) room.old }
{
    known_octets(room);
    let mut writer = Writer::new();
    <FramePart as Part<Cursor<'a>>>::write((), packet, room, &mut writer);
}

/// Writes the frame of a packet into the front of a room, and answers how many octets it has. Where the room has fewer, it
/// stays as it was.
///
/// Of all frames of the packet this is the one with the shortest areas of options and no octets behind a datagram, with
/// computed checksums, and for ARP and IPv4 with octets 0 up to 60.
pub fn encode_frame<'a>(packet: &Packet<'a>, room: &mut [u8]) -> Result<usize, Short>
    requires well_formed { IsWellFormed (view packet.now) }
    requires spelled { SpellsOptions packet.now }
    requires small { length room.old ≤ MAX_FRAME }
    ensures fits { IsOk result ↔ (length (canonical_frame (view packet.now)) ≤ length room.old) }
    ensures size { IfOk result (λ n. n ≡ length (canonical_frame (view packet.now))) }
    ensures written { IfOk result (λ n. take n room.new ≡ canonical_frame (view packet.now)) }
    ensures rest { IfOk result (λ n. drop n room.new ≡ drop n room.old) }
    ensures short { OnErr result (room.new ≡ room.old) }
    ensures len { length room.new ≡ length room.old }
{
    let size = frame_size(packet);
    if room.len() < size {
        return Err(Short);
    }
    write_frame(packet, room);
    Ok(size)
}
