//! The calls of `narc.h`.
#![tactic(auto)]

ghost use Rattle.std.specs.Prelude.{◌≡◌, ◌≤◌, ◌<◌, ◌↔◌, length, take, drop, nat_lt};
ghost use Rattle.narc_packet.specs.Canonical.{canonical_frame};
ghost use Rattle.narc_packet.specs.Field.{field_name};
ghost use Rattle.narc_packet.specs.PacketView.{PacketView};
ghost use Rattle.narc_packet.specs.Frame.{IsFrame};
ghost use Rattle.narc_edit.specs.Edited.{edited};
ghost use Rattle.narc_patch.specs.Patched.{patched};
ghost use Rattle.narc_c.specs.Verdict.{HasPacket, IsVerdict};
ghost use Rattle.narc_c.specs.Seen.{view_in, HasFrame, IsDecoded};
ghost use Rattle.narc_c.specs.Edits.{edits_of, HaveSixBits};
ghost use Rattle.narc_text.specs.PacketText.{text};

mod edits;
mod heard;
mod limits;
mod line;
mod packet;
mod read;
mod tell;

use crate::heard::hear;
use crate::read::{decode, judge};
use crate::tell::tell;
pub use edits::NarcEdits;
pub use line::NarcLine;
use narc_bits::MAX_FRAME;
use narc_format::Field;
use narc_packet::{field, is_well_formed};
use narc_patch::patch_frame;
use narc_stack::{encode_frame, frame_size};
pub use packet::{NarcArp, NarcIpv4, NarcPacket, NarcSpan, NarcTcp, NarcUdp};

/// The answer for a frame of more than `MAX_FRAME` octets.
pub const NARC_TOO_LONG: u32 = 256;

/// The answer for a packet that has no frame.
pub const NARC_NOT_WELL_FORMED: u32 = 257;

/// The answer for a room with too few octets.
pub const NARC_NO_ROOM: u32 = 258;

/// The answer for a number that no field has.
pub const NARC_NO_FIELD: u32 = 259;

/// The answer for a value of more bits than its field.
pub const NARC_NO_VALUE: u32 = 260;

fn is_too_long(frame: &[u8]) -> bool
    ensures { result ≡ nat_lt MAX_FRAME (length frame.now) }
{
    frame.len() > MAX_FRAME
}

/// Whether the octets are a frame of a packet: 0, or the number of the first field that has no admissible reading, and its
/// place, in octets from the frame's first.
#[unsafe(no_mangle)]
pub extern "C" fn narc_judge(frame: &[u8], at: &mut u64) -> u32
    ensures judged { length frame.now ≤ MAX_FRAME → IsVerdict frame.now result at.new }
    ensures packet { length frame.now ≤ MAX_FRAME → (result ≡ 0) ↔ HasPacket frame.now }
    ensures long { MAX_FRAME < length frame.now → (result ≡ NARC_TOO_LONG) × (at.new ≡ 0) }
{
    *at = 0;
    if is_too_long(frame) {
        return NARC_TOO_LONG;
    }
    match judge(frame) {
        Ok(()) => 0,
        Err(refusal) => {
            *at = refusal.at;
            u32::from(refusal.field.number())
        }
    }
}

/// The packet that the octets are a frame of: what `narc_judge` answers, and the packet where that is 0.
#[unsafe(no_mangle)]
pub extern "C" fn narc_decode(frame: &[u8], packet: &mut NarcPacket, at: &mut u64) -> u32
    ensures decoded { length frame.now ≤ MAX_FRAME → IsDecoded frame.now packet.new result at.new }
    ensures packet { length frame.now ≤ MAX_FRAME → (result ≡ 0) ↔ HasPacket frame.now }
    ensures kept { 0 < result → packet.new ≡ packet.old }
    ensures long { MAX_FRAME < length frame.now → (result ≡ NARC_TOO_LONG) × (at.new ≡ 0) }
{
    *at = 0;
    if is_too_long(frame) {
        return NARC_TOO_LONG;
    }
    match decode(frame) {
        Ok(read) => {
            *packet = tell(&read, frame);
            0
        }
        Err(refusal) => {
            *at = refusal.at;
            u32::from(refusal.field.number())
        }
    }
}

/// Writes the frame of a packet, whose options and payload lie in `octets`, into the front of a room, and tells how many
/// octets it has, where the room has fewer too.
#[unsafe(no_mangle)]
pub extern "C" fn narc_encode(
    packet: &NarcPacket,
    octets: &[u8],
    room: &mut [u8],
    written: &mut usize,
) -> u32
    ensures done { (result ≡ 0) ↔ (HasFrame octets.now packet.now × (length (canonical_frame (view_in octets.now packet.now)) ≤ length room.old)) }
    ensures refused { (result ≡ NARC_NOT_WELL_FORMED) ↔ (HasFrame octets.now packet.now → ⊥) }
    ensures uncounted { result ≡ NARC_NOT_WELL_FORMED → written.new ≡ 0 }
    ensures short { (result ≡ NARC_NO_ROOM) → written.new ≡ length (canonical_frame (view_in octets.now packet.now)) }
    ensures frame { result ≡ 0 → take written.new room.new ≡ canonical_frame (view_in octets.now packet.now) }
    ensures rest { result ≡ 0 → drop written.new room.new ≡ drop written.new room.old }
    ensures unwritten { 0 < result → room.new ≡ room.old }
{
    *written = 0;
    let packet = hear(packet, octets);
    if !is_well_formed(&packet) {
        return NARC_NOT_WELL_FORMED;
    }
    let size = frame_size(&packet);
    *written = size;
    if room.len() < size || encode_frame(&packet, &mut room[..size]).is_err() {
        return NARC_NO_ROOM;
    }
    0
}

/// Assigns the fields that the packet of a frame has, in place, and mends the checksums over them: all other octets stay.
/// What `narc_judge` answers; where that is not 0, and where a value has more bits than its field, the frame stays.
#[unsafe(no_mangle)]
pub extern "C" fn narc_patch(edits: &NarcEdits, frame: &mut [u8], at: &mut u64) -> u32
    ensures judged { HaveSixBits edits.now → length frame.old ≤ MAX_FRAME → IsVerdict frame.old result at.new }
    ensures long { HaveSixBits edits.now → MAX_FRAME < length frame.old → (result ≡ NARC_TOO_LONG) × (at.new ≡ 0) }
    ensures value { (HaveSixBits edits.now → ⊥) → (result ≡ NARC_NO_VALUE) × (at.new ≡ 0) }
    ensures patched { result ≡ 0 → frame.new ≡ patched (edits_of edits.now) frame.old }
    ensures edited { result ≡ 0 → (p : PacketView) → IsFrame p frame.old → IsFrame (edited (edits_of edits.now) p) frame.new }
    ensures kept { 0 < result → frame.new ≡ frame.old }
{
    *at = 0;
    if edits.tcp_reserved > 63 || edits.tcp_flags > 63 {
        return NARC_NO_VALUE;
    }
    let answer = narc_judge(frame, at);
    if answer == 0 {
        patch_frame(&edits.to_edits(), frame);
    }
    answer
}

/// Writes the text of a packet, whose options and payload lie in `octets`, as a line without an end.
#[unsafe(no_mangle)]
pub extern "C" fn narc_text(packet: &NarcPacket, octets: &[u8], line: &mut NarcLine) -> u32
    ensures done { (result ≡ 0) ↔ HasFrame octets.now packet.now }
    ensures refused { (result ≡ NARC_NOT_WELL_FORMED) ↔ (HasFrame octets.now packet.now → ⊥) }
    ensures text { result ≡ 0 → take line.new.len line.new.octets ≡ text (view_in octets.now packet.now) }
    ensures unwritten { 0 < result → line.new.len ≡ 0 }
{
    let packet = hear(packet, octets);
    if !is_well_formed(&packet) {
        line.len = 0;
        return NARC_NOT_WELL_FORMED;
    }
    line.write(&packet);
    0
}

/// Writes the name of the field with this number into the front of a room.
#[unsafe(no_mangle)]
pub extern "C" fn narc_field_name(number: u32, room: &mut [u8], written: &mut usize) -> u32
    ensures done { (result ≡ 0) ↔ ((number < 256) × (length (field_name number) ≤ length room.old)) }
    ensures unnumbered { (result ≡ NARC_NO_FIELD) ↔ (256 ≤ number) }
    ensures uncounted { 256 ≤ number → written.new ≡ 0 }
    ensures size { number < 256 → written.new ≡ length (field_name number) }
    ensures name { result ≡ 0 → take written.new room.new ≡ field_name number }
    ensures rest { result ≡ 0 → drop written.new room.new ≡ drop written.new room.old }
    ensures unwritten { 0 < result → room.new ≡ room.old }
{
    *written = 0;
    if number > 255 {
        return NARC_NO_FIELD;
    }
    let name = field::name(Field::of(number as u8)).as_bytes();
    *written = name.len();
    if room.len() < name.len() {
        return NARC_NO_ROOM;
    }
    room[..name.len()].copy_from_slice(name);
    0
}

/// The version of these calls.
#[unsafe(no_mangle)]
pub extern "C" fn narc_version() -> u32
    ensures { result ≡ 1 }
{
    1
}
