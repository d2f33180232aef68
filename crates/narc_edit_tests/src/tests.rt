//! Assignments as words, and frames of packets that they edit.
ghost use Rattle.std.specs.Prelude.{◌≡◌, ◌≤◌, length, true, IfSome};
ghost use Rattle.narc_packet.specs.PacketView.{PacketView};
ghost use Rattle.narc_packet.specs.Frame.{IsFrame};
ghost use Rattle.narc_packet.specs.Answer.{IsOnlyAnswer};
ghost use Rattle.narc_stack.specs.AnswerView.{answer_view};

mod free;
mod names;
mod octets;
mod words;

use narc_bits::{MAX_FRAME, Steps};
use narc_edit::{Edits, SixBits};
use narc_packet::{Packet, is_well_formed};
use narc_patch::patch_frame;
use narc_stack::{Refusal, decode_frame, encode_frame};
use narc_world::Words;
use std::alloc::Global;
use std::marker::Brand;
use std::sync::ledger::{Blank, Ledger};
use std::test::Fail;

/// A datagram with one octet of data, full of free choices.
const FREE: [u8; 56] = [
    2, 0, 0, 0, 0, 0xaa, // destination
    2, 0, 0, 0, 0, 0xbb, // source
    8, 0, // type: IPv4
    0x46, 0, 0, 35, // version and header length, type of service, total length
    0, 0, 0, 0, // identification, flags and offset
    64, 17, 0x86, 0x1a, // time to live, protocol: UDP, checksum
    10, 0, 0, 1, // source
    10, 0, 0, 2, // destination
    1, 0, 0xde, 0xad, // no operation, end of options, and two octets behind it
    0, 1, 0, 2, // ports
    0, 9, 0xec, 0xd5, // length and checksum
    0xff, // data
    0xee, 0xee, // surplus
    0xaa, 0xaa, 0xaa, 0xaa, 0xaa, 0xaa, 0xaa, // padding
];

/// The assignments of these words, if they are some.
fn read(alloc: Global, assignments: &[&str]) -> Result<Option<Edits>, Fail> {
    let mut words = Words::new(alloc);
    for word in assignments {
        words.add(word)?;
    }
    Ok(Edits::read(&words, 0))
}

fn decode_counted<'a, L: Ledger>(octets: &'a [u8], blank: Blank) -> Result<Packet<'a>, Refusal>
    requires small { length octets.now ≤ MAX_FRAME }
    requires name { blank.name ≡ L.name }
    requires parts { blank.parts ≡ L.parts }
    requires one { blank.parts ≡ 1 }
    ensures { IsOnlyAnswer octets.now (answer_view result) }
{
    let mut steps: Steps<L> = Steps::new(blank);
    decode_frame(octets, &mut steps)
}

fn decode<'a>(octets: &'a [u8]) -> Result<Packet<'a>, Refusal>
    requires { length octets.now ≤ MAX_FRAME }
    ensures { IsOnlyAnswer octets.now (answer_view result) }
{
    decode_counted::<Brand>(octets, Blank::new(1))
}

/// Whether the octets are a frame.
fn is_frame(octets: &[u8]) -> bool
    requires { length octets.now ≤ MAX_FRAME }
    ensures { result ≡ true → (p : PacketView) × IsFrame p octets.now }
{
    match decode(octets) {
        Ok(_) => true,
        Err(_) => false,
    }
}

/// Edits the octets in place where they are a frame, and says whether they are.
fn patch(edits: &Edits, octets: &mut [u8]) -> bool
    requires { length octets.old ≤ MAX_FRAME }
    ensures { length octets.new ≡ length octets.old }
{
    if !is_frame(octets) {
        return false;
    }
    patch_frame(edits, octets);
    true
}

/// The octets after these assignments in place.
fn patched<const N: usize>(alloc: Global, octets: [u8; N], words: &[&str]) -> Result<[u8; N], Fail>
    requires { N ≤ 66 }
{
    let edits = read(alloc, words)?.ok_or("no assignments")?;
    let mut edited = octets;
    if !patch(&edits, &mut edited) {
        return Err("no frame")?;
    }
    Ok(edited)
}

/// Writes the frame of the edited packet into the front of the room, and answers how many octets it has; none where the
/// octets are no frame, or there is no room.
fn rewrite(edits: &Edits, octets: &[u8], room: &mut [u8]) -> Option<usize>
    requires small { length octets.now ≤ MAX_FRAME }
    requires room { length room.old ≤ MAX_FRAME }
    ensures { IfSome result (λ n. n ≤ length room.new) }
{
    let Ok(mut packet) = decode(octets) else {
        return None;
    };
    edits.apply(&mut packet);
    if is_well_formed(&packet) {
        encode_frame(&packet, room).ok()
    } else {
        None
    }
}
