//! Worked octets for cursors and writers.
ghost use Rattle.std.specs.Prelude.{◌≡◌, ◌+◌, ◌*◌, ◌<◌, ◌≤◌, length};

use narc_bits::{Cursor, Input, MAX_FRAME, Steps, Writer};
use std::marker::Brand;
use std::process::Abort;
use std::sync::ledger::{Blank, Ledger};

#[test]
fn a_word_crosses_octets(rt: HostRuntime) {
    take_words::<Brand>(&rt, Blank::new(1));
}

fn take_words<L: Ledger>(rt: &impl Abort, blank: Blank)
    requires name { blank.name ≡ L.name }
    requires parts { blank.parts ≡ L.parts }
    requires one { blank.parts ≡ 1 }
{
    let mut steps = Steps::<L>::new(blank);
    let octets = [0b1010_1011, 0b1100_1101];
    let mut cursor = Cursor::new(&octets);
    assert!(rt; matches!(cursor.take::<3, L>(&mut steps), Ok(0b101)));
    assert!(rt; matches!(cursor.take::<10, L>(&mut steps), Ok(0b0_1011_1100_1)));
    assert!(rt; cursor.place() == 13);
    assert!(rt; cursor.left() == 3);
    assert!(rt; cursor.take::<4, L>(&mut steps).is_err());
    assert!(rt;
        cursor.place() == 13,
        "a place stays where too few bits are left"
    );
    assert!(rt; matches!(cursor.take::<3, L>(&mut steps), Ok(0b101)));
}

#[test]
fn a_slice_has_the_octets_at_the_place(rt: HostRuntime) {
    take_slice::<Brand>(&rt, Blank::new(1));
}

fn take_slice<L: Ledger>(rt: &impl Abort, blank: Blank)
    requires name { blank.name ≡ L.name }
    requires parts { blank.parts ≡ L.parts }
    requires one { blank.parts ≡ 1 }
{
    let mut steps = Steps::<L>::new(blank);
    let octets = [1, 2, 3, 4];
    let mut cursor = Cursor::new(&octets);
    assert!(rt; matches!(cursor.take::<8, L>(&mut steps), Ok(1)));
    assert!(rt; cursor.left() == 24);
    let slice = cursor.slice(2, &mut steps);
    assert!(rt; cursor.place() == 24);
    drop(cursor);
    assert!(rt;
        slice == [2, 3].as_slice(),
        "the octets are the frame's own"
    );
}

#[test]
fn a_writer_changes_the_named_bits_only(rt: HostRuntime) {
    let mut room = [0xff; 4];
    let mut writer = Writer::new();
    writer.put::<3>(&mut room, 0b010);
    assert!(rt; room == [0b0101_1111, 0xff, 0xff, 0xff]);
    writer.put::<9>(&mut room, 0);
    assert!(rt; room == [0b0100_0000, 0b0000_1111, 0xff, 0xff]);
    writer.put::<4>(&mut room, 0b1111);
    writer.put_zeros(&mut room, 1);
    assert!(rt; room == [0b0100_0000, 0b0000_1111, 0, 0xff]);
    writer.put_slice(&mut room, &[7]);
    assert!(rt; room == [0b0100_0000, 0b0000_1111, 0, 7]);
    assert!(rt; writer.place() == 32);
}

#[test]
fn a_part_ends_where_it_was_split(rt: HostRuntime) {
    split_octets::<Brand>(&rt, Blank::new(1));
}

fn split_octets<L: Ledger>(rt: &impl Abort, blank: Blank)
    requires name { blank.name ≡ L.name }
    requires parts { blank.parts ≡ L.parts }
    requires one { blank.parts ≡ 1 }
{
    let mut steps = Steps::<L>::new(blank);
    let octets = [1, 2, 3, 4];
    let mut cursor = Cursor::new(&octets);
    assert!(rt; matches!(cursor.take::<8, L>(&mut steps), Ok(1)));
    assert!(rt; cursor.left() == 24);
    let mut before = cursor.copy();
    let mut part = cursor.split(2);
    assert!(rt; part.left() == 16);
    assert!(rt; matches!(part.take::<16, L>(&mut steps), Ok(0x0203)));
    assert!(rt;
        part.take::<1, L>(&mut steps).is_err(),
        "the fourth octet is behind the part"
    );
    assert!(rt; matches!(cursor.take::<8, L>(&mut steps), Ok(4)));
    assert!(rt; matches!(before.take::<8, L>(&mut steps), Ok(2)));
    assert!(rt; before.sum(1, 3, &mut steps) == 0x0203 + 0x0400);
}

#[test]
fn a_patch_changes_two_octets(rt: HostRuntime) {
    let mut room = [0xff; 6];
    let mut writer = Writer::new();
    writer.put_zeros(&mut room, 5);
    writer.patch16(&mut room, 1, 0x1234);
    assert!(rt; room == [0, 0x12, 0x34, 0, 0, 0xff]);
    assert!(rt; writer.place() == 40);
    assert!(rt; writer.sum(&room, 1, 4) == 0x1234);
    assert!(rt; writer.sum(&room, 0, 3) == 0x12 + 0x3400);
}

/// Octets with room for 64 bits from each of the first 16 places on.
const OCTETS: [u8; 10] = [0x9e, 0x37, 0x79, 0xb9, 0x7f, 0x4a, 0x7c, 0x15, 0xf3, 0x9c];

/// The bit at a place, 0 or 1.
fn plain_bit(octets: &[u8], place: usize) -> u64
    requires { place < 8 * length octets.now }
{
    (octets[place / 8] >> (7 - place % 8)) as u64 % 2
}

/// The number of bits in a row, one by one.
fn plain_number(octets: &[u8], place: usize, count: u32) -> u64
    requires enough { place + count ≤ 8 * length octets.now }
    requires small { length octets.now ≤ MAX_FRAME }
{
    let mut number: u64 = 0;
    for i in 0..count {
        number = number
            .wrapping_mul(2)
            .wrapping_add(plain_bit(octets, place + i as usize));
    }
    number
}

#[test]
fn every_width_is_taken_at_every_place(rt: HostRuntime) {
    take_every_width::<Brand>(&rt, Blank::new(1));
}

fn take_every_width<L: Ledger>(rt: &impl Abort, blank: Blank)
    requires name { blank.name ≡ L.name }
    requires parts { blank.parts ≡ L.parts }
    requires one { blank.parts ≡ 1 }
{
    let mut steps = Steps::<L>::new(blank);
    let octets = OCTETS;
    let mut start = Cursor::new(&octets);
    for place in 0..16 {
        assert!(rt; start.place() == place);
        for count in 1..65 {
            let taken = start.copy().take_bits(count, &mut steps).ok();
            assert!(rt; taken == Some(plain_number(&octets, place, count)));
        }
        assert!(rt; start.take::<1, L>(&mut steps).is_ok());
    }
}

#[test]
fn every_width_is_put_at_every_place(rt: HostRuntime) {
    for place in 0..16 {
        for count in 1..65 {
            put_width(&rt, place, count);
        }
    }
}

/// Bits in the place of others: each is as it was put, or as it was.
fn put_width(rt: &impl Abort, place: usize, count: u32)
    requires low { place < 16 }
    requires some { 1 ≤ count }
    requires width { count ≤ 64 }
{
    let mut room = OCTETS;
    let number = 0x2b99_2ddf_a232_49d6 >> (64 - count);
    let mut writer = Writer::new();
    if place > 0 {
        let before = plain_number(&OCTETS, 0, place as u32);
        writer.put_bits(&mut room, place as u32, before);
    }
    writer.put_bits(&mut room, count, number);
    for i in 0..80usize {
        let put = i.wrapping_sub(place);
        let bit = if put < count as usize {
            (number >> (count as usize - 1 - put)) % 2
        } else {
            plain_bit(&OCTETS, i)
        };
        assert!(rt; plain_bit(&room, i) == bit);
    }
}
