//! Trials and the version, which read nothing.
ghost use Rattle.std.specs.Prelude.{◌≡◌, ◌≤◌, length};

use crate::tests::{USAGE_LINE, expect_end, zeros};
use narc_bits::{MAX_FRAME, Steps};
use narc_doubles::{World, end_of};
use narc_samples::UNREAD_TYPE;
use narc_stack::{decode_frame, encode_frame, frame_size, same};
use narc_trial::{Fate, MADE_OCTETS, TrialCounts, made};
use std::marker::Brand;
use std::sync::ledger::{Blank, Ledger};
use std::test::Fail;

#[test]
fn trials_of_known_packets_are_told(rt: HostRuntime) -> Result<(), Fail> {
    let five = end_of(rt.alloc(), &["trial", "0", "5"], World::of(&UNREAD_TYPE))?;
    let told = b"trial 0 5 octets 255 same 0 other 3 refused 2\n";
    expect_end(&rt, &five, 0, 0, told);
    let last = end_of(
        rt.alloc(),
        &["trial", "4294967295", "2"],
        World::of(&UNREAD_TYPE),
    )?;
    let told = b"trial 4294967295 2 octets 120 same 1 other 1 refused 0\n";
    expect_end(&rt, &last, 0, 0, told);
    let none = end_of(rt.alloc(), &["trial", "7", "0"], World::of(&UNREAD_TYPE))?;
    let told = b"trial 7 0 octets 0 same 0 other 0 refused 0\n";
    expect_end(&rt, &none, 0, 0, told);
    Ok(())
}

#[test]
fn the_version_is_told(rt: HostRuntime) -> Result<(), Fail> {
    let told = end_of(rt.alloc(), &["version"], World::of(&UNREAD_TYPE))?;
    expect_end(&rt, &told, 0, 0, b"narc 1\n");
    Ok(())
}

#[test]
fn a_failing_push_cuts_the_line(rt: HostRuntime) -> Result<(), Fail> {
    let world = World {
        failing_pushes: &[1],
        ..World::of(&UNREAD_TYPE)
    };
    let told = end_of(rt.alloc(), &["trial", "0", "5"], world)?;
    expect_end(&rt, &told, 6, 0, b"trial 0 5 octets 255 sa");
    let world = World {
        failing_pushes: &[1],
        ..World::of(&UNREAD_TYPE)
    };
    let told = end_of(rt.alloc(), &["version"], world)?;
    expect_end(&rt, &told, 6, 0, b"nar");
    Ok(())
}

#[test]
fn other_words_are_no_trial(rt: HostRuntime) -> Result<(), Fail> {
    let others: [&[&str]; 10] = [
        &["trial"],
        &["trial", "5"],
        &["trial", "05", "1"],
        &["trial", "+5", "1"],
        &["trial", " 5", "1"],
        &["trial", "", "1"],
        &["trial", "4294967296", "1"],
        &["trial", "0", "1000001"],
        &["trial", "5", "1", "1"],
        &["version", "1"],
    ];
    for words in others {
        let told = end_of(rt.alloc(), words, World::of(&UNREAD_TYPE))?;
        expect_end(&rt, &told, 2, 0, USAGE_LINE);
    }
    Ok(())
}

/// What a changed frame of a packet stands for, found beside the command.
fn fate_of<L: Ledger>(
    number: u32,
    frame: &mut [u8],
    store: &mut [u8],
    steps: &mut Steps<L>,
) -> (usize, Fate)
    requires frame { length frame.old ≡ MAX_FRAME }
    requires store { MADE_OCTETS ≤ length store.old }
{
    let packet = made(number, store);
    let size = frame_size(&packet);
    encode_frame(&packet, frame).unwrap();
    if size > 0 {
        let place = (7 * number as usize + 12) % size;
        frame[place] ^= 1;
    }
    let fate = match decode_frame(&frame[..size], steps) {
        Ok(read) if same(&read, &packet) => Fate::Same,
        Ok(_) => Fate::Other,
        Err(_) => Fate::Refused,
    };
    (size, fate)
}

fn count_frames<L: Ledger>(
    numbers: std::ops::Range<u32>,
    frame: &mut [u8],
    store: &mut [u8],
    blank: Blank,
) -> TrialCounts
    requires name { blank.name ≡ L.name }
    requires parts { blank.parts ≡ L.parts }
    requires one { blank.parts ≡ 1 }
    requires frame { length frame.old ≡ MAX_FRAME }
    requires store { MADE_OCTETS ≤ length store.old }
{
    let mut steps = Steps::<L>::new(blank);
    let mut counts = TrialCounts {
        octets: 0,
        same: 0,
        other: 0,
        refused: 0,
    };
    for number in numbers {
        let (size, fate) = fate_of(number, frame, store, &mut steps);
        counts.octets = counts.octets.saturating_add(size as u64);
        match fate {
            Fate::Same => counts.same = counts.same.saturating_add(1),
            Fate::Other => counts.other = counts.other.saturating_add(1),
            Fate::Refused => counts.refused = counts.refused.saturating_add(1),
        }
    }
    counts
}

/// The counts of a trial, found beside the command.
fn counts_of(numbers: std::ops::Range<u32>, frame: &mut [u8], store: &mut [u8]) -> TrialCounts
    requires frame { length frame.old ≡ MAX_FRAME }
    requires store { MADE_OCTETS ≤ length store.old }
{
    count_frames::<Brand>(numbers, frame, store, Blank::new(1))
}

#[test]
fn a_long_trial_tells_what_is_found_beside_it(rt: HostRuntime) -> Result<(), Fail> {
    let mut frame = zeros(rt.alloc(), MAX_FRAME)?;
    let mut store = zeros(rt.alloc(), MADE_OCTETS)?;
    let counts = counts_of(7..10_007, &mut frame, &mut store);
    let line = format!(in rt.alloc();
        "trial 7 10000 octets {} same {} other {} refused {}\n",
        counts.octets, counts.same, counts.other, counts.refused,
    )?;
    let told = end_of(
        rt.alloc(),
        &["trial", "7", "10000"],
        World::of(&UNREAD_TYPE),
    )?;
    expect_end(&rt, &told, 0, 0, line.as_bytes());
    assert!(rt; counts.same > 0 && counts.other > 0 && counts.refused > 0);
    Ok(())
}
