//! Trials of made packets: sizes, places and counts.
ghost use Rattle.std.specs.Prelude.{◌≡◌, ◌≤◌, length};

use super::encode;
use narc_bits::{MAX_FRAME, Steps};
use narc_trial::{MADE_OCTETS, TrialCounts, made, try_packets};
use std::marker::Brand;
use std::process::Abort;
use std::sync::ledger::{Blank, Ledger};
use std::test::Fail;

fn try_counted<L: Ledger>(
    seed: u32,
    count: u32,
    frame: &mut [u8],
    store: &mut [u8],
    blank: Blank,
) -> TrialCounts
    requires name { blank.name ≡ L.name }
    requires parts { blank.parts ≡ L.parts }
    requires one { blank.parts ≡ 1 }
    requires frame { MAX_FRAME ≤ length frame.old }
    requires store { MADE_OCTETS ≤ length store.old }
{
    let mut steps = Steps::<L>::new(blank);
    try_packets(seed, count, frame, store, &mut steps)
}

/// What becomes of so many packets from a number on.
fn counts_of(seed: u32, count: u32, frame: &mut [u8], store: &mut [u8]) -> TrialCounts
    requires frame { MAX_FRAME ≤ length frame.old }
    requires store { MADE_OCTETS ≤ length store.old }
{
    try_counted::<Brand>(seed, count, frame, store, Blank::new(1))
}

/// The frame that is tried for a packet has so many octets, and differs at one place from the one that is written.
fn expect_frame(rt: &impl Abort, frame: &mut [u8], number: u32, size: usize, place: usize)
    requires { MAX_FRAME ≤ length frame.old }
{
    let mut store = [0; MADE_OCTETS];
    let mut written = [0; 60];
    assert_eq!(rt; encode(&made(number, &mut store), &mut written), Some(size));
    assert_eq!(rt; counts_of(number, 1, frame, &mut store).octets, size as u64);
    for (at, octet) in written.iter().enumerate() {
        if at < size {
            assert_eq!(rt; *octet ^ frame[at], u8::from(at == place));
        }
    }
}

#[test]
fn frames_have_known_sizes_and_places(rt: HostRuntime) -> Result<(), Fail> {
    let mut frame = vec![in rt.alloc(); 0; MAX_FRAME]?;
    expect_frame(&rt, &mut frame, 0, 60, 12);
    expect_frame(&rt, &mut frame, 1, 15, 4);
    expect_frame(&rt, &mut frame, 2, 60, 26);
    expect_frame(&rt, &mut frame, 3, 60, 33);
    expect_frame(&rt, &mut frame, 4, 60, 40);
    expect_frame(&rt, &mut frame, 4_294_967_295, 60, 57);
    Ok(())
}

#[test]
fn few_packets_have_known_fates(rt: HostRuntime) -> Result<(), Fail> {
    let mut frame = vec![in rt.alloc(); 0; MAX_FRAME]?;
    let mut store = [0; MADE_OCTETS];
    let five = TrialCounts {
        octets: 255,
        same: 0,
        other: 3,
        refused: 2,
    };
    assert_eq!(rt; counts_of(0, 5, &mut frame, &mut store), five);
    let last = TrialCounts {
        octets: 120,
        same: 1,
        other: 1,
        refused: 0,
    };
    assert_eq!(rt; counts_of(4_294_967_295, 2, &mut frame, &mut store), last);
    Ok(())
}
