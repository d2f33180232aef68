//! Captures counted.
use crate::tests::{expect_end, zeros};
use narc_doubles::{CAPTURE, CAPTURE_LITTLE, World, end_of};
use std::alloc::{AllocError, Global};
use std::test::Fail;

const COUNTS: &[u8] = b"packets 1\nsnapped 1\nrefused ethernet.destination 1\nend 3\n";

#[test]
fn the_records_of_a_capture_are_counted_in_pieces_of_any_size(rt: HostRuntime) -> Result<(), Fail> {
    for octets in [&CAPTURE, &CAPTURE_LITTLE] {
        for pieces in [&[].as_slice(), &[1; 134].as_slice()] {
            let world = World {
                pieces,
                ..World::of(octets)
            };
            expect_end(&rt, &end_of(rt.alloc(), &["check"], world)?, 1, 0, COUNTS);
        }
    }
    Ok(())
}

#[test]
fn refusals_are_counted_by_field_in_the_order_of_fields(rt: HostRuntime) -> Result<(), Fail> {
    let mut octets = CAPTURE[..82].to_vec(rt.alloc())?;
    octets.extend_from_slice(&CAPTURE[24..])?;
    assert_eq!(rt; octets.len(), 192);
    // The hardware of the first record's packet.
    octets[55] = 6;
    let told = end_of(rt.alloc(), &["check"], World::of(&octets))?;
    let counts =
        b"packets 1\nsnapped 1\nrefused ethernet.destination 1\nrefused arp.hardware 1\nend 4\n";
    expect_end(&rt, &told, 1, 0, counts);
    Ok(())
}

#[test]
fn a_capture_that_is_torn_or_bad_has_status_3_though_a_record_was_refused(
    rt: HostRuntime,
) -> Result<(), Fail> {
    let told = end_of(rt.alloc(), &["check"], World::of(&CAPTURE[..133]))?;
    let torn = b"packets 1\nsnapped 0\nrefused ethernet.destination 1\ntorn 98\n";
    expect_end(&rt, &told, 3, 98, torn);
    let mut octets = CAPTURE;
    octets[107] = 5;
    let told = end_of(rt.alloc(), &["check"], World::of(&octets))?;
    let bad = b"packets 1\nsnapped 0\nrefused ethernet.destination 1\nbad 106\n";
    expect_end(&rt, &told, 3, 106, bad);
    Ok(())
}

#[test]
fn what_has_no_header_has_no_records(rt: HostRuntime) -> Result<(), Fail> {
    let told = end_of(rt.alloc(), &["check"], World::of(&CAPTURE[..23]))?;
    expect_end(&rt, &told, 3, 0, b"packets 0\nsnapped 0\ntorn 0\n");
    let told = end_of(rt.alloc(), &["check"], World::of(&CAPTURE[..24]))?;
    expect_end(&rt, &told, 0, 0, b"packets 0\nsnapped 0\nend 0\n");
    Ok(())
}

#[test]
fn the_counts_are_written_by_one_push_at_the_end(rt: HostRuntime) -> Result<(), Fail> {
    // The first push fails half way through the counts, and there is no second one to fail.
    let half = &COUNTS[..COUNTS.len() / 2];
    for (push, status, written) in [(1, 6, half), (2, 1, COUNTS)] {
        let world = World {
            pieces: &[1; 134],
            failing_pushes: &[push],
            ..World::of(&CAPTURE)
        };
        expect_end(
            &rt,
            &end_of(rt.alloc(), &["check"], world)?,
            status,
            0,
            written,
        );
    }
    Ok(())
}

/// A capture of 64 records with 262,128 octets 0 each.
fn long_capture(alloc: Global) -> Result<Vec<u8>, AllocError> {
    let frame = zeros(alloc, 262_128)?;
    let mut octets = CAPTURE[..24].to_vec(alloc)?;
    for _ in 0..64 {
        octets.extend_from_slice(&[0; 8])?;
        octets.extend_from_slice(&262_128u32.to_be_bytes())?;
        octets.extend_from_slice(&262_128u32.to_be_bytes())?;
        octets.extend_from_slice(&frame)?;
    }
    Ok(octets)
}

#[test]
fn a_capture_may_be_longer_than_all_buffers(rt: HostRuntime) -> Result<(), Fail> {
    let octets = long_capture(rt.alloc())?;
    assert_eq!(rt; octets.len(), 16_777_240);
    let told = end_of(rt.alloc(), &["check"], World::of(&octets))?;
    expect_end(&rt, &told, 0, 0, b"packets 64\nsnapped 0\nend 64\n");
    Ok(())
}
