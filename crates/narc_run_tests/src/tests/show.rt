//! Captures as text.
use crate::tests::expect_end;
use narc_doubles::{CAPTURE, CAPTURE_LINES, CAPTURE_LITTLE, World, end_of};
use std::test::Fail;

/// How many octets the first two lines have.
const TWO_LINES: usize = 108;

#[test]
fn a_capture_is_listed_record_by_record_in_pieces_of_any_size(rt: HostRuntime) -> Result<(), Fail> {
    for octets in [&CAPTURE, &CAPTURE_LITTLE] {
        for pieces in [
            &[].as_slice(),
            &[1; 134].as_slice(),
            &[30, 1, 60, 2, 5].as_slice(),
        ] {
            let world = World {
                pieces,
                ..World::of(octets)
            };
            expect_end(
                &rt,
                &end_of(rt.alloc(), &["show"], world)?,
                0,
                0,
                CAPTURE_LINES,
            );
        }
    }
    Ok(())
}

#[test]
fn nanoseconds_are_told(rt: HostRuntime) -> Result<(), Fail> {
    let mut octets = CAPTURE;
    octets[2] = 0x3c;
    octets[3] = 0x4d;
    let told = end_of(rt.alloc(), &["show"], World::of(&octets[..24]))?;
    expect_end(&rt, &told, 0, 0, b"capture ns 65535\nend 0 0 0 0\n");
    Ok(())
}

#[test]
fn what_is_no_capture_or_no_record_is_bad_at_its_place(rt: HostRuntime) -> Result<(), Fail> {
    let told = end_of(rt.alloc(), &["show"], World::of(&[0; 24]))?;
    expect_end(&rt, &told, 3, 0, b"bad 0\n");
    let mut octets = CAPTURE;
    octets[33] = 4;
    octets[35] = 1;
    let told = end_of(rt.alloc(), &["show"], World::of(&octets))?;
    expect_end(&rt, &told, 3, 32, b"capture us 65535\nbad 32\n");
    Ok(())
}

#[test]
fn behind_a_bad_place_nothing_is_pulled(rt: HostRuntime) -> Result<(), Fail> {
    let mut octets = CAPTURE;
    octets[33] = 4;
    octets[35] = 1;
    let cases: [(&[u8], usize, u64, &[u8]); 2] = [
        (&[0; 134], 24, 0, b"bad 0\n"),
        (&octets, 40, 32, b"capture us 65535\nbad 32\n"),
    ];
    for (octets, first, at, written) in cases {
        // The second pull would fail.
        let world = World {
            pieces: &[first],
            failing_pulls: &[2],
            ..World::of(octets)
        };
        expect_end(&rt, &end_of(rt.alloc(), &["show"], world)?, 3, at, written);
    }
    Ok(())
}

/// How many octets all lines but the last have.
const FOUR_LINES: usize = 169;

#[test]
fn lines_are_written_before_a_pull_that_may_wait(rt: HostRuntime) -> Result<(), Fail> {
    // The first pull gives the header and the first record, the second the other records, and the third finds the end.
    for (push, start, end) in [
        (1, 0, TWO_LINES),
        (2, TWO_LINES, FOUR_LINES),
        (3, FOUR_LINES, CAPTURE_LINES.len()),
    ] {
        let world = World {
            pieces: &[82],
            failing_pushes: &[push],
            ..World::of(&CAPTURE)
        };
        let told = end_of(rt.alloc(), &["show"], world)?;
        expect_end(
            &rt,
            &told,
            6,
            0,
            &CAPTURE_LINES[..start + (end - start) / 2],
        );
    }
    Ok(())
}
