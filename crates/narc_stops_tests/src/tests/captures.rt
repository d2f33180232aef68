//! Captures whose lengths lie, and records of every length.
use crate::tests::frames::{FIVE_OPTIONS, FIVE_OPTIONS_FRONTS};
use crate::tests::row_of;
use narc_doubles::{CAPTURE, World, end_of};
use std::alloc::{AllocError, Global};
use std::test::Fail;

/// Puts a record behind a capture, of which so many octets were captured and as many had come.
fn put_record(capture: &mut Vec<u8>, captured: u32, octets: &[u8]) -> Result<(), AllocError> {
    capture.extend_from_slice(&[0; 8])?;
    capture.extend_from_slice(&captured.to_be_bytes())?;
    capture.extend_from_slice(&captured.to_be_bytes())?;
    capture.extend_from_slice(octets)
}

/// The connection request with the padding that gives it so many octets, or its first octets.
fn padded(alloc: Global, length: usize) -> Result<Vec<u8>, AllocError> {
    let mut frame = FIVE_OPTIONS.to_vec(alloc)?;
    frame.extend_from_slice(&[0xaa; 46])?;
    frame.truncate(length);
    Ok(frame)
}

#[test]
fn a_record_of_each_length_is_read_or_refused(rt: HostRuntime) -> Result<(), Fail> {
    let mut capture = CAPTURE[..24].to_vec(rt.alloc())?;
    let mut lines = b"capture us 65535\n".to_vec(rt.alloc())?;
    for length in 0..121 {
        put_record(&mut capture, length, &padded(rt.alloc(), length as usize)?)?;
        lines.extend_from_slice(b"rec 0 0 ")?;
        lines.extend_from_slice(row_of(&FIVE_OPTIONS_FRONTS, length as usize))?;
    }
    lines.extend_from_slice(b"end 121 47 74 0\n")?;
    let ended = end_of(rt.alloc(), &["show"], World::of(&capture))?;
    assert!(rt; ended.is(0, 0, &lines));
    Ok(())
}

/// Captured lengths in the place of 42, and the lines of `show` behind the first.
const LIES: [(u32, u64, &[u8]); 5] = [
    // What follows is read as a record of 187 octets, and as one of 47,880.
    (0, 40, b"rec 1 2 snapped 0 42\ntorn 40\n"),
    (1, 41, b"rec 1 2 snapped 1 42\ntorn 41\n"),
    // What follows is too short for a record's header.
    (27, 67, b"rec 1 2 snapped 27 42\ntorn 67\n"),
    (28, 68, b"rec 1 2 snapped 28 42\ntorn 68\n"),
    (65_535, 24, b"torn 24\n"),
];

#[test]
fn a_captured_length_that_lies_tears_the_capture(rt: HostRuntime) -> Result<(), Fail> {
    for (length, at, behind) in LIES {
        let mut capture = CAPTURE;
        capture[32..36].copy_from_slice(&length.to_be_bytes());
        let mut lines = b"capture us 65535\n".to_vec(rt.alloc())?;
        lines.extend_from_slice(behind)?;
        let ended = end_of(rt.alloc(), &["show"], World::of(&capture[..82]))?;
        assert!(rt; ended.is(3, at, &lines));
    }
    Ok(())
}

/// A capture of one record with so many octets 0.
fn with_record_of(alloc: Global, length: u32) -> Result<Vec<u8>, AllocError> {
    let mut capture = CAPTURE[..24].to_vec(alloc)?;
    put_record(&mut capture, length, &vec![in alloc; 0; length as usize]?)?;
    Ok(capture)
}

#[test]
fn a_record_has_at_most_262_144_octets(rt: HostRuntime) -> Result<(), Fail> {
    let longest = with_record_of(rt.alloc(), 262_144)?;
    let ended = end_of(rt.alloc(), &["check"], World::of(&longest))?;
    assert!(rt; ended.is(0, 0, b"packets 1\nsnapped 0\nend 1\n"));
    for job in ["rewrite", "patch"] {
        let ended = end_of(rt.alloc(), &[job], World::of(&longest))?;
        assert!(rt; ended.is(0, 0, &longest));
    }
    let longer = with_record_of(rt.alloc(), 262_145)?;
    let jobs: [(&str, &[u8]); 4] = [
        ("show", b"capture us 65535\nbad 32\n"),
        ("check", b"packets 0\nsnapped 0\nbad 32\n"),
        ("rewrite", &CAPTURE[..24]),
        ("patch", &CAPTURE[..24]),
    ];
    for (job, output) in jobs {
        let ended = end_of(rt.alloc(), &[job], World::of(&longer))?;
        assert!(rt; ended.is(3, 32, output));
    }
    Ok(())
}
