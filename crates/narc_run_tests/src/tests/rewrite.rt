//! Captures with edited packets.
use crate::tests::{USAGE_LINE, expect_end, zeros};
use narc_doubles::{CAPTURE, CAPTURE_LITTLE, World, end_of};
use narc_samples::{CONNECTION_REQUEST, DATAGRAM};
use std::alloc::Global;
use std::test::Fail;

/// The capture with operation 2 in its ARP packet, whose frame is written anew in 60 octets.
const REWRITTEN: [u8; 152] =
    *b"\xa1\xb2\xc3\xd4\x00\x02\x00\x04\x00\x00\x00\x00\x00\x00\x00\x00\x00\x00\xff\xff\x00\x00\x00\x01\
\x00\x00\x00\x01\x00\x00\x00\x02\x00\x00\x00\x3c\x00\x00\x00\x3c\
\x02\x00\x00\x00\x00\xaa\x02\x00\x00\x00\x00\xbb\x08\x06\
\x00\x01\x08\x00\x06\x04\x00\x02\x02\x00\x00\x00\x00\xbb\x0a\x00\x00\x01\x00\x00\x00\x00\x00\x00\x0a\x00\x00\x02\
\x00\x00\x00\x00\x00\x00\x00\x00\x00\x00\x00\x00\x00\x00\x00\x00\x00\x00\
\x00\x00\x00\x02\x00\x00\x00\x00\x00\x00\x00\x00\x00\x00\x00\x00\
\x00\x00\x00\x03\x00\x00\x00\x00\x00\x00\x00\x14\x00\x00\x00\x3c\
\x02\x00\x00\x00\x00\xaa\x02\x00\x00\x00\x00\xbb\x08\x06\x00\x01\x08\x00\x06\x04";

/// The same with each number of a header least significant octet first.
const REWRITTEN_LITTLE: [u8; 152] =
    *b"\xd4\xc3\xb2\xa1\x02\x00\x04\x00\x00\x00\x00\x00\x00\x00\x00\x00\xff\xff\x00\x00\x01\x00\x00\x00\
\x01\x00\x00\x00\x02\x00\x00\x00\x3c\x00\x00\x00\x3c\x00\x00\x00\
\x02\x00\x00\x00\x00\xaa\x02\x00\x00\x00\x00\xbb\x08\x06\
\x00\x01\x08\x00\x06\x04\x00\x02\x02\x00\x00\x00\x00\xbb\x0a\x00\x00\x01\x00\x00\x00\x00\x00\x00\x0a\x00\x00\x02\
\x00\x00\x00\x00\x00\x00\x00\x00\x00\x00\x00\x00\x00\x00\x00\x00\x00\x00\
\x02\x00\x00\x00\x00\x00\x00\x00\x00\x00\x00\x00\x00\x00\x00\x00\
\x03\x00\x00\x00\x00\x00\x00\x00\x14\x00\x00\x00\x3c\x00\x00\x00\
\x02\x00\x00\x00\x00\xaa\x02\x00\x00\x00\x00\xbb\x08\x06\x00\x01\x08\x00\x06\x04";

const WORDS: [&str; 3] = ["rewrite", "arp.op=2", "ip.ttl=63"];

#[test]
fn packets_are_edited_and_other_records_stay(rt: HostRuntime) -> Result<(), Fail> {
    for (octets, written) in [(&CAPTURE, &REWRITTEN), (&CAPTURE_LITTLE, &REWRITTEN_LITTLE)] {
        for pieces in [&[].as_slice(), &[1; 134].as_slice()] {
            let world = World {
                pieces,
                ..World::of(octets)
            };
            expect_end(&rt, &end_of(rt.alloc(), &WORDS, world)?, 0, 0, written);
        }
        let again = end_of(rt.alloc(), &["rewrite"], World::of(written))?;
        expect_end(&rt, &again, 0, 0, written);
    }
    Ok(())
}

#[test]
fn a_capture_in_nanoseconds_keeps_its_header(rt: HostRuntime) -> Result<(), Fail> {
    let header =
        b"\x4d\x3c\xb2\xa1\x02\x00\x04\x00\x01\x02\x03\x04\x05\x06\x07\x08\x09\x0a\x0b\x0c\x01\x00\x00\x00";
    let mut octets = CAPTURE_LITTLE;
    octets[..24].copy_from_slice(header);
    let mut written = REWRITTEN_LITTLE;
    written[..24].copy_from_slice(header);
    let told = end_of(rt.alloc(), &WORDS, World::of(&octets))?;
    expect_end(&rt, &told, 0, 0, &written);
    Ok(())
}

#[test]
fn a_bad_capture_has_the_records_before(rt: HostRuntime) -> Result<(), Fail> {
    let mut octets = CAPTURE;
    octets[107] = 5;
    let told = end_of(rt.alloc(), &WORDS, World::of(&octets))?;
    expect_end(&rt, &told, 3, 106, &REWRITTEN[..116]);
    let told = end_of(rt.alloc(), &WORDS, World::of(&[0; 24]))?;
    expect_end(&rt, &told, 3, 0, b"");
    Ok(())
}

/// A capture of one record with this frame.
fn capture_of(alloc: Global, frame: &[u8]) -> Result<Vec<u8>, Fail> {
    let size = u32::try_from(frame.len())
        .ok()
        .ok_or("too long")?
        .to_be_bytes();
    let mut octets = CAPTURE[..32].to_vec(alloc)?;
    octets.extend_from_slice(&size)?;
    octets.extend_from_slice(&size)?;
    octets.extend_from_slice(frame)?;
    Ok(octets)
}

/// A datagram with a header of 60 octets, of which 39 lie behind the end of its options, and 20 octets of padding.
const SPARE: [u8; 102] = *b"\x02\x00\x00\x00\x00\xaa\x02\x00\x00\x00\x00\xbb\x08\x00\
\x4f\x00\x00\x44\x00\x00\x00\x00\x40\x11\xb1\x52\x0a\x00\x00\x01\x0a\x00\x00\x02\x00\
\xaa\xaa\xaa\xaa\xaa\xaa\xaa\xaa\xaa\xaa\xaa\xaa\xaa\xaa\xaa\xaa\xaa\xaa\xaa\xaa\
\xaa\xaa\xaa\xaa\xaa\xaa\xaa\xaa\xaa\xaa\xaa\xaa\xaa\xaa\xaa\xaa\xaa\xaa\xaa\
\x00\x01\x00\x02\x00\x08\xeb\xd8\
\x55\x55\x55\x55\x55\x55\x55\x55\x55\x55\x55\x55\x55\x55\x55\x55\x55\x55\x55\x55";

/// A datagram with two octets behind it in its packet.
const SURPLUS: [u8; 44] = *b"\x02\x00\x00\x00\x00\xaa\x02\x00\x00\x00\x00\xbb\x08\x00\
\x45\x00\x00\x1e\x00\x00\x00\x00\x40\x11\x66\xcd\x0a\x00\x00\x01\x0a\x00\x00\x02\
\x00\x01\x00\x02\x00\x08\xeb\xd8\xbe\xef";

/// A short datagram grows to 60 octets; a header with spare octets and a surplus behind a datagram are left out.
#[test]
fn frames_without_assignments_are_made_canonical(rt: HostRuntime) -> Result<(), Fail> {
    let mut canonical = [0; 60];
    canonical[..42].copy_from_slice(&DATAGRAM);
    let cases: [(&[u8], [u8; 60]); 4] = [
        (&DATAGRAM, canonical),
        (&SPARE, canonical),
        (&SURPLUS, canonical),
        (&CONNECTION_REQUEST, CONNECTION_REQUEST),
    ];
    for (frame, written) in cases {
        let octets = capture_of(rt.alloc(), frame)?;
        let wanted = capture_of(rt.alloc(), &written)?;
        let told = end_of(rt.alloc(), &["rewrite"], World::of(&octets))?;
        expect_end(&rt, &told, 0, 0, &wanted);
    }
    Ok(())
}

#[test]
fn an_edited_packet_has_its_checksums(rt: HostRuntime) -> Result<(), Fail> {
    let octets = capture_of(rt.alloc(), &DATAGRAM)?;
    let mut frame = [0; 60];
    frame[..42].copy_from_slice(
        b"\x02\x00\x00\x00\x00\x01\x02\x00\x00\x00\x00\xbb\x08\x00\
\x45\x00\x00\x1c\x00\x00\x00\x00\x3f\x11\x67\xcf\x0a\x00\x00\x01\x0a\x00\x00\x02\
\xeb\xd9\x00\x02\x00\x08\xff\xff",
    );
    let wanted = capture_of(rt.alloc(), &frame)?;
    let words = [
        "rewrite",
        "udp.sport=60377",
        "ip.ttl=63",
        "eth.dst=020000000001",
        "tcp.sport=5",
    ];
    let told = end_of(rt.alloc(), &words, World::of(&octets))?;
    expect_end(&rt, &told, 0, 0, &wanted);
    Ok(())
}

/// Records that end right at the end of a page, one octet behind it, and far behind it.
#[test]
fn a_frame_may_be_longer_than_a_page(rt: HostRuntime) -> Result<(), Fail> {
    for size in [65_496, 65_520, 65_521, 262_144] {
        let mut frame = zeros(rt.alloc(), size)?;
        let octets = capture_of(rt.alloc(), &frame)?;
        assert!(rt; frame.len() > 5);
        frame[5] = 1;
        let wanted = capture_of(rt.alloc(), &frame)?;
        for job in ["rewrite", "patch"] {
            let words = [job, "eth.dst=000000000001"];
            let told = end_of(rt.alloc(), &words, World::of(&octets))?;
            expect_end(&rt, &told, 0, 0, &wanted);
        }
    }
    Ok(())
}

#[test]
fn words_that_are_no_assignments_are_no_job(rt: HostRuntime) -> Result<(), Fail> {
    let others: [&[&str]; 4] = [
        &["rewrite", ""],
        &["rewrite", "ip.ttl=256"],
        &["rewrite", "ip.ttl=1", "ip.ttl=1"],
        &["ip.ttl=1", "rewrite"],
    ];
    for words in others {
        // The first pull would fail.
        let world = World {
            failing_pulls: &[1],
            ..World::of(&CAPTURE)
        };
        let told = end_of(rt.alloc(), words, world)?;
        expect_end(&rt, &told, 2, 0, USAGE_LINE);
    }
    Ok(())
}
