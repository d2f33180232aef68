//! Single frames.
use crate::tests::{ARP_LINE, OTHER_LINE, expect_end, zeros};
use narc_doubles::{World, end_of};
use narc_samples::{ARP_REQUEST, DATAGRAM, UNREAD_TYPE};
use std::test::Fail;

const DATAGRAM_LINE: &[u8] =
    b"ok eth 0200000000aa 0200000000bb ip4 0 0 .. 0 64 10.0.0.1 10.0.0.2 - udp 1 2 -\n";

/// A frame is told whole, its padding plays no part, and one that is cut off or wrong is refused at its first field.
#[test]
fn a_frame_is_told_or_refused_at_its_first_field(rt: HostRuntime) -> Result<(), Fail> {
    let mut hardware = ARP_REQUEST;
    hardware[15] = 6;
    let cases: [(&[u8], u8, &[u8]); 9] = [
        (&UNREAD_TYPE, 0, OTHER_LINE),
        (&[], 1, b"refused ethernet.destination 0\n"),
        (&UNREAD_TYPE[..13], 1, b"refused ethernet.type 12\n"),
        (&ARP_REQUEST, 0, ARP_LINE),
        (&ARP_REQUEST[..42], 0, ARP_LINE),
        (&hardware, 1, b"refused arp.hardware 14\n"),
        (&ARP_REQUEST[..21], 1, b"refused arp.operation 20\n"),
        (&DATAGRAM, 0, DATAGRAM_LINE),
        (&DATAGRAM[..15], 1, b"refused ipv4.tos 15\n"),
    ];
    for (frame, status, line) in cases {
        let told = end_of(rt.alloc(), &["frame"], World::of(frame))?;
        expect_end(&rt, &told, status, 0, line);
    }
    Ok(())
}

#[test]
fn the_size_of_the_pieces_plays_no_part(rt: HostRuntime) -> Result<(), Fail> {
    let pieces = [1; 15];
    let world = World {
        pieces: &pieces,
        ..World::of(&UNREAD_TYPE)
    };
    let told = end_of(rt.alloc(), &["frame"], world)?;
    expect_end(&rt, &told, 0, 0, OTHER_LINE);
    Ok(())
}

#[test]
fn the_longest_frame_is_told_and_one_octet_more_is_malformed(rt: HostRuntime) -> Result<(), Fail> {
    let zeros = zeros(rt.alloc(), 262_145)?;
    let longest = end_of(rt.alloc(), &["frame"], World::of(&zeros[1..]))?;
    let front = b"ok eth 000000000000 000000000000 other 0 ";
    let line = longest.written.bytes();
    assert_eq!(rt; longest.outcome.status, 0);
    assert_eq!(rt; line.len(), front.len() + 524_260 + 1);
    assert!(rt; line.starts_with(front));
    assert!(rt;
        line[front.len()..line.len() - 1]
            .iter()
            .all(|octet| *octet == b'0')
    );
    let longer = end_of(rt.alloc(), &["frame"], World::of(&zeros))?;
    expect_end(&rt, &longer, 3, 262_144, b"");
    Ok(())
}

#[test]
fn a_failing_pull_ends_the_run_at_the_octets_taken(rt: HostRuntime) -> Result<(), Fail> {
    let at_once = World {
        failing_pulls: &[1],
        ..World::of(&UNREAD_TYPE)
    };
    expect_end(&rt, &end_of(rt.alloc(), &["frame"], at_once)?, 5, 0, b"");
    let later = World {
        pieces: &[4, 5],
        failing_pulls: &[3],
        ..World::of(&UNREAD_TYPE)
    };
    expect_end(&rt, &end_of(rt.alloc(), &["frame"], later)?, 5, 9, b"");
    Ok(())
}

#[test]
fn a_failing_push_leaves_a_front_of_the_line(rt: HostRuntime) -> Result<(), Fail> {
    let world = World {
        failing_pushes: &[1],
        ..World::of(&UNREAD_TYPE)
    };
    let told = end_of(rt.alloc(), &["frame"], world)?;
    assert_eq!(rt; told.outcome.status, 6);
    assert_eq!(rt; told.outcome.at, 0);
    assert!(rt; OTHER_LINE.starts_with(told.written.bytes()));
    Ok(())
}
