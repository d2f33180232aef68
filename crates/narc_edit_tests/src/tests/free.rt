//! Each name of the table, on frames that are full of free choices. The expected sums were computed from nothing, outside.
ghost use Rattle.std.specs.Prelude.{◌≡◌, ◌+◌, ◌≤◌, length};

use super::{FREE, patched};
use narc_samples::ARP_REQUEST;
use std::alloc::Global;
use std::test::Fail;

/// A segment with one octet of data, full of free choices.
const FREE_SEGMENT: [u8; 66] = [
    2, 0, 0, 0, 0, 0xaa, // destination
    2, 0, 0, 0, 0, 0xbb, // source
    8, 0, // type: IPv4
    0x46, 0x12, 0, 49, // version and header length, type of service, total length
    0x12, 0x34, 0x40, 0, // identification, flags and offset
    64, 6, 0x33, 0xd1, // time to live, protocol: TCP, checksum
    10, 0, 0, 1, // source
    10, 0, 0, 2, // destination
    1, 0, 0xde, 0xad, // no operation, end of options, and two octets behind it
    4, 1, 0, 80, // ports
    0, 0, 0, 1, // sequence
    0, 0, 0, 2, // acknowledgment
    0x6f, 0xd2, 0x20, 0, // offset, reserved bits, flags, window
    0x98, 0xbf, 0, 7, // checksum and urgent pointer
    1, 0, 0xbe, 0xef, // no operation, end of options, and two octets behind it
    0xff, // data
    0xaa, 0xaa, 0xaa, // padding
];

/// Writes a field into its place.
fn put(octets: &mut [u8], at: usize, field: &[u8])
    requires { at + length field.now ≤ length octets.old }
    ensures { length octets.new ≡ length octets.old }
{
    octets[at..at + field.len()].copy_from_slice(field);
}

/// The ARP packet becomes by the word what it is with these octets from a place on.
fn arp_becomes(alloc: Global, word: &str, at: usize, field: &[u8]) -> Result<bool, Fail>
    requires { at + length field.now ≤ 60 }
{
    let mut edited = ARP_REQUEST;
    put(&mut edited, at, field);
    Ok(patched(alloc, ARP_REQUEST, &[word])? == edited)
}

/// The datagram becomes by the word what it is with these octets from a place on, and these sums of its header and of all.
fn datagram_becomes(
    alloc: Global,
    word: &str,
    at: usize,
    field: &[u8],
    header: [u8; 2],
    datagram: [u8; 2],
) -> Result<bool, Fail>
    requires { at + length field.now ≤ 56 }
{
    let mut edited = FREE;
    put(&mut edited, at, field);
    put(&mut edited, 24, &header);
    put(&mut edited, 44, &datagram);
    Ok(patched(alloc, FREE, &[word])? == edited)
}

/// The same of the segment.
fn segment_becomes(
    alloc: Global,
    word: &str,
    at: usize,
    field: &[u8],
    header: [u8; 2],
    segment: [u8; 2],
) -> Result<bool, Fail>
    requires { at + length field.now ≤ 66 }
{
    let mut edited = FREE_SEGMENT;
    put(&mut edited, at, field);
    put(&mut edited, 24, &header);
    put(&mut edited, 54, &segment);
    Ok(patched(alloc, FREE_SEGMENT, &[word])? == edited)
}

#[test]
fn an_arp_packet_keeps_its_padding(rt: HostRuntime) -> Result<(), Fail> {
    let alloc = rt.alloc();
    assert!(rt; arp_becomes(alloc, "eth.dst=0a0b0c0d0e0f", 0, &[10, 11, 12, 13, 14, 15])?);
    assert!(rt; arp_becomes(alloc, "eth.src=020406080a0c", 6, &[2, 4, 6, 8, 10, 12])?);
    assert!(rt; arp_becomes(alloc, "arp.op=770", 20, &[3, 2])?);
    assert!(rt; arp_becomes(alloc, "arp.sha=0a0b0c0d0e0f", 22, &[10, 11, 12, 13, 14, 15])?);
    assert!(rt; arp_becomes(alloc, "arp.spa=192.0.2.1", 28, &[192, 0, 2, 1])?);
    assert!(rt; arp_becomes(alloc, "arp.tha=020406080a0c", 32, &[2, 4, 6, 8, 10, 12])?);
    assert!(rt; arp_becomes(alloc, "arp.tpa=192.0.2.2", 38, &[192, 0, 2, 2])?);
    Ok(())
}

#[test]
fn a_datagram_keeps_its_free_choices(rt: HostRuntime) -> Result<(), Fail> {
    let alloc = rt.alloc();
    assert!(rt; datagram_becomes(alloc, "ip.tos=40", 15, &[0x28], [0x85, 0xf2], [0xec, 0xd5])?);
    assert!(rt;
        datagram_becomes(
            alloc,
            "ip.id=4660",
            18,
            &[0x12, 0x34],
            [0x73, 0xe6],
            [0xec, 0xd5]
        )?
    );
    assert!(rt; datagram_becomes(alloc, "ip.df=1", 20, &[0x40], [0x46, 0x1a], [0xec, 0xd5])?);
    assert!(rt; datagram_becomes(alloc, "ip.ttl=63", 22, &[0x3f], [0x87, 0x1a], [0xec, 0xd5])?);
    assert!(rt;
        datagram_becomes(
            alloc,
            "ip.src=192.0.2.1",
            26,
            &[0xc0, 0, 2, 1],
            [0xce, 0x19],
            [0x34, 0xd5]
        )?
    );
    assert!(rt;
        datagram_becomes(
            alloc,
            "ip.dst=192.0.2.2",
            30,
            &[0xc0, 0, 2, 2],
            [0xce, 0x19],
            [0x34, 0xd5]
        )?
    );
    assert!(rt;
        datagram_becomes(
            alloc,
            "udp.sport=5353",
            38,
            &[0x14, 0xe9],
            [0x86, 0x1a],
            [0xd7, 0xed]
        )?
    );
    assert!(rt;
        datagram_becomes(
            alloc,
            "udp.dport=53",
            40,
            &[0, 0x35],
            [0x86, 0x1a],
            [0xec, 0xa2]
        )?
    );
    Ok(())
}

#[test]
fn a_segment_in_an_edited_packet_keeps_its_free_choices(rt: HostRuntime) -> Result<(), Fail> {
    let alloc = rt.alloc();
    assert!(rt; segment_becomes(alloc, "ip.tos=40", 15, &[0x28], [0x33, 0xbb], [0x98, 0xbf])?);
    assert!(rt;
        segment_becomes(
            alloc,
            "ip.id=4661",
            18,
            &[0x12, 0x35],
            [0x33, 0xd0],
            [0x98, 0xbf]
        )?
    );
    assert!(rt; segment_becomes(alloc, "ip.df=0", 20, &[0], [0x73, 0xd1], [0x98, 0xbf])?);
    assert!(rt; segment_becomes(alloc, "ip.ttl=63", 22, &[0x3f], [0x34, 0xd1], [0x98, 0xbf])?);
    assert!(rt;
        segment_becomes(
            alloc,
            "ip.src=192.0.2.1",
            26,
            &[0xc0, 0, 2, 1],
            [0x7b, 0xd0],
            [0xe0, 0xbe]
        )?
    );
    assert!(rt;
        segment_becomes(
            alloc,
            "ip.dst=192.0.2.2",
            30,
            &[0xc0, 0, 2, 2],
            [0x7b, 0xd0],
            [0xe0, 0xbe]
        )?
    );
    Ok(())
}

#[test]
fn a_segment_with_edited_ports_and_numbers_keeps_its_free_choices(
    rt: HostRuntime,
) -> Result<(), Fail> {
    let alloc = rt.alloc();
    assert!(rt;
        segment_becomes(
            alloc,
            "tcp.sport=5353",
            38,
            &[0x14, 0xe9],
            [0x33, 0xd1],
            [0x87, 0xd7]
        )?
    );
    assert!(rt;
        segment_becomes(
            alloc,
            "tcp.dport=443",
            40,
            &[1, 0xbb],
            [0x33, 0xd1],
            [0x97, 0x54]
        )?
    );
    assert!(rt;
        segment_becomes(
            alloc,
            "tcp.seq=305419896",
            42,
            &[0x12, 0x34, 0x56, 0x78],
            [0x33, 0xd1],
            [0x30, 0x14]
        )?
    );
    assert!(rt;
        segment_becomes(
            alloc,
            "tcp.ack=2271560481",
            46,
            &[0x87, 0x65, 0x43, 0x21],
            [0x33, 0xd1],
            [0xce, 0x3a]
        )?
    );
    Ok(())
}

#[test]
fn a_segment_with_edited_bits_and_window_keeps_its_free_choices(
    rt: HostRuntime,
) -> Result<(), Fail> {
    let alloc = rt.alloc();
    assert!(rt;
        segment_becomes(
            alloc,
            "tcp.reserved=42",
            50,
            &[0x6a, 0x92],
            [0x33, 0xd1],
            [0x9d, 0xff]
        )?
    );
    assert!(rt;
        segment_becomes(
            alloc,
            "tcp.flags=.AP..F",
            51,
            &[0xd9],
            [0x33, 0xd1],
            [0x98, 0xb8]
        )?
    );
    assert!(rt;
        segment_becomes(
            alloc,
            "tcp.window=512",
            52,
            &[2, 0],
            [0x33, 0xd1],
            [0xb6, 0xbf]
        )?
    );
    assert!(rt;
        segment_becomes(
            alloc,
            "tcp.urgent=8",
            56,
            &[0, 8],
            [0x33, 0xd1],
            [0x98, 0xbe]
        )?
    );
    Ok(())
}
