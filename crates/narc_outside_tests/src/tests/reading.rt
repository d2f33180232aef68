//! Texts of packets that are read, and lines that are the text of none.
ghost use Rattle.std.specs.Prelude.{◌<◌, ◌≤◌, length};

use crate::tests::again::{is_exact, is_read};
use narc_bits::MAX_FRAME;
use std::alloc::Global;
use std::process::Abort;
use std::test::Fail;

/// Texts of packets, of each kind of body, option and flag.
const TEXTS: [&[u8]; 14] = [
    b"eth 0200000000aa 0200000000bb other 34997 00",
    b"eth 000000000000 000000000000 other 0 -",
    b"eth 0200000000aa 0200000000bb arp 1 0200000000bb 10.0.0.1 000000000000 10.0.0.2",
    b"eth 0200000000aa 0200000000bb ip4 0 0 .. 0 64 10.0.0.1 10.0.0.2 - udp 1 2 -",
    b"eth 0200000000aa 0200000000bb ip4 0 26319 .. 0 64 10.0.0.1 10.0.0.2 - udp 1 2 -",
    b"eth 0200000000aa 0200000000bb ip4 0 0 .. 0 64 10.0.0.1 10.0.0.2 - udp 60377 2 ff",
    b"eth 0200000000aa 0200000000bb ip4 0 0 .. 0 64 10.0.0.1 10.0.0.2 opt:148:0000 udp 1 2 -",
    b"eth 0200000000aa 0200000000bb ip4 0 0 .. 0 64 10.0.0.1 10.0.0.2 nop,opt:68:00 udp 1 2 -",
    b"eth 0200000000aa 0200000000bb ip4 0 0 .M 8191 64 10.0.0.1 10.0.0.2 - raw 17 000100020008ebd8",
    b"eth 0200000000aa 0200000000bb ip4 0 0 .. 0 64 10.0.0.1 10.0.0.2 - tcp 1025 80 1 0 0 ....S. 8192 0 mss:1460 -",
    b"eth 0200000000aa 0200000000bb ip4 0 0 D. 0 64 10.0.0.1 10.0.0.2 - tcp 1025 80 1 0 0 ....S. 8192 0 mss:1460,sackok,ts:1:0,nop,scale:7 -",
    b"eth 0200000000aa 0200000000bb ip4 255 65535 DM 0 255 255.255.255.255 0.0.0.0 - raw 255 736576656e7465656e206f63746574732e",
    b"eth 0200000000aa 0200000000bb ip4 0 0 .. 0 64 10.0.0.1 10.0.0.2 - tcp 65535 0 4294967295 10 63 UAPRSF 0 9 nop,nop,sack:1-5/4294967295-256,opt:3:0707 736576656e7465656e206f63746574732e",
    b"eth 0200000000aa 0200000000bb ip4 0 0 .. 0 64 10.0.0.1 10.0.0.2 - tcp 1 2 3 4 5 ...... 6 7 opt:255:0102030405060708090a0b0c0d0e0f101112131415161718191a1b1c1d1e1f20212223242526 00",
];

/// Lines that are the text of no packet.
const NONE: [&[u8]; 58] = [
    b"",
    b"eth",
    b"\xff\xfe",
    // one octet that is none of the text's
    b"eth 000000000000 000000000000 other 34997 00\r",
    b"eth 000000000000 000000000000 other 34997 00\x00",
    b"eth\t000000000000 000000000000 other 34997 00",
    b"eth 000000000000 000000000000 other 34997 \xc3\xa9",
    // spaces
    b"eth 000000000000 000000000000 other 34997 00 ",
    b" eth 000000000000 000000000000 other 34997 00",
    b"eth  000000000000 000000000000 other 34997 00",
    b"eth 000000000000 000000000000 other 34997  00",
    b"eth 000000000000 000000000000 other 34997 ",
    b"eth 000000000000 000000000000 other 34997",
    b"eth 000000000000 000000000000 other 34997 00 00",
    // names
    b"Eth 000000000000 000000000000 other 34997 00",
    b"eth 000000000000 000000000000 ip6 34997 00",
    b"eth 000000000000 000000000000 other 2048 00",
    b"eth 000000000000 000000000000 other 2054 00",
    // digits
    b"eth 000000000000 000000000000 other 34997 0A",
    b"eth 000000000000 000000000000 other 34997 0g",
    b"eth 000000000000 000000000000 other 34997 000",
    b"eth 00000000000A 000000000000 other 34997 00",
    b"eth 0000000000000 000000000000 other 34997 00",
    b"eth 00:00:00:00:00:00 000000000000 other 34997 00",
    // numbers
    b"eth 000000000000 000000000000 other 034997 00",
    b"eth 000000000000 000000000000 other 00 00",
    b"eth 000000000000 000000000000 other +1 00",
    b"eth 000000000000 000000000000 other -1 00",
    b"eth 000000000000 000000000000 other 1: 00",
    b"eth 000000000000 000000000000 other 65536 00",
    b"eth 000000000000 000000000000 other 18446744073709551617 00",
    b"eth 000000000000 000000000000 other 1000000000000000000000000000000000000000000000000000000000000000000000 00",
    // a UDP datagram
    b"eth 000000000000 000000000000 ip4 256 0 .. 0 64 10.0.0.1 10.0.0.2 - udp 1 2 -",
    b"eth 000000000000 000000000000 ip4 0 0 .. 8192 64 10.0.0.1 10.0.0.2 - raw 1 -",
    b"eth 000000000000 000000000000 ip4 0 0 .D 0 64 10.0.0.1 10.0.0.2 - udp 1 2 -",
    b"eth 000000000000 000000000000 ip4 0 0 ... 0 64 10.0.0.1 10.0.0.2 - udp 1 2 -",
    b"eth 000000000000 000000000000 ip4 0 0 .. 0 64 10.0.0.256 10.0.0.2 - udp 1 2 -",
    b"eth 000000000000 000000000000 ip4 0 0 .. 0 64 10.0.0.01 10.0.0.2 - udp 1 2 -",
    b"eth 000000000000 000000000000 ip4 0 0 .. 0 64 10.0.0 10.0.0.2 - udp 1 2 -",
    b"eth 000000000000 000000000000 ip4 0 0 .. 0 64 10.0.0.1.1 10.0.0.2 - udp 1 2 -",
    b"eth 000000000000 000000000000 ip4 0 0 .. 0 64 10.0.0.1 10.0.0.2 - udp 65536 2 -",
    b"eth 000000000000 000000000000 ip4 0 0 .M 0 64 10.0.0.1 10.0.0.2 - udp 1 2 -",
    b"eth 000000000000 000000000000 ip4 0 0 .. 0 64 10.0.0.1 10.0.0.2 - raw 17 -",
    // options of IPv4
    b"eth 000000000000 000000000000 ip4 0 0 .. 0 64 10.0.0.1 10.0.0.2  udp 1 2 -",
    b"eth 000000000000 000000000000 ip4 0 0 .. 0 64 10.0.0.1 10.0.0.2 nop, udp 1 2 -",
    b"eth 000000000000 000000000000 ip4 0 0 .. 0 64 10.0.0.1 10.0.0.2 -,nop udp 1 2 -",
    b"eth 000000000000 000000000000 ip4 0 0 .. 0 64 10.0.0.1 10.0.0.2 opt:1:- udp 1 2 -",
    b"eth 000000000000 000000000000 ip4 0 0 .. 0 64 10.0.0.1 10.0.0.2 opt:256:- udp 1 2 -",
    b"eth 000000000000 000000000000 ip4 0 0 .. 0 64 10.0.0.1 10.0.0.2 mss:1460 udp 1 2 -",
    b"eth 000000000000 000000000000 ip4 0 0 .. 0 64 10.0.0.1 10.0.0.2 nop,nop,opt:148:0102030405060708090a0b0c0d0e0f101112131415161718191a1b1c1d1e1f202122232425 udp 1 2 -",
    // a TCP segment
    b"eth 000000000000 000000000000 ip4 0 0 .. 0 64 10.0.0.1 10.0.0.2 - tcp 1 2 4294967296 0 0 ...... 0 0 - -",
    b"eth 000000000000 000000000000 ip4 0 0 .. 0 64 10.0.0.1 10.0.0.2 - tcp 1 2 0 0 64 ...... 0 0 - -",
    b"eth 000000000000 000000000000 ip4 0 0 .. 0 64 10.0.0.1 10.0.0.2 - tcp 1 2 0 0 0 ....s. 0 0 - -",
    b"eth 000000000000 000000000000 ip4 0 0 .. 0 64 10.0.0.1 10.0.0.2 - tcp 1 2 0 0 0 ...... 0 0 opt:3:07 -",
    b"eth 000000000000 000000000000 ip4 0 0 .. 0 64 10.0.0.1 10.0.0.2 - tcp 1 2 0 0 0 ...... 0 0 sack: -",
    b"eth 000000000000 000000000000 ip4 0 0 .. 0 64 10.0.0.1 10.0.0.2 - tcp 1 2 0 0 0 ...... 0 0 sack:1 -",
    b"eth 000000000000 000000000000 ip4 0 0 .. 0 64 10.0.0.1 10.0.0.2 - tcp 1 2 0 0 0 ...... 0 0 sack:1-2/3-4/5-6/7-8/9-10 -",
    b"eth 000000000000 000000000000 ip4 0 0 .. 0 64 10.0.0.1 10.0.0.2 - tcp 1 2 0 0 0 ...... 0 0 sackok:1 -",
];

#[test]
fn a_text_is_read_and_no_other_line(rt: HostRuntime) -> Result<(), Fail> {
    let mut room = vec![in rt.alloc(); 0u8; MAX_FRAME]?;
    let store = room.as_mut_slice();
    for line in TEXTS {
        assert!(rt; is_exact(&rt, rt.alloc(), line, store)?);
    }
    for line in NONE {
        assert!(rt; !is_read(rt.alloc(), line)?);
    }
    Ok(())
}

/// Sees that the text with any bit of this octet changed is no text, or the text of what is read.
fn assert_fragile(
    rt: &impl Abort,
    alloc: Global,
    text: &[u8],
    at: usize,
    store: &mut [u8],
) -> Result<(), Fail>
    requires inside { at < length text.now }
    requires room { MAX_FRAME ≤ length store.old }
{
    let mut line = Vec::from_slice(alloc, text)?;
    let line = line.as_mut_slice();
    for bit in [1u8, 2, 4, 8, 16, 32, 64, 128] {
        line[at] ^= bit;
        is_exact(rt, alloc, line, store)?;
        line[at] ^= bit;
    }
    Ok(())
}

#[test]
fn a_line_that_is_cut_or_changed_is_refused_or_another_text(rt: HostRuntime) -> Result<(), Fail> {
    let mut room = vec![in rt.alloc(); 0u8; MAX_FRAME]?;
    let store = room.as_mut_slice();
    for text in TEXTS {
        for at in 0..text.len() {
            is_exact(&rt, rt.alloc(), &text[..at], store)?;
            assert_fragile(&rt, rt.alloc(), text, at, store)?;
        }
    }
    Ok(())
}

/// Whether this front and the digits of so many octets 0 are the text of a packet.
fn is_read_with(alloc: Global, front: &[u8], octets: usize) -> Result<bool, Fail>
    requires { octets ≤ 300_000 }
{
    let mut line = Vec::from_slice(alloc, front)?;
    for _ in 0..octets {
        line.extend_from_slice(b"00")?;
    }
    is_read(alloc, line.as_slice())
}

#[test]
fn a_payload_is_as_long_as_a_frame_lets_it(rt: HostRuntime) -> Result<(), Fail> {
    let longest: [(&[u8], usize); 3] = [
        (b"eth 000000000000 000000000000 other 0 ", 262_130),
        (
            b"eth 000000000000 000000000000 ip4 0 0 .. 0 64 0.0.0.0 0.0.0.0 - udp 1 2 ",
            65_507,
        ),
        (
            b"eth 000000000000 000000000000 ip4 0 0 .. 0 64 0.0.0.0 0.0.0.0 opt:148:0102030405060708090a0b0c0d0e0f101112131415161718191a1b1c1d1e1f20212223242526 tcp 1 2 0 0 0 ...... 0 0 nop -",
            0,
        ),
    ];
    for (front, octets) in longest {
        assert!(rt; is_read_with(rt.alloc(), front, octets)?);
        assert!(rt; !is_read_with(rt.alloc(), front, octets + 1)?);
    }
    Ok(())
}
