//! The text of an option of each kind and length, read again.
ghost use Rattle.std.specs.Prelude.{◌≤◌};

use crate::tests::again::is_exact;
use crate::tests::texts::{ipv4, packet_of};
use narc_bits::MAX_FRAME;
use narc_packet::{IpBody, Tcp, TcpOptions};
use narc_text::put_packet;
use narc_world::MemorySink;
use std::alloc::Global;
use std::process::Abort;
use std::test::Fail;

/// The digits of the octets 1 to 38. An option has as many of these octets as data as it has, the first first.
const DIGITS: &[u8] =
    b"0102030405060708090a0b0c0d0e0f101112131415161718191a1b1c1d1e1f20212223242526";

/// An acknowledgment with these options.
fn acknowledgment(spelled: &[u8]) -> IpBody<'_> {
    IpBody::Tcp(Tcp {
        sport: 1025,
        dport: 80,
        seq: 1,
        ack: 0,
        reserved: 0,
        flags: 16,
        window: 8192,
        urgent: 0,
        options: TcpOptions { spelled },
        payload: &[],
    })
}

/// Whether the option of this kind with so many octets of data is told so.
fn is_word(alloc: Global, kind: u8, count: usize, word: &[u8]) -> Result<bool, Fail>
    requires { count ≤ 38 }
{
    let own: &[u8] = match (kind, count) {
        (0, _) => b"-",
        (1, _) => b"nop",
        (2, 2) => b"mss:258",
        (3, 1) => b"scale:1",
        (4, 0) => b"sackok",
        (5, 8) => b"sack:16909060-84281096",
        (5, 16) => b"sack:16909060-84281096/151653132-219025168",
        (5, 24) => b"sack:16909060-84281096/151653132-219025168/286397204-353769240",
        (5, 32) => {
            b"sack:16909060-84281096/151653132-219025168/286397204-353769240/421141276-488513312"
        }
        (8, 8) => b"ts:16909060:84281096",
        _ => return is_other_word(alloc, kind, count, word),
    };
    Ok(word == own)
}

/// Whether the option, which has no value of its own, is told so.
fn is_other_word(alloc: Global, kind: u8, count: usize, word: &[u8]) -> Result<bool, Fail>
    requires { count ≤ 38 }
{
    let front = format!(in alloc; "opt:{kind}:")?;
    let data: &[u8] = if count == 0 {
        b"-"
    } else {
        &DIGITS[..2 * count]
    };
    Ok(word.strip_prefix(front.as_bytes()) == Some(data))
}

#[test]
fn an_option_of_each_kind_and_length_has_its_word(rt: HostRuntime) -> Result<(), Fail> {
    let mut octets = [0; 40];
    for place in 2..40 {
        octets[place] = place as u8 - 1;
    }
    let front =
        b"eth 0200000000aa 0200000000bb ip4 0 0 .. 0 64 10.0.0.1 10.0.0.2 - tcp 1025 80 1 0 0 .A.... 8192 0 ";
    let mut room = vec![in rt.alloc(); 0u8; MAX_FRAME]?;
    let store = room.as_mut_slice();
    for kind in 0..=u8::MAX {
        for count in 0..=38 {
            octets[0] = kind;
            octets[1] = 2 + count as u8;
            let packet = packet_of(ipv4(&[], acknowledgment(&octets[..2 + count])));
            let mut sink = MemorySink::new(rt.alloc(), 400, &[])?;
            put_packet(&packet, &mut sink)?;
            assert!(rt; is_exact(&rt, rt.alloc(), sink.bytes(), store)?);
            let word = sink.bytes().strip_prefix(front.as_slice()).ok_or("front")?;
            let word = word.strip_suffix(b" -").ok_or("payload")?;
            assert!(rt; is_word(rt.alloc(), kind, count, word)?);
        }
    }
    Ok(())
}
