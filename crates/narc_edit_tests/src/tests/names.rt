//! Each name of the table, on packets that have the field and on packets that have not. What is edited in place is what is
//! written anew of the edited packet, but for padding.
ghost use Rattle.std.specs.Prelude.{◌≤◌};

use super::{patch, read, rewrite};
use narc_samples::{ARP_REQUEST, CONNECTION_REQUEST, DATAGRAM};
use std::alloc::Global;
use std::test::Fail;

const ETHERNET: [&str; 2] = ["eth.dst=0a0b0c0d0e0f", "eth.src=020406080a0c"];

const ARP: [&str; 5] = [
    "arp.op=770",
    "arp.sha=0a0b0c0d0e0f",
    "arp.spa=192.0.2.1",
    "arp.tha=020406080a0c",
    "arp.tpa=192.0.2.2",
];

const IPV4: [&str; 6] = [
    "ip.tos=40",
    "ip.id=4660",
    "ip.df=1",
    "ip.ttl=63",
    "ip.src=192.0.2.1",
    "ip.dst=192.0.2.2",
];

const UDP: [&str; 2] = ["udp.sport=5353", "udp.dport=53"];

const TCP: [&str; 8] = [
    "tcp.sport=5353",
    "tcp.dport=443",
    "tcp.seq=305419896",
    "tcp.ack=2271560481",
    "tcp.reserved=42",
    "tcp.flags=.AP..F",
    "tcp.window=512",
    "tcp.urgent=7",
];

/// The octets, edited in place, begin with these of the frame that is written of the edited packet, and are others than
/// before exactly where the packet has the field.
fn is_edited(
    alloc: Global,
    frame: [u8; 60],
    count: usize,
    word: &str,
    has: bool,
) -> Result<bool, Fail>
    requires { count ≤ 60 }
{
    let edits = read(alloc, &[word])?.ok_or("no assignment")?;
    let mut anew = [0; 80];
    let written = rewrite(&edits, &frame[..count], &mut anew).ok_or("no frame")?;
    let mut octets = frame;
    let patched = patch(&edits, &mut octets[..count]);
    let same = written >= count && octets[..count] == anew[..count];
    Ok(patched && same && (octets != frame) == has)
}

/// The same of each of these words.
fn are_edited(
    alloc: Global,
    frame: [u8; 60],
    count: usize,
    words: &[&str],
    has: bool,
) -> Result<bool, Fail>
    requires { count ≤ 60 }
{
    for word in words {
        if !is_edited(alloc, frame, count, word, has)? {
            return Ok(false);
        }
    }
    Ok(true)
}

#[test]
fn an_arp_packet_has_the_fields_of_arp(rt: HostRuntime) -> Result<(), Fail> {
    let alloc = rt.alloc();
    assert!(rt; are_edited(alloc, ARP_REQUEST, 42, &ETHERNET, true)?);
    assert!(rt; are_edited(alloc, ARP_REQUEST, 42, &ARP, true)?);
    assert!(rt; are_edited(alloc, ARP_REQUEST, 42, &IPV4, false)?);
    assert!(rt; are_edited(alloc, ARP_REQUEST, 42, &UDP, false)?);
    assert!(rt; are_edited(alloc, ARP_REQUEST, 42, &TCP, false)?);
    Ok(())
}

#[test]
fn a_datagram_has_the_fields_of_ipv4_and_udp(rt: HostRuntime) -> Result<(), Fail> {
    let alloc = rt.alloc();
    let mut frame = [0; 60];
    frame[..42].copy_from_slice(&DATAGRAM);
    assert!(rt; are_edited(alloc, frame, 42, &ETHERNET, true)?);
    assert!(rt; are_edited(alloc, frame, 42, &ARP, false)?);
    assert!(rt; are_edited(alloc, frame, 42, &IPV4, true)?);
    assert!(rt; are_edited(alloc, frame, 42, &UDP, true)?);
    assert!(rt; are_edited(alloc, frame, 42, &TCP, false)?);
    Ok(())
}

#[test]
fn a_segment_has_the_fields_of_ipv4_and_tcp(rt: HostRuntime) -> Result<(), Fail> {
    let alloc = rt.alloc();
    assert!(rt; are_edited(alloc, CONNECTION_REQUEST, 60, &ETHERNET, true)?);
    assert!(rt; are_edited(alloc, CONNECTION_REQUEST, 60, &ARP, false)?);
    assert!(rt; are_edited(alloc, CONNECTION_REQUEST, 60, &IPV4, true)?);
    assert!(rt; are_edited(alloc, CONNECTION_REQUEST, 60, &UDP, false)?);
    assert!(rt; are_edited(alloc, CONNECTION_REQUEST, 60, &TCP, true)?);
    Ok(())
}
