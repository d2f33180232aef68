//! Each octet of frames that are edited in place, against sums that were computed from nothing outside.
use super::{FREE, is_frame, patched};
use narc_samples::{ARP_REQUEST, CONNECTION_REQUEST, DATAGRAM};
use std::test::Fail;

/// The datagram with these octets from octet 18 on.
fn datagram(behind: [u8; 24]) -> [u8; 42] {
    let mut octets = DATAGRAM;
    octets[18..].copy_from_slice(&behind);
    octets
}

#[test]
fn a_time_to_live_is_mended_in_the_header(rt: HostRuntime) -> Result<(), Fail> {
    let behind = [
        0, 0, 0, 0, 63, 17, 0x67, 0xcf, 10, 0, 0, 1, 10, 0, 0, 2, 0, 1, 0, 2, 0, 8, 0xeb, 0xd8,
    ];
    let octets = patched(rt.alloc(), DATAGRAM, &["ip.ttl=63"])?;
    assert!(rt; octets == datagram(behind));
    Ok(())
}

#[test]
fn an_absent_checksum_stays_absent(rt: HostRuntime) -> Result<(), Fail> {
    let mut absent = DATAGRAM;
    absent[40] = 0;
    absent[41] = 0;
    let behind = [
        0, 0, 0, 0, 64, 17, 0x66, 0xce, 10, 0, 0, 1, 10, 0, 0, 3, 0, 7, 0, 2, 0, 8, 0, 0,
    ];
    let octets = patched(rt.alloc(), absent, &["ip.dst=10.0.0.3", "udp.sport=7"])?;
    assert!(rt; octets == datagram(behind));
    Ok(())
}

/// A sum that comes out as 0 is written as 0xffff in a datagram, and as 0 in the header of IPv4, and both are mended again.
#[test]
fn both_spellings_of_zero_are_written_and_mended(rt: HostRuntime) -> Result<(), Fail> {
    let ones = datagram([
        0, 0, 0, 0, 64, 17, 0x66, 0xcf, 10, 0, 0, 1, 10, 0, 0, 2, 0xeb, 0xd9, 0, 2, 0, 8, 0xff,
        0xff,
    ]);
    let zero = datagram([
        0x66, 0xcf, 0, 0, 64, 17, 0, 0, 10, 0, 0, 1, 10, 0, 0, 2, 0, 1, 0, 2, 0, 8, 0xeb, 0xd8,
    ]);
    assert!(rt; patched(rt.alloc(), DATAGRAM, &["udp.sport=60377"])? == ones);
    assert!(rt; patched(rt.alloc(), DATAGRAM, &["ip.id=26319"])? == zero);
    assert!(rt; patched(rt.alloc(), ones, &["udp.sport=1"])? == DATAGRAM);
    assert!(rt; patched(rt.alloc(), zero, &["ip.id=0"])? == DATAGRAM);
    Ok(())
}

/// In the header of IPv4 ones are a good sum, and written as 0 once they are mended, though the value is the same.
#[test]
fn a_sum_of_ones_stays_where_no_field_under_it_is_assigned(rt: HostRuntime) -> Result<(), Fail> {
    let mut ones = DATAGRAM;
    ones[18..20].copy_from_slice(&[0x66, 0xcf]);
    ones[24..26].copy_from_slice(&[0xff, 0xff]);
    let mut addressed = ones;
    addressed[5] = 9;
    let mut mended = ones;
    mended[24..26].copy_from_slice(&[0, 0]);
    assert!(rt; patched(rt.alloc(), ones, &["eth.dst=020000000009", "udp.dport=2"])? == addressed);
    assert!(rt; patched(rt.alloc(), ones, &["ip.id=26319"])? == mended);
    Ok(())
}

/// With this source the sum of the header is 0, and that of the datagram too, which is written as 0xffff.
#[test]
fn an_address_can_make_both_sums_zero(rt: HostRuntime) -> Result<(), Fail> {
    let behind = [
        0, 0, 0, 0, 64, 17, 0, 0, 10, 0, 0x66, 0xd0, 10, 0, 0, 2, 0x85, 0x0a, 0, 2, 0, 8, 0xff,
        0xff,
    ];
    let words = ["ip.src=10.0.102.208", "udp.sport=34058"];
    let octets = patched(rt.alloc(), DATAGRAM, &words)?;
    assert!(rt; octets == datagram(behind));
    Ok(())
}

#[test]
fn free_choices_stay(rt: HostRuntime) -> Result<(), Fail> {
    let mut edited = FREE;
    edited[22] = 63;
    edited[24..26].copy_from_slice(&[0x87, 0x12]);
    edited[29] = 9;
    edited[41] = 9;
    edited[44..46].copy_from_slice(&[0xec, 0xc6]);
    let words = ["ip.ttl=63", "ip.src=10.0.0.9", "udp.dport=9"];
    assert!(rt; patched(rt.alloc(), FREE, &words)? == edited);
    Ok(())
}

#[test]
fn padding_behind_an_arp_packet_stays(rt: HostRuntime) -> Result<(), Fail> {
    let octets = patched(rt.alloc(), ARP_REQUEST, &["arp.tpa=10.0.0.9"])?;
    let mut edited = ARP_REQUEST;
    edited[41] = 9;
    assert!(rt; octets == edited);
    Ok(())
}

/// The reserved bits and the flags of TCP stand in one word.
#[test]
fn two_assignments_in_one_word_are_both_mended(rt: HostRuntime) -> Result<(), Fail> {
    let words = ["tcp.reserved=63", "tcp.flags=.A..S."];
    let octets = patched(rt.alloc(), CONNECTION_REQUEST, &words)?;
    let mut edited = CONNECTION_REQUEST;
    edited[46..48].copy_from_slice(&[0x6f, 0xd2]);
    edited[50..52].copy_from_slice(&[0x50, 0x02]);
    assert!(rt; octets == edited && is_frame(&octets));
    Ok(())
}
