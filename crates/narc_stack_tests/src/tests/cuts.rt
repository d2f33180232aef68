//! Frames that end early, octet by octet.

use super::{SEGMENT, refuses};
use narc_packet::field;
use narc_samples::{ARP_REQUEST, DATAGRAM};

/// Where a frame of IPv4 is refused that ends behind so many octets: the field, and its place.
fn refused_at(octets: usize) -> (u8, u64) {
    match octets {
        0..6 => (field::ETHERNET_DESTINATION, 0),
        6..12 => (field::ETHERNET_SOURCE, 6),
        12..14 => (field::ETHERNET_TYPE, 12),
        14 => (field::IPV4_VERSION, 14),
        15 => (field::IPV4_TOS, 15),
        _ => (field::IPV4_TOTAL_LENGTH, 16),
    }
}

/// Where a frame of ARP is refused that ends behind so many octets.
fn arp_refused_at(octets: usize) -> (u8, u64) {
    match octets {
        0..14 => refused_at(octets),
        14..16 => (field::ARP_HARDWARE, 14),
        16..18 => (field::ARP_PROTOCOL, 16),
        18 => (field::ARP_HARDWARE_SIZE, 18),
        19 => (field::ARP_PROTOCOL_SIZE, 19),
        20..22 => (field::ARP_OPERATION, 20),
        22..28 => (field::ARP_SENDER_HARDWARE, 22),
        28..32 => (field::ARP_SENDER_PROTOCOL, 28),
        32..38 => (field::ARP_TARGET_HARDWARE, 32),
        _ => (field::ARP_TARGET_PROTOCOL, 38),
    }
}

#[test]
fn a_frame_of_arp_that_ends_early_is_refused(rt: HostRuntime) {
    for octets in 0..42 {
        let (field, at) = arp_refused_at(octets);
        assert!(rt; refuses(&ARP_REQUEST[..octets], field, at));
    }
}

#[test]
fn a_frame_of_a_datagram_that_ends_early_is_refused(rt: HostRuntime) {
    for octets in 0..42 {
        let (field, at) = refused_at(octets);
        assert!(rt; refuses(&DATAGRAM[..octets], field, at));
    }
}

#[test]
fn a_frame_of_a_segment_that_ends_early_is_refused(rt: HostRuntime) {
    for octets in 0..74 {
        let (field, at) = refused_at(octets);
        assert!(rt; refuses(&SEGMENT[..octets], field, at));
    }
}

#[test]
fn a_datagram_that_its_packet_ends_early_is_refused(rt: HostRuntime) {
    let mut frame = DATAGRAM;
    for octets in 0..8u8 {
        frame[17] = 20 + octets;
        frame[25] = 0xcf + (8 - octets);
        let (field, at) = match octets {
            0..2 => (field::UDP_SOURCE, 34),
            2..4 => (field::UDP_DESTINATION, 36),
            _ => (field::UDP_LENGTH, 38),
        };
        assert!(rt; refuses(&frame, field, at));
    }
}

#[test]
fn a_segment_that_its_packet_ends_early_is_refused(rt: HostRuntime) {
    let mut frame = SEGMENT;
    for octets in 0..40u8 {
        frame[17] = 20 + octets;
        frame[25] = 0xba + (40 - octets);
        let (field, at) = match octets {
            0..2 => (field::TCP_SOURCE, 34),
            2..4 => (field::TCP_DESTINATION, 36),
            4..8 => (field::TCP_SEQUENCE, 38),
            8..12 => (field::TCP_ACKNOWLEDGMENT, 42),
            _ => (field::TCP_OFFSET, 46),
        };
        assert!(rt; refuses(&frame, field, at));
    }
}
