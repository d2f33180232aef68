//! The frames that are written of packets.
ghost use Rattle.std.specs.Prelude.{◌≤◌, length};

use super::{SEGMENT, connection_request, datagram, encode, ipv4_of, packet_of, request};
use narc_packet::{EthBody, IpBody, Ipv4, Packet, is_well_formed};
use narc_samples::{ARP_REQUEST, DATAGRAM};
use narc_stack::frame_size;

/// The octets, and octets 0 behind them.
fn padded(octets: &[u8]) -> [u8; 60]
    requires { length octets.now ≤ 60 }
{
    let mut frame = [0; 60];
    frame[..octets.len()].copy_from_slice(octets);
    frame
}

/// Just these octets are written of the packet, and the rest of the room stays.
fn writes(packet: &Packet<'_>, octets: &[u8]) -> bool {
    let old = [0xaa; 80];
    let mut room = old;
    let Some(count) = encode(packet, &mut room) else {
        return false;
    };
    &room[..count] == octets && &room[count..] == &old[count..]
}

/// How many octets the frame of the packet has that is written, where it has one.
fn size_of(packet: &Packet<'_>) -> Option<usize> {
    if is_well_formed(packet) {
        Some(frame_size(packet))
    } else {
        None
    }
}

/// A packet with data of this protocol.
fn raw(mf: bool, protocol: u8, payload: &[u8]) -> Packet<'_> {
    let body = IpBody::Raw { protocol, payload };
    packet_of(EthBody::Ip(Ipv4 {
        mf,
        ..ipv4_of(&[], body)
    }))
}

#[test]
fn an_arp_packet_is_written_with_octets_0_behind_it(rt: HostRuntime) {
    assert!(rt; writes(&request(), &padded(&ARP_REQUEST[..42])));
}

#[test]
fn data_of_another_type_is_written_without_padding(rt: HostRuntime) {
    let packet = packet_of(EthBody::Other {
        ether_type: 0x88b5,
        payload: &[0],
    });
    let frame = [2, 0, 0, 0, 0, 0xaa, 2, 0, 0, 0, 0, 0xbb, 0x88, 0xb5, 0];
    assert!(rt; writes(&packet, &frame));
}

#[test]
fn a_datagram_is_written_without_octets_behind_its_data(rt: HostRuntime) {
    assert!(rt; writes(&datagram(&[], 1, &[]), &padded(&DATAGRAM)));
}

#[test]
fn a_udp_checksum_that_computes_to_0_is_written_as_all_ones(rt: HostRuntime) {
    let mut frame = padded(&DATAGRAM);
    frame[34] = 0xeb;
    frame[35] = 0xd9;
    frame[40] = 0xff;
    frame[41] = 0xff;
    assert!(rt; writes(&datagram(&[], 60377, &[]), &frame));
}

#[test]
fn a_header_checksum_that_computes_to_0_is_written_as_0(rt: HostRuntime) {
    let mut frame = padded(&DATAGRAM);
    frame[18] = 0x66;
    frame[19] = 0xcf;
    frame[24] = 0;
    frame[25] = 0;
    let packet = match datagram(&[], 1, &[]).body {
        EthBody::Ip(ip) => packet_of(EthBody::Ip(Ipv4 { id: 0x66cf, ..ip })),
        body => packet_of(body),
    };
    assert!(rt; writes(&packet, &frame));
}

#[test]
fn options_of_ipv4_are_written_in_the_shortest_area(rt: HostRuntime) {
    let mut frame = [0; 60];
    frame[..34].copy_from_slice(&DATAGRAM[..34]);
    frame[38..46].copy_from_slice(&DATAGRAM[34..]);
    frame[14] = 0x46;
    frame[17] = 32;
    frame[24] = 0x64;
    frame[25] = 0xcb;
    frame[34] = 1;
    assert!(rt; writes(&datagram(&[1], 1, &[]), &frame));
}

#[test]
fn options_of_tcp_are_written_in_the_shortest_area(rt: HostRuntime) {
    let frame = [
        2, 0, 0, 0, 0, 0xaa, 2, 0, 0, 0, 0, 0xbb, 8, 0, // Ethernet
        0x45, 0, 0, 44, 0, 0, 0, 0, 64, 6, 0x66, 0xca, 10, 0, 0, 1, 10, 0, 0, 2, // IPv4
        4, 1, 0, 80, 0, 0, 0, 1, 0, 0, 0, 0, 0x60, 2, 0x20, 0, 0x66, 0x8a, 0, 0, // TCP
        1, 0, 0, 0, // no operation, and the end of the options
        0, 0, // padding
    ];
    let packet = packet_of(EthBody::Ip(ipv4_of(&[], connection_request(&[1]))));
    assert!(rt; writes(&packet, &frame));
}

#[test]
fn a_segment_is_written_with_its_options(rt: HostRuntime) {
    let packet = packet_of(EthBody::Ip(Ipv4 {
        df: true,
        ..ipv4_of(&[], connection_request(&SEGMENT[54..]))
    }));
    assert!(rt; writes(&packet, &SEGMENT));
}

#[test]
fn a_room_of_59_octets_stays(rt: HostRuntime) {
    let packet = datagram(&[], 1, &[]);
    assert!(rt; size_of(&packet) == Some(60));
    let mut room = [0xaa; 59];
    assert!(rt; encode(&packet, &mut room).is_none());
    assert!(rt; room == [0xaa; 59]);
}

#[test]
fn raw_data_of_udp_is_written_in_a_fragment_alone(rt: HostRuntime) {
    let content = [0, 1, 0, 2, 0, 8, 0xeb, 0xd8];
    assert!(rt; size_of(&raw(false, 17, &content)).is_none());
    let mut frame = padded(&DATAGRAM);
    frame[20] = 0x20;
    frame[24] = 0x46;
    assert!(rt; writes(&raw(true, 17, &content), &frame));
}

#[test]
fn the_longest_packet_has_a_frame_of_65549_octets(rt: HostRuntime) {
    let octets = [0; 65_516];
    assert!(rt; size_of(&raw(false, 253, &octets)).is_none());
    assert!(rt; size_of(&raw(false, 253, &octets[1..])) == Some(65_549));
}
