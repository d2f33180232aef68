//! Packets that are the same, and others.
use super::{connection_request, datagram, ipv4_of, packet_of, request};
use narc_packet::{EthBody, IpBody, Ipv4, Packet};
use narc_stack::same;

/// The packet of a connection request with these options.
fn segment(options: &[u8]) -> Packet<'_> {
    packet_of(EthBody::Ip(ipv4_of(&[], connection_request(options))))
}

/// A packet whose data is kept unread.
fn raw(mf: bool) -> Packet<'static> {
    let body = IpBody::Raw {
        protocol: 253,
        payload: &[],
    };
    packet_of(EthBody::Ip(Ipv4 {
        mf,
        ..ipv4_of(&[], body)
    }))
}

#[test]
fn a_packet_is_the_same_wherever_its_octets_lie(rt: HostRuntime) {
    let one = [1, 2, 3];
    let other = [1, 2, 3];
    assert!(rt; same(&datagram(&[], 1, &one), &datagram(&[], 1, &other)));
    assert!(rt; same(&request(), &request()));
}

#[test]
fn octets_behind_the_end_of_the_options_play_no_part(rt: HostRuntime) {
    assert!(rt; same(&datagram(&[1], 1, &[]), &datagram(&[1, 0, 7], 1, &[])));
    assert!(rt; same(&segment(&[2, 4, 5, 180]), &segment(&[2, 4, 5, 180, 0])));
}

#[test]
fn a_packet_with_another_number_or_option_or_octet_is_another(rt: HostRuntime) {
    let packet = datagram(&[1], 1, &[9]);
    assert!(rt; !same(&packet, &datagram(&[1], 2, &[9])));
    assert!(rt; !same(&packet, &datagram(&[1, 1], 1, &[9])));
    assert!(rt; !same(&packet, &datagram(&[1], 1, &[8])));
    assert!(rt; !same(&packet, &datagram(&[1], 1, &[9, 9])));
    assert!(rt; !same(&packet, &request()));
    assert!(rt; !same(&segment(&[2, 4, 5, 180]), &segment(&[])));
    assert!(rt; !same(&raw(false), &raw(true)));
}
