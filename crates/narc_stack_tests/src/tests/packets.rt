//! Frames and the packets that they are frames of.
ghost use Rattle.std.specs.Prelude.{◌≤◌, length};

use super::{
    SEGMENT, connection_request, datagram, datagram_with, ipv4_of, is_frame_of, packet_of, refuses,
    request, request_with,
};
use narc_packet::{EthBody, IpBody, Ipv4, Udp, field};
use narc_samples::{ARP_REQUEST, CONNECTION_REQUEST, DATAGRAM, ODD_DATAGRAM, UNREAD_TYPE};

#[test]
fn an_arp_packet_is_read_with_any_padding_and_without(rt: HostRuntime) {
    assert!(rt; is_frame_of(&ARP_REQUEST, &request()));
    assert!(rt; is_frame_of(&ARP_REQUEST[..42], &request()));
}

#[test]
fn an_arp_packet_of_other_networks_is_refused(rt: HostRuntime) {
    assert!(rt; refuses(&request_with(15, 6), field::ARP_HARDWARE, 14));
    assert!(rt; refuses(&request_with(17, 1), field::ARP_PROTOCOL, 16));
    assert!(rt; refuses(&request_with(18, 8), field::ARP_HARDWARE_SIZE, 18));
    assert!(rt; refuses(&request_with(19, 16), field::ARP_PROTOCOL_SIZE, 19));
}

#[test]
fn data_of_another_type_is_kept_unread(rt: HostRuntime) {
    let packet = packet_of(EthBody::Other {
        ether_type: 0x88b5,
        payload: &[0],
    });
    assert!(rt; is_frame_of(&UNREAD_TYPE, &packet));
}

#[test]
fn a_datagram_is_read(rt: HostRuntime) {
    assert!(rt; is_frame_of(&DATAGRAM, &datagram(&[], 1, &[])));
}

#[test]
fn either_zero_of_a_header_checksum_is_read(rt: HostRuntime) {
    let mut frame = DATAGRAM;
    frame[18] = 0x66;
    frame[19] = 0xcf;
    let udp = Udp {
        sport: 1,
        dport: 2,
        payload: &[],
    };
    let packet = packet_of(EthBody::Ip(Ipv4 {
        id: 0x66cf,
        ..ipv4_of(&[], IpBody::Udp(udp))
    }));
    for sum in [0, 0xff] {
        frame[24] = sum;
        frame[25] = sum;
        assert!(rt; is_frame_of(&frame, &packet));
    }
}

#[test]
fn a_datagram_is_read_without_a_checksum_and_with_all_ones(rt: HostRuntime) {
    let mut frame = DATAGRAM;
    frame[34] = 0xeb;
    frame[35] = 0xd9;
    for sum in [0, 0xff] {
        frame[40] = sum;
        frame[41] = sum;
        assert!(rt; is_frame_of(&frame, &datagram(&[], 60377, &[])));
    }
}

#[test]
fn a_header_checksum_off_by_one_is_refused(rt: HostRuntime) {
    assert!(rt; refuses(&datagram_with(25, 0xce), field::IPV4_CHECKSUM, 24));
    assert!(rt; refuses(&datagram_with(17, 27), field::IPV4_CHECKSUM, 24));
    assert!(rt; refuses(&datagram_with(17, 29), field::IPV4_TOTAL_LENGTH, 16));
    assert!(rt; refuses(&datagram_with(41, 0xd9), field::UDP_CHECKSUM, 40));
}

#[test]
fn another_version_or_length_or_flag_is_refused(rt: HostRuntime) {
    assert!(rt; refuses(&datagram_with(14, 0x65), field::IPV4_VERSION, 14));
    assert!(rt; refuses(&datagram_with(14, 0x44), field::IPV4_HEADER_LENGTH, 14));
    assert!(rt; refuses(&datagram_with(20, 0x80), field::IPV4_FLAGS, 20));
}

/// The datagram behind an options area of 4 octets, with this header checksum.
fn datagram_behind(area: [u8; 4], high: u8, low: u8) -> [u8; 46] {
    let mut frame = [0; 46];
    for at in 0..34 {
        frame[at] = DATAGRAM[at];
    }
    for at in 34..42 {
        frame[at + 4] = DATAGRAM[at];
    }
    for at in 0..4 {
        frame[at + 34] = area[at];
    }
    frame[14] = 0x46;
    frame[17] = 32;
    frame[24] = high;
    frame[25] = low;
    frame
}

#[test]
fn options_of_ipv4_are_read_up_to_their_end(rt: HostRuntime) {
    let alert = datagram_behind([0x94, 4, 0, 0], 0xd1, 0xc6);
    assert!(rt; is_frame_of(&alert, &datagram(&[0x94, 4, 0, 0], 1, &[])));
    let stamp = datagram_behind([1, 0x44, 3, 0], 0x61, 0x87);
    assert!(rt; is_frame_of(&stamp, &datagram(&[1, 0x44, 3, 0], 1, &[])));
    assert!(rt;
        refuses(
            &datagram_behind([1, 1, 1, 0x44], 0x61, 0x87),
            field::IPV4_OPTIONS,
            37
        )
    );
}

#[test]
fn octets_behind_the_end_of_the_options_are_free(rt: HostRuntime) {
    let mut frame = [0xaa; 82];
    for at in 0..34 {
        frame[at] = DATAGRAM[at];
    }
    for at in 34..42 {
        frame[at + 40] = DATAGRAM[at];
    }
    frame[14] = 0x4f;
    frame[17] = 68;
    frame[24] = 0xb1;
    frame[25] = 0x52;
    frame[34] = 0;
    assert!(rt; is_frame_of(&frame, &datagram(&[], 1, &[])));
}

#[test]
fn data_of_a_fragment_is_kept_unread(rt: HostRuntime) {
    let mut frame = DATAGRAM;
    frame[20] = 0x20;
    frame[24] = 0x46;
    let raw = IpBody::Raw {
        protocol: 17,
        payload: &[0, 1, 0, 2, 0, 8, 0xeb, 0xd8],
    };
    let packet = packet_of(EthBody::Ip(Ipv4 {
        mf: true,
        ..ipv4_of(&[], raw)
    }));
    assert!(rt; is_frame_of(&frame, &packet));
}

#[test]
fn a_segment_is_read_without_the_padding_behind_it(rt: HostRuntime) {
    let request = connection_request(&[2, 4, 5, 0xb4]);
    let packet = packet_of(EthBody::Ip(ipv4_of(&[], request)));
    assert!(rt; is_frame_of(&CONNECTION_REQUEST, &packet));
}

#[test]
fn a_segment_is_read_with_its_options(rt: HostRuntime) {
    let packet = packet_of(EthBody::Ip(Ipv4 {
        df: true,
        ..ipv4_of(&[], connection_request(&SEGMENT[54..]))
    }));
    assert!(rt; is_frame_of(&SEGMENT, &packet));
}

/// The datagram's frame with 2 octets behind it, of this total length, UDP length and checksums.
fn datagram_before(
    behind: [u8; 2],
    total: u8,
    header_sum: u8,
    length: u8,
    sum: [u8; 2],
) -> [u8; 44] {
    let mut frame = [0; 44];
    for at in 0..42 {
        frame[at] = DATAGRAM[at];
    }
    frame[17] = total;
    frame[25] = header_sum;
    frame[39] = length;
    frame[40] = sum[0];
    frame[41] = sum[1];
    frame[42] = behind[0];
    frame[43] = behind[1];
    frame
}

#[test]
fn an_odd_octet_of_data_is_summed(rt: HostRuntime) {
    assert!(rt; is_frame_of(&ODD_DATAGRAM, &datagram(&[], 1, &[0xff])));
    let padded = datagram_before([0xff, 0], 29, 0xce, 9, [0xec, 0xd5]);
    assert!(rt; is_frame_of(&padded, &datagram(&[], 1, &[0xff])));
}

#[test]
fn octets_behind_a_datagram_are_free(rt: HostRuntime) {
    let frame = datagram_before([0xbe, 0xef], 30, 0xcd, 8, [0xeb, 0xd8]);
    assert!(rt; is_frame_of(&frame, &datagram(&[], 1, &[])));
}

#[test]
fn a_udp_length_below_the_header_or_past_the_data_is_refused(rt: HostRuntime) {
    assert!(rt; refuses(&datagram_with(39, 7), field::UDP_LENGTH, 38));
    assert!(rt; refuses(&datagram_with(39, 9), field::UDP_LENGTH, 38));
}

/// The segment with another octet.
fn segment_with(at: usize, octet: u8) -> [u8; 74]
    requires { at ≤ 73 }
{
    let mut octets = SEGMENT;
    octets[at] = octet;
    octets
}

#[test]
fn a_tcp_offset_below_the_header_or_past_the_data_is_refused(rt: HostRuntime) {
    assert!(rt; refuses(&segment_with(46, 0x40), field::TCP_OFFSET, 46));
    assert!(rt; refuses(&segment_with(46, 0xb0), field::TCP_OFFSET, 46));
    assert!(rt; refuses(&segment_with(46, 0xf0), field::TCP_OFFSET, 46));
    assert!(rt; refuses(&segment_with(46, 0x50), field::TCP_CHECKSUM, 50));
    assert!(rt; refuses(&segment_with(55, 1), field::TCP_OPTIONS, 54));
    assert!(rt; refuses(&segment_with(72, 4), field::TCP_OPTIONS, 71));
}
