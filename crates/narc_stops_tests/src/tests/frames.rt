//! Frames that are cut off, damaged, or lie.
use crate::tests::{Row, expect_answer, row_of};
use narc_samples::{ARP_REQUEST, CONNECTION_REQUEST, DATAGRAM};
use std::process::Abort;
use std::test::Fail;

/// A request of a TCP connection with five options (RFC 793, RFC 1323, RFC 2018), of 74 octets.
pub(crate) const FIVE_OPTIONS: [u8; 74] = [
    2, 0, 0, 0, 0, 0xaa, // destination
    2, 0, 0, 0, 0, 0xbb, // source
    8, 0, // type: IPv4
    0x45, 0, 0, 60, // version and header length, type of service, total length
    0, 0, 0x40, 0, // identification, flags and offset
    64, 6, 0x26, 0xba, // time to live, protocol: TCP, checksum
    10, 0, 0, 1, // source
    10, 0, 0, 2, // destination
    4, 1, 0, 80, // ports
    0, 0, 0, 1, // sequence
    0, 0, 0, 0, // acknowledgment
    0xa0, 2, 0x20, 0, // offset, flags (SYN), window
    0x0f, 0xab, 0, 0, // checksum and urgent pointer
    2, 4, 5, 0xb4, // maximum segment size
    4, 2, // selective acknowledgments are permitted
    8, 10, 0, 0, 0, 1, 0, 0, 0, 0, // time stamps
    1, // no operation
    3, 3, 7, // window scale
];

/// An IPv4 packet of the protocol 253, for experiments, with an area of one option.
const ONE_OPTION: [u8; 38] = [
    2, 0, 0, 0, 0, 0xaa, // destination
    2, 0, 0, 0, 0, 0xbb, // source
    8, 0, // type: IPv4
    0x46, 0, 0, 24, // version and header length, type of service, total length
    0, 0, 0, 0, // identification, flags and offset
    64, 253, 0xd0, 0xe2, // time to live, protocol, checksum
    10, 0, 0, 1, // source
    10, 0, 0, 2, // destination
    0x94, 4, 0, 0, // router alert
];

const VERSION: &[u8] = b"refused ipv4.version 14\n";

const TOTAL_LENGTH: &[u8] = b"refused ipv4.total_length 16\n";

const CHECKSUM: &[u8] = b"refused ipv4.checksum 24\n";

const SEGMENT_CHECKSUM: &[u8] = b"refused tcp.checksum 50\n";

const DATAGRAM_LINE: &[u8] =
    b"ok eth 0200000000aa 0200000000bb ip4 0 0 .. 0 64 10.0.0.1 10.0.0.2 - udp 1 2 -\n";

/// What is told of the first octets of a datagram, by how many these are.
const DATAGRAM_FRONTS: [Row; 7] = [
    (0, b"refused ethernet.destination 0\n"),
    (6, b"refused ethernet.source 6\n"),
    (12, b"refused ethernet.type 12\n"),
    (14, VERSION),
    (15, b"refused ipv4.tos 15\n"),
    (16, TOTAL_LENGTH),
    (42, DATAGRAM_LINE),
];

/// The same for a connection request with five options.
pub(crate) const FIVE_OPTIONS_FRONTS: [Row; 7] = [
    (0, b"refused ethernet.destination 0\n"),
    (6, b"refused ethernet.source 6\n"),
    (12, b"refused ethernet.type 12\n"),
    (14, VERSION),
    (15, b"refused ipv4.tos 15\n"),
    (16, TOTAL_LENGTH),
    (
        74,
        b"ok eth 0200000000aa 0200000000bb ip4 0 0 D. 0 64 10.0.0.1 10.0.0.2 - \
tcp 1025 80 1 0 0 ....S. 8192 0 mss:1460,sackok,ts:1:0,nop,scale:7 -\n",
    ),
];

/// The same for an ARP request.
const ARP_FRONTS: [Row; 13] = [
    (0, b"refused ethernet.destination 0\n"),
    (6, b"refused ethernet.source 6\n"),
    (12, b"refused ethernet.type 12\n"),
    (14, b"refused arp.hardware 14\n"),
    (16, b"refused arp.protocol 16\n"),
    (18, b"refused arp.hardware_size 18\n"),
    (19, b"refused arp.protocol_size 19\n"),
    (20, b"refused arp.operation 20\n"),
    (22, b"refused arp.sender_hardware 22\n"),
    (28, b"refused arp.sender_protocol 28\n"),
    (32, b"refused arp.target_hardware 32\n"),
    (38, b"refused arp.target_protocol 38\n"),
    (
        42,
        b"ok eth 0200000000aa 0200000000bb arp 1 0200000000bb 10.0.0.1 000000000000 10.0.0.2\n",
    ),
];

#[test]
fn each_front_of_an_ipv4_packet_is_refused_at_what_it_lacks(rt: HostRuntime) -> Result<(), Fail> {
    for length in 0..43 {
        let line = row_of(&DATAGRAM_FRONTS, length);
        expect_answer(&rt, rt.alloc(), &DATAGRAM[..length], line)?;
    }
    for length in 0..75 {
        let line = row_of(&FIVE_OPTIONS_FRONTS, length);
        expect_answer(&rt, rt.alloc(), &FIVE_OPTIONS[..length], line)?;
    }
    Ok(())
}

#[test]
fn each_front_of_an_arp_request_is_refused_at_what_it_lacks(rt: HostRuntime) -> Result<(), Fail> {
    for length in 0..43 {
        let line = row_of(&ARP_FRONTS, length);
        expect_answer(&rt, rt.alloc(), &ARP_REQUEST[..length], line)?;
    }
    Ok(())
}

/// What is told of a packet whose data are the first octets of a TCP segment, by how many these are.
const SEGMENT_FRONTS: [Row; 6] = [
    (0, b"refused tcp.source 34\n"),
    (2, b"refused tcp.destination 36\n"),
    (4, b"refused tcp.sequence 38\n"),
    (8, b"refused tcp.acknowledgment 42\n"),
    (12, b"refused tcp.offset 46\n"),
    (
        24,
        b"ok eth 0200000000aa 0200000000bb ip4 0 0 .. 0 64 10.0.0.1 10.0.0.2 - \
tcp 1025 80 1 0 0 ....S. 8192 0 mss:1460 -\n",
    ),
];

#[test]
fn each_front_of_a_segment_is_refused_at_what_it_lacks(rt: HostRuntime) -> Result<(), Fail> {
    for length in 0..25u8 {
        let mut frame = CONNECTION_REQUEST;
        // The header's total length, and its checksum.
        frame[17] = 20 + length;
        frame[25] = 0xe2 - length;
        let line = row_of(&SEGMENT_FRONTS, length as usize);
        expect_answer(&rt, rt.alloc(), &frame[..34 + length as usize], line)?;
    }
    Ok(())
}

#[test]
fn a_bad_option_is_refused_before_the_checksum(rt: HostRuntime) -> Result<(), Fail> {
    let line =
        b"ok eth 0200000000aa 0200000000bb ip4 0 0 .. 0 64 10.0.0.1 10.0.0.2 opt:148:0000 raw 253 -\n";
    expect_answer(&rt, rt.alloc(), &ONE_OPTION, line)?;
    for area in [[2, 0, 0, 0], [2, 1, 0, 0], [2, 5, 0, 0], [0xff; 4]] {
        let mut frame = ONE_OPTION;
        frame[34..].copy_from_slice(&area);
        expect_answer(&rt, rt.alloc(), &frame, b"refused ipv4.options 34\n")?;
    }
    Ok(())
}

/// Lengths that are none: of 28 octets of an IPv4 packet, and of 8 of its datagram.
const LIES: [[u8; 2]; 5] = [[0, 0], [0, 1], [0, 27], [0, 28], [0xff, 0xff]];

#[test]
fn a_length_that_lies_is_refused(rt: HostRuntime) -> Result<(), Fail> {
    let told = [
        TOTAL_LENGTH,
        TOTAL_LENGTH,
        CHECKSUM,
        DATAGRAM_LINE,
        TOTAL_LENGTH,
    ];
    for (length, line) in LIES.iter().zip(told.iter()) {
        let mut frame = DATAGRAM;
        frame[16..18].copy_from_slice(length);
        expect_answer(&rt, rt.alloc(), &frame, line)?;
    }
    for length in LIES {
        let mut frame = DATAGRAM;
        frame[38..40].copy_from_slice(&length);
        expect_answer(&rt, rt.alloc(), &frame, b"refused udp.length 38\n")?;
    }
    Ok(())
}

/// What is told where one bit of a frame is turned: from which octet on, for which bits of the octet, and how the
/// answer begins. The last row that fits holds.
type Turned = (usize, u8, &'static [u8]);

const ARP_TURNED: [Turned; 6] = [
    (0, 0xff, b"ok "),
    (14, 0xff, b"refused arp.hardware 14\n"),
    (16, 0xff, b"refused arp.protocol 16\n"),
    (18, 0xff, b"refused arp.hardware_size 18\n"),
    (19, 0xff, b"refused arp.protocol_size 19\n"),
    (20, 0xff, b"ok "),
];

const DATAGRAM_TURNED: [Turned; 14] = [
    (0, 0xff, b"ok "),
    (14, 0xf0, VERSION),
    (14, 0x05, b"refused ipv4.header_length 14\n"),
    // A header of 28 octets, whose options end at once, at the first port's octet 0.
    (14, 0x02, CHECKSUM),
    (14, 0x08, TOTAL_LENGTH),
    (15, 0xff, CHECKSUM),
    (16, 0xff, TOTAL_LENGTH),
    // Totals of 24 and of 20 octets.
    (17, 0x0c, CHECKSUM),
    (18, 0xff, CHECKSUM),
    (20, 0x80, b"refused ipv4.flags 20\n"),
    (21, 0xff, CHECKSUM),
    (34, 0xff, b"refused udp.checksum 40\n"),
    (38, 0xff, b"refused udp.length 38\n"),
    (40, 0xff, b"refused udp.checksum 40\n"),
];

const SEGMENT_TURNED: [Turned; 17] = [
    (0, 0xff, b"ok "),
    (14, 0xf0, VERSION),
    (14, 0x05, b"refused ipv4.header_length 14\n"),
    // A header of 28 octets, of which the first port is an option of one octet.
    (14, 0x02, b"refused ipv4.options 34\n"),
    (14, 0x08, TOTAL_LENGTH),
    (15, 0xff, CHECKSUM),
    (16, 0xff, TOTAL_LENGTH),
    // Totals of 45 and 46 octets, with the padding, of 40 and of 36.
    (17, 0x0f, CHECKSUM),
    (18, 0xff, CHECKSUM),
    (20, 0x80, b"refused ipv4.flags 20\n"),
    (21, 0xff, CHECKSUM),
    (34, 0xff, SEGMENT_CHECKSUM),
    (46, 0xf0, b"refused tcp.offset 46\n"),
    (47, 0xff, SEGMENT_CHECKSUM),
    (55, 0xff, b"refused tcp.options 54\n"),
    (56, 0xff, SEGMENT_CHECKSUM),
    // The padding.
    (58, 0xff, b"ok "),
];

const FIVE_OPTIONS_TURNED: [Turned; 28] = [
    (0, 0xff, b"ok "),
    (14, 0xf0, VERSION),
    (14, 0x05, b"refused ipv4.header_length 14\n"),
    // A header of 28 or of 52 octets, of which the first port is an option of one octet.
    (14, 0x0a, b"refused ipv4.options 34\n"),
    (15, 0xff, CHECKSUM),
    (16, 0xff, TOTAL_LENGTH),
    // Totals of 56, 52, 44 and 28 octets.
    (17, 0x3c, CHECKSUM),
    (18, 0xff, CHECKSUM),
    (20, 0x80, b"refused ipv4.flags 20\n"),
    (21, 0xff, CHECKSUM),
    (34, 0xff, SEGMENT_CHECKSUM),
    (46, 0xd0, b"refused tcp.offset 46\n"),
    // A header of 32 octets, which ends within the time stamps.
    (46, 0x20, b"refused tcp.options 60\n"),
    (47, 0xff, SEGMENT_CHECKSUM),
    // A segment size of 5, 6, 12 or 20 octets ends before an option, before an octet 0 or with the area.
    (55, 0xe4, b"refused tcp.options 54\n"),
    (56, 0xff, SEGMENT_CHECKSUM),
    // Three octets end before the length of the time stamps, behind which stands an octet 0.
    (59, 0x01, b"refused tcp.options 61\n"),
    (59, 0xf2, b"refused tcp.options 58\n"),
    (60, 0xff, SEGMENT_CHECKSUM),
    (61, 0xf0, b"refused tcp.options 60\n"),
    (62, 0xff, SEGMENT_CHECKSUM),
    // In place of no operation an option of three octets, or the end of the options.
    (70, 0xfe, b"refused tcp.options 73\n"),
    (70, 0x01, SEGMENT_CHECKSUM),
    // In place of the window scale no operation, and an option whose kind was its length.
    (71, 0xfd, SEGMENT_CHECKSUM),
    (71, 0x02, b"refused tcp.options 72\n"),
    (72, 0xfe, b"refused tcp.options 71\n"),
    (72, 0x01, b"refused tcp.options 73\n"),
    (73, 0xff, SEGMENT_CHECKSUM),
];

const ONE_OPTION_TURNED: [Turned; 11] = [
    (0, 0xff, b"ok "),
    (14, 0xf0, VERSION),
    (14, 0x06, b"refused ipv4.header_length 14\n"),
    // A header of 28 or of 56 octets, in a packet of 24.
    (14, 0x09, TOTAL_LENGTH),
    (15, 0xff, CHECKSUM),
    (16, 0xff, TOTAL_LENGTH),
    (18, 0xff, CHECKSUM),
    (20, 0x80, b"refused ipv4.flags 20\n"),
    (21, 0xff, CHECKSUM),
    (35, 0xff, b"refused ipv4.options 34\n"),
    (36, 0xff, CHECKSUM),
];

/// How the answer begins where this bit of this octet is turned.
fn turned_row(rows: &[Turned], place: usize, bit: u8) -> &'static [u8] {
    let mut told: &'static [u8] = b"";
    for (from, bits, front) in rows {
        if *from <= place && bits & bit != 0 {
            told = front;
        }
    }
    told
}

/// Turns each bit of the frame.
fn expect_turned(
    rt: &(impl Abort + AllocGlobal),
    frame: &[u8],
    rows: &[Turned],
) -> Result<(), Fail> {
    for place in 0..frame.len() {
        for bit in [1, 2, 4, 8, 16, 32, 64, 128] {
            let mut turned = frame.to_vec(rt.alloc())?;
            turned[place] ^= bit;
            expect_answer(rt, rt.alloc(), &turned, turned_row(rows, place, bit))?;
        }
    }
    Ok(())
}

#[test]
fn each_bit_of_a_frame_is_read_or_refused_at_its_field(rt: HostRuntime) -> Result<(), Fail> {
    expect_turned(&rt, &ARP_REQUEST[..42], &ARP_TURNED)?;
    expect_turned(&rt, &DATAGRAM, &DATAGRAM_TURNED)?;
    expect_turned(&rt, &CONNECTION_REQUEST, &SEGMENT_TURNED)?;
    Ok(())
}

#[test]
fn each_bit_of_options_is_read_or_refused_at_its_field(rt: HostRuntime) -> Result<(), Fail> {
    expect_turned(&rt, &ONE_OPTION, &ONE_OPTION_TURNED)?;
    expect_turned(&rt, &FIVE_OPTIONS, &FIVE_OPTIONS_TURNED)?;
    Ok(())
}
