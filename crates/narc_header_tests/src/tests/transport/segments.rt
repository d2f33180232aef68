//! TCP segments.
use super::{fault, read_segment, write_segment};
use narc_compose::{ForFirst, ForSecond, Gap, Named, NoContext, Parted, Seq, SeqTail, Strip};
use narc_list::{Bytes, Region};
use narc_options::OptionAreaPart;
use narc_packet::field::{TCP_CHECKSUM, TCP_OFFSET, TCP_OPTIONS};
use narc_packet::{Tcp, TcpOptions};
use narc_rules::AsMany;
use narc_samples::{CONNECTION_REQUEST, are_one};
use narc_scalar::{Where, Word};
use narc_sum::CheckedTail;
use narc_transport::{
    AreaBehind, AsTcp, IsOffset, TcpFormat, TcpPartTail, TcpPseudo, TcpWithOffset,
};
use std::marker::PhantomData;

type Ends = Seq<
    Seq<Named<Word<16>, 24>, Named<Word<16>, 25>, NoContext>,
    Seq<Named<Word<32>, 26>, Named<Word<32>, 27>, NoContext>,
    NoContext,
>;

type Words = Seq<Named<Where<Word<16>, IsOffset>, 28>, Word<16>, ForFirst>;

type Options = Region<Parted<OptionAreaPart>, AsMany>;

#[test]
fn a_part_hands_on_to_segments(_rt: HostRuntime) {
    are_one(PhantomData::<TcpPartTail>, PhantomData::<TcpFormat>);
}

#[test]
fn a_segment_is_these_fields_in_order(_rt: HostRuntime) {
    are_one(
        PhantomData::<TcpFormat>,
        PhantomData::<
            Strip<
                Named<
                    CheckedTail<
                        SeqTail<
                            Gap<Seq<Ends, Words, ForSecond>>,
                            SeqTail<Seq<Word<16>, Named<Options, 29>, ForSecond>, Bytes, ForFirst>,
                            AreaBehind,
                        >,
                        TcpPseudo,
                    >,
                    30,
                >,
                AsTcp,
            >,
        >,
    );
}

/// A segment with an odd payload, whose fields have all different numbers.
const SEGMENT: [u8; 23] = [
    4, 1, 0, 0x50, // ports
    1, 2, 3, 4, // sequence
    5, 6, 7, 8, // acknowledgment
    0x58, 0x12, // offset 5, reserved 0b100000, flags ACK and SYN
    0x1a, 0x2b, // window
    0xbf, 0xa6, // checksum
    0x1c, 0x2d, // urgent
    b'h', b'i', b'!',
];

#[test]
fn a_segment_is_read_and_written(rt: HostRuntime) {
    match read_segment(&SEGMENT) {
        Ok(TcpWithOffset { offset, tcp }) => {
            assert!(rt; offset == 5);
            assert!(rt; (tcp.sport, tcp.dport) == (1025, 80));
            assert!(rt; (tcp.seq, tcp.ack) == (0x0102_0304, 0x0506_0708));
            assert!(rt; (tcp.reserved, tcp.flags) == (32, 18));
            assert!(rt; (tcp.window, tcp.urgent) == (0x1a2b, 0x1c2d));
            assert!(rt; tcp.options.spelled.is_empty());
            assert!(rt; tcp.payload == b"hi!".as_slice());
        }
        Err(_) => panic!(rt; "refused"),
    }
    let tcp = Tcp {
        sport: 1025,
        dport: 80,
        seq: 0x0102_0304,
        ack: 0x0506_0708,
        reserved: 32,
        flags: 18,
        window: 0x1a2b,
        urgent: 0x1c2d,
        options: TcpOptions { spelled: &[] },
        payload: b"hi!",
    };
    let mut room = [0xaa; 23];
    write_segment(&TcpWithOffset { offset: 5, tcp }, &mut room);
    assert!(rt; room == SEGMENT);
}

/// The segment of a connection request.
fn request() -> [u8; 24] {
    let mut octets = [0; 24];
    octets.copy_from_slice(&CONNECTION_REQUEST[34..58]);
    octets
}

/// The request with this first octet of the word of the offset.
fn with_offset(octet: u8) -> [u8; 24] {
    let mut octets = request();
    octets[12] = octet;
    octets
}

#[test]
fn an_offset_has_the_header_and_what_is_there(rt: HostRuntime) {
    assert!(rt; read_segment(&request()).is_ok());
    assert!(rt; read_segment(&with_offset(0x40)).err() == Some(fault(TCP_OFFSET, 12)));
    assert!(rt; read_segment(&with_offset(0x70)).err() == Some(fault(TCP_OFFSET, 12)));
    assert!(rt; read_segment(&request()[..13]).err() == Some(fault(TCP_OFFSET, 12)));
}

#[test]
fn an_area_has_up_to_40_octets(rt: HostRuntime) {
    let mut octets = [1; 60];
    let front = [
        4, 1, 0, 0x50, 0, 0, 0, 1, 0, 0, 0, 0, 0xf0, 2, 0x20, 0, 0xc3, 0x51, 0, 0,
    ];
    octets[..20].copy_from_slice(&front);
    match read_segment(&octets) {
        Ok(segment) => {
            assert!(rt; segment.offset == 15);
            assert!(rt; segment.tcp.options.spelled == [1; 40].as_slice());
        }
        Err(_) => panic!(rt; "refused"),
    }
}

#[test]
fn what_is_behind_the_end_of_the_options_is_free(rt: HostRuntime) {
    let spare = [
        4, 1, 0, 0x50, 0, 0, 0, 1, 0, 0, 0, 0, 0x70, 2, 0x20, 0, 0x93, 0x57, 0, 0, 2, 4, 5, 0xb4,
        0, 0xaa, 0xbb, 0xcc,
    ];
    match read_segment(&spare) {
        Ok(segment) => assert!(rt; segment.tcp.options.spelled == [2, 4, 5, 0xb4].as_slice()),
        Err(_) => panic!(rt; "refused"),
    }
}

#[test]
fn a_bad_option_is_refused_at_its_first_octet(rt: HostRuntime) {
    let mut octets = request();
    octets[20..].copy_from_slice(&[1, 1, 1, 0x44]);
    assert!(rt; read_segment(&octets).err() == Some(fault(TCP_OPTIONS, 23)));
}

#[test]
fn a_wrong_sum_is_refused_at_the_checksum(rt: HostRuntime) {
    let mut octets = SEGMENT;
    octets[22] = b'?';
    assert!(rt; read_segment(&octets).err() == Some(fault(TCP_CHECKSUM, 16)));
}
