//! UDP datagrams.
use super::{fault, read_datagram, write_datagram};
use narc_compose::{ForSecond, Gap, Measured, Named, NoContext, Seq, SeqTail, Strip};
use narc_list::{Bytes, Pad, Region};
use narc_packet::Udp;
use narc_packet::field::{UDP_CHECKSUM, UDP_DESTINATION, UDP_LENGTH, UDP_SOURCE};
use narc_rules::{AnyNumber, AsMany};
use narc_samples::{DATAGRAM, ODD_DATAGRAM, are_one};
use narc_scalar::{Where, Word};
use narc_sum::CheckedOrNone;
use narc_transport::{AsUdp, IsUdpLength, PayloadOf, Surplus, UdpFormat, UdpPartTail, UdpPseudo};
use std::marker::PhantomData;

#[test]
fn a_part_hands_on_to_datagrams(_rt: HostRuntime) {
    are_one(PhantomData::<UdpPartTail>, PhantomData::<UdpFormat>);
}

#[test]
fn a_datagram_is_these_fields_in_order(_rt: HostRuntime) {
    are_one(
        PhantomData::<UdpFormat>,
        PhantomData::<
            Strip<
                SeqTail<
                    Named<
                        CheckedOrNone<
                            Seq<
                                Gap<
                                    Seq<
                                        Seq<Named<Word<16>, 20>, Named<Word<16>, 21>, NoContext>,
                                        Named<Where<Word<16>, IsUdpLength>, 22>,
                                        ForSecond,
                                    >,
                                >,
                                Region<Measured<Bytes, AnyNumber>, AsMany>,
                                PayloadOf,
                            >,
                            UdpPseudo,
                        >,
                        23,
                    >,
                    Pad,
                    Surplus,
                >,
                AsUdp,
            >,
        >,
    );
}

/// A datagram without a payload, whose checksum computes to 0 and is all ones.
const FULL: [u8; 8] = [0xeb, 0xd9, 0, 2, 0, 8, 0xff, 0xff];

#[test]
fn a_datagram_is_read_and_written(rt: HostRuntime) {
    match read_datagram(&ODD_DATAGRAM[34..]) {
        Ok(udp) => {
            assert!(rt; udp.sport == 1);
            assert!(rt; udp.dport == 2);
            assert!(rt; udp.payload == [0xff].as_slice());
        }
        Err(_) => panic!(rt; "refused"),
    }
    let udp = Udp {
        sport: 1,
        dport: 2,
        payload: &[0xff],
    };
    let mut room = [0xaa; 9];
    write_datagram(&udp, &mut room);
    assert!(rt; room[..] == ODD_DATAGRAM[34..]);
}

#[test]
fn a_length_has_the_header_and_what_is_there(rt: HostRuntime) {
    let below = read_datagram(&[0, 1, 0, 2, 0, 7, 0, 0]);
    assert!(rt; below.err() == Some(fault(UDP_LENGTH, 4)));
    let header = read_datagram(&DATAGRAM[34..]);
    assert!(rt; header.is_ok_and(|udp| udp.payload.is_empty()));
    let above = read_datagram(&[0, 1, 0, 2, 0, 9, 0, 0]);
    assert!(rt; above.err() == Some(fault(UDP_LENGTH, 4)));
}

#[test]
fn a_checksum_is_good_or_absent(rt: HostRuntime) {
    assert!(rt; read_datagram(&[0, 1, 0, 2, 0, 8, 0, 0]).is_ok());
    let wrong = read_datagram(&[0, 1, 0, 2, 0, 8, 0xeb, 0xd7]);
    assert!(rt; wrong.err() == Some(fault(UDP_CHECKSUM, 6)));
}

#[test]
fn a_checksum_0_is_written_as_all_ones(rt: HostRuntime) {
    assert!(rt; read_datagram(&FULL).is_ok());
    let udp = Udp {
        sport: 0xebd9,
        dport: 2,
        payload: &[],
    };
    let mut room = [0xaa; 8];
    write_datagram(&udp, &mut room);
    assert!(rt; room == FULL);
}

#[test]
fn what_is_behind_the_length_is_no_payload_and_not_summed(rt: HostRuntime) {
    let read = read_datagram(&[0, 1, 0, 2, 0, 9, 0xec, 0xd5, 0xff, 0xbe, 0xef]);
    assert!(rt; read.is_ok_and(|udp| udp.payload == [0xff].as_slice()));
}

#[test]
fn a_cut_is_refused_with_the_field_that_it_cuts(rt: HostRuntime) {
    assert!(rt; read_datagram(&[0]).err() == Some(fault(UDP_SOURCE, 0)));
    assert!(rt; read_datagram(&[0, 1, 0]).err() == Some(fault(UDP_DESTINATION, 2)));
    assert!(rt; read_datagram(&[0, 1, 0, 2, 0]).err() == Some(fault(UDP_LENGTH, 4)));
    assert!(rt; read_datagram(&[0, 1, 0, 2, 0, 8, 0]).err() == Some(fault(UDP_LENGTH, 4)));
}
