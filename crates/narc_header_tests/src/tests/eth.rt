//! The formats of Ethernet, written out and read.
use super::write;
use narc_bits::Cursor;
use narc_compose::{Named, NoContext, PartedFormat, Seq, Strip};
use narc_eth::{ArpFormat, ArpPart, AsArp, EthHead, arp_format_is_sound, eth_head_is_sound};
use narc_format::{Front, read_front};
use narc_packet::{Arp, field};
use narc_samples::{ARP_REQUEST, are_one};
use narc_scalar::{Const, Octets4, Octets6, Word};
use std::marker::PhantomData;

#[test]
fn the_header_is_these_fields_in_order(_rt: HostRuntime) {
    are_one(
        PhantomData::<EthHead>,
        PhantomData::<
            Seq<
                Named<Octets6, { field::ETHERNET_DESTINATION }>,
                Seq<
                    Named<Octets6, { field::ETHERNET_SOURCE }>,
                    Named<Word<16>, { field::ETHERNET_TYPE }>,
                    NoContext,
                >,
                NoContext,
            >,
        >,
    );
}

#[test]
fn an_arp_packet_is_these_fields_in_order(_rt: HostRuntime) {
    are_one(
        PhantomData::<ArpFormat>,
        PhantomData::<
            Strip<
                Seq<
                    Seq<
                        Seq<
                            Named<Const<16, 1>, { field::ARP_HARDWARE }>,
                            Named<Const<16, 2048>, { field::ARP_PROTOCOL }>,
                            NoContext,
                        >,
                        Seq<
                            Named<Const<8, 6>, { field::ARP_HARDWARE_SIZE }>,
                            Named<Const<8, 4>, { field::ARP_PROTOCOL_SIZE }>,
                            NoContext,
                        >,
                        NoContext,
                    >,
                    Seq<
                        Named<Word<16>, { field::ARP_OPERATION }>,
                        Seq<
                            Seq<
                                Named<Octets6, { field::ARP_SENDER_HARDWARE }>,
                                Named<Octets4, { field::ARP_SENDER_PROTOCOL }>,
                                NoContext,
                            >,
                            Seq<
                                Named<Octets6, { field::ARP_TARGET_HARDWARE }>,
                                Named<Octets4, { field::ARP_TARGET_PROTOCOL }>,
                                NoContext,
                            >,
                            NoContext,
                        >,
                        NoContext,
                    >,
                    NoContext,
                >,
                AsArp,
            >,
        >,
    );
}

#[test]
fn an_arp_packet_is_read_and_written(rt: HostRuntime) {
    arp_format_is_sound();
    let arp = Arp {
        op: 1,
        sender_mac: [2, 0, 0, 0, 0, 0xbb],
        sender_ip: [10, 0, 0, 1],
        target_mac: [0; 6],
        target_ip: [10, 0, 0, 2],
    };
    let mut room = [0xff; 28];
    assert!(rt; write::<Cursor<'_>, PartedFormat<ArpPart>>((), &arp, &mut room) == 8 * 28);
    assert!(rt; room[..] == ARP_REQUEST[14..42]);
    assert!(rt;
        read_front::<PartedFormat<ArpPart>>((), &ARP_REQUEST[14..42])
            == Ok(Front {
                value: arp,
                bits: 8 * 28
            })
    );
}

#[test]
fn a_header_is_read_and_written(rt: HostRuntime) {
    eth_head_is_sound();
    let header = ([2, 0, 0, 0, 0, 0xaa], ([2, 0, 0, 0, 0, 0xbb], 0x0806));
    let mut room = [0xff; 14];
    assert!(rt; write::<Cursor<'_>, EthHead>((), &header, &mut room) == 8 * 14);
    assert!(rt; room[..] == ARP_REQUEST[..14]);
    assert!(rt;
        read_front::<EthHead>((), &ARP_REQUEST[..14])
            == Ok(Front {
                value: header,
                bits: 8 * 14
            })
    );
}

#[test]
fn a_header_is_refused_at_the_field_that_is_cut_off(rt: HostRuntime) {
    eth_head_is_sound();
    match read_front::<EthHead>((), &ARP_REQUEST[..13]) {
        Err(fault) => {
            assert!(rt; fault.field.number() == field::ETHERNET_TYPE);
            assert!(rt; fault.at == 8 * 12);
        }
        Ok(_) => panic!(rt; "a header of 13 octets"),
    }
}
