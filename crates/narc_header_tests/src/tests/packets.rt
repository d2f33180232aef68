//! Options one by one, and packets at the edge of what has a frame.
use narc_format::Field;
use narc_packet::{
    EthBody, IpBody, IpOption, IpOptionList, IpOptions, Ipv4, OptionError, Packet, SackBlock,
    SackBlockList, TcpOption, TcpOptionList, TcpOptions, field, is_well_formed,
};

fn ipv4(mf: bool, body: IpBody<'_>) -> Packet<'_> {
    Packet {
        dst: [2, 0, 0, 0, 0, 0xaa],
        src: [2, 0, 0, 0, 0, 0xbb],
        body: EthBody::Ip(Ipv4 {
            tos: 0,
            id: 0,
            df: false,
            mf,
            offset: 0,
            ttl: 64,
            src: [10, 0, 0, 1],
            dst: [10, 0, 0, 2],
            options: IpOptions::none(),
            body,
        }),
    }
}

#[test]
fn options_of_ipv4_are_listed_in_order(rt: HostRuntime) {
    let mut options = IpOptions {
        spelled: &[1, 68, 3, 9],
    }
    .iter();
    assert!(rt; matches!(options.next(), Some(IpOption::Nop)));
    let Some(IpOption::Other { kind, data }) = options.next() else {
        panic!(rt; "the second option has data");
    };
    assert!(rt; kind == 68 && data == [9].as_slice());
    assert!(rt; options.next().is_none());
}

/// Whether this is an option without a value of its own, of this kind and with this data.
fn is_other(option: Option<TcpOption<'_>>, kind: u8, data: &[u8]) -> bool {
    match option {
        Some(
            TcpOption::Other {
                kind: found,
                data: octets,
            },
        ) => found == kind && octets == data,
        _ => false,
    }
}

#[test]
fn options_of_tcp_are_listed_in_order(rt: HostRuntime) {
    let mut options = TcpOptions {
        spelled: &[2, 4, 5, 180, 2, 3, 9, 0, 1],
    }
    .iter();
    assert!(rt; matches!(options.next(), Some(TcpOption::Mss(1460))));
    assert!(rt;
        is_other(options.next(), 2, &[9]),
        "one octet of data is no size"
    );
    assert!(rt; options.next().is_none());
}

#[test]
fn options_of_tcp_have_values_of_their_own(rt: HostRuntime) {
    let mut options = TcpOptions {
        spelled: &[
            3, 3, 7, 4, 2, 8, 10, 0, 0, 0, 1, 0, 0, 1, 0, 5, 3, 9, 4, 3, 9,
        ],
    }
    .iter();
    assert!(rt; matches!(options.next(), Some(TcpOption::Scale(7))));
    assert!(rt; matches!(options.next(), Some(TcpOption::SackOk)));
    let clocks = options.next();
    assert!(rt;
        matches!(
            clocks,
            Some(TcpOption::Times {
                value: 1,
                echo: 256
            })
        )
    );
    assert!(rt;
        is_other(options.next(), 5, &[9]),
        "one octet of data is no block"
    );
    assert!(rt;
        is_other(options.next(), 4, &[9]),
        "leave to acknowledge selectively has no data"
    );
    assert!(rt; options.next().is_none());
}

#[test]
fn blocks_are_listed_in_order(rt: HostRuntime) {
    let mut list = TcpOptionList::new();
    let first = SackBlock { left: 1, right: 5 };
    let second = SackBlock {
        left: 4_294_967_295,
        right: 256,
    };
    let mut blocks = SackBlockList::new();
    assert!(rt; list.push(TcpOption::Sack(blocks.as_blocks())) == Err(OptionError::NoSpelling));
    blocks.push(first);
    blocks.push(second);
    assert!(rt; list.push(TcpOption::Sack(blocks.as_blocks())) == Ok(()));
    assert_eq!(rt; list.as_options().spelled.len(), 18);
    let Some(TcpOption::Sack(blocks)) = list.as_options().iter().next() else {
        panic!(rt; "two blocks are selective acknowledgment");
    };
    let mut blocks = blocks.iter();
    assert!(rt; blocks.next() == Some(first));
    assert!(rt; blocks.next() == Some(second));
    assert!(rt; blocks.next().is_none());
}

#[test]
fn a_list_takes_forty_octets_of_options(rt: HostRuntime) {
    let mut list = IpOptionList::new();
    assert!(rt; list.push(IpOption::Other { kind: 1, data: &[] }) == Err(OptionError::NoSpelling));
    let long = [0; 39];
    assert!(rt;
        list.push(IpOption::Other {
            kind: 7,
            data: &long
        }) == Err(OptionError::NoSpelling)
    );
    assert!(rt;
        list.push(IpOption::Other {
            kind: 7,
            data: &long[..37]
        }) == Ok(())
    );
    assert!(rt; list.push(IpOption::Nop) == Ok(()));
    assert!(rt; list.push(IpOption::Nop) == Err(OptionError::NoRoom));
    assert_eq!(rt; list.as_options().spelled.len(), 40);
    assert_eq!(rt; list.as_options().to_list().len(), 2);
}

#[test]
fn an_option_with_a_value_of_its_own_is_no_other_option(rt: HostRuntime) {
    let mut list = TcpOptionList::new();
    assert!(rt;
        list.push(TcpOption::Other {
            kind: 2,
            data: &[5, 180]
        }) == Err(OptionError::NoSpelling)
    );
    let times = [0; 8];
    assert!(rt;
        list.push(TcpOption::Other {
            kind: 8,
            data: &times
        }) == Err(OptionError::NoSpelling)
    );
    assert!(rt; list.push(TcpOption::Mss(1460)) == Ok(()));
    assert!(rt; list.as_options().spelled == [2, 4, 5, 180].as_slice());
}

#[test]
fn raw_data_of_udp_stands_in_a_fragment_alone(rt: HostRuntime) {
    let raw = IpBody::Raw {
        protocol: 17,
        payload: &[],
    };
    assert!(rt; !is_well_formed(&ipv4(false, raw)));
    let raw = IpBody::Raw {
        protocol: 17,
        payload: &[],
    };
    assert!(rt; is_well_formed(&ipv4(true, raw)));
}

#[test]
fn the_longest_packet_has_65515_octets_of_data(rt: HostRuntime) {
    let octets = [0; 65_516];
    let raw = IpBody::Raw {
        protocol: 253,
        payload: &octets,
    };
    assert!(rt; !is_well_formed(&ipv4(false, raw)));
    let raw = IpBody::Raw {
        protocol: 253,
        payload: &octets[1..],
    };
    assert!(rt; is_well_formed(&ipv4(false, raw)));
}

#[test]
fn lists_of_options_are_compared_up_to_their_end(rt: HostRuntime) {
    let stamp = IpOptions {
        spelled: &[1, 68, 3, 9],
    };
    let ended = IpOptions {
        spelled: &[1, 68, 3, 9, 0, 7],
    };
    let other_data = IpOptions {
        spelled: &[1, 68, 3, 8],
    };
    let shorter = IpOptions { spelled: &[1] };
    assert!(rt; stamp.is_same_list(&ended));
    assert!(rt; !stamp.is_same_list(&other_data));
    assert!(rt; !stamp.is_same_list(&shorter));
    assert!(rt; !shorter.is_same_list(&stamp));
    let size = TcpOptions {
        spelled: &[2, 4, 5, 180],
    };
    let ended = TcpOptions {
        spelled: &[2, 4, 5, 180, 0],
    };
    let other_size = TcpOptions {
        spelled: &[2, 4, 5, 181],
    };
    assert!(rt; size.is_same_list(&ended));
    assert!(rt; !size.is_same_list(&other_size));
}

fn other(ether_type: u16, payload: &[u8]) -> Packet<'_> {
    Packet {
        dst: [2, 0, 0, 0, 0, 0xaa],
        src: [2, 0, 0, 0, 0, 0xbb],
        body: EthBody::Other {
            ether_type,
            payload,
        },
    }
}

#[test]
fn data_of_another_type_fits_a_frame(rt: HostRuntime) {
    let octets = [0; 262_131];
    assert!(rt; is_well_formed(&other(0x88b5, &octets[1..])));
    assert!(rt; !is_well_formed(&other(0x88b5, &octets)));
    assert!(rt; !is_well_formed(&other(0x0800, &[])));
    assert!(rt; !is_well_formed(&other(0x0806, &[])));
}

#[test]
fn a_field_has_its_number_and_name(rt: HostRuntime) {
    let names = [
        (0, "unnamed"),
        (1, "ethernet.destination"),
        (8, "arp.operation"),
        (16, "ipv4.total_length"),
        (23, "udp.checksum"),
        (30, "tcp.checksum"),
        (31, "unnamed"),
    ];
    for (number, name) in names {
        assert_eq!(rt; field::name(Field::of(number)), name);
    }
}
