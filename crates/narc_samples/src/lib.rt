//! What the tests of more than one crate use: frames, and a comparison of types.
#![tactic(auto)]

use std::marker::PhantomData;

/// Both are of one type: a test that says so of an alias and of the rules that it is built from compiles for no other type.
pub fn are_one<T>(_alias: PhantomData<T>, _written: PhantomData<T>) {}

/// An ARP request (RFC 826) of 42 octets, and 18 octets of padding.
pub const ARP_REQUEST: [u8; 60] = [
    2, 0, 0, 0, 0, 0xaa, // destination
    2, 0, 0, 0, 0, 0xbb, // source
    8, 6, // type: ARP
    0, 1, // hardware: Ethernet
    8, 0, // protocol: IPv4
    6, // size of a hardware address
    4, // size of a protocol address
    0, 1, // operation: request
    2, 0, 0, 0, 0, 0xbb, // hardware address of the sender
    10, 0, 0, 1, // protocol address of the sender
    0, 0, 0, 0, 0, 0, // hardware address of the target
    10, 0, 0, 2, // protocol address of the target
    0xaa, 0xaa, 0xaa, 0xaa, 0xaa, 0xaa, 0xaa, 0xaa, 0xaa, // padding
    0xaa, 0xaa, 0xaa, 0xaa, 0xaa, 0xaa, 0xaa, 0xaa, 0xaa,
];

/// A UDP datagram (RFC 768) without data, in an IPv4 packet (RFC 791) without options.
pub const DATAGRAM: [u8; 42] = [
    2, 0, 0, 0, 0, 0xaa, // destination
    2, 0, 0, 0, 0, 0xbb, // source
    8, 0, // type: IPv4
    0x45, 0, 0, 28, // version and header length, type of service, total length
    0, 0, 0, 0, // identification, flags and offset
    64, 17, 0x66, 0xcf, // time to live, protocol: UDP, checksum
    10, 0, 0, 1, // source
    10, 0, 0, 2, // destination
    0, 1, 0, 2, // ports
    0, 8, 0xeb, 0xd8, // length and checksum
];

/// A UDP datagram with one octet of data, in an IPv4 packet without options.
pub const ODD_DATAGRAM: [u8; 43] = [
    2, 0, 0, 0, 0, 0xaa, // destination
    2, 0, 0, 0, 0, 0xbb, // source
    8, 0, // type: IPv4
    0x45, 0, 0, 29, // version and header length, type of service, total length
    0, 0, 0, 0, // identification, flags and offset
    64, 17, 0x66, 0xce, // time to live, protocol: UDP, checksum
    10, 0, 0, 1, // source
    10, 0, 0, 2, // destination
    0, 1, 0, 2, // ports
    0, 9, 0xec, 0xd5, // length and checksum
    0xff, // data
];

/// A request of a TCP connection (RFC 793) with a maximum segment size, of 58 octets, and 2 octets of padding.
pub const CONNECTION_REQUEST: [u8; 60] = [
    2, 0, 0, 0, 0, 0xaa, // destination
    2, 0, 0, 0, 0, 0xbb, // source
    8, 0, // type: IPv4
    0x45, 0, 0, 44, // version and header length, type of service, total length
    0, 0, 0, 0, // identification, flags and offset
    64, 6, 0x66, 0xca, // time to live, protocol: TCP, checksum
    10, 0, 0, 1, // source
    10, 0, 0, 2, // destination
    4, 1, 0, 80, // ports
    0, 0, 0, 1, // sequence
    0, 0, 0, 0, // acknowledgment
    0x60, 2, 0x20, 0, // offset, flags (SYN), window
    0x5f, 0xd2, 0, 0, // checksum and urgent pointer
    2, 4, 5, 0xb4, // maximum segment size
    0, 0, // padding
];

/// A frame of a type that is not read (0x88b5, for experiments), with one octet of data.
pub const UNREAD_TYPE: [u8; 15] = [
    2, 0, 0, 0, 0, 0xaa, // destination
    2, 0, 0, 0, 0, 0xbb, // source
    0x88, 0xb5, // type
    0, // data
];
