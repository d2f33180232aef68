//! The header of an IPv4 packet, written out, read, refused and written.
ghost use Rattle.std.specs.Prelude.{◌<◌, ◌≤◌, length};

use super::write;
use narc_bits::{Cursor, MAX_FRAME};
use narc_compose::{ForFirst, ForSecond, Gap, Named, NoContext, Parted, PartedFormat, Seq, Strip};
use narc_format::{Fault, Field, read_front};
use narc_ipv4::{
    AreaOf, AsHeader, Before, BeforePart, IpArea, IpHead, IpHeadPart, IpHeader, IsFlags,
    IsHeaderLength, IsTotalLength, IsVersion, LengthsIn, ip_head_is_sound,
};
use narc_list::Region;
use narc_options::OptionAreaPart;
use narc_packet::IpOptions;
use narc_packet::field::{
    IPV4_CHECKSUM, IPV4_FLAGS, IPV4_HEADER_LENGTH, IPV4_OPTIONS, IPV4_TOS, IPV4_TOTAL_LENGTH,
    IPV4_VERSION,
};
use narc_rules::AsMany;
use narc_samples::are_one;
use narc_scalar::{Octets4, Where, Word};
use narc_sum::{Checked, NoPseudo};
use std::marker::PhantomData;

/// The header of a packet of 115 octets.
const HEADER: [u8; 20] = [
    0x45, 0, 0, 0x73, // version and header length, type of service, total length
    0, 0, 0x40, 0, // identification, flags and offset: do not fragment
    0x40, 0x11, 0xb8, 0x61, // time to live, protocol, checksum
    192, 168, 0, 1, // source
    192, 168, 0, 199, // destination
];

/// A header without data, with a router alert (RFC 2113).
const ALERT: [u8; 24] = [
    0x46, 0, 0, 24, // version and header length, type of service, total length
    0, 1, 0x40, 0, // identification, flags and offset
    0x40, 1, 0x91, 0xdd, // time to live, protocol, checksum
    10, 0, 0, 1, // source
    10, 0, 0, 2, // destination
    148, 4, 0, 0, // an option of 4 octets
];

/// A header whose other words sum to all ones.
const NO_SUM: [u8; 20] = [
    0x45, 0, 0, 20, // version and header length, type of service, total length
    0x65, 0xeb, 0, 0, // identification, flags and offset
    0x40, 0xfd, 0, 0, // time to live, protocol, checksum
    10, 0, 0, 1, // source
    10, 0, 0, 2, // destination
];

/// The header that the octets begin with, where so many are there.
fn read_head<'a>(there: usize, octets: &'a [u8]) -> Result<IpHeader<'a>, Fault>
    requires small { length octets.now ≤ MAX_FRAME }
{
    ip_head_is_sound();
    Ok(read_front::<PartedFormat<IpHeadPart>>(there, octets)?.value)
}

/// The field with this number is refused, at this octet.
fn refuses(octets: &[u8], field: u8, at: u64) -> bool
    requires small { length octets.now ≤ MAX_FRAME }
    requires near { at ≤ MAX_FRAME }
{
    read_head(octets.len(), octets).err()
        == Some(Fault {
            field: Field::of(field),
            at: 8 * at,
        })
}

/// The header with a router alert, with another octet.
fn alert_with(at: usize, octet: u8) -> [u8; 24]
    requires { at < 24 }
{
    let mut octets = ALERT;
    octets[at] = octet;
    octets
}

/// The header with a router alert, with another options area and its checksum.
fn alert_with_area(area: [u8; 4], checksum: [u8; 2]) -> [u8; 24] {
    let mut octets = ALERT;
    octets[10] = checksum[0];
    octets[11] = checksum[1];
    octets[20] = area[0];
    octets[21] = area[1];
    octets[22] = area[2];
    octets[23] = area[3];
    octets
}

#[test]
fn a_header_is_these_fields_in_order(_rt: HostRuntime) {
    are_one(
        PhantomData::<IpArea>,
        PhantomData::<Named<Region<Parted<OptionAreaPart>, AsMany>, 18>>,
    );
    are_one(
        PhantomData::<Before>,
        PhantomData::<
            Seq<
                Seq<
                    Seq<
                        Named<Where<Named<Where<Word<8>, IsVersion>, 13>, IsHeaderLength>, 14>,
                        Named<Word<8>, 15>,
                        NoContext,
                    >,
                    Named<Where<Word<16>, IsTotalLength>, 16>,
                    LengthsIn,
                >,
                Seq<
                    Seq<Word<16>, Named<Where<Word<16>, IsFlags>, 17>, NoContext>,
                    Seq<Word<8>, Word<8>, NoContext>,
                    NoContext,
                >,
                ForFirst,
            >,
        >,
    );
    are_one(
        PhantomData::<IpHead>,
        PhantomData::<
            Strip<
                Named<
                    Checked<
                        Seq<
                            Gap<PartedFormat<BeforePart>>,
                            Seq<Seq<Octets4, Octets4, NoContext>, IpArea, ForSecond>,
                            AreaOf,
                        >,
                        NoPseudo,
                    >,
                    19,
                >,
                AsHeader,
            >,
        >,
    );
}

#[test]
fn a_header_is_read_and_written(rt: HostRuntime) {
    match read_head(115, &HEADER) {
        Ok(read) => {
            assert!(rt; (read.length, read.tos, read.total) == (20, 0, 115));
            assert!(rt; (read.id, read.offset) == (0, 0));
            assert!(rt; (read.df, read.mf) == (true, false));
            assert!(rt; (read.ttl, read.protocol) == (64, 17));
            assert!(rt; (read.src, read.dst) == ([192, 168, 0, 1], [192, 168, 0, 199]));
            assert!(rt; read.options.spelled.is_empty());
        }
        Err(_) => panic!(rt; "refused"),
    }
    let header = IpHeader {
        length: 20,
        tos: 0,
        total: 115,
        id: 0,
        df: true,
        mf: false,
        offset: 0,
        ttl: 64,
        protocol: 17,
        src: [192, 168, 0, 1],
        dst: [192, 168, 0, 199],
        options: IpOptions { spelled: &[] },
    };
    let mut room = [0xff; 20];
    assert!(rt; write::<Cursor<'_>, PartedFormat<IpHeadPart>>(115, &header, &mut room) == 160);
    assert!(rt; room == HEADER);
}

#[test]
fn options_are_kept_as_they_are(rt: HostRuntime) {
    match read_head(24, &ALERT) {
        Ok(header) => {
            assert!(rt; header.length == 24);
            assert!(rt; header.options.spelled == [148, 4, 0, 0].as_slice());
        }
        Err(_) => panic!(rt; "refused"),
    }
    match read_head(24, &alert_with_area([1, 0, 0xbb, 0xcc], [0x69, 0x15])) {
        Ok(header) => assert!(rt; header.options.spelled == [1].as_slice()),
        Err(_) => panic!(rt; "refused"),
    }
}

#[test]
fn both_spellings_of_a_zero_sum_are_read(rt: HostRuntime) {
    assert!(rt; read_head(20, &NO_SUM).is_ok());
    let mut octets = NO_SUM;
    octets[10] = 0xff;
    octets[11] = 0xff;
    assert!(rt; read_head(20, &octets).is_ok());
}

#[test]
fn each_field_is_refused_in_its_place(rt: HostRuntime) {
    assert!(rt; refuses(&alert_with(0, 0x66), IPV4_VERSION, 0));
    assert!(rt; refuses(&alert_with(0, 0x44), IPV4_HEADER_LENGTH, 0));
    assert!(rt; refuses(&alert_with(3, 23), IPV4_TOTAL_LENGTH, 2));
    assert!(rt; refuses(&alert_with(3, 25), IPV4_TOTAL_LENGTH, 2));
    assert!(rt; refuses(&alert_with(6, 0xc0), IPV4_FLAGS, 6));
    assert!(rt; refuses(&alert_with(8, 0x3f), IPV4_CHECKSUM, 10));
}

#[test]
fn a_cut_header_is_refused_by_what_it_lacks(rt: HostRuntime) {
    assert!(rt; refuses(&ALERT[..0], IPV4_VERSION, 0));
    assert!(rt; refuses(&ALERT[..1], IPV4_TOS, 1));
    assert!(rt; refuses(&ALERT[..2], IPV4_TOTAL_LENGTH, 2));
    assert!(rt; refuses(&ALERT[..3], IPV4_TOTAL_LENGTH, 2));
    assert!(rt; refuses(&ALERT[..23], IPV4_TOTAL_LENGTH, 2));
}

#[test]
fn a_bad_option_comes_before_the_checksum(rt: HostRuntime) {
    assert!(rt; refuses(&alert_with(20, 0), IPV4_CHECKSUM, 10));
    assert!(rt; refuses(&alert_with(21, 5), IPV4_OPTIONS, 20));
    assert!(rt; refuses(&alert_with(21, 1), IPV4_OPTIONS, 20));
    assert!(rt; refuses(&alert_with_area([1, 1, 1, 7], [0, 0]), IPV4_OPTIONS, 23));
    assert!(rt; refuses(&alert_with_area([1, 131, 0, 0], [0, 0]), IPV4_OPTIONS, 21));
}
