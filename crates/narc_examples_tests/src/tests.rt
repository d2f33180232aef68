//! The formats, read and written.
use narc_examples::beacon::{Told, read_beacon, write_beacon};
use narc_examples::lamp::{Colour, State, read_lamp, write_lamp};
use narc_examples::lite::{Datagram, read_lite, write_lite};
use narc_examples::message::{Said, Sample, read_message, write_message};
use narc_examples::readings::{Readings, read_log, write_log};
use narc_examples::vxlan::{FLAG, Header, IDENTIFIER, field_name, read_vxlan, write_vxlan};
use narc_rules::{Fault, Field, Front, Gather};

/// A lit lamp in green, at 50.
fn lit() -> State {
    ((), (true, (Colour::Green, 50)))
}

#[test]
fn a_lamp_is_read(rt: HostRuntime) {
    assert!(rt;
        read_lamp(&[0x2a, 0x32])
            == Ok(Front {
                value: lit(),
                bits: 16
            })
    );
    assert!(rt;
        read_lamp(&[0x2a, 0x32, 9])
            == Ok(Front {
                value: lit(),
                bits: 16
            })
    );
}

#[test]
fn a_lamp_is_refused_at_its_version_its_colour_and_its_brightness(rt: HostRuntime) {
    assert!(rt; read_lamp(&[0x1a, 0x32]) == Err(Fault::unnamed()));
    assert!(rt; read_lamp(&[0x2f, 0x32]) == Err(Fault::unnamed().later_by(5)));
    assert!(rt; read_lamp(&[0x2a, 0x65]) == Err(Fault::unnamed().later_by(8)));
    assert!(rt; read_lamp(&[0x2a]) == Err(Fault::unnamed().later_by(8)));
}

#[test]
fn a_lamp_is_written_and_what_is_behind_it_stays(rt: HostRuntime) {
    let mut room = [0xff; 3];
    write_lamp(&((), (true, (Colour::Green, 50))), &mut room);
    assert!(rt; room == [0x2a, 0x32, 0xff]);
}

/// Station 7 has 273.15 kelvin.
const FREEZING: [u8; 7] = [0x7e, 7, 1, 0x6a, 0xb3, b'o', b'k'];

#[test]
fn a_message_is_read(rt: HostRuntime) {
    assert!(rt; read_message(&FREEZING) == Ok((((), (7, Sample::Temperature(27315))), b"ok")));
    let place = [0x7e, 250, 2, 1, 2, 3, 4];
    assert!(rt; read_message(&place) == Ok((((), (250, Sample::Place([1, 2, 3, 4]))), &[])));
}

#[test]
fn a_message_is_refused_at_its_first_part_that_has_no_reading(rt: HostRuntime) {
    assert!(rt; read_message(&[0x7f, 7, 1, 0, 0]) == Err(Fault::unnamed()));
    assert!(rt; read_message(&[0x7e, 251, 1, 0, 0]) == Err(Fault::unnamed().later_by(8)));
    assert!(rt; read_message(&[0x7e, 7, 3, 0, 0]) == Err(Fault::unnamed().later_by(16)));
    assert!(rt; read_message(&[0x7e, 7, 2, 0, 0]) == Err(Fault::unnamed().later_by(24)));
}

#[test]
#[tactic(auto, unfolding(narc_rules::specs::Meanings::bits, narc_rules::specs::Meanings::bits_of_number, narc_rules::specs::Meanings::seq, narc_rules::specs::Meanings::seq_tail, narc_rules::specs::Meanings::stripped, narc_rules::specs::Meanings::united, narc_rules::specs::Meanings::all_octets, narc_rules::specs::Meanings::constant, narc_rules::specs::Meanings::enumerated, narc_rules::specs::Meanings::fixed_octets, narc_rules::specs::Meanings::tested, narc_rules::specs::Meanings::word))]
fn a_message_is_written(rt: HostRuntime) {
    let said: Said = (((), (7, Sample::Temperature(27315))), b"ok");
    let mut room = [0xff; 8];
    assert!(rt; write_message(&said, &mut room) == 56);
    assert!(rt; &room[..7] == &FREEZING[..]);
    assert!(rt; room[7] == 0xff);
}

/// A lamp called "ok": 0x2a32 + 0x026f + 0x6b00 is 0x97a1, whose complement is 0x685e.
const CALLED_OK: [u8; 7] = [0x2a, 0x32, 0x68, 0x5e, 2, b'o', b'k'];

#[test]
fn a_beacon_is_read_with_its_checksum(rt: HostRuntime) {
    let told = (lit(), (2, &b"ok"[..]));
    assert!(rt;
        read_beacon(&CALLED_OK)
            == Ok(Front {
                value: told,
                bits: 56
            })
    );
}

#[test]
fn a_beacon_is_refused_at_its_checksum_and_its_name(rt: HostRuntime) {
    let mut wrong = CALLED_OK;
    wrong[6] = b'l';
    assert!(rt; read_beacon(&wrong) == Err(Fault::unnamed().later_by(16)));
    assert!(rt; read_beacon(&CALLED_OK[..6]) == Err(Fault::unnamed().later_by(40)));
}

#[test]
#[tactic(auto, unfolding(narc_rules::specs::Meanings::bits, narc_rules::specs::Meanings::bits_of_number, narc_rules::specs::Meanings::overlay, narc_rules::specs::Meanings::gapped, narc_rules::specs::Meanings::measured, narc_rules::specs::Meanings::seq, narc_rules::specs::Meanings::all_octets, narc_rules::specs::Meanings::region, narc_rules::specs::Meanings::constant, narc_rules::specs::Meanings::flag, narc_rules::specs::Meanings::enumerated, narc_rules::specs::Meanings::tested, narc_rules::specs::Meanings::word, narc_rules::specs::Meanings::checked))]
fn a_beacon_is_written_with_its_checksum(rt: HostRuntime) {
    let told: Told = (((), (true, (Colour::Green, 50))), (2, b"ok"));
    let mut room = [0xff; 8];
    assert!(rt; write_beacon(&told, &mut room) == 56);
    assert!(rt; &room[..7] == &CALLED_OK[..]);
    assert!(rt; room[7] == 0xff);
}

#[test]
fn a_header_is_read_whatever_its_reserved_bits(rt: HostRuntime) {
    let read = Ok(Front {
        value: Header { vni: 0x123456 },
        bits: 64,
    });
    assert!(rt; read_vxlan(&[0x08, 0, 0, 0, 0x12, 0x34, 0x56, 0]) == read);
    assert!(rt; read_vxlan(&[0xff, 1, 2, 3, 0x12, 0x34, 0x56, 9, 9]) == read);
}

/// A fault of the field with this number.
fn at(field: u8, at: u64) -> Fault {
    Fault {
        field: Field::of(field),
        at,
    }
}

#[test]
fn a_header_is_refused_at_the_field_that_is_wrong(rt: HostRuntime) {
    let no_flag = read_vxlan(&[0xf7, 0, 0, 0, 0x12, 0x34, 0x56, 0]);
    assert!(rt; no_flag == Err(at(FLAG, 4)));
    let short = read_vxlan(&[0x08, 0, 0, 0, 0x12, 0x34]);
    assert!(rt; short == Err(at(IDENTIFIER, 32)));
    assert!(rt; field_name(Field::of(FLAG)) == "vxlan.flag");
    assert!(rt; field_name(Field::of(IDENTIFIER)) == "vxlan.identifier");
}

#[test]
fn a_header_is_written_with_zeros(rt: HostRuntime) {
    let mut room = [0xff; 9];
    write_vxlan(&Header { vni: 0x123456 }, &mut room);
    assert!(rt; room == [0x08, 0, 0, 0, 0x12, 0x34, 0x56, 0, 0xff]);
}

/// Ports 1 and 2, 10 octets covered: 1 + 2 + 10 + 0x6f6b is 0x6f78, whose complement is 0x9087.
const COVERED: [u8; 11] = [0, 1, 0, 2, 0, 10, 0x90, 0x87, b'o', b'k', 9];

#[test]
fn a_datagram_is_read_whatever_is_not_covered(rt: HostRuntime) {
    assert!(rt; read_lite(&COVERED) == Ok((((1, (2, 10)), &b"ok"[..]), &[9][..])));
    assert!(rt; read_lite(&COVERED[..10]) == Ok((((1, (2, 10)), &b"ok"[..]), &[][..])));
}

#[test]
fn a_datagram_is_refused_at_its_coverage_and_its_checksum(rt: HostRuntime) {
    let mut wrong = COVERED;
    wrong[9] = b'l';
    assert!(rt; read_lite(&wrong) == Err(Fault::unnamed().later_by(48)));
    assert!(rt; read_lite(&[0, 1, 0, 2, 0, 7, 0, 0]) == Err(Fault::unnamed().later_by(32)));
    assert!(rt; read_lite(&COVERED[..9]) == Err(Fault::unnamed().later_by(64)));
}

#[test]
#[tactic(auto, unfolding(narc_rules::specs::Meanings::bits, narc_rules::specs::Meanings::bits_of_number, narc_rules::specs::Meanings::overlay, narc_rules::specs::Meanings::all_octets, narc_rules::specs::Meanings::checked, narc_rules::specs::Meanings::gapped, narc_rules::specs::Meanings::measured, narc_rules::specs::Meanings::region, narc_rules::specs::Meanings::seq, narc_rules::specs::Meanings::seq_tail, narc_rules::specs::Meanings::tested, narc_rules::specs::Meanings::word))]
fn a_datagram_is_written_with_its_checksum(rt: HostRuntime) {
    let datagram: Datagram = (((1, (2, 10)), b"ok"), &[9]);
    let mut room = [0xff; 12];
    assert!(rt; write_lite(&datagram, &mut room) == 88);
    assert!(rt; &room[..11] == &COVERED[..]);
    assert!(rt; room[11] == 0xff);
}

#[test]
fn so_many_readings_are_read_and_no_more(rt: HostRuntime) {
    let read = read_log(&[2, 0x6a, 0xb3, 0, 7, 9]);
    assert!(rt; matches!(&read, Ok(front) if front.bits == 40 && front.value.0 == 2));
    if let Ok(front) = read {
        assert!(rt; front.value.1.len() == 2);
        assert!(rt; *front.value.1.get(0) == 27315);
    }
    assert!(rt; matches!(read_log(&[2, 0x6a, 0xb3, 0]), Err(fault) if fault.at == 24));
    assert!(rt; matches!(read_log(&[5, 0, 0]), Err(fault) if fault.at == 0));
}

#[test]
#[tactic(auto, unfolding(narc_rules::specs::Meanings::bits_of_number, narc_rules::specs::Meanings::counted, narc_rules::specs::Meanings::seq, narc_rules::specs::Meanings::spellings, narc_rules::specs::Meanings::tested, narc_rules::specs::Meanings::word))]
fn readings_are_written_behind_their_number(rt: HostRuntime) {
    let mut readings = Readings::empty();
    readings.push(27315);
    readings.push(7);
    let mut room = [0xff; 6];
    assert!(rt; write_log(&(2, readings), &mut room) == 40);
    assert!(rt; room == [2, 0x6a, 0xb3, 0, 7, 0xff]);
}
