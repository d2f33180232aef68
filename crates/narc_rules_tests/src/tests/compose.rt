//! Sequences, names, unions, and values seen as others.
#![tactic(auto, unfolding(narc_compose::specs::Seq::seq, narc_compose::specs::Seq::seq_tail, narc_compose::specs::Named::named, narc_compose::specs::Strip::stripped, narc_compose::specs::Union::united, narc_scalar::specs::Word::word, narc_list::specs::Bytes::all_octets, narc_bits::specs::Bits::bits_of_number, narc_bits::specs::Bits::bits))]

ghost use Rattle.std.specs.Prelude.{◌≤◌, length};

use super::calls::{width, write, write_all};
use super::samples::{
    DATAGRAM, DESTINATION, Datagram, Kinded, KindedTail, Ports, SOURCE, Spare, SpareTail,
};
use narc_bits::{Cursor, MAX_FRAME};
use narc_compose::{Either, Named};
use narc_format::{Fault, Field, Front, read_all, read_front};

/// A fault of the field with this number.
fn fault(field: u8, at: u64) -> Fault {
    Fault {
        field: Field::of(field),
        at,
    }
}

fn read_ports(octets: &[u8]) -> Result<Front<(u64, u64)>, Fault>
    requires { length octets.now ≤ MAX_FRAME }
{
    read_front::<Ports>((), octets)
}

fn read_kinded(octets: &[u8]) -> Result<Front<(u64, Either<u64, u64>)>, Fault>
    requires { length octets.now ≤ MAX_FRAME }
{
    read_front::<Kinded>((), octets)
}

fn read_named<'a>(octets: &'a [u8]) -> Result<((u64, u64), &'a [u8]), Fault>
    requires { length octets.now ≤ MAX_FRAME }
{
    read_all::<Named<Datagram, DATAGRAM>>((), octets)
}

fn read_kinded_tail<'a>(octets: &'a [u8]) -> Result<(u64, Either<&'a [u8], (u64, &'a [u8])>), Fault>
    requires { length octets.now ≤ MAX_FRAME }
{
    read_all::<KindedTail>((), octets)
}

fn read_spare(octets: &[u8]) -> Result<Front<u64>, Fault>
    requires { length octets.now ≤ MAX_FRAME }
{
    read_front::<Spare>((), octets)
}

#[test]
fn a_sequence_is_read_in_order(rt: HostRuntime) {
    let read = read_ports(&[0, 80, 1, 0, 9]);
    assert!(rt;
        read == Ok(Front {
            value: (80, 256),
            bits: 32
        })
    );
    assert!(rt; width::<Cursor<'_>, Ports>() == 32);
}

#[test]
fn a_sequence_is_written_in_order(rt: HostRuntime) {
    let mut room = [0xff; 5];
    assert!(rt; write::<Cursor<'_>, Ports>((), &(80, 256), &mut room) == (32, 32));
    assert!(rt; room == [0, 80, 1, 0, 0xff]);
}

#[test]
fn a_fault_of_the_second_part_is_moved_and_keeps_its_name(rt: HostRuntime) {
    let refused = read_front::<Named<Ports, DATAGRAM>>((), &[0, 80, 1]);
    assert!(rt; refused == Err(fault(DESTINATION, 16)));
}

#[test]
fn an_unnamed_fault_gets_the_name(rt: HostRuntime) {
    assert!(rt; read_ports(&[0]) == Err(fault(SOURCE, 0)));
}

#[test]
fn the_second_part_depends_on_the_first(rt: HostRuntime) {
    let left = read_kinded(&[0, 7, 8]);
    assert!(rt;
        left == Ok(Front {
            value: (0, Either::Left(7)),
            bits: 16
        })
    );
    let right = read_kinded(&[1, 7, 8]);
    assert!(rt;
        right
            == Ok(Front {
                value: (1, Either::Right(1800)),
                bits: 24
            })
    );
}

#[test]
fn the_member_that_the_first_part_picks_is_written(rt: HostRuntime) {
    let mut room = [0xff, 0xff, 0xff, 0xff];
    assert!(rt; write::<Cursor<'_>, Kinded>((), &(0, Either::Left(9)), &mut room) == (16, 16));
    assert!(rt; room == [0, 9, 0xff, 0xff]);
    let mut room = [0xff, 0xff, 0xff, 0xff];
    assert!(rt; write::<Cursor<'_>, Kinded>((), &(1, Either::Right(1800)), &mut room) == (24, 24));
    assert!(rt; room == [1, 7, 8, 0xff]);
}

#[test]
fn a_tail_behind_a_format_is_all_that_is_left(rt: HostRuntime) {
    let read = read_named(&[0, 80, 1, 0, 9]);
    assert!(rt; read == Ok(((80, 256), [9].as_slice())));
    let refused = read_named(&[0, 80, 1]);
    assert!(rt; refused == Err(fault(DESTINATION, 16)));
}

#[test]
fn a_named_tail_is_written_as_it_is_without_the_name(rt: HostRuntime) {
    let value = ((80, 256), [9].as_slice());
    let mut room = [0xff; 6];
    let written = write_all::<Cursor<'_>, Named<Datagram, DATAGRAM>>((), &value, &mut room);
    assert!(rt; written == (40, 40));
    assert!(rt; room == [0, 80, 1, 0, 9, 0xff]);
}

#[test]
fn a_tail_depends_on_what_is_before_it(rt: HostRuntime) {
    let left = read_kinded_tail(&[0, 7, 8]);
    assert!(rt; left == Ok((0, Either::Left([7, 8].as_slice()))));
    let right = read_kinded_tail(&[1, 7, 8]);
    assert!(rt; right == Ok((1, Either::Right((7, [8].as_slice())))));
    assert!(rt; read_kinded_tail(&[1]) == Err(fault(0, 8)));
}

#[test]
fn the_tail_that_the_first_part_picks_is_written(rt: HostRuntime) {
    let mut room = [0xff; 4];
    let left = (0, Either::Left([7].as_slice()));
    assert!(rt; write_all::<Cursor<'_>, KindedTail>((), &left, &mut room) == (16, 16));
    assert!(rt; room == [0, 7, 0xff, 0xff]);
    let right = (1, Either::Right((7, [8].as_slice())));
    assert!(rt; write_all::<Cursor<'_>, KindedTail>((), &right, &mut room) == (24, 24));
    assert!(rt; room == [1, 7, 8, 0xff]);
}

#[test]
fn a_spare_bit_is_forgotten_and_written_as_0(rt: HostRuntime) {
    let spare = read_spare(&[0x85]);
    assert!(rt; spare == Ok(Front { value: 5, bits: 8 }));
    assert!(rt; read_spare(&[0x05]) == spare);
    let mut room = [0xff, 0xff];
    assert!(rt; write::<Cursor<'_>, Spare>((), &5, &mut room) == (8, 8));
    assert!(rt; room == [0x05, 0xff]);
}

#[test]
fn a_spare_octet_before_a_tail_is_forgotten_and_written_as_0(rt: HostRuntime) {
    assert!(rt; read_all::<SpareTail>((), &[0x85, 7]) == Ok([7].as_slice()));
    let mut room = [0xff, 0xff, 0xff];
    assert!(rt; write_all::<Cursor<'_>, SpareTail>((), &[7].as_slice(), &mut room) == (16, 16));
    assert!(rt; room == [0, 7, 0xff]);
}
