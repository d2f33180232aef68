//! The rules for all octets that are left, read and written at concrete types.
use super::calls::write_all;
use narc_bits::Cursor;
use narc_format::read_all;
use narc_list::{Bytes, Pad};

#[test]
#[tactic(auto, unfolding(narc_list::specs::Bytes::all_octets, narc_bits::specs::Bits::bits, narc_bits::specs::Bits::bits_of_number))]
fn all_octets_are_read_and_written(rt: HostRuntime) {
    assert!(rt; read_all::<Bytes>((), &[7, 8]) == Ok([7, 8].as_slice()));
    assert!(rt; read_all::<Bytes>((), &[]) == Ok([].as_slice()));
    let mut room = [0xff; 3];
    assert!(rt; write_all::<Cursor<'_>, Bytes>((), &[7, 8].as_slice(), &mut room) == (16, 16));
    assert!(rt; room == [7, 8, 0xff]);
}

#[test]
#[tactic(auto, unfolding(narc_list::specs::Pad::padding, narc_bits::specs::Bits::bits, narc_bits::specs::Bits::bits_of_number))]
fn padding_is_passed_over_and_written_as_0(rt: HostRuntime) {
    assert!(rt; read_all::<Pad>(1, &[7, 8]) == Ok(()));
    assert!(rt; read_all::<Pad>(1, &[0]) == Ok(()));
    let mut room = [0xff; 3];
    assert!(rt; write_all::<Cursor<'_>, Pad>(2, &(), &mut room) == (16, 16));
    assert!(rt; room == [0, 0, 0xff]);
}
