//! Options and their areas, written out, read, refused and written.
ghost use Rattle.std.specs.Prelude.{◌≤◌, length};

use super::write;
use narc_bits::{Cursor, MAX_FRAME};
use narc_compose::{Either, Measured, Parted, Seq, Union};
use narc_format::{Fault, read_front};
use narc_list::{Bytes, Pad, Region, Until};
use narc_options::{
    ByKind, DataOf, IsKind, IsOptionLength, KindOf, OptionArea, OptionAreaPart, OptionFields,
    OptionRegion, RawOption, option_fields_are_sound, option_region_is_sound,
};
use narc_rules::{AnyNumber, AsMany};
use narc_samples::are_one;
use narc_scalar::{Where, Word};
use std::marker::PhantomData;

/// The option that the octets begin with.
fn read_option<'a>(octets: &'a [u8]) -> Result<RawOption<'a>, Fault>
    requires { length octets.now ≤ MAX_FRAME }
{
    option_fields_are_sound();
    Ok(read_front::<OptionFields>((), octets)?.value)
}

/// The options in an area of so many octets.
fn read_area<'a>(count: usize, octets: &'a [u8]) -> Result<&'a [u8], Fault>
    requires { length octets.now ≤ MAX_FRAME }
{
    option_region_is_sound();
    Ok(read_front::<OptionRegion>(count, octets)?.value)
}

/// The place of the unnamed fault that the octets are refused with as an area.
fn refused_at(octets: &[u8]) -> Option<u64>
    requires { length octets.now ≤ MAX_FRAME }
{
    match read_area(octets.len(), octets) {
        Ok(_) => None,
        Err(fault) => Some(fault.at),
    }
}

#[test]
fn an_option_is_these_fields_in_order(_rt: HostRuntime) {
    are_one(
        PhantomData::<OptionFields>,
        PhantomData::<
            Seq<
                Where<Word<8>, IsKind>,
                Union<
                    ByKind,
                    Region<Pad, AsMany>,
                    Seq<
                        Where<Word<8>, IsOptionLength>,
                        Region<Measured<Bytes, AnyNumber>, AsMany>,
                        DataOf,
                    >,
                >,
                KindOf,
            >,
        >,
    );
    are_one(
        PhantomData::<OptionArea<'static>>,
        PhantomData::<Until<'static, OptionFields, 40, AsMany>>,
    );
    are_one(
        PhantomData::<OptionRegion>,
        PhantomData::<Region<Parted<OptionAreaPart>, AsMany>>,
    );
}

#[test]
fn an_option_is_read_by_its_kind_and_length(rt: HostRuntime) {
    assert!(rt; read_option(&[1, 4]) == Ok((1, Either::Left(()))));
    let data: &[u8] = &[5, 180];
    assert!(rt; read_option(&[2, 4, 5, 180, 9]) == Ok((2, Either::Right((4, data)))));
    assert!(rt; read_option(&[0, 4]) == Err(Fault::unnamed()));
    assert!(rt; read_option(&[7]).is_err());
    assert!(rt; read_option(&[7, 1]).is_err());
    assert!(rt; read_option(&[7, 3]).is_err());
}

#[test]
fn options_end_at_an_octet_0_or_with_the_area(rt: HostRuntime) {
    assert!(rt; read_area(4, &[1, 7, 3, 9]) == Ok([1, 7, 3, 9].as_slice()));
    assert!(rt; read_area(4, &[1, 0, 7, 1]) == Ok([1].as_slice()));
    assert!(rt; read_area(4, &[0, 0xaa, 0xbb, 0xcc]) == Ok([].as_slice()));
    assert!(rt; read_area(0, &[7]) == Ok([].as_slice()));
}

#[test]
fn an_area_is_refused_at_its_first_bad_option(rt: HostRuntime) {
    assert!(rt; refused_at(&[1, 1, 1, 7]) == Some(24));
    assert!(rt; refused_at(&[1, 7, 1, 0]) == Some(8));
    assert!(rt; refused_at(&[7, 0, 0, 0]) == Some(0));
    assert!(rt; refused_at(&[131, 3, 4, 7, 6, 0, 0, 0]) == Some(24));
    assert!(rt; refused_at(&[1, 1, 0, 7]).is_none());
}

#[test]
fn an_area_is_filled_with_octets_0(rt: HostRuntime) {
    let options: &[u8] = &[1, 7, 2];
    let mut room = [0xff; 9];
    assert!(rt; write::<Cursor<'_>, OptionRegion>(8, &options, &mut room) == 64);
    assert!(rt; room == [1, 7, 2, 0, 0, 0, 0, 0, 0xff]);
}
