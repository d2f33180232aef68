//! An option, as IPv4 and TCP headers have it.
ghost use Rattle.std.specs.Prelude.{◌-◌, ◌<◌, ◌^◌};
ghost use Rattle.narc_options.specs.Option.{is_kind, is_option_length, by_kind};

use narc_compose::{Carry, Either, Pick, Seq, Union};
use narc_list::{Pad, Region};
use narc_rules::{AsMany, SizedBytes};
use narc_scalar::{Test, Where, Word};

// A kind alone, or (RFC 791, section 3.1; RFC 793, section 3.1)
//
//     +---------------+---------------+-----//-----+
//     |     kind      |    length     |    data    |
//     +---------------+---------------+-----//-----+
//
// where the length counts the octets of kind and length too.
pub type Kind = Where<Word<8>, IsKind>;

pub type Length = Where<Word<8>, IsOptionLength>;

/// The data, not copied.
pub type Data = SizedBytes;

/// No octets.
pub type Nothing = Region<Pad, AsMany>;

/// The fields of an option: kind 1, which is no operation, or any other kind with its length, 2 to 40, and its data.
///
/// It is refused, unnamed, at the first bit of the field that is too short or out of its range.
pub type OptionFields = Seq<Kind, Union<ByKind, Nothing, Seq<Length, Data, DataOf>>, KindOf>;

/// The kind, and the length and the data that it has.
pub type RawOption<'a> = (u64, Either<(), (u64, &'a [u8])>);

/// Kind 0 ends the list of options, and is none.
pub struct IsKind;

impl Test for IsKind {
    type Ctx = ();

    type Value = u64;

    ghost holds = { is_kind };

    fn holds(_ctx: (), value: &u64) -> bool {
        *value != 0
    }
}

/// At least kind and length, and at most an area.
pub struct IsOptionLength;

impl Test for IsOptionLength {
    type Ctx = ();

    type Value = u64;

    ghost holds = { is_option_length };

    fn holds(_ctx: (), value: &u64) -> bool {
        2 <= *value && *value <= 40
    }
}

/// The data has the octets of the length but for two.
pub struct DataOf;

impl Carry<u64, (), usize> for DataOf {
    type Ctx = ();

    ghost first_of = { λ c. c };

    ghost second_of = { λ c length. length - 2 };

    ghost valid = { λ c. Unit {0} };

    fn first(_ctx: ()) {}

    fn second(_ctx: (), length: &u64) -> usize {
        length.saturating_sub(2) as usize
    }
}

/// What is behind the kind is read by it.
pub struct KindOf;

impl Carry<u64, (), u64> for KindOf {
    type Ctx = ();

    ghost first_of = { λ c. c };

    ghost second_of = { λ c kind. kind };

    ghost valid = { λ c. Unit {0} };

    fn first(_ctx: ()) {}

    fn second(_ctx: (), kind: &u64) -> u64 {
        *kind
    }
}

/// Nothing, or length and data.
pub struct ByKind;

impl Pick<usize, ()> for ByKind {
    type Ctx = u64;

    ghost pick_of = { by_kind };

    ghost valid = { λ kind. kind < 2 ^ 64 };

    fn pick(kind: u64) -> Either<usize, ()> {
        if kind == 1 {
            Either::Left(0)
        } else {
            Either::Right(())
        }
    }
}
