//! Each rule read and written at a concrete type, through its bound, and refused.
ghost use Rattle.std.specs.Prelude.{◌≡◌, ◌%◌, ◌*◌, ◌≤◌, false, length, nat_lt, [], ◌∷◌, refl};
ghost use Rattle.narc_scalar.specs.Names.{named_in};
ghost use Rattle.narc_scalar.specs.NamesLaws.{exact_table};
ghost use Rattle.narc_rules_tests.specs.declared.tests.scalar.Colour.TheVariants.{Red, Green};

use narc_bits::{Cursor, Input, Steps, Writer};
use narc_format::laws::format_is_exact;
use narc_format::{Fault, Wide};
use narc_scalar::{Const, EnumOf, Flag, Names, Octets4, Octets6, Test, Where, Word};
use std::marker::Brand;
use std::process::Abort;
use std::sync::ledger::{Blank, Ledger};

/// A number below the context.
struct IsBelow;

impl Test for IsBelow {
    type Ctx = u64;

    type Value = u64;

    ghost holds = { λ limit value. nat_lt value limit };

    fn holds(limit: u64, value: &u64) -> bool {
        *value < limit
    }
}

#[derive(Debug, Drop, PartialEq)]
enum Colour {
    Red,
    Green,
}

/// Red is 1, and green is 2.
struct Colours;

impl Names for Colours {
    type Value = Colour;

    ghost name_of = { named_in ((1, Red) ∷ (2, Green) ∷ []) };

    ghost number_of = { elim [ Red ↦ 1 | Green ↦ 2 ] };

    fn name(number: u64) -> Option<Colour> {
        match number {
            1 => Some(Colour::Red),
            2 => Some(Colour::Green),
            _ => None,
        }
    }

    fn number(value: &Colour) -> u64 {
        match value {
            Colour::Red => 1,
            Colour::Green => 2,
        }
    }

    ghost exact = { exact_table (elim [ Red ↦ 1 | Green ↦ 2 ]) ((1, Red) ∷ (2, Green) ∷ []) (refl, (refl, tt)) (elim [ Red ↦ refl | Green ↦ refl ]) };
}

fn copy_counted<I: Input, F: Wide<I>, L: Ledger>(
    rt: &impl Abort,
    ctx: F::Ctx,
    input: &mut I,
    room: &mut [u8],
    blank: Blank,
) -> Result<F::Value, Fault>
    requires sound { F.meaning.sound }
    requires valid { F.meaning.valid ctx }
    requires unaligned { F.meaning.aligned ≡ false }
    requires width { F.width_of ≤ 64 }
    requires enough { length room.old ≡ 8 }
    requires name { blank.name ≡ L.name }
    requires parts { blank.parts ≡ L.parts }
    requires one { blank.parts ≡ 1 }
{
    let mut steps: Steps<L> = Steps::new(blank);
    match F::read(ctx, input, &mut steps) {
        Ok(value) => {
            let mut writer = Writer::new();
            F::write(ctx, &value, room, &mut writer);
            assert!(rt; writer.place() == F::size(ctx, &value));
            assert!(rt; writer.place() == F::width() as usize);
            Ok(value)
        }
        Err(fault) => Err(fault),
    }
}

/// Reads a value at the input's place, and writes it at the beginning of the room.
fn copy<I: Input, F: Wide<I>>(
    rt: &impl Abort,
    ctx: F::Ctx,
    input: &mut I,
    room: &mut [u8],
) -> Result<F::Value, Fault>
    requires sound { F.meaning.sound }
    requires valid { F.meaning.valid ctx }
    requires unaligned { F.meaning.aligned ≡ false }
    requires width { F.width_of ≤ 64 }
    requires enough { length room.old ≡ 8 }
{
    copy_counted::<I, F, Brand>(rt, ctx, input, room, Blank::new(1))
}

#[test]
#[tactic(auto, unfolding(narc_scalar::specs::Word::word))]
fn a_word_crosses_octets(rt: HostRuntime) {
    let mut cursor = Cursor::new(&[0b1010_1011, 0b1100_1101]);
    let mut room = [0xff; 8];
    assert!(rt; copy::<_, Word<3>>(&rt, (), &mut cursor, &mut room) == Ok(0b101));
    assert!(rt; copy::<_, Word<10>>(&rt, (), &mut cursor, &mut room) == Ok(0b0_1011_1100_1));
    assert!(rt; room == [0b0101_1110, 0b0111_1111, 0xff, 0xff, 0xff, 0xff, 0xff, 0xff]);
    assert!(rt; copy::<_, Word<4>>(&rt, (), &mut cursor, &mut room) == Err(Fault::unnamed()));
}

#[tactic(auto, unfolding(narc_scalar::specs::Constant::constant))]
fn copy_constant(rt: &impl Abort, cursor: &mut Cursor<'_>, room: &mut [u8]) -> Result<(), Fault>
    requires enough { length room.old ≡ 8 }
{
    copy::<_, Const<4, 5>>(rt, (), cursor, room)
}

#[tactic(auto, unfolding(narc_scalar::specs::Flag::flag))]
fn copy_flag(rt: &impl Abort, cursor: &mut Cursor<'_>, room: &mut [u8]) -> Result<bool, Fault>
    requires enough { length room.old ≡ 8 }
{
    copy::<_, Flag>(rt, (), cursor, room)
}

#[tactic(auto, unfolding(narc_scalar::specs::Octets::fixed_octets))]
fn copy_octets6(rt: &impl Abort, cursor: &mut Cursor<'_>, room: &mut [u8]) -> Result<[u8; 6], Fault>
    requires enough { length room.old ≡ 8 }
{
    copy::<_, Octets6>(rt, (), cursor, room)
}

#[tactic(auto, unfolding(narc_scalar::specs::Octets::fixed_octets))]
fn copy_octets4(rt: &impl Abort, cursor: &mut Cursor<'_>, room: &mut [u8]) -> Result<[u8; 4], Fault>
    requires enough { length room.old ≡ 8 }
{
    copy::<_, Octets4>(rt, (), cursor, room)
}

#[tactic(auto, unfolding(narc_scalar::specs::Tested::tested, narc_scalar::specs::Word::word))]
fn copy_below_ten(rt: &impl Abort, cursor: &mut Cursor<'_>, room: &mut [u8]) -> Result<u64, Fault>
    requires enough { length room.old ≡ 8 }
{
    copy::<_, Where<Word<4>, IsBelow>>(rt, 10, cursor, room)
}

#[tactic(auto, unfolding(narc_scalar::specs::Names::enumerated, narc_scalar::specs::Word::word))]
fn copy_colour(rt: &impl Abort, cursor: &mut Cursor<'_>, room: &mut [u8]) -> Result<Colour, Fault>
    requires enough { length room.old ≡ 8 }
{
    copy::<_, EnumOf<Word<2>, Colours>>(rt, (), cursor, room)
}

#[test]
fn a_constant_has_no_other_bits(rt: HostRuntime) {
    let mut cursor = Cursor::new(&[0b0101_0100]);
    let mut room = [0xff; 8];
    assert!(rt; copy_constant(&rt, &mut cursor, &mut room) == Ok(()));
    assert!(rt; room == [0b0101_1111, 0xff, 0xff, 0xff, 0xff, 0xff, 0xff, 0xff]);
    assert!(rt; copy_constant(&rt, &mut cursor, &mut room) == Err(Fault::unnamed()));
    assert!(rt; copy_constant(&rt, &mut cursor, &mut room) == Err(Fault::unnamed()));
}

#[test]
fn a_flag_is_one_bit(rt: HostRuntime) {
    let mut cursor = Cursor::new(&[0b1000_0000]);
    let mut room = [0; 8];
    assert!(rt; copy_flag(&rt, &mut cursor, &mut room) == Ok(true));
    assert!(rt; room == [0b1000_0000, 0, 0, 0, 0, 0, 0, 0]);
    assert!(rt; copy_flag(&rt, &mut cursor, &mut room) == Ok(false));
    assert!(rt; room == [0; 8]);
    let mut cursor = Cursor::new(&[]);
    assert!(rt; copy_flag(&rt, &mut cursor, &mut room) == Err(Fault::unnamed()));
}

#[test]
fn octets_keep_their_order(rt: HostRuntime) {
    let mut cursor = Cursor::new(&[2, 0, 0, 0, 0, 1, 192, 0, 2, 1, 9, 9, 9]);
    let mut room = [0xff; 8];
    assert!(rt; copy_octets6(&rt, &mut cursor, &mut room) == Ok([2, 0, 0, 0, 0, 1]));
    assert!(rt; room == [2, 0, 0, 0, 0, 1, 0xff, 0xff]);
    assert!(rt; copy_octets4(&rt, &mut cursor, &mut room) == Ok([192, 0, 2, 1]));
    assert!(rt; room == [192, 0, 2, 1, 0, 1, 0xff, 0xff]);
    assert!(rt; copy_octets6(&rt, &mut cursor, &mut room) == Err(Fault::unnamed()));
    let mut cursor = Cursor::new(&[192, 0, 2]);
    assert!(rt; copy_octets4(&rt, &mut cursor, &mut room) == Err(Fault::unnamed()));
}

#[test]
fn a_value_that_fails_the_test_is_refused(rt: HostRuntime) {
    let mut cursor = Cursor::new(&[0b0101_1100]);
    let mut room = [0xff; 8];
    assert!(rt; copy_below_ten(&rt, &mut cursor, &mut room) == Ok(5));
    assert!(rt; room == [0b0101_1111, 0xff, 0xff, 0xff, 0xff, 0xff, 0xff, 0xff]);
    let refused = copy_below_ten(&rt, &mut cursor, &mut room);
    assert!(rt; refused == Err(Fault::unnamed()));
    let refused = copy_below_ten(&rt, &mut cursor, &mut room);
    assert!(rt; refused == Err(Fault::unnamed()), "the bits are too few");
}

#[test]
fn a_number_without_a_name_is_refused(rt: HostRuntime) {
    let mut cursor = Cursor::new(&[0b0111_1110]);
    let mut room = [0xff; 8];
    assert!(rt; copy_colour(&rt, &mut cursor, &mut room) == Ok(Colour::Red));
    assert!(rt; room == [0b0111_1111, 0xff, 0xff, 0xff, 0xff, 0xff, 0xff, 0xff]);
    let refused = copy_colour(&rt, &mut cursor, &mut room);
    assert!(rt; refused == Err(Fault::unnamed()));
    let mut cursor = Cursor::new(&[0b1000_0000]);
    assert!(rt; copy_colour(&rt, &mut cursor, &mut room) == Ok(Colour::Green));
}

#[test]
#[tactic(auto, unfolding(narc_scalar::specs::Word::word))]
fn a_word_is_exact() {
    format_is_exact::<Cursor<'_>, Word<8>>();
}
