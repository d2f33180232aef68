//! A format by its calls alone.
ghost use Rattle.std.specs.Prelude.{◌≡◌, ◌+◌, ◌*◌, ◌%◌, ◌≤◌, length, IsTrue, MatchResult};
ghost use Rattle.narc_bits.specs.Bits.{bits, overlay};
ghost use Rattle.narc_format.specs.Meaning.{Meaning};
ghost use Rattle.narc_format.specs.Reading.{Took, Refused};
ghost use Rattle.narc_format.specs.Laws.{Laws};

use narc_bits::{Input, MAX_FRAME, Steps, Writer};
use narc_format::{Fault, Format, Width};
use std::marker::PhantomData;
use std::sync::ledger::Ledger;

/// A format by its calls alone, which names no type that it is built of: as `Part` is for a tail.
pub trait FormatPart<I: Input> {
    /// What reading and writing depend on beside the bits.
    type Ctx: Copy;

    type Value: Drop;

    ghost meaning: { Meaning Self.Ctx Self.Value };

    /// Reads a value at the front of the bits left, or refuses them.
    fn read<L: Ledger>(
        ctx: Self::Ctx,
        cursor: &mut I,
        steps: &mut Steps<L>,
    ) -> Result<Self::Value, Fault>
        requires sound { meaning.sound }
        requires aligned { IsTrue meaning.aligned → (I.scan cursor.old).place % 8 ≡ 0 }
        ensures { MatchResult result (Took meaning ctx (I.scan cursor.old) (I.scan cursor.new) steps.old steps.new) (Refused meaning ctx (I.scan cursor.old) (I.scan cursor.new) steps.old steps.new) };

    /// How many bits the spelling has.
    fn size(ctx: Self::Ctx, value: &Self::Value) -> usize
        requires sound { meaning.sound }
        requires admitted { meaning.admits ctx value.now }
        requires small { length (meaning.spelling ctx value.now) ≤ 8 * MAX_FRAME }
        ensures { result ≡ length (meaning.spelling ctx value.now) };

    /// Puts the spelling into the room at the writer's place, and moves past it.
    fn write(ctx: Self::Ctx, value: &Self::Value, room: &mut [u8], writer: &mut Writer)
        requires sound { meaning.sound }
        requires admitted { meaning.admits ctx value.now }
        requires small { length room.old ≤ MAX_FRAME }
        requires enough { writer.old + length (meaning.spelling ctx value.now) ≤ 8 * length room.old }
        requires aligned { IsTrue meaning.aligned → writer.old % 8 ≡ 0 }
        ensures len { length room.new ≡ length room.old }
        ensures put { bits room.new ≡ overlay (bits room.old) writer.old (meaning.spelling ctx value.now) }
        ensures moved { writer.new ≡ writer.old + length (meaning.spelling ctx value.now) };

    ghost laws: { Laws meaning };
}

/// The format that D names.
///
/// `PartedFormat<D>`, whose D hands on to `Word<8>`, reads 7 where the octet 7 is next.
/// It refuses what that format refuses, with its fault.
pub struct PartedFormat<D>(PhantomData<D>);

impl<I: Input, D: FormatPart<I>> Format<I> for PartedFormat<D> {
    type Ctx = D::Ctx;

    type Value = D::Value;

    ghost meaning = { D.meaning };

    fn read<L: Ledger>(
        ctx: D::Ctx,
        cursor: &mut I,
        steps: &mut Steps<L>,
    ) -> Result<D::Value, Fault> {
        D::read(ctx, cursor, steps)
    }

    fn size(ctx: D::Ctx, value: &D::Value) -> usize {
        D::size(ctx, value)
    }

    fn write(ctx: D::Ctx, value: &D::Value, room: &mut [u8], writer: &mut Writer) {
        D::write(ctx, value, room, writer)
    }

    ghost laws = { D.laws };
}

impl<D: Width> Width for PartedFormat<D> {
    ghost width_of = { D.width_of };

    fn width() -> u32 {
        D::width()
    }
}
