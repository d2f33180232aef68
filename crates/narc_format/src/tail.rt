//! A format that fills what is left.
ghost use Rattle.std.specs.Prelude.{◌≡◌, ◌+◌, ◌*◌, ◌%◌, ◌≤◌, length, MatchResult};
ghost use Rattle.narc_bits.specs.Bits.{bits, overlay};
ghost use Rattle.narc_format.specs.Meaning.{Meaning};
ghost use Rattle.narc_format.specs.Reading.{TookAll, Refused};
ghost use Rattle.narc_format.specs.Laws.{TailLaws};

use crate::fault::Fault;
use narc_bits::{Input, MAX_FRAME, Steps, Writer};
use std::sync::ledger::Ledger;

/// A relation between values and all the bits that are left. It begins at an octet.
pub trait Tail<I: Input> {
    /// What reading and writing depend on beside the bits.
    type Ctx: Copy;

    type Value: Drop;

    ghost meaning: { Meaning Self.Ctx Self.Value };

    /// Reads a value out of all the bits left, or refuses them.
    fn read<L: Ledger>(
        ctx: Self::Ctx,
        cursor: &mut I,
        steps: &mut Steps<L>,
    ) -> Result<Self::Value, Fault>
        requires sound { meaning.sound }
        requires aligned { (I.scan cursor.old).place % 8 ≡ 0 }
        ensures { MatchResult result (TookAll meaning ctx (I.scan cursor.old) (I.scan cursor.new) steps.old steps.new) (Refused meaning ctx (I.scan cursor.old) (I.scan cursor.new) steps.old steps.new) };

    /// How many bits the spelling has.
    fn size(ctx: Self::Ctx, value: &Self::Value) -> usize
        requires sound { meaning.sound }
        requires admitted { meaning.admits ctx value.now }
        requires small { length (meaning.spelling ctx value.now) ≤ 8 * MAX_FRAME }
        ensures { result ≡ length (meaning.spelling ctx value.now) };

    /// Puts the spelling into the room at the writer's place, and moves past it.
    fn write(ctx: Self::Ctx, value: &Self::Value, room: &mut [u8], writer: &mut Writer)
        requires sound { meaning.sound }
        requires admitted { meaning.admits ctx value.now }
        requires small { length room.old ≤ MAX_FRAME }
        requires enough { writer.old + length (meaning.spelling ctx value.now) ≤ 8 * length room.old }
        requires aligned { writer.old % 8 ≡ 0 }
        ensures len { length room.new ≡ length room.old }
        ensures put { bits room.new ≡ overlay (bits room.old) writer.old (meaning.spelling ctx value.now) }
        ensures moved { writer.new ≡ writer.old + length (meaning.spelling ctx value.now) };

    ghost laws: { TailLaws meaning };
}
