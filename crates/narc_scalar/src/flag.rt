//! One bit.
#![tactic(auto, unfolding(crate::specs::Flag::flag))]

ghost use Rattle.narc_scalar.specs.Flag.{flag};
ghost use Rattle.narc_scalar.specs.FlagLaws.{flag_laws, flag_is_wide};

use narc_bits::{Input, Steps, Writer};
use narc_format::{Fault, Format, Wide, Width};
use std::sync::ledger::Ledger;

/// One bit, which is 1 for `true`.
///
/// It reads `true` from the bit 1, and the bits behind it stay.
/// It refuses no bits: unnamed, at bit 0.
pub struct Flag;

impl<I: Input> Format<I> for Flag {
    type Ctx = ();

    type Value = bool;

    ghost meaning = { flag };

    fn read<L: Ledger>(_ctx: (), cursor: &mut I, steps: &mut Steps<L>) -> Result<bool, Fault> {
        match cursor.take_bits(1, steps) {
            Ok(number) => Ok(number == 1),
            Err(_) => Err(Fault::unnamed()),
        }
    }

    fn size(_ctx: (), _value: &bool) -> usize {
        1
    }

    fn write(_ctx: (), value: &bool, room: &mut [u8], writer: &mut Writer) {
        writer.put::<1>(room, *value as u64);
    }

    ghost laws = { flag_laws };
}

impl<I: Input> Wide<I> for Flag {
    ghost width_of = { 1 };

    fn width() -> u32 {
        1
    }

    ghost wide = { flag_is_wide };
}

impl Width for Flag {
    ghost width_of = { 1 };

    fn width() -> u32 {
        1
    }
}
