//! A number of `N` bits.
#![tactic(auto, unfolding(crate::specs::Word::word))]

ghost use Rattle.narc_scalar.specs.Word.{word};
ghost use Rattle.narc_scalar.specs.WordLaws.{word_laws, word_is_wide};

use narc_bits::{Input, Steps, Writer};
use narc_format::{Fault, Format, Wide, Width};
use std::sync::ledger::Ledger;

/// A number of `N` bits, most significant first; `N` is from 1 to 64.
///
/// `Word<4>` reads 5 from the bits 0101, and the bits behind them stay.
/// It refuses the bits 010, which are too few: unnamed, at bit 0.
pub struct Word<const N: u32>;

impl<I: Input, const N: u32> Format<I> for Word<N> {
    type Ctx = ();

    type Value = u64;

    ghost meaning = { word N };

    fn read<L: Ledger>(_ctx: (), cursor: &mut I, steps: &mut Steps<L>) -> Result<u64, Fault> {
        match cursor.take_bits(N, steps) {
            Ok(number) => Ok(number),
            Err(_) => Err(Fault::unnamed()),
        }
    }

    fn size(_ctx: (), _value: &u64) -> usize {
        N as usize
    }

    fn write(_ctx: (), value: &u64, room: &mut [u8], writer: &mut Writer) {
        writer.put::<N>(room, *value);
    }

    ghost laws = { word_laws N };
}

impl<I: Input, const N: u32> Wide<I> for Word<N> {
    ghost width_of = { N };

    fn width() -> u32 {
        N
    }

    ghost wide = { word_is_wide N };
}

impl<const N: u32> Width for Word<N> {
    ghost width_of = { N };

    fn width() -> u32 {
        N
    }
}
