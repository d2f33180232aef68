//! Bits that are always the same.
#![tactic(auto, unfolding(crate::specs::Constant::constant))]

ghost use Rattle.narc_scalar.specs.Constant.{constant};
ghost use Rattle.narc_scalar.specs.ConstantLaws.{constant_laws, constant_is_wide};

use narc_bits::{Input, Steps, Writer};
use narc_format::{Fault, Format, Wide, Width};
use std::sync::ledger::Ledger;

/// The number `V` in `N` bits, most significant first; `N` is from 1 to 64, and `V` below 2^`N`.
///
/// `Const<4, 5>` reads `()` from the bits 0101, and the bits behind them stay.
/// It refuses the bits 0100, which are others: unnamed, at bit 0.
pub struct Const<const N: u32, const V: u64>;

impl<I: Input, const N: u32, const V: u64> Format<I> for Const<N, V> {
    type Ctx = ();

    type Value = ();

    ghost meaning = { constant N V };

    fn read<L: Ledger>(_ctx: (), cursor: &mut I, steps: &mut Steps<L>) -> Result<(), Fault> {
        match cursor.take_bits(N, steps) {
            Ok(number) => {
                if number == V {
                    Ok(())
                } else {
                    Err(Fault::unnamed())
                }
            }
            Err(_) => Err(Fault::unnamed()),
        }
    }

    fn size(_ctx: (), _value: &()) -> usize {
        N as usize
    }

    fn write(_ctx: (), _value: &(), room: &mut [u8], writer: &mut Writer) {
        writer.put::<N>(room, V);
    }

    ghost laws = { constant_laws N V };
}

impl<I: Input, const N: u32, const V: u64> Wide<I> for Const<N, V> {
    ghost width_of = { N };

    fn width() -> u32 {
        N
    }

    ghost wide = { constant_is_wide N V };
}

impl<const N: u32, const V: u64> Width for Const<N, V> {
    ghost width_of = { N };

    fn width() -> u32 {
        N
    }
}
