//! Formats whose values pass a test.
#![tactic(auto, unfolding(crate::specs::Tested::tested))]

ghost use Rattle.std.specs.Prelude.{◌≡◌, Bool};
ghost use Rattle.narc_scalar.specs.Tested.{tested};
ghost use Rattle.narc_scalar.specs.TestedLaws.{tested_laws, tested_is_wide};

use narc_bits::{Input, Steps, Writer};
use narc_format::{Fault, Format, Wide, Width};
use std::marker::PhantomData;
use std::sync::ledger::Ledger;

/// Which values are accepted, in a context.
pub trait Test {
    type Ctx: Copy;

    type Value;

    ghost holds: { Self.Ctx → Self.Value → Bool };

    /// Whether the value is accepted.
    fn holds(ctx: Self::Ctx, value: &Self::Value) -> bool
        ensures { result ≡ holds ctx value.now };
}

/// `F`, of whose values only those stand that pass the test `T`; the context is the test's.
///
/// Where `IsShort` holds below 10, `Where<Word<4>, IsShort>` reads 5 from the bits 0101.
/// It refuses the bits 1100, which spell 12: unnamed, at bit 0. What `F` refuses it refuses with `F`'s fault.
pub struct Where<F, T> {
    format: PhantomData<F>,
    test: PhantomData<T>,
}

impl<I: Input, F: Format<I, Ctx = ()>, T: Test<Value = F::Value>> Format<I> for Where<F, T> {
    type Ctx = T::Ctx;

    type Value = F::Value;

    ghost meaning = { tested T.holds F.meaning };

    fn read<L: Ledger>(
        ctx: T::Ctx,
        cursor: &mut I,
        steps: &mut Steps<L>,
    ) -> Result<F::Value, Fault> {
        match F::read((), cursor, steps) {
            Ok(value) => {
                if T::holds(ctx, &value) {
                    Ok(value)
                } else {
                    Err(Fault::unnamed())
                }
            }
            Err(fault) => Err(fault),
        }
    }

    fn size(_ctx: T::Ctx, value: &F::Value) -> usize {
        F::size((), value)
    }

    fn write(_ctx: T::Ctx, value: &F::Value, room: &mut [u8], writer: &mut Writer) {
        F::write((), value, room, writer)
    }

    ghost laws = { tested_laws T.holds F.meaning F.laws };
}

impl<I: Input, F: Wide<I, Ctx = ()>, T: Test<Value = F::Value>> Wide<I> for Where<F, T> {
    ghost width_of = { F.width_of };

    fn width() -> u32 {
        F::width()
    }

    ghost wide = { tested_is_wide T.holds F.meaning F.width_of F.wide };
}

impl<F: Width, T> Width for Where<F, T> {
    ghost width_of = { F.width_of };

    fn width() -> u32 {
        F::width()
    }
}
