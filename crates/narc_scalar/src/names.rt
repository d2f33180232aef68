//! Numbers that have names.
#![tactic(auto, unfolding(crate::specs::Names::enumerated))]

ghost use Rattle.std.specs.Prelude.{◌≡◌, ℕ, Option};
ghost use Rattle.narc_scalar.specs.Names.{enumerated, IsExact};
ghost use Rattle.narc_scalar.specs.NamesLaws.{enumerated_laws, enumerated_is_wide};

use narc_bits::{Input, Steps, Writer};
use narc_format::{Fault, Format, Wide, Width};
use std::marker::PhantomData;
use std::sync::ledger::Ledger;

/// A table of names: which value a number is, and which number a value is.
pub trait Names {
    type Value: Drop;

    ghost name_of: { ℕ → Option Self.Value };

    ghost number_of: { Self.Value → ℕ };

    /// The value with this number; `None` exactly where no value has it.
    fn name(number: u64) -> Option<Self::Value>
        ensures { result ≡ name_of number };

    /// The number of the value.
    fn number(value: &Self::Value) -> u64
        ensures { result ≡ number_of value.now };

    /// A number names a value exactly where it is the value's number.
    ghost exact: { IsExact name_of number_of };
}

/// The names of `M`, each as `F` has its number.
///
/// Where `M` names 1 `Red` and 2 `Green`, `EnumOf<Word<2>, M>` reads `Red` from the bits 01.
/// It refuses the bits 11, which have no name: unnamed, at bit 0. What `F` refuses it refuses with `F`'s fault.
pub struct EnumOf<F, M> {
    format: PhantomData<F>,
    names: PhantomData<M>,
}

impl<I: Input, F: Format<I, Ctx = (), Value = u64>, M: Names> Format<I> for EnumOf<F, M> {
    type Ctx = ();

    type Value = M::Value;

    ghost meaning = { enumerated M.number_of F.meaning };

    fn read<L: Ledger>(_ctx: (), cursor: &mut I, steps: &mut Steps<L>) -> Result<M::Value, Fault> {
        match F::read((), cursor, steps) {
            Ok(number) => match M::name(number) {
                Some(value) => Ok(value),
                None => Err(Fault::unnamed()),
            },
            Err(fault) => Err(fault),
        }
    }

    fn size(_ctx: (), value: &M::Value) -> usize {
        F::size((), &M::number(value))
    }

    fn write(_ctx: (), value: &M::Value, room: &mut [u8], writer: &mut Writer) {
        F::write((), &M::number(value), room, writer)
    }

    ghost laws = { enumerated_laws M.name_of M.number_of M.exact F.meaning F.laws };
}

impl<I: Input, F: Wide<I, Ctx = (), Value = u64>, M: Names> Wide<I> for EnumOf<F, M> {
    ghost width_of = { F.width_of };

    fn width() -> u32 {
        F::width()
    }

    ghost wide = { enumerated_is_wide M.number_of F.meaning F.width_of F.wide };
}

impl<F: Width, M> Width for EnumOf<F, M> {
    ghost width_of = { F.width_of };

    fn width() -> u32 {
        F::width()
    }
}
