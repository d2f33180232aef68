//! Octets whose number stands in front of them.
ghost use Rattle.std.specs.Prelude.{◌<◌, ◌^◌};

use narc_compose::{Carry, Measure, Measured};
use narc_list::{Bytes, Count, Region};

/// As many octets, or items, as the context says.
pub struct AsMany;

impl Count for AsMany {
    type Ctx = usize;

    ghost count_of = { λ c. c };

    ghost valid = { λ c. c < 2 ^ 64 };

    fn count(ctx: usize) -> usize {
        ctx
    }
}

/// However many octets there are, the tail needs no context.
pub struct AnyNumber;

impl Measure<()> for AnyNumber {
    type Ctx = usize;

    ghost measured_of = { λ c octets. tt };

    ghost written_of = { λ c. tt };

    ghost valid = { λ c. c < 2 ^ 64 };

    fn measured(_ctx: usize, _octets: usize) {}

    fn written(_ctx: usize) {}
}

/// As many octets as the context says, not copied.
pub type SizedBytes = Region<Measured<Bytes, AnyNumber>, AsMany>;

/// A number, which is the context of what is behind it.
pub struct NumberFirst;

impl Carry<u64, (), usize> for NumberFirst {
    type Ctx = ();

    ghost first_of = { λ c. c };

    ghost second_of = { λ c number. number };

    ghost valid = { λ c. Unit {0} };

    fn first(_ctx: ()) {}

    fn second(_ctx: (), number: &u64) -> usize {
        *number as usize
    }
}
