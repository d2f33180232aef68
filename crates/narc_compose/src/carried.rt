//! Parts of which one has the context.
ghost use Rattle.std.specs.Prelude.{◌≡◌, ◌<◌, ◌^◌};

use crate::seq::Carry;

/// The first part has the context, and the second needs none.
pub struct ForFirst;

impl<V> Carry<V, usize, ()> for ForFirst {
    type Ctx = usize;

    ghost first_of = { λ n. n };

    ghost second_of = { λ n v. tt };

    ghost valid = { λ n. n < 2 ^ 64 };

    fn first(ctx: usize) -> usize {
        ctx
    }

    fn second(_ctx: usize, _value: &V) {}
}

/// The first part needs no context, and the second has it.
pub struct ForSecond;

impl<V> Carry<V, (), usize> for ForSecond {
    type Ctx = usize;

    ghost first_of = { λ n. tt };

    ghost second_of = { λ n v. n };

    ghost valid = { λ n. n < 2 ^ 64 };

    fn first(_ctx: usize) {}

    fn second(ctx: usize, _value: &V) -> usize {
        ctx
    }
}
