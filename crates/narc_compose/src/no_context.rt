//! Parts that need no context.
use crate::seq::{Carry, Seq};

/// No context is carried.
pub struct NoContext;

impl<V> Carry<V, (), ()> for NoContext {
    type Ctx = ();

    ghost first_of = { λ c. c };

    ghost second_of = { λ c v. c };

    ghost valid = { λ c. Unit {0} };

    fn first(_ctx: ()) {}

    fn second(_ctx: (), _value: &V) {}
}

/// A, then B, each without a context.
pub type Then<A, B> = Seq<A, B, NoContext>;
