//! Whether a sum is judged.
ghost use Rattle.std.specs.Prelude.{◌≡◌, Bool, true};

/// Whether a context has the sum judged. Where it has not, the checksum is a free choice, and nothing is summed.
pub trait Judge<C> {
    ghost judges_of: { C → Bool };

    /// Whether the sum is judged in this context.
    fn judges(ctx: C) -> bool
        ensures { result ≡ judges_of ctx };
}

/// In each context.
pub struct Always;

impl<C: Copy> Judge<C> for Always {
    ghost judges_of = { λ c. true };

    fn judges(_ctx: C) -> bool {
        true
    }
}
