//! Formats and tails in which 16 bits are free.
ghost use Rattle.std.specs.Prelude.{◌≡◌, ℕ, ◌+◌, ◌≤◌};
ghost use Rattle.narc_format.specs.Holes.{IsHoled};

use crate::format::Format;
use crate::tail::Tail;
use narc_bits::{Input, MAX_FRAME};

/// A format in which any 16 bits at one octet keep the value, as those of a checksum that is judged elsewhere.
pub trait Holed<I: Input>: Format<I> {
    ghost hole_of: { ℕ };

    /// That octet, from the format's first.
    fn hole() -> usize
        requires sound { Self.meaning.sound }
        requires small { hole_of + 2 ≤ MAX_FRAME }
        ensures { result ≡ hole_of };

    ghost holed: { IsHoled Self.meaning hole_of };
}

/// A tail in which any 16 bits at one octet keep the value.
pub trait HoledTail<I: Input>: Tail<I> {
    ghost hole_of: { ℕ };

    /// That octet, from the tail's first.
    fn hole() -> usize
        requires sound { Self.meaning.sound }
        requires small { hole_of + 2 ≤ MAX_FRAME }
        ensures { result ≡ hole_of };

    ghost holed: { IsHoled Self.meaning hole_of };
}
