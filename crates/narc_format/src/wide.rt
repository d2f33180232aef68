//! Formats of one width.
ghost use Rattle.std.specs.Prelude.{◌≡◌, ℕ, ◌*◌, ◌≤◌};
ghost use Rattle.narc_format.specs.Widths.{IsWide};

use crate::format::Format;
use narc_bits::{Input, MAX_FRAME};

/// A format whose spellings all have the same number of bits. Fewer bits are refused.
pub trait Wide<I: Input>: Format<I> {
    ghost width_of: { ℕ };

    /// That number, at most the bits of a frame.
    fn width() -> u32
        requires sound { Self.meaning.sound }
        requires small { width_of ≤ 8 * MAX_FRAME }
        ensures { result ≡ width_of };

    ghost wide: { IsWide Self.meaning width_of };
}
