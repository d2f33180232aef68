//! Facts about every format, which rules over it have among their conditions. No code runs here.
ghost use Rattle.narc_format.specs.Holes.{IsHoled};
ghost use Rattle.narc_format.specs.Widths.{IsWide};

use narc_bits::Input;
use narc_format::{Holed, HoledTail, Wide};

/// Each spelling of a wide format has its width, as `Gap` asks of its part.
pub fn format_is_wide<I: Input, F: Wide<I>>()
    ensures { IsWide F.meaning F.width_of }
{}

/// The 16 bits of the hole are free, as `Checked` and `CheckedOrNone` ask of their part.
pub fn format_is_holed<I: Input, F: Holed<I>>()
    ensures { IsHoled F.meaning F.hole_of }
{}

/// The same of a tail, as `CheckedTail` asks of its part.
pub fn tail_is_holed<I: Input, F: HoledTail<I>>()
    ensures { IsHoled F.meaning F.hole_of }
{}
