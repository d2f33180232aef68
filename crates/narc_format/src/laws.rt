//! What follows from the laws, for every format and every tail. No code runs here.
ghost use Rattle.narc_format.specs.Exactness.{AdmitsExactly, IsFrontFree, IsDecided, ReadsExactly, IsReadBack, IsAllDecided, ReadsAllExactly, IsAllReadBack};

use crate::format::Format;
use crate::tail::Tail;
use narc_bits::Input;

/// A sound format reads a list in one way or refuses it in one way, and so does its reader.
pub fn format_is_exact<I: Input, F: Format<I>>()
    requires sound { F.meaning.sound }
    ensures admits { AdmitsExactly F.meaning }
    ensures front_free { IsFrontFree F.meaning }
    ensures decided { IsDecided F.meaning }
    ensures reads { ReadsExactly F.meaning }
    ensures back { IsReadBack F.meaning }
{}

/// The same of a tail, which has all the bits that are left.
pub fn tail_is_exact<I: Input, F: Tail<I>>()
    requires sound { F.meaning.sound }
    ensures admits { AdmitsExactly F.meaning }
    ensures decided { IsAllDecided F.meaning }
    ensures reads { ReadsAllExactly F.meaning }
    ensures back { IsAllReadBack F.meaning }
{}
