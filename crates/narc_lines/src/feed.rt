//! Line feeds.
ghost use Rattle.std.specs.Prelude.{◌≤◌, length, take};
ghost use Rattle.narc_lines.specs.Lines.{HasNoFeed, IsFirstLine};

use memchr::memchr;

/// How many octets the first line has, its line feed among them, which is none of the first `through` octets.
#[inline(always)]
pub(crate) fn first_line(octets: &[u8], through: usize) -> Option<usize>
    requires within { through ≤ length octets.now }
    requires none { HasNoFeed (take through octets.now) }
    ensures { IsFirstLine octets.now result }
{
    match memchr(b'\n', &octets[through..]) {
        Some(behind) => Some(through + behind + 1),
        None => None,
    }
}
