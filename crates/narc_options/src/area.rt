//! The options area of a header.
use crate::option::OptionFields;
use crate::part::OptionAreaPart;
use narc_compose::Parted;
use narc_list::{Region, Until};
use narc_rules::AsMany;

/// Options, then nothing or an octet 0 and any others, 40 octets at most (RFC 791, section 3.1; RFC 793, section 3.1).
/// The value is the octets of the options, not copied.
///
/// It is refused, unnamed, at the first bit of the first option that is none.
pub type OptionArea<'a> = Until<'a, OptionFields, 40, AsMany>;

/// An options area of as many octets as the context says.
pub type OptionRegion = Region<Parted<OptionAreaPart>, AsMany>;
