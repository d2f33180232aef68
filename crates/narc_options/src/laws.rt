//! What is proved of options and their areas.
ghost use Rattle.narc_options.specs.OptionOctets.{AreItsFields, IsItsOption, IsItsArea, IsRefusedByRow};
ghost use Rattle.narc_packet.specs.Options.{ip_option, tcp_option, tcp_option_of, IsIpOption, IsTcpOption};

use crate::area::{OptionArea, OptionRegion};
use crate::option::OptionFields;
use narc_bits::Cursor;
use narc_format::{Format, Tail};

/// The conditions of the rules of an option hold.
pub fn option_fields_are_sound()
    ensures { ⟦<OptionFields as Format<Cursor<'static>>>⟧.meaning.sound }
{}

/// The conditions of the rules of an area hold.
pub fn option_area_is_sound()
    ensures { ⟦<OptionArea<'static> as Tail<Cursor<'static>>>⟧.meaning.sound }
{}

/// The conditions of the rules of an area of so many octets hold.
pub fn option_region_is_sound()
    ensures { ⟦<OptionRegion as Format<Cursor<'static>>>⟧.meaning.sound }
{}

/// The bits that stand for the fields of an option are those of the option's octets, and no others.
pub fn option_fields_are_their_octets()
    ensures { AreItsFields ⟦<OptionFields as Format<Cursor<'static>>>⟧.meaning }
{}

/// Bits stand for an option of an IPv4 header exactly where they are those of its octets.
pub fn ip_option_is_its_octets()
    ensures { IsItsOption (λ option. option) IsIpOption ip_option ⟦<OptionFields as Format<Cursor<'static>>>⟧.meaning }
{}

/// Bits stand for an option of a TCP header exactly where they are those of its octets: one that has a value of its own by its
/// kind and length, or another.
pub fn tcp_option_is_its_octets()
    ensures { IsItsOption tcp_option_of IsTcpOption tcp_option ⟦<OptionFields as Format<Cursor<'static>>>⟧.meaning }
{}

/// Octets stand for the spellings of options exactly where they are these, and then an end; at most 40.
pub fn option_area_is_its_octets()
    ensures { IsItsArea ⟦<OptionArea<'static> as Tail<Cursor<'static>>>⟧.meaning }
{}

/// Up to 40 octets are refused exactly where an option in them is bad, unnamed, at the first bit of the first that is.
pub fn option_area_is_refused_by_row()
    ensures { IsRefusedByRow ⟦<OptionArea<'static> as Tail<Cursor<'static>>>⟧.meaning }
{}
