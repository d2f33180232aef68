//! What is proved of the formats.
ghost use Rattle.narc_ipv4.specs.Header.{StandsElsewhere};
ghost use Rattle.narc_ipv4.specs.HeaderOctets.{IsItsOctets, IsRefusedByRow, AdmitsWhatFits, IsWrittenWithItsChecksum};

use crate::part::IpHeadPart;
use narc_bits::Cursor;
use narc_compose::FormatPart;

/// The conditions of the rules of a header hold.
pub fn ip_head_is_sound()
    ensures { ⟦<IpHeadPart as FormatPart<Cursor<'static>>>⟧.meaning.sound }
{}

/// A header stands wherever its total length has room.
pub fn ip_head_moves()
    ensures { StandsElsewhere ⟦<IpHeadPart as FormatPart<Cursor<'static>>>⟧.meaning }
{}

/// The bits that stand for a header are those of its octets, and no others, in the context of how many octets are there.
pub fn ip_head_is_its_octets()
    ensures { IsItsOctets ⟦<IpHeadPart as FormatPart<Cursor<'static>>>⟧.meaning }
{}

/// Octets behind the 14 of an Ethernet header are refused exactly where a row of IPv4 fails, with the field and the place
/// of the first.
pub fn ip_head_is_refused_by_row()
    ensures { IsRefusedByRow ⟦<IpHeadPart as FormatPart<Cursor<'static>>>⟧.meaning }
{}

/// A header can be written exactly where its options fit it, and its packet the octets that are there.
pub fn ip_head_admits_what_fits()
    ensures { AdmitsWhatFits ⟦<IpHeadPart as FormatPart<Cursor<'static>>>⟧.meaning }
{}

/// A header is written with its checksum, and with octets 0 behind its options.
pub fn ip_head_is_written_with_its_checksum()
    ensures { IsWrittenWithItsChecksum ⟦<IpHeadPart as FormatPart<Cursor<'static>>>⟧.meaning }
{}
