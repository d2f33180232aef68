//! The header of an Ethernet II frame.
ghost use Rattle.std.specs.Prelude.{◌≡◌, ◌↔◌, ℕ, List, Bool};
ghost use Rattle.narc_bits.specs.Octets.{IsOctets};
ghost use Rattle.narc_bits.specs.Bits.{bits};
ghost use Rattle.narc_format.specs.declared.fault.Fault.{Fault};
ghost use Rattle.narc_packet.specs.Refusal.{ethernet_rows};
ghost use Rattle.narc_layout.specs.FirstFault.{IsFirstFault};
ghost use Rattle.narc_eth.specs.EthernetHeader.{Header, IsHeaderInRange, header_octets};

use narc_bits::Cursor;
use narc_compose::{Named, Then};
use narc_format::Format;
use narc_packet::field;
use narc_scalar::{Octets6, Word};

// 32 bits a line, from the first octet of the frame (RFC 894):
//
//     +---------------+---------------+---------------+---------------+
//  0  |                          destination                          |
//     +                               +---------------+---------------+
//  4  |                               |            source             |
//     +---------------+---------------+                               +
//  8  |                                                               |
//     +---------------+---------------+---------------+---------------+
// 12  |             type              |
//     +---------------+---------------+
type Destination = Named<Octets6, { field::ETHERNET_DESTINATION }>;

type Source = Named<Octets6, { field::ETHERNET_SOURCE }>;

type EtherType = Named<Word<16>, { field::ETHERNET_TYPE }>;

/// The header of an Ethernet II frame (RFC 894), 14 octets: destination, source and type.
///
/// Too few octets are refused with the first field that they do not hold, at its first bit.
pub type EthHead = Then<Destination, Then<Source, EtherType>>;

/// The conditions of the rules hold.
pub fn eth_head_is_sound()
    ensures { ⟦<EthHead as Format<Cursor<'static>>>⟧.meaning.sound }
{}

/// The bits that stand for a header are those of its 14 octets, and no others.
pub fn eth_head_is_its_octets()
    ensures { (h : Header) (b : List Bool) → ⟦<EthHead as Format<Cursor<'static>>>⟧.meaning.stands tt h b ↔ (IsHeaderInRange h × (b ≡ bits (header_octets h))) }
{}

/// Octets are refused exactly where a row of the header fails, with the field and the place of the first.
pub fn eth_head_is_refused_by_row()
    ensures { (frame : List ℕ) → IsOctets frame → (f : Fault) → ⟦<EthHead as Format<Cursor<'static>>>⟧.meaning.refuses tt (bits frame) f ↔ IsFirstFault 0 (ethernet_rows frame) f }
{}
