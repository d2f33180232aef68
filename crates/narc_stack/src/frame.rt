//! Whole Ethernet frames.
ghost use Rattle.std.specs.Prelude.{◌≡◌, ◌↔◌, ◌⊎◌, ℕ, ◌<◌, ◌≤◌, ◌^◌, List, length, Some, None};
ghost use Rattle.narc_bits.specs.Octets.{IsOctets};
ghost use Rattle.narc_bits.specs.Bits.{bits};
ghost use Rattle.narc_format.specs.declared.fault.Fault.{Fault};
ghost use Rattle.narc_format.specs.Rows.{RefusalView};
ghost use Rattle.narc_layout.specs.FirstFault.{IsFirstFault};
ghost use Rattle.narc_packet.specs.declared.packet.Packet.{Packet};
ghost use Rattle.narc_packet.specs.Canonical.{canonical_frame};
ghost use Rattle.narc_packet.specs.PacketView.{PacketView, view};
ghost use Rattle.narc_packet.specs.WellFormed.{SpellsOptions};
ghost use Rattle.narc_packet.specs.Frame.{IsFrame};
ghost use Rattle.narc_packet.specs.Refusal.{rows_for, refusal};
ghost use Rattle.narc_stack.specs.WholeFrame.{by_type, by_ipv4};
ghost use Rattle.narc_stack.specs.Admitted.{IsAdmitted};

use crate::as_packet::{AsPacket, Header};
use crate::ipv4_part::Ipv4Part;
use narc_bits::{Cursor, MAX_FRAME};
use narc_compose::{Carry, Either, Parted, PartedFormat, Pick, SeqTail, Strip, Union};
use narc_eth::{ArpPart, EthHead};
use narc_format::Tail;
use narc_list::{Bytes, Pad};
use narc_packet::{ARP_TYPE, Arp, IPV4_TYPE};

/// The Ethernet type of ARP, as the header has it.
pub(crate) const ARP: u64 = ARP_TYPE as u64;

/// The Ethernet type of IPv4, as the header has it.
pub(crate) const IPV4: u64 = IPV4_TYPE as u64;

/// An ARP packet, and any padding behind it.
type PaddedArp = SeqTail<PartedFormat<ArpPart>, Pad, ShortestFrame>;

/// An IPv4 packet and any padding behind it, or data that is kept unread.
type Ipv4OrOther = Union<ByIpv4, Parted<Ipv4Part>, Bytes>;

/// A whole Ethernet II frame (RFC 894): the header, and what its type says.
///
/// ARP (RFC 826) and IPv4 (RFC 791) are read, with any octets behind them. The data of every other type is kept unread.
pub type Frame = Strip<
    SeqTail<EthHead, Union<ByType, PaddedArp, Ipv4OrOther>, TypeOfHeader>,
    AsPacket,
>;

/// Padding that fills a frame of 60 octets behind 14 of the header and 28 of ARP.
pub struct ShortestFrame;

impl Carry<Arp, (), usize> for ShortestFrame {
    type Ctx = ();

    ghost first_of = { λ c. c };

    ghost second_of = { λ c a. 18 };

    ghost valid = { λ c. Unit {0} };

    fn first(_ctx: ()) {}

    fn second(_ctx: (), _arp: &Arp) -> usize {
        60 - 14 - 28
    }
}

/// What is behind the header is read by its type.
pub struct TypeOfHeader;

impl Carry<Header, (), u64> for TypeOfHeader {
    type Ctx = ();

    ghost first_of = { λ c. c };

    ghost second_of = { λ c h. h.1.1 };

    ghost valid = { λ c. Unit {0} };

    fn first(_ctx: ()) {}

    fn second(_ctx: (), header: &Header) -> u64 {
        header.1.1
    }
}

/// ARP, or another type.
pub struct ByType;

impl Pick<(), u64> for ByType {
    type Ctx = u64;

    ghost pick_of = { by_type };

    ghost valid = { λ ether_type. ether_type < 2 ^ 64 };

    fn pick(ether_type: u64) -> Either<(), u64> {
        if ether_type == ARP {
            Either::Left(())
        } else {
            Either::Right(ether_type)
        }
    }
}

/// IPv4, or data that is kept unread.
pub struct ByIpv4;

impl Pick<(), ()> for ByIpv4 {
    type Ctx = u64;

    ghost pick_of = { by_ipv4 };

    ghost valid = { λ ether_type. ether_type < 2 ^ 64 };

    fn pick(ether_type: u64) -> Either<(), ()> {
        if ether_type == IPV4 {
            Either::Left(())
        } else {
            Either::Right(())
        }
    }
}

/// The conditions of the rules hold.
pub fn frame_is_sound()
    ensures { ⟦<Frame as Tail<Cursor<'static>>>⟧.meaning.sound }
{}

/// Octets stand for a packet exactly where they are a frame of it, and its slices of options spell them and nothing else.
pub fn frame_is_its_octets()
    ensures { (p : Packet) (b : List ℕ) → IsOctets b → ⟦<Frame as Tail<Cursor<'static>>>⟧.meaning.stands tt p (bits b) ↔ (IsFrame (view p) b × SpellsOptions p) }
{}

/// Octets are refused exactly where a row fails, with the field and the place of the first.
pub fn frame_is_refused_by_row()
    ensures { (b : List ℕ) → IsOctets b → (f : Fault) → ⟦<Frame as Tail<Cursor<'static>>>⟧.meaning.refuses tt (bits b) f ↔ IsFirstFault 0 (rows_for b) f }
{}

/// Octets are a frame of one packet, or they are refused, and never both.
pub fn octets_are_a_frame_or_refused()
    ensures either { (b : List ℕ) → IsOctets b → length b ≤ MAX_FRAME → ((p : PacketView) × IsFrame p b) ⊎ ((r : RefusalView) × (refusal b ≡ Some r)) }
    ensures never_both { (b : List ℕ) (p : PacketView) → IsFrame p b → refusal b ≡ None }
    ensures one_packet { (b : List ℕ) (p q : PacketView) → IsFrame p b → IsFrame q b → p ≡ q }
{}

/// A packet can be written exactly where it is well formed, whatever the length of its unread data, and its slices of
/// options spell them and nothing else.
pub fn frame_admits_its_packets()
    ensures { (p : Packet) → ⟦<Frame as Tail<Cursor<'static>>>⟧.meaning.admits tt p ↔ (IsAdmitted (view p) × SpellsOptions p) }
{}

/// What is written for a packet: its octets, with the shortest areas of options and no surplus, and for ARP and IPv4 octets
/// 0 behind them, up to 60.
pub fn frame_is_written_with_padding()
    ensures { (p : Packet) → IsAdmitted (view p) → SpellsOptions p → ⟦<Frame as Tail<Cursor<'static>>>⟧.meaning.spelling tt p ≡ bits (canonical_frame (view p)) }
{}
