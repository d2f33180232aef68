//! What the formats stand for, and what they refuse.
ghost use Rattle.std.specs.Prelude.{◌≡◌, ◌↔◌, ℕ, ◌+◌, ◌*◌, ◌<◌, ◌^◌, List, length};
ghost use Rattle.narc_bits.specs.Octets.{IsOctets};
ghost use Rattle.narc_bits.specs.Bits.{bits};
ghost use Rattle.narc_format.specs.declared.fault.Fault.{Fault};
ghost use Rattle.narc_layout.specs.FirstFault.{IsFirstFault};
ghost use Rattle.narc_packet.specs.declared.packet.Udp.{Udp};
ghost use Rattle.narc_packet.specs.PacketView.{tcp_view, udp_view};
ghost use Rattle.narc_packet.specs.Options.{tcp_area};
ghost use Rattle.narc_packet.specs.Tcp.{canonical_tcp};
ghost use Rattle.narc_packet.specs.Udp.{IsUdp, udp_length, canonical_udp};
ghost use Rattle.narc_packet.specs.Refusal.{tcp_rows, udp_rows};
ghost use Rattle.narc_transport.specs.declared.context.Ends.{Ends};
ghost use Rattle.narc_transport.specs.declared.as_tcp.TcpWithOffset.{TcpWithOffset};
ghost use Rattle.narc_transport.specs.Context.{IsEnds};
ghost use Rattle.narc_transport.specs.Segment.{IsSegment};
ghost use Rattle.narc_transport.specs.Written.{FitsTcp, FitsUdp};

use crate::parts::{TcpPart, UdpPart};
use narc_bits::Cursor;
use narc_compose::Part;

/// The conditions of the rules hold. (`UdpPart` is `UdpFormat` by its calls, with its meaning as one name.)
pub fn udp_format_is_sound()
    ensures { ⟦<UdpPart as Part<Cursor<'static>>>⟧.meaning.sound }
{}

/// Octets stand for a datagram exactly where they are it, with its checksum or none, and then any surplus. (In the context
/// of how many octets they are.)
pub fn udp_format_is_its_octets()
    ensures { (e : Ends) (u : Udp) (b : List ℕ) → IsEnds e → IsOctets b → ⟦<UdpPart as Part<Cursor<'static>>>⟧.meaning.stands (e, length b) u (bits b) ↔ IsUdp e.src e.dst (udp_view u) b }
{}

/// Octets that begin at the octet `start` of a frame are refused exactly where a row of UDP fails, with the field and the
/// place of the first.
pub fn udp_format_is_refused_by_row()
    ensures { (e : Ends) (start : ℕ) (b : List ℕ) → IsEnds e → IsOctets b → (f : Fault) → ⟦<UdpPart as Part<Cursor<'static>>>⟧.meaning.refuses (e, length b) (bits b) f ↔ IsFirstFault start (udp_rows e.src e.dst b start) f }
{}

/// A datagram can be written exactly where its header and payload fit the octets that are there.
pub fn udp_format_admits_what_fits()
    ensures { (e : Ends) (there : ℕ) (u : Udp) → IsEnds e → there < 2 ^ 64 → ⟦<UdpPart as Part<Cursor<'static>>>⟧.meaning.admits (e, there) u ↔ FitsUdp there (udp_view u) }
{}

/// In as many octets as a datagram has, it is written with its checksum, which is never 0, and without surplus.
pub fn udp_format_is_written_with_its_checksum()
    ensures { (e : Ends) (u : Udp) → IsEnds e → FitsUdp (udp_length (udp_view u)) (udp_view u) → ⟦<UdpPart as Part<Cursor<'static>>>⟧.meaning.spelling (e, udp_length (udp_view u)) u ≡ bits (canonical_udp e.src e.dst (udp_view u)) }
{}

/// The conditions of the rules hold. (`TcpPart` is `TcpFormat` by its calls, with its meaning as one name.)
pub fn tcp_format_is_sound()
    ensures { ⟦<TcpPart as Part<Cursor<'static>>>⟧.meaning.sound }
{}

/// Octets stand for a segment with its offset exactly where they are it. (In the context of how many octets they are.)
pub fn tcp_format_is_its_octets()
    ensures { (e : Ends) (s : TcpWithOffset) (b : List ℕ) → IsEnds e → IsOctets b → ⟦<TcpPart as Part<Cursor<'static>>>⟧.meaning.stands (e, length b) s (bits b) ↔ IsSegment e.src e.dst s b }
{}

/// Octets that begin at the octet `start` of a frame are refused exactly where a row of TCP fails, with the field and the
/// place of the first.
pub fn tcp_format_is_refused_by_row()
    ensures { (e : Ends) (start : ℕ) (b : List ℕ) → IsEnds e → IsOctets b → length b < 2 ^ 16 → (f : Fault) → ⟦<TcpPart as Part<Cursor<'static>>>⟧.meaning.refuses (e, length b) (bits b) f ↔ IsFirstFault start (tcp_rows e.src e.dst b start) f }
{}

/// A segment can be written exactly where its header fits the octets that are there, and its options the header.
pub fn tcp_format_admits_what_fits()
    ensures { (e : Ends) (there : ℕ) (s : TcpWithOffset) → IsEnds e → there < 2 ^ 64 → ⟦<TcpPart as Part<Cursor<'static>>>⟧.meaning.admits (e, there) s ↔ FitsTcp there s }
{}

/// A segment whose offset leaves the shortest options area is written with that area, filled with octets 0, and with its
/// checksum.
pub fn tcp_format_is_written_with_its_checksum()
    ensures { (e : Ends) (there : ℕ) (s : TcpWithOffset) → IsEnds e → there < 2 ^ 64 → FitsTcp there s → 4 * s.offset ≡ 20 + length (tcp_area (tcp_view s.tcp).options) → ⟦<TcpPart as Part<Cursor<'static>>>⟧.meaning.spelling (e, there) s ≡ bits (canonical_tcp e.src e.dst (tcp_view s.tcp)) }
{}
