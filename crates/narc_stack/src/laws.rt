//! Packets and their frames: what follows from the definitions alone. Each of these calls does nothing, and ensures it.
ghost use Rattle.std.specs.Prelude.{◌↔◌, ◌≤◌, ℕ, List, length};
ghost use Rattle.narc_packet.specs.Canonical.{canonical_frame};
ghost use Rattle.narc_packet.specs.Frame.{IsFrame};
ghost use Rattle.narc_packet.specs.PacketView.{PacketView};
ghost use Rattle.narc_packet.specs.WellFormed.{IsWellFormed};

use narc_bits::MAX_FRAME;

/// The octets that are written of a well-formed packet are a frame of it, of at most `MAX_FRAME` octets.
pub fn canonical_octets_are_a_frame()
    ensures frame { (p : PacketView) → IsWellFormed p → IsFrame p (canonical_frame p) }
    ensures bound { (p : PacketView) → IsWellFormed p → length (canonical_frame p) ≤ MAX_FRAME }
{}

/// A packet is well formed exactly where it has a frame of at most `MAX_FRAME` octets.
pub fn packets_with_a_frame_are_well_formed()
    ensures { (p : PacketView) → IsWellFormed p ↔ ((b : List ℕ) × IsFrame p b × (length b ≤ MAX_FRAME)) }
{}
