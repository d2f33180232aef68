//! Frames that are written into their place.
ghost use Rattle.std.specs.Prelude.{◌≡◌, ◌≤◌, ℕ, List, length, take};

use crate::record::LONGEST_FRAME;

/// A frame that is written into its place.
pub trait Fill {
    /// What it asks, beside its room.
    ghost can_fill: { Self → Type 0 };

    /// The frame.
    ghost frame: { Self → List ℕ };

    /// Writes the frame into the front of a room, and answers how many octets it has.
    fn fill(&self, room: &mut [u8]) -> usize
        requires can { can_fill self.now }
        requires enough { length (frame self.now) ≤ length room.old }
        requires small { length room.old ≤ LONGEST_FRAME }
        ensures count { result ≡ length (frame self.now) }
        ensures written { take result room.new ≡ frame self.now };
}
