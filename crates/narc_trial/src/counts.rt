//! How many octets the frames of a trial had, and what became of them.
ghost use Rattle.std.specs.Prelude.{◌≡◌, ◌≤◌, []};
ghost use Rattle.narc_bits.specs.declared.limits.TheConstants.{MAX_FRAME};
ghost use Rattle.narc_trial.specs.Counting.{HasRoom, counts_after, counts_of};

use crate::fate::Fate;

/// The octets of all frames as they were written, and how many frames stood for the same packet, another, or none, once a
/// bit was changed.
#[derive(Debug, Drop, PartialEq, Eq)]
pub struct TrialCounts {
    pub octets: u64,
    pub same: u64,
    pub other: u64,
    pub refused: u64,
}

impl TrialCounts {
    pub(crate) fn new() -> TrialCounts
        ensures { result ≡ counts_of [] }
    {
        TrialCounts {
            octets: 0,
            same: 0,
            other: 0,
            refused: 0,
        }
    }

    /// Counts one frame more, of so many octets.
    pub(crate) fn count(&mut self, size: usize, fate: Fate)
        requires room { HasRoom self.old }
        requires size { size ≤ MAX_FRAME }
        ensures { self.new ≡ counts_after self.old size fate }
    {
        self.octets += size as u64;
        match fate {
            Fate::Same => self.same += 1,
            Fate::Other => self.other += 1,
            Fate::Refused => self.refused += 1,
        }
    }
}
