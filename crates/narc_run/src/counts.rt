//! What a check counts.
ghost use Rattle.std.specs.Prelude.{◌≡◌, ◌+◌, ◌<◌, ◌^◌, [], length, slice_index, slice_set};
ghost use Rattle.narc_run.specs.Counting.{AddsRefusal, AreCounts, HaveRoom};
ghost use Rattle.narc_run.specs.Tallies.{tally_after};

use crate::entry::Judged;
use crate::tally::Tally;
use narc_format::field;

/// How many numbers of fields there are: 0 is that of no field in particular.
pub(crate) const NUMBERS: usize = field::LAST as usize + 1;

/// Counts of records, and of those that were refused for each field, by the field's number.
#[derive(Drop)]
pub(crate) struct Counts {
    pub(crate) tally: Tally,
    pub(crate) refused: [u64; NUMBERS],
}

impl Counts {
    pub(crate) fn new() -> Counts
        ensures { AreCounts result [] }
    {
        Counts {
            tally: Tally::new(),
            refused: [0; NUMBERS],
        }
    }

    /// Counts one record more, by its judgement.
    pub(crate) fn count(&mut self, judged: &Judged)
        requires { HaveRoom self.old }
        ensures tally { self.new.tally ≡ tally_after self.old.tally judged.now }
        ensures refused { AddsRefusal self.old.refused self.new.refused judged.now }
    {
        self.tally.count(judged);
        if let Some(Err(refusal)) = judged {
            add_one(&mut self.refused, usize::from(refusal.field.number()));
        }
    }
}

fn add_one(counts: &mut [u64], number: usize)
    requires within { number < length counts.old }
    requires room { slice_index counts.old number < 2 ^ 63 }
    ensures { counts.new ≡ slice_set counts.old number (slice_index counts.old number + 1) }
{
    counts[number] += 1;
}
