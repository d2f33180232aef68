//! What holds of mended checksums by their definition. No code runs here.
ghost use Rattle.narc_mend.specs.Mended.{MendedSumsAreGood};

/// A mended checksum makes good again what it made good: octets with a good sum have one once a word of them is another and
/// their checksum is mended, unless they are all 0 then.
#[tactic(auto, using(crate::proofs::MendedSums::mended_sums_are_good))]
pub fn mended_sums_are_good()
    ensures { MendedSumsAreGood }
{}
