//! A change of a frame in place.
ghost use Rattle.std.specs.Prelude.{◌≡◌, ◌+◌, ◌*◌, ◌/◌, ◌≤◌, length};
ghost use Rattle.std.specs.List.{AllByRecursion};
ghost use Rattle.narc_bits.specs.Bits.{overlay};
ghost use Rattle.narc_bits.specs.Octets.{number_at};
ghost use Rattle.narc_patch.specs.Change.{is_absent, with_mended, with_octets};

use narc_mend::{Zero, replace};

/// A checksum of a frame: where it stands, and how it is written where it is 0.
#[derive(Clone, Copy, Debug, Drop, PartialEq)]
pub(crate) struct Checksum {
    pub(crate) at: usize,
    pub(crate) zero: Zero,
}

/// The word in two octets.
pub(crate) fn word_at(frame: &[u8], at: usize) -> u16
    requires { at + 2 ≤ length frame.now }
    ensures { result ≡ number_at frame.now at 2 }
{
    u16::from_be_bytes([frame[at], frame[at + 1]])
}

/// Writes octets at a place.
pub(crate) fn put(frame: &mut [u8], at: usize, octets: &[u8])
    requires { at + length octets.now ≤ length frame.old }
    ensures { frame.new ≡ overlay frame.old at octets.now }
{
    frame[at..at + octets.len()].copy_from_slice(octets);
}

impl Checksum {
    /// Whether this is the number of a checksum that was not computed.
    fn is_absent(self, sum: u16) -> bool
        ensures { result ≡ is_absent self.zero sum }
    {
        match self.zero {
            Zero::Plain => false,
            Zero::Udp => sum == 0,
        }
    }

    /// Mends the checksum, where a word that it covers was another before. An absent one stays.
    fn mend(self, frame: &mut [u8], before: u16, after: u16)
        requires { self.at + 2 ≤ length frame.old }
        ensures { frame.new ≡ with_mended before after frame.old self }
    {
        let sum = word_at(frame, self.at);
        if !self.is_absent(sum) {
            let mended = replace(sum, before, after, self.zero);
            put(frame, self.at, &mended.to_be_bytes());
        }
    }
}

/// Writes one or two octets of one word, and mends the checksums over the word.
pub(crate) fn change(frame: &mut [u8], at: usize, octets: &[u8], sums: &[Checksum])
    requires octets { at + length octets.now ≤ length frame.old }
    requires word { at / 2 * 2 + 2 ≤ length frame.old }
    requires sums { AllByRecursion (λ sum. sum.at + 2 ≤ length frame.old) sums.now }
    ensures { frame.new ≡ with_octets frame.old at octets.now sums.now }
{
    let word = at / 2 * 2;
    let before = word_at(frame, word);
    put(frame, at, octets);
    let after = word_at(frame, word);
    for sum in sums {
        sum.mend(frame, before, after);
    }
}
