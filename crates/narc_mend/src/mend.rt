//! A checksum after a word that it covers has changed.
ghost use Rattle.std.specs.Prelude.{◌≡◌};
ghost use Rattle.narc_mend.specs.Mended.{as_written, mended};

/// How a checksum of 0 is written.
#[derive(Clone, Copy, Debug, Drop, PartialEq)]
pub enum Zero {
    /// As 0.
    Plain,
    /// As 0xffff, since 0 says that there is no checksum.
    Udp,
}

/// A checksum as it is written.
#[tactic(auto, unfolding(narc_sum::specs::Checked::never_zero))]
fn as_written(sum: u16, zero: Zero) -> u16
    ensures { result ≡ as_written zero sum }
{
    match zero {
        Zero::Plain => sum,
        Zero::Udp if sum == 0 => 65535,
        Zero::Udp => sum,
    }
}

/// The checksum, once a word that it covers is another (RFC 1624). Octets whose sum was good with the old checksum and the
/// old word have a good sum with these two.
pub fn replace(old_sum: u16, old_word: u16, new_word: u16, zero: Zero) -> u16
    ensures { result ≡ mended old_sum old_word new_word zero }
{
    let sum = (u32::from(old_sum) + u32::from(old_word) + (65535 - u32::from(new_word))) % 65535;
    as_written(sum as u16, zero)
}
