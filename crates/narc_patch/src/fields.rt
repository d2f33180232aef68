//! Fields of a frame, assigned in place. Where there is no value, nothing changes.
ghost use Rattle.std.specs.Prelude.{◌≡◌, ◌+◌, ◌*◌, ◌/◌, ◌%◌, ◌≤◌, [], ◌∷◌, fold, length};
ghost use Rattle.std.specs.List.{AllByRecursion};
ghost use Rattle.narc_bits.specs.Octets.{big_endian};
ghost use Rattle.narc_patch.specs.Change.{changed};
ghost use Rattle.narc_patch.specs.Patched.{assigned, flag_number, part, whole, words};

use crate::change::{Checksum, change, put, word_at};
use narc_bits::known_octets;
use narc_edit::SixBits;

/// A number of one octet.
pub(crate) fn assign_octet(frame: &mut [u8], at: usize, value: Option<u8>, sums: &[Checksum])
    requires inside { at / 2 * 2 + 2 ≤ length frame.old }
    requires sums { AllByRecursion (λ sum. sum.at + 2 ≤ length frame.old) sums.now }
    ensures { frame.new ≡ fold changed frame.old (assigned value (λ v. whole at 1 v sums.now ∷ [])) }
{
    if let Some(value) = value {
        change(frame, at, &[value], sums);
    }
}

/// A number of two octets.
pub(crate) fn assign_short(frame: &mut [u8], at: usize, value: Option<u16>, sums: &[Checksum])
    requires inside { at + 2 ≤ length frame.old }
    requires sums { AllByRecursion (λ sum. sum.at + 2 ≤ length frame.old) sums.now }
    ensures { frame.new ≡ fold changed frame.old (assigned value (λ v. whole at 2 v sums.now ∷ [])) }
{
    if let Some(value) = value {
        change(frame, at, &value.to_be_bytes(), sums);
    }
}

/// Four octets, word by word.
fn change_words(frame: &mut [u8], at: usize, octets: [u8; 4], sums: &[Checksum])
    requires inside { at + 4 ≤ length frame.old }
    requires sums { AllByRecursion (λ sum. sum.at + 2 ≤ length frame.old) sums.now }
    ensures { frame.new ≡ fold changed frame.old (words at octets sums.now) }
{
    known_octets(&octets);
    let [a, b, c, d] = octets;
    change(frame, at, &[a, b], sums);
    change(frame, at + 2, &[c, d], sums);
}

/// A number of four octets.
pub(crate) fn assign_long(frame: &mut [u8], at: usize, value: Option<u32>, sums: &[Checksum])
    requires inside { at + 4 ≤ length frame.old }
    requires sums { AllByRecursion (λ sum. sum.at + 2 ≤ length frame.old) sums.now }
    ensures { frame.new ≡ fold changed frame.old (assigned value (λ v. words at (big_endian 4 v) sums.now)) }
{
    if let Some(value) = value {
        change_words(frame, at, value.to_be_bytes(), sums);
    }
}

/// An IPv4 address under checksums.
pub(crate) fn assign_address(frame: &mut [u8], at: usize, value: Option<[u8; 4]>, sums: &[Checksum])
    requires inside { at + 4 ≤ length frame.old }
    requires sums { AllByRecursion (λ sum. sum.at + 2 ≤ length frame.old) sums.now }
    ensures { frame.new ≡ fold changed frame.old (assigned value (λ v. words at v sums.now)) }
{
    if let Some(value) = value {
        change_words(frame, at, value, sums);
    }
}

/// An address of Ethernet, under no checksum.
pub(crate) fn assign_mac(frame: &mut [u8], at: usize, value: Option<[u8; 6]>)
    requires { at + 6 ≤ length frame.old }
    ensures { frame.new ≡ fold changed frame.old (assigned value (λ v. words at v [])) }
{
    if let Some(value) = value {
        known_octets(&value);
        put(frame, at, &value);
    }
}

/// An IPv4 address of ARP, under no checksum.
pub(crate) fn assign_ip(frame: &mut [u8], at: usize, value: Option<[u8; 4]>)
    requires { at + 4 ≤ length frame.old }
    ensures { frame.new ≡ fold changed frame.old (assigned value (λ v. words at v [])) }
{
    if let Some(value) = value {
        known_octets(&value);
        put(frame, at, &value);
    }
}

/// The flag `don't fragment` of IPv4.
pub(crate) fn assign_df(frame: &mut [u8], value: Option<bool>, sums: &[Checksum])
    requires inside { 22 ≤ length frame.old }
    requires sums { AllByRecursion (λ sum. sum.at + 2 ≤ length frame.old) sums.now }
    ensures { frame.new ≡ fold changed frame.old (assigned value (λ v. part 20 1 6 1 (flag_number v) sums.now ∷ [])) }
{
    if let Some(value) = value {
        let octet = frame[20];
        let bit = if value { 64 } else { 0 };
        change(frame, 20, &[octet / 128 * 128 + bit + octet % 64], sums);
    }
}

/// The reserved bits of TCP, whose header begins at an octet.
pub(crate) fn assign_reserved(
    frame: &mut [u8],
    start: usize,
    value: Option<SixBits>,
    sums: &[Checksum],
)
    requires inside { start + 14 ≤ length frame.old }
    requires sums { AllByRecursion (λ sum. sum.at + 2 ≤ length frame.old) sums.now }
    ensures { frame.new ≡ fold changed frame.old (assigned value (λ v. part (start + 12) 2 6 6 v sums.now ∷ [])) }
{
    if let Some(value) = value {
        let word = word_at(frame, start + 12);
        let word = word / 4096 * 4096 + u16::from(value.get()) * 64 + word % 64;
        change(frame, start + 12, &word.to_be_bytes(), sums);
    }
}

/// The flags of TCP, whose header begins at an octet.
pub(crate) fn assign_flags(
    frame: &mut [u8],
    start: usize,
    value: Option<SixBits>,
    sums: &[Checksum],
)
    requires inside { start + 15 ≤ length frame.old }
    requires sums { AllByRecursion (λ sum. sum.at + 2 ≤ length frame.old) sums.now }
    ensures { frame.new ≡ fold changed frame.old (assigned value (λ v. part (start + 13) 1 0 6 v sums.now ∷ [])) }
{
    if let Some(value) = value {
        let octet = frame[start + 13];
        change(frame, start + 13, &[octet / 64 * 64 + value.get()], sums);
    }
}
