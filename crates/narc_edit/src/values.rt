//! Values of fields, read from words: each value has one spelling.
ghost use Rattle.std.specs.Prelude.{◌≡◌, ◌≤◌, ◌^◌};
ghost use Rattle.narc_edit.specs.WordValues.{bit_value, flags_value, ip_value, mac_value, number_below};
ghost use Rattle.narc_edit.specs.Assignments.{long_value, octet_value, short_value, six_bits_value};

use crate::six_bits::SixBits;
use narc_reading::{read_decimal, read_flags, read_ip, read_mac};

/// A decimal number below the limit.
fn number_below(limit: u64, word: &str) -> Option<u64>
    requires { limit ≤ 2 ^ 32 }
    ensures { result ≡ number_below limit word.now }
{
    read_decimal(word.as_bytes(), limit).ok()
}

pub(crate) fn octet(word: &str) -> Option<u8>
    ensures { result ≡ octet_value word.now }
{
    let number = number_below(1 << 8, word)?;
    Some(number as u8)
}

pub(crate) fn short(word: &str) -> Option<u16>
    ensures { result ≡ short_value word.now }
{
    let number = number_below(1 << 16, word)?;
    Some(number as u16)
}

pub(crate) fn long(word: &str) -> Option<u32>
    ensures { result ≡ long_value word.now }
{
    let number = number_below(1 << 32, word)?;
    Some(number as u32)
}

/// 1 for true, and 0 for false.
pub(crate) fn bit(word: &str) -> Option<bool>
    ensures { result ≡ bit_value word.now }
{
    let number = number_below(2, word)?;
    Some(number == 1)
}

pub(crate) fn six_bits(word: &str) -> Option<SixBits>
    ensures { result ≡ six_bits_value word.now }
{
    let number = number_below(64, word)?;
    Some(SixBits::new(number as u8))
}

/// The flags of TCP: each letter in its place, or a point.
pub(crate) fn flags(word: &str) -> Option<SixBits>
    ensures { result ≡ flags_value word.now }
{
    let flags = read_flags(word.as_bytes()).ok()?;
    Some(SixBits::new(flags))
}

/// A hardware address: twelve digits, of which letters are small.
pub(crate) fn mac(word: &str) -> Option<[u8; 6]>
    ensures { result ≡ mac_value word.now }
{
    read_mac(word.as_bytes()).ok()
}

/// An IPv4 address: four decimal numbers joined by points.
pub(crate) fn ip(word: &str) -> Option<[u8; 4]>
    ensures { result ≡ ip_value word.now }
{
    read_ip(word.as_bytes()).ok()
}
