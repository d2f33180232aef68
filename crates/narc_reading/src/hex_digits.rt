//! Octets from hexadecimal digits, 16 octets at a time. What is read is printed again, and compared: so what is taken is exactly what
//! would be printed.
ghost use Rattle.std.specs.Prelude.{◌≡◌, ◌≢◌, ◌*◌, ◌<◌, ◌++◌, ℕ, List, length, map, MatchBool, OnOk, OnErr};
ghost use Rattle.hex.specs.Hex.{encode_lower};
ghost use Rattle.narc_bits.specs.Octets.{IsOctets};
ghost use Rattle.narc_reading.specs.Digits.{digit_number, octets_of};

use crate::error::BadLine;
use crate::parts::is_word;
use narc_text::encode_sixteen;
use std::simd::prelude::*;

/// The number of each digit, and of any other octet some number below 16.
#[inline(always)]
fn numbers_of(digits: u8x16) -> u8x16
    requires { length digits ≡ 16 }
    ensures { result ≡ map digit_number digits }
{
    let is_letter = digits.simd_gt(u8x16::splat(57));
    (digits + is_letter.select(u8x16::splat(9), u8x16::splat(0))) & u8x16::splat(15)
}

/// The octets of two numbers each.
#[inline(always)]
fn join(first: u8x16, second: u8x16, octets: &mut [u8])
    requires first { length first ≡ 16 }
    requires second { length second ≡ 16 }
    requires room { length octets.old ≡ 16 }
    ensures { octets.new ≡ octets_of (first ++ second) }
{
    let high: u8x16 = first.shuffle(
        second,
        [0, 2, 4, 6, 8, 10, 12, 14, 16, 18, 20, 22, 24, 26, 28, 30],
    );
    let low: u8x16 = first.shuffle(
        second,
        [1, 3, 5, 7, 9, 11, 13, 15, 17, 19, 21, 23, 25, 27, 29, 31],
    );
    ((high << u8x16::splat(4)) + low).copy_to_slice(octets);
}

/// Puts the octets of 32 digits, and answers whether they are digits.
#[inline(always)]
fn take_sixteen(digits: &[u8], octets: &mut [u8]) -> bool
    requires few { length digits.now ≡ 32 }
    requires room { length octets.old ≡ 16 }
    ensures { MatchBool result (digits.now ≡ encode_lower octets.new) ((o : List ℕ) → IsOctets o → digits.now ≢ encode_lower o) }
{
    let (front, back) = digits.split_at(16);
    let first = numbers_of(u8x16::from_slice(front));
    let second = numbers_of(u8x16::from_slice(back));
    join(first, second, octets);
    let mut again = [0; 32];
    encode_sixteen(octets, &mut again);
    is_word(digits, &again)
}

/// Fewer than 16 octets, of two digits each.
fn decode_few(digits: &[u8], octets: &mut [u8]) -> Result<(), BadLine>
    requires size { length digits.now ≡ 2 * length octets.old }
    requires few { length octets.old < 16 }
    ensures ok { OnOk result (digits.now ≡ encode_lower octets.new) }
    ensures err { OnErr result ((o : List ℕ) → IsOctets o → digits.now ≢ encode_lower o) }
    ensures size { length octets.new ≡ length octets.old }
{
    let mut padded = [b'0'; 32];
    padded[..digits.len()].copy_from_slice(digits);
    let mut sixteen = [0; 16];
    if !take_sixteen(&padded, &mut sixteen) {
        return Err(BadLine);
    }
    octets.copy_from_slice(&sixteen[..octets.len()]);
    Ok(())
}

/// The octets of two digits each: the last sixteen together, if there are so many, whatever was read of them before.
pub(crate) fn decode(digits: &[u8], octets: &mut [u8]) -> Result<(), BadLine>
    requires { length digits.now ≡ 2 * length octets.old }
    ensures ok { OnOk result (digits.now ≡ encode_lower octets.new) }
    ensures err { OnErr result ((o : List ℕ) → IsOctets o → digits.now ≢ encode_lower o) }
    ensures size { length octets.new ≡ length octets.old }
{
    let whole = octets.len() / 16;
    if whole == 0 {
        return decode_few(digits, octets);
    }
    for i in 0..whole {
        if !take_sixteen(
            &digits[32 * i..32 * i + 32],
            &mut octets[16 * i..16 * i + 16],
        ) {
            return Err(BadLine);
        }
    }
    let last = octets.len() - 16;
    if take_sixteen(&digits[2 * last..], &mut octets[last..]) {
        Ok(())
    } else {
        Err(BadLine)
    }
}
