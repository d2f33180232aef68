//! Decimal numbers.
ghost use Rattle.std.specs.Prelude.{◌≡◌, ◌+◌, ◌<◌, ◌≤◌, ◌^◌, decimal};
ghost use Rattle.narc_reading.specs.Reading.{IsRead};

use crate::error::BadLine;

/// The most digits that are read: such a number fits 64 bits.
const MOST: usize = 19;

/// What a digit counts.
#[inline(always)]
fn read_digit(octet: u8) -> Result<u8, BadLine>
    ensures { IsRead (λ n. 48 + n) (λ n. n < 10) octet result }
{
    match octet {
        b'0'..=b'9' => Ok(octet - b'0'),
        _ => Err(BadLine),
    }
}

/// The number below the limit that has these decimal digits, without sign and leading zeros. `BadLine` exactly where there is none.
pub fn read_decimal(digits: &[u8], limit: u64) -> Result<u64, BadLine>
    requires { limit ≤ 10 ^ 19 }
    ensures { IsRead decimal (λ n. n < limit) digits.now result }
{
    if digits.is_empty() {
        return Err(BadLine);
    }
    if digits.len() > MOST {
        return Err(BadLine);
    }
    if digits[0] == b'0' && digits.len() > 1 {
        return Err(BadLine);
    }
    let mut number = 0;
    for digit in digits {
        number = 10 * number + u64::from(read_digit(*digit)?);
    }
    if number < limit {
        Ok(number)
    } else {
        Err(BadLine)
    }
}
