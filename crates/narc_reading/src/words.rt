//! Addresses, fragment flags and the flags of TCP, each a word.
ghost use Rattle.std.specs.Prelude.{◌≡◌, ◌<◌, ◌^◌, Bool, if◌then◌else◌};
ghost use Rattle.narc_packet.specs.Ranges.{IsMac, IsIp};
ghost use Rattle.narc_packet.specs.TextWords.{mac_word, ip_word, fragment_marks, flags_word};
ghost use Rattle.narc_reading.specs.Reading.{IsRead, IsPartRead};

use crate::error::BadLine;
use crate::hex_digits::decode;
use crate::parts::{Parts, Separator};
use narc_bits::known_octets;

impl Parts<'_> {
    pub(crate) fn mac(&mut self) -> Result<[u8; 6], BadLine>
        ensures { IsPartRead mac_word IsMac self.old self.new result }
    {
        read_mac(self.next()?)
    }

    pub(crate) fn ip(&mut self) -> Result<[u8; 4], BadLine>
        ensures { IsPartRead ip_word IsIp self.old self.new result }
    {
        read_ip(self.next()?)
    }

    pub(crate) fn fragment(&mut self) -> Result<(bool, bool), BadLine>
        ensures { IsPartRead (λ marks. fragment_marks marks.0 marks.1) (λ marks. Unit {0}) self.old self.new result }
    {
        read_fragment(self.next()?)
    }

    pub(crate) fn flags(&mut self) -> Result<u8, BadLine>
        ensures { IsPartRead flags_word (λ flags. flags < 64) self.old self.new result }
    {
        read_flags(self.next()?)
    }
}

/// The hardware address of which this is the word: twelve hexadecimal digits in lower case. `BadLine` exactly where there is none.
pub fn read_mac(word: &[u8]) -> Result<[u8; 6], BadLine>
    ensures { IsRead mac_word IsMac word.now result }
{
    if word.len() != 12 {
        return Err(BadLine);
    }
    let mut address = [0; 6];
    decode(word, &mut address)?;
    known_octets(&address);
    Ok(address)
}

/// The IPv4 address of which this is the word: four decimal numbers below 256, joined by points. `BadLine` exactly where there is none.
pub fn read_ip(word: &[u8]) -> Result<[u8; 4], BadLine>
    ensures { IsRead ip_word IsIp word.now result }
{
    let mut parts = Parts::of(word, Separator::Point);
    let a = parts.octet()?;
    let b = parts.octet()?;
    let c = parts.octet()?;
    let d = parts.octet()?;
    parts.end()?;
    Ok([a, b, c, d])
}

/// Whether the letter is there, where else is a point.
fn read_mark(letter: u8, mark: u8) -> Result<bool, BadLine>
    ensures { IsRead (λ is_set. if is_set then letter else 46) (λ is_set. Unit {0}) mark result }
{
    if mark == letter {
        Ok(true)
    } else if mark == b'.' {
        Ok(false)
    } else {
        Err(BadLine)
    }
}

/// `D` for a packet that may not be fragmented, and `M` where more fragments follow.
fn read_fragment(word: &[u8]) -> Result<(bool, bool), BadLine>
    ensures { IsRead (λ marks. fragment_marks marks.0 marks.1) (λ marks. Unit {0}) word.now result }
{
    let [df, mf] = word else {
        return Err(BadLine);
    };
    Ok((read_mark(b'D', *df)?, read_mark(b'M', *mf)?))
}

/// The flags of TCP (RFC 793, section 3.1), of six bits with URG the highest, of which this is the word: each by its first letter, or a
/// point in its place. `BadLine` exactly where there is none.
pub fn read_flags(word: &[u8]) -> Result<u8, BadLine>
    ensures { IsRead flags_word (λ flags. flags < 64) word.now result }
{
    let [u, a, p, r, s, f] = word else {
        return Err(BadLine);
    };
    let high = 32 * u8::from(read_mark(b'U', *u)?)
        + 16 * u8::from(read_mark(b'A', *a)?)
        + 8 * u8::from(read_mark(b'P', *p)?);
    let low = 4 * u8::from(read_mark(b'R', *r)?)
        + 2 * u8::from(read_mark(b'S', *s)?)
        + u8::from(read_mark(b'F', *f)?);
    Ok(high + low)
}
