//! The parts of octets between separators, one behind the other.
ghost use Rattle.std.specs.Prelude.{◌≡◌, ◌≢◌, ◌∷◌, ◌<◌, ◌^◌, ◌≤◌, ◌↔◌, [], ℕ, List, IsTrue, IfOk, OnErr, OnOk, MatchOption, decimal, length};
ghost use Rattle.narc_packet.specs.TextWords.{hex_word};
ghost use Rattle.narc_reading.specs.Parts.{octet_of, parts_of};
ghost use Rattle.narc_reading.specs.Reading.{IsReadBy, IsPartRead, IsWithin};

use crate::decimal::read_decimal;
use crate::error::BadLine;
use crate::hex_digits::decode;
use narc_bits::known_octets;
use std::marker::Model;

/// What stands between parts.
#[derive(Clone, Copy, Drop)]
pub(crate) enum Separator {
    Space,
    Comma,
    Slash,
    Point,
    Colon,
}

impl Separator {
    #[inline(always)]
    fn octet(self) -> u8
        ensures { result ≡ octet_of self }
    {
        match self {
            Separator::Space => b' ',
            Separator::Comma => b',',
            Separator::Slash => b'/',
            Separator::Point => b'.',
            Separator::Colon => b':',
        }
    }
}

/// The parts that are left, between octets that separate them.
#[derive(Drop)]
pub(crate) struct Parts<'a> {
    separator: Separator,
    /// Nothing where the last part was taken.
    rest: Option<&'a [u8]>,
}

impl<'a> Model for Parts<'a> {
    ghost use Rattle.std.specs.Prelude.{ℕ, List};
    ghost use Rattle.narc_reading.specs.Parts.{octet_of, parts_left};

    ghost Value = { List (List ℕ) };

    ghost view = { λ parts. parts_left (octet_of parts.separator) parts.rest };
}

/// Whether the octets are this word.
#[inline(always)]
pub(crate) fn is_word(octets: &[u8], word: &[u8]) -> bool
    ensures { IsTrue result ↔ (octets.now ≡ word.now) }
{
    octets == word
}

/// The octets before the first separator and those behind it, if there is one.
pub(crate) fn split_at_separator(octets: &[u8], separator: u8) -> Option<(&[u8], &[u8])>
    ensures { MatchOption result (parts_of separator octets.now ≡ octets.now ∷ [])
        (λ pair. parts_of separator octets.now ≡ pair.0.now ∷ parts_of separator pair.1.now) }
{
    for (at, octet) in octets.iter().enumerate() {
        if *octet == separator {
            return Some((&octets[..at], &octets[at + 1..]));
        }
    }
    None
}

impl<'a> Parts<'a> {
    pub(crate) fn of(octets: &'a [u8], separator: Separator) -> Parts<'a>
        ensures { result ≡ parts_of (octet_of separator) octets.now }
    {
        Parts {
            separator,
            rest: Some(octets),
        }
    }

    /// Whether no part is left.
    pub(crate) fn is_over(&self) -> bool
        ensures { IsTrue result ↔ (self.now ≡ []) }
    {
        self.rest.is_none()
    }

    /// Sees that no part is left.
    pub(crate) fn end(&self) -> Result<(), BadLine>
        ensures ok { OnOk result (self.now ≡ []) }
        ensures err { OnErr result (self.now ≢ []) }
    {
        if self.is_over() { Ok(()) } else { Err(BadLine) }
    }

    /// Takes the next part.
    pub(crate) fn next(&mut self) -> Result<&'a [u8], BadLine>
        ensures ok { IfOk result (λ part. self.old ≡ part.now ∷ self.new) }
        ensures err { OnErr result (self.old ≡ []) }
    {
        let Some(rest) = self.rest else {
            return Err(BadLine);
        };
        match split_at_separator(rest, self.separator.octet()) {
            Some((part, behind)) => {
                self.rest = Some(behind);
                Ok(part)
            }
            None => {
                self.rest = None;
                Ok(rest)
            }
        }
    }

    /// Takes the next part, which is this word.
    pub(crate) fn expect(&mut self, word: &[u8]) -> Result<(), BadLine>
        ensures ok { OnOk result (self.old ≡ word.now ∷ self.new) }
        ensures err { OnErr result ((rest : List (List ℕ)) → self.old ≢ word.now ∷ rest) }
    {
        if is_word(self.next()?, word) {
            Ok(())
        } else {
            Err(BadLine)
        }
    }

    /// Takes the next part, a decimal number below the limit.
    pub(crate) fn number(&mut self, limit: u64) -> Result<u64, BadLine>
        requires { limit ≤ 10 ^ 19 }
        ensures { IsPartRead decimal (λ n. n < limit) self.old self.new result }
    {
        read_decimal(self.next()?, limit)
    }

    /// Takes the next part, a number of 8 bits.
    pub(crate) fn octet(&mut self) -> Result<u8, BadLine>
        ensures { IsPartRead decimal (λ n. n < 2 ^ 8) self.old self.new result }
    {
        Ok(self.number(1 << 8)? as u8)
    }

    /// Takes the next part, a number of 16 bits.
    pub(crate) fn short(&mut self) -> Result<u16, BadLine>
        ensures { IsPartRead decimal (λ n. n < 2 ^ 16) self.old self.new result }
    {
        Ok(self.number(1 << 16)? as u16)
    }

    /// Takes the next part, a number of 32 bits.
    pub(crate) fn long(&mut self) -> Result<u32, BadLine>
        ensures { IsPartRead decimal (λ n. n < 2 ^ 32) self.old self.new result }
    {
        Ok(self.number(1 << 32)? as u32)
    }

    /// Takes all that is left, which is one part: octets in hexadecimal digits, or `-` for none, that the room has room
    /// for. They are put into its front.
    pub(crate) fn last_hex<'r>(&mut self, room: &'r mut [u8]) -> Result<&'r [u8], BadLine>
        ensures { IsReadBy (λ octets. octets.now) (λ octets. hex_word octets ∷ []) (IsWithin (length room.old)) self.old result }
    {
        let Some(word) = self.rest else {
            return Err(BadLine);
        };
        read_hex(word, room)
    }
}

/// Octets in hexadecimal digits, or `-` for none, that the room has room for. They are put into its front.
fn read_hex<'r>(word: &[u8], room: &'r mut [u8]) -> Result<&'r [u8], BadLine>
    ensures { IsReadBy (λ octets. octets.now) hex_word (IsWithin (length room.old)) word.now result }
{
    if is_word(word, b"-") {
        return Ok(&[]);
    }
    if word.len() % 2 != 0 {
        return Err(BadLine);
    }
    let count = word.len() / 2;
    if count == 0 {
        return Err(BadLine);
    }
    if count > room.len() {
        return Err(BadLine);
    }
    let octets = &mut room[..count];
    decode(word, octets)?;
    known_octets(octets);
    Ok(octets)
}
