//! The blocks of a selective acknowledgment, as the octets that spell them.
ghost use Rattle.std.specs.Prelude.{◌≡◌, ◌↔◌, ◌<◌, ◌++◌, ◌∷◌, [], IsNone, IfSome, length, flat_map};
ghost use Rattle.narc_bits.specs.Octets.{big_endian};
ghost use Rattle.narc_packet.specs.Options.{IpOther, TcpSack, IsTcpOption, sack_block, sack_blocks_in, tcp_option_of};

use crate::limits::MAX_BLOCKS;
use crate::option_type::TcpOptionType;
use arrayvec::ArrayVec;
use narc_bits::known_octets;
use std::marker::Model;

/// The octets of the most blocks.
const MAX_OCTETS: usize = 8 * MAX_BLOCKS;

/// Octets that have come (RFC 2018, section 3): the sequence numbers of the first of them, and of the one behind the last.
#[derive(Clone, Copy, Default, Drop, PartialEq, Eq)]
pub struct SackBlock {
    pub left: u32,
    pub right: u32,
}

impl SackBlock {
    /// The octets of both edges.
    pub fn to_be_bytes(self) -> [u8; 8]
        ensures { result ≡ sack_block self }
    {
        two_numbers(self.left, self.right)
    }
}

/// Two numbers of 32 bits, one behind the other.
pub(crate) fn two_numbers(first: u32, second: u32) -> [u8; 8]
    ensures { result ≡ big_endian 4 first ++ big_endian 4 second }
{
    let [a, b, c, d] = first.to_be_bytes();
    let [e, f, g, h] = second.to_be_bytes();
    [a, b, c, d, e, f, g, h]
}

/// The block in front and the octets behind it; none where there are fewer than eight.
fn split_first_block(spelled: &[u8]) -> Option<(SackBlock, &[u8])>
    ensures none { IsNone result ↔ (sack_blocks_in spelled.now ≡ []) }
    ensures first { IfSome result (λ pair. sack_blocks_in spelled.now ≡ pair.0 ∷ sack_blocks_in pair.1.now) }
{
    let [a, b, c, d, e, f, g, h, rest @ ..] = spelled else {
        return None;
    };
    let block = SackBlock {
        left: u32::from_be_bytes([*a, *b, *c, *d]),
        right: u32::from_be_bytes([*e, *f, *g, *h]),
    };
    Some((block, rest))
}

/// The blocks of a selective acknowledgment, one behind the other.
#[derive(Clone, Copy, Drop)]
pub struct SackBlocks<'a> {
    /// The octets that spell the blocks, 8 for each: one to four in an option.
    pub spelled: &'a [u8],
}

impl<'a> SackBlocks<'a> {
    /// The blocks in order.
    pub fn iter(&self) -> SackBlockIter<'a>
        ensures { result ≡ sack_blocks_in self.now.spelled.now }
    {
        SackBlockIter { left: self.spelled }
    }

    /// The octets of whole blocks.
    fn whole(&self) -> &'a [u8]
        ensures { result.now ≡ flat_map sack_block (sack_blocks_in self.now.spelled.now) }
    {
        known_octets(self.spelled);
        let count = self.spelled.len() - self.spelled.len() % 8;
        &self.spelled[..count]
    }

    /// The data of an option with these blocks, if they are one to four.
    pub(crate) fn option_data(&self) -> Option<&'a [u8]>
        ensures some { IfSome result (λ data_octets. tcp_option_of (IpOther 5 data_octets.now) ≡ TcpSack (sack_blocks_in self.now.spelled.now)) }
        ensures none { IsNone result → IsTcpOption (TcpSack (sack_blocks_in self.now.spelled.now)) → ⊥ }
    {
        known_octets(self.spelled);
        let octets = self.whole();
        match TcpOptionType::of(5, octets.len()) {
            TcpOptionType::Sack => Some(octets),
            _ => None,
        }
    }
}

/// The blocks of a selective acknowledgment, seen as the list of those that are left.
#[derive(Drop)]
pub struct SackBlockIter<'a> {
    left: &'a [u8],
}

impl<'a> Model for SackBlockIter<'a> {
    ghost use Rattle.std.specs.Prelude.{List};
    ghost use Rattle.narc_packet.specs.Options.{sack_blocks_in};
    ghost use Rattle.narc_packet.specs.declared.blocks.SackBlock.{SackBlock};

    ghost Value = { List SackBlock };

    ghost view = { λ blocks. sack_blocks_in blocks.left.now };
}

impl<'a> Iterator for SackBlockIter<'a> {
    ghost use Rattle.std.specs.Iterator.{YieldsFirstBy, item_count};

    type Item = SackBlock;

    ghost next_gives = { YieldsFirstBy (λ block. block) (λ left. left) };

    ghost remaining = { item_count (λ left. left) };

    #[inline(always)]
    fn next(&mut self) -> Option<SackBlock> {
        let (block, left) = split_first_block(self.left)?;
        self.left = left;
        Some(block)
    }
}

/// The blocks of a selective acknowledgment, in octets of their own, seen as the list of blocks: at most four.
#[derive(Drop)]
pub struct SackBlockList {
    spelled: ArrayVec<u8, MAX_OCTETS>,
}

impl Model for SackBlockList {
    ghost use Rattle.std.specs.Prelude.{List};
    ghost use Rattle.narc_packet.specs.Options.{sack_blocks_in, AreSpelledBlocks};
    ghost use Rattle.narc_packet.specs.declared.blocks.SackBlock.{SackBlock};

    ghost Value = { List SackBlock };

    ghost view = { λ list. sack_blocks_in list.spelled.items };

    ghost invariant = { λ list. AreSpelledBlocks list.spelled.items };
}

impl SackBlockList {
    /// No blocks.
    pub fn new() -> SackBlockList
        ensures { result ≡ [] }
    {
        SackBlockList {
            spelled: ArrayVec::new(),
        }
    }

    /// Appends a block.
    pub fn push(&mut self, block: SackBlock)
        requires { length self.old < MAX_BLOCKS }
        ensures { self.new ≡ self.old ++ block ∷ [] }
    {
        self.spelled
            .try_extend_from_slice(&block.to_be_bytes())
            .unwrap();
    }

    /// The blocks, as an option has them.
    pub fn as_blocks(&self) -> SackBlocks<'_>
        ensures { sack_blocks_in result.spelled.now ≡ self.now }
    {
        SackBlocks {
            spelled: self.spelled.as_slice(),
        }
    }
}
