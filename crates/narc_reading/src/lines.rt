//! The lines of a capture's text, without their line feeds.
ghost use Rattle.std.specs.Prelude.{◌≡◌, ◌≤◌, ◌<◌, ◌^◌, ◌++◌, ◌∷◌, [], codes, decimal, IfOk, length};
ghost use Rattle.narc_packet.specs.WellFormed.{SpellsOptions};
ghost use Rattle.narc_text.specs.CaptureText.{IsTextEntry, unit_word, capture_words, capture_line, entry_words, entry_line, end_words, end_line};
ghost use Rattle.narc_reading.specs.Reading.{IsRead, IsReadBy, IsPartRead, entry_view};

use crate::error::BadLine;
use crate::packet::read_words;
use crate::parts::{Parts, Separator, is_word};
use narc_bits::MAX_FRAME;
use narc_packet::Packet;
use narc_pcap::Unit;

/// One more than the greatest count that is read.
const COUNTS: u64 = 10_000_000_000_000_000_000;

/// What sub-seconds count, in a word.
fn read_unit(word: &[u8]) -> Result<Unit, BadLine>
    ensures { IsRead unit_word (λ unit. Prim.Unit {0}) word.now result }
{
    if is_word(word, b"us") {
        Ok(Unit::Micro)
    } else if is_word(word, b"ns") {
        Ok(Unit::Nano)
    } else {
        Err(BadLine)
    }
}

fn next_unit(words: &mut Parts<'_>) -> Result<Unit, BadLine>
    ensures { IsPartRead unit_word (λ unit. Prim.Unit {0}) words.old words.new result }
{
    read_unit(words.next()?)
}

/// The first line of a capture's text.
#[derive(Clone, Copy, Drop)]
pub struct CaptureLine {
    /// What the sub-seconds count.
    pub unit: Unit,
    /// The snapshot length, in octets.
    pub snap: u32,
}

impl CaptureLine {
    fn of(words: &mut Parts<'_>) -> Result<CaptureLine, BadLine>
        ensures { IsRead (λ head. capture_words (unit_word head.unit) head.snap) (λ head. head.snap < 2 ^ 32) words.old result }
    {
        words.expect(b"capture")?;
        let unit = next_unit(words)?;
        let snap = words.long()?;
        words.end()?;
        Ok(CaptureLine { unit, snap })
    }

    /// The unit and the snapshot length of which this is the line, without its line feed. `BadLine` exactly where there are none.
    pub fn read(line: &[u8]) -> Result<CaptureLine, BadLine>
        ensures { IsRead (λ head. capture_line (unit_word head.unit) head.snap) (λ head. head.snap < 2 ^ 32) (line.now ++ 10 ∷ []) result }
    {
        let mut words = Parts::of(line, Separator::Space);
        CaptureLine::of(&mut words)
    }
}

/// The line of a record with a packet.
#[derive(Drop)]
pub struct RecordLine<'a> {
    /// Seconds since the first of January 1970, UTC.
    pub sec: u32,
    /// Sub-seconds, in the unit of the capture; any number of 32 bits.
    pub sub: u32,
    /// A packet that has a frame.
    pub packet: Packet<'a>,
}

/// The record whose line is made of these words.
fn read_record<'a>(words: &mut Parts<'_>, store: &'a mut [u8]) -> Result<RecordLine<'a>, BadLine>
    requires { MAX_FRAME ≤ length store.old }
    ensures read { IsReadBy entry_view entry_words IsTextEntry words.old result }
    ensures spelled { IfOk result (λ line. SpellsOptions line.packet) }
{
    words.expect(b"rec")?;
    let sec = words.long()?;
    let sub = words.long()?;
    words.expect(b"ok")?;
    let packet = read_words(words, store)?;
    Ok(RecordLine { sec, sub, packet })
}

impl<'a> RecordLine<'a> {
    /// The record of which this is the line, without its line feed. The options and the payload of its packet lie in the store.
    /// `BadLine` exactly where there is none.
    pub fn read(line: &[u8], store: &'a mut [u8]) -> Result<RecordLine<'a>, BadLine>
        requires { MAX_FRAME ≤ length store.old }
        ensures read { IsReadBy entry_view entry_line IsTextEntry (line.now ++ 10 ∷ []) result }
        ensures spelled { IfOk result (λ line. SpellsOptions line.packet) }
    {
        let mut words = Parts::of(line, Separator::Space);
        read_record(&mut words, store)
    }
}

/// The last line of a capture of packets alone.
#[derive(Clone, Copy, Drop)]
pub struct EndLine {
    /// How many records there are, each with a packet: fewer than 10^19.
    pub packets: u64,
}

impl EndLine {
    fn of(words: &mut Parts<'_>) -> Result<EndLine, BadLine>
        ensures { IsRead (λ last. end_words last.packets last.packets 0 0) (λ last. last.packets < 10 ^ 19) words.old result }
    {
        words.expect(b"end")?;
        let records = words.number(COUNTS)?;
        let packets = words.number(COUNTS)?;
        words.expect(b"0")?;
        words.expect(b"0")?;
        words.end()?;
        if records == packets {
            Ok(EndLine { packets })
        } else {
            Err(BadLine)
        }
    }

    /// The count of which this is the line, without its line feed. `BadLine` exactly where there is none.
    pub fn read(line: &[u8]) -> Result<EndLine, BadLine>
        ensures { IsRead (λ last. end_line last.packets last.packets 0 0) (λ last. last.packets < 10 ^ 19) (line.now ++ 10 ∷ []) result }
    {
        let mut words = Parts::of(line, Separator::Space);
        EndLine::of(&mut words)
    }
}
