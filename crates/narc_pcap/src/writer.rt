//! A capture that is written.
ghost use Rattle.std.specs.Prelude.{◌≡◌, ◌+◌, ◌≤◌, ◌++◌, [], drop, length, take, OnErr, OnOk};
ghost use Rattle.narc_world.specs.Outside.{CountsFaults, IsPushed};
ghost use Rattle.narc_pcap.specs.Written.{head_octets, header_octets, magic_of, number_octets, record_octets, whole_record};

use crate::fill::Fill;
use crate::header::{Header, MICRO, NANO, Unit};
use crate::record::{LONGEST_FRAME, Record};
use byteorder::{BigEndian, ByteOrder, LittleEndian};
use narc_world::{Failed, Sink};
use std::marker::Model;

/// How many octets the header of a capture has.
pub const HEADER_SIZE: usize = 24;

/// How many octets the header of a record has.
pub const HEAD_SIZE: usize = 16;

/// Writes a number into the front of a room.
fn put_16(big: bool, number: u16, room: &mut [u8])
    requires { 2 ≤ length room.old }
    ensures { room.new ≡ number_octets big 2 number ++ drop 2 room.old }
{
    if big {
        BigEndian::write_u16(room, number);
    } else {
        LittleEndian::write_u16(room, number);
    }
}

/// Writes a number into the front of a room.
fn put_32(big: bool, number: u32, room: &mut [u8])
    requires { 4 ≤ length room.old }
    ensures { room.new ≡ number_octets big 4 number ++ drop 4 room.old }
{
    if big {
        BigEndian::write_u32(room, number);
    } else {
        LittleEndian::write_u32(room, number);
    }
}

/// The magic number that tells the unit.
fn magic(unit: Unit) -> u32
    ensures { result ≡ magic_of unit }
{
    match unit {
        Unit::Micro => MICRO,
        Unit::Nano => NANO,
    }
}

/// Writes the header of a capture, of 24 octets.
pub fn put_header(header: &Header, room: &mut [u8])
    requires { length room.old ≡ HEADER_SIZE }
    ensures { room.new ≡ header_octets header.now }
{
    put_32(header.big, magic(header.unit), room);
    put_16(header.big, 2, &mut room[4..]);
    put_16(header.big, 4, &mut room[6..]);
    put_32(header.big, header.zone, &mut room[8..]);
    put_32(header.big, header.accuracy, &mut room[12..]);
    put_32(header.big, header.snap, &mut room[16..]);
    put_32(header.big, 1, &mut room[20..]);
}

/// Writes the header of a record, of 16 octets.
pub fn put_head(big: bool, sec: u32, sub: u32, captured: u32, original: u32, room: &mut [u8])
    requires { length room.old ≡ HEAD_SIZE }
    ensures { room.new ≡ head_octets big sec sub captured original }
{
    put_32(big, sec, room);
    put_32(big, sub, &mut room[4..]);
    put_32(big, captured, &mut room[8..]);
    put_32(big, original, &mut room[12..]);
}

/// Writes a record into a buffer, behind its first `at` octets, and answers where it ends. Its frame is written straight into
/// its place.
pub fn put_record<F: Fill>(
    buffer: &mut [u8],
    at: usize,
    big: bool,
    sec: u32,
    sub: u32,
    frame: &F,
) -> usize
    requires can { F.can_fill frame.now }
    requires few { length (F.frame frame.now) ≤ LONGEST_FRAME }
    requires room { at + (HEAD_SIZE + length (F.frame frame.now)) ≤ length buffer.old }
    ensures end { result ≡ at + (HEAD_SIZE + length (F.frame frame.now)) }
    ensures written { take result buffer.new ≡ take at buffer.old ++ whole_record big sec sub (F.frame frame.now) }
    ensures len { length buffer.new ≡ length buffer.old }
{
    let start = at + HEAD_SIZE;
    let end = start + (LONGEST_FRAME as usize).min(buffer.len() - start);
    let count = frame.fill(&mut buffer[start..end]);
    put_head(
        big,
        sec,
        sub,
        count as u32,
        count as u32,
        &mut buffer[at..start],
    );
    start + count
}

/// Writes octets into a buffer, behind its first `at` octets.
fn put_octets(buffer: &mut [u8], at: usize, octets: &[u8])
    requires { at + length octets.now ≤ length buffer.old }
    ensures written { take (at + length octets.now) buffer.new ≡ take at buffer.old ++ octets.now }
    ensures len { length buffer.new ≡ length buffer.old }
{
    buffer[at..at + octets.len()].copy_from_slice(octets);
}

/// Writes the header of a capture to a sink. `Failed` only where the sink failed.
pub fn write_header<K: Sink>(sink: &mut K, header: &Header) -> Result<(), Failed>
    ensures pushed { IsPushed result (K.held sink.old) (K.held sink.new) (header_octets header.now) }
    ensures faults { CountsFaults (OnErr result) (K.faults sink.old) (K.faults sink.new) }
{
    let mut octets = [0; HEADER_SIZE];
    put_header(header, &mut octets);
    sink.push(&octets)
}

/// Writes a record to a sink: its header, and the octets of its frame. `Failed` only where the sink failed.
pub fn write_record<K: Sink>(
    sink: &mut K,
    big: bool,
    head: &Record,
    frame: &[u8],
) -> Result<(), Failed>
    ensures pushed { IsPushed result (K.held sink.old) (K.held sink.new) (record_octets big head.now frame.now) }
    ensures faults { CountsFaults (OnErr result) (K.faults sink.old) (K.faults sink.new) }
{
    let mut numbers = [0; HEAD_SIZE];
    put_head(
        big,
        head.sec,
        head.sub,
        head.captured,
        head.original,
        &mut numbers,
    );
    sink.push(&numbers)?;
    sink.push(frame)
}

/// A capture that goes to a sink. The writer owns its buffer, in which octets are gathered, so that one push carries many
/// records.
#[derive(Drop)]
pub struct Writer {
    buffer: Vec<u8>,
    len: usize,
}

impl Model for Writer {
    ghost use Rattle.std.specs.Prelude.{◌≤◌, length, take};
    ghost use Rattle.narc_pcap.specs.Written.{Gathered};

    ghost Value = { Gathered };

    ghost view = { λ w. record { octets = take w.len w.buffer.items; size = length w.buffer.items } };

    ghost invariant = { λ w. w.len ≤ length w.buffer.items };
}

impl Writer {
    /// A writer that has gathered nothing.
    pub fn new(buffer: Vec<u8>) -> Writer
        ensures none { result.octets ≡ [] }
        ensures size { result.size ≡ length buffer.items }
    {
        Writer { buffer, len: 0 }
    }

    /// Writes the header of a capture.
    pub fn header(&mut self, header: &Header)
        requires { length self.old.octets + HEADER_SIZE ≤ self.old.size }
        ensures octets { self.new.octets ≡ self.old.octets ++ header_octets header.now }
        ensures size { self.new.size ≡ self.old.size }
    {
        let mut octets = [0; HEADER_SIZE];
        put_header(header, &mut octets);
        put_octets(&mut self.buffer, self.len, &octets);
        self.len += HEADER_SIZE;
    }

    /// Writes a record that has its whole frame, which is written straight into its place.
    pub fn frame<F: Fill>(&mut self, big: bool, sec: u32, sub: u32, frame: &F)
        requires can { F.can_fill frame.now }
        requires few { length (F.frame frame.now) ≤ LONGEST_FRAME }
        requires room { length self.old.octets + (HEAD_SIZE + length (F.frame frame.now)) ≤ self.old.size }
        ensures octets { self.new.octets ≡ self.old.octets ++ whole_record big sec sub (F.frame frame.now) }
        ensures size { self.new.size ≡ self.old.size }
    {
        self.len = put_record(&mut self.buffer, self.len, big, sec, sub, frame);
    }

    /// Writes a record as it came, and the octets of its frame.
    pub fn record(&mut self, big: bool, head: &Record, octets: &[u8])
        requires { length self.old.octets + (HEAD_SIZE + length octets.now) ≤ self.old.size }
        ensures octets { self.new.octets ≡ self.old.octets ++ record_octets big head.now octets.now }
        ensures size { self.new.size ≡ self.old.size }
    {
        let mut numbers = [0; HEAD_SIZE];
        put_head(
            big,
            head.sec,
            head.sub,
            head.captured,
            head.original,
            &mut numbers,
        );
        put_octets(&mut self.buffer, self.len, &numbers);
        put_octets(&mut self.buffer, self.len + HEAD_SIZE, octets);
        self.len += HEAD_SIZE + octets.len();
    }

    /// Pushes what is gathered, in one push. `Failed` only where the sink failed.
    pub fn flush<K: Sink>(&mut self, sink: &mut K) -> Result<(), Failed>
        ensures pushed { IsPushed result (K.held sink.old) (K.held sink.new) self.old.octets }
        ensures empty { OnOk result (self.new.octets ≡ []) }
        ensures size { self.new.size ≡ self.old.size }
        ensures faults { CountsFaults (OnErr result) (K.faults sink.old) (K.faults sink.new) }
    {
        sink.push(&self.buffer[..self.len])?;
        self.len = 0;
        Ok(())
    }
}
