//! A text, read line by line.
ghost use Rattle.std.specs.Prelude.{◌≡◌, ◌↔◌, ◌+◌, ◌-◌, ◌<◌, ◌≤◌, ◌++◌, IsTrue, drop, length, take};
ghost use Rattle.narc_world.specs.Outside.{CountsFaults};
ghost use Rattle.narc_world.specs.Intake.{IsFresh, IsRefilled, RefillFault, taken};
ghost use Rattle.narc_lines.specs.Reading.{BehindFault, IsAhead, IsBehind, IsNext, IsReady, NextFault, end_of};

use crate::feed::first_line;
use narc_world::{INPUT_LIMIT, InputBuffer, Refill, Source};
use std::marker::Model;

/// What `next` found.
#[derive(Debug, Drop, PartialEq)]
pub enum NextLine {
    /// A line, which `line` then lends.
    Line,
    /// The source ended behind the last line.
    End,
    /// The source ended within a line.
    Torn,
    /// More octets than a line may have, and no line feed among them.
    Endless,
    ReadFault,
    /// As many octets came as a text may have, and then one more.
    Long,
}

/// What stands behind the last line.
#[derive(Debug, Drop, PartialEq)]
pub enum Behind {
    /// The source ended.
    End,
    /// At least one octet.
    More,
    ReadFault,
    /// As many octets came as a text may have, and then one more.
    Long,
}

/// What the octets in hand begin with.
#[derive(Drop)]
enum Ahead {
    /// A line of so many octets, its line feed among them.
    Line(usize),
    /// Too few octets to tell.
    Open,
    /// More than a line may have.
    Endless,
}

/// A text that comes from a source. The reader owns its buffer, and keeps no octets of the past but the last line.
#[derive(Drop)]
pub struct LineReader {
    input: InputBuffer,
    /// The most octets of a line, its line feed among them.
    longest: usize,
    /// How many of the octets in hand were looked through, and have no line feed.
    through: usize,
}

impl Model for LineReader {
    ghost use Rattle.narc_lines.specs.Reading.{IsReading, Reading};

    ghost Value = { Reading };

    ghost view = { λ r. record { input = r.input; longest = r.longest } };

    ghost invariant = { λ r. IsReading r.input r.longest r.through };
}

impl LineReader {
    /// A reader that has taken nothing, of lines of at most so many octets, the line feed among them, over a buffer in which
    /// any has its place.
    pub fn new(buffer: Vec<u8>, longest: usize) -> LineReader
        requires { longest ≤ length buffer.items }
        ensures fresh { IsFresh result.input }
        ensures size { result.input.size ≡ length buffer.items }
        ensures longest { result.longest ≡ longest }
    {
        LineReader {
            input: InputBuffer::new(buffer),
            longest,
            through: 0,
        }
    }

    /// The place behind the last line.
    pub fn place(&self) -> u64
        ensures { result ≡ self.now.input.place }
    {
        self.input.place()
    }

    /// How many octets were taken from the source. The one that shows that there are too many does not count.
    pub fn taken(&self) -> u64
        ensures count { result ≡ taken self.now.input }
        ensures reach { result ≤ INPUT_LIMIT }
    {
        self.input.taken()
    }

    /// The last line without its line feed, not copied.
    pub fn line(&self) -> &[u8]
        requires { 0 < length self.now.input.passed }
        ensures { result.now ≡ take (length self.now.input.passed - 1) self.now.input.passed }
    {
        let line = self.input.passed();
        &line[..line.len() - 1]
    }

    /// What the octets in hand begin with.
    #[inline(always)]
    fn ahead(&mut self) -> Ahead
        ensures same { self.new ≡ self.old }
        ensures ahead { IsAhead self.old.longest self.old.input.hand result }
        ensures reach { taken self.new.input ≤ INPUT_LIMIT }
        ensures within { length self.old.input.hand ≤ self.old.input.size }
    {
        let hand = self.input.hand();
        let end = hand.len().min(self.longest);
        if let Some(count) = first_line(&hand[..end], self.through) {
            self.through = count - 1;
            return Ahead::Line(count);
        }
        self.through = end;
        if end == self.longest {
            Ahead::Endless
        } else {
            Ahead::Open
        }
    }

    /// Whether `next` will answer without a pull.
    pub fn is_ready(&mut self) -> bool
        ensures same { self.new ≡ self.old }
        ensures ready { IsTrue result ↔ IsReady self.old }
    {
        match self.ahead() {
            Ahead::Line(_) | Ahead::Endless => true,
            Ahead::Open => false,
        }
    }

    /// Passes a line of so many octets.
    fn pass(&mut self, count: usize)
        requires { count ≤ length self.old.input.hand }
        ensures passed { self.new.input.passed ≡ take count self.old.input.hand }
        ensures hand { self.new.input.hand ≡ drop count self.old.input.hand }
        ensures place { self.new.input.place ≡ self.old.input.place + count }
        ensures size { self.new.input.size ≡ self.old.input.size }
        ensures longest { self.new.longest ≡ self.old.longest }
        ensures reach { taken self.new.input ≤ INPUT_LIMIT }
    {
        self.input.pass(count);
        self.through = 0;
    }

    /// Pulls once, where the octets in hand are fewer than a line may have.
    fn refill<S: Source>(&mut self, source: &mut S) -> Refill
        requires { length self.old.input.hand < self.old.longest }
        ensures refilled { IsRefilled self.old.input self.new.input (S.left source.old) (S.left source.new) result }
        ensures longest { self.new.longest ≡ self.old.longest }
        ensures faults { CountsFaults (RefillFault result) (S.faults source.old) (S.faults source.new) }
        ensures reach { taken self.new.input ≤ INPUT_LIMIT }
    {
        self.input.refill(source)
    }

    /// Reads the next line, which `line` then lends, or finds how the text goes on. Where the octets in hand hold a line, or
    /// more octets than one may have, nothing is pulled.
    pub fn next<S: Source>(&mut self, source: &mut S) -> NextLine
        ensures next { IsNext self.old self.new (S.left source.old) (S.left source.new) result }
        ensures longest { self.new.longest ≡ self.old.longest }
        ensures still { IsReady self.old → source.new ≡ source.old }
        ensures in_hand { IsReady self.old → result ≡ NextLine.Line → self.old.input.hand ≡ self.new.input.passed ++ self.new.input.hand }
        ensures within { result ≡ NextLine.Line → length self.new.input.passed + length self.new.input.hand ≤ self.new.input.size }
        ensures faults { CountsFaults (NextFault result) (S.faults source.old) (S.faults source.new) }
        ensures reach { taken self.new.input ≤ INPUT_LIMIT }
    {
        'pulls: loop {
            match self.ahead() {
                Ahead::Line(count) => {
                    self.pass(count);
                    return NextLine::Line;
                }
                Ahead::Endless => return NextLine::Endless,
                Ahead::Open => {}
            }
            match self.refill(source) {
                Refill::Got => {}
                Refill::End => return self.ended(),
                Refill::Failed => return NextLine::ReadFault,
                Refill::Long => return NextLine::Long,
            }
        }
    }

    /// How a text ends with the octets in hand.
    fn ended(&self) -> NextLine
        ensures { result ≡ end_of self.now.input.hand }
    {
        if self.input.len() == 0 {
            NextLine::End
        } else {
            NextLine::Torn
        }
    }

    /// Whether anything stands behind the last line. Where octets are in hand, nothing is pulled.
    pub fn behind<S: Source>(&mut self, source: &mut S) -> Behind
        requires { 0 < self.old.longest }
        ensures behind { IsBehind self.old self.new (S.left source.old) (S.left source.new) result }
        ensures longest { self.new.longest ≡ self.old.longest }
        ensures faults { CountsFaults (BehindFault result) (S.faults source.old) (S.faults source.new) }
        ensures reach { taken self.new.input ≤ INPUT_LIMIT }
    {
        if self.taken() > self.place() {
            return Behind::More;
        }
        match self.refill(source) {
            Refill::Got => Behind::More,
            Refill::End => Behind::End,
            Refill::Failed => Behind::ReadFault,
            Refill::Long => Behind::Long,
        }
    }
}
