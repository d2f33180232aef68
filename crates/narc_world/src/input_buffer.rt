//! The octets of an input that are in hand, in a buffer of a fixed size.
ghost use Rattle.std.specs.Prelude.{◌≡◌, ◌+◌, ◌-◌, ◌<◌, ◌≤◌, drop, length, take, slice_range};
ghost use Rattle.std.specs.List.{AllByRecursion};
ghost use Rattle.narc_world.specs.Outside.{CountsFaults, OnFailed};
ghost use Rattle.narc_world.specs.Intake.{IsFresh, IsPulledBehind, IsRefilled, RefillFault, got, taken};

use crate::edit::Edit;
use crate::source::{Pulled, Source};
use std::marker::Model;

/// The most octets of an input that comes by way of a buffer.
pub const INPUT_LIMIT: u64 = 1 << 40;

/// What came of pulling once.
#[derive(Drop)]
pub enum Refill {
    /// At least one octet more is in hand.
    Got,
    End,
    Failed,
    /// No more octets may be taken, and another one came.
    Long,
}

/// An input of at most `INPUT_LIMIT` octets, of which the buffer has those that are in hand, behind the part that was passed
/// last.
#[derive(Drop)]
pub struct InputBuffer {
    buffer: Vec<u8>,
    /// Where the part that was passed last begins and ends.
    start: usize,
    end: usize,
    /// Where the octets in hand begin and end.
    from: usize,
    to: usize,
    /// The place of the first octet in hand.
    place: u64,
}

impl Model for InputBuffer {
    ghost use Rattle.std.specs.Prelude.{length, slice_range};
    ghost use Rattle.narc_world.specs.Intake.{Intake, IsLaidOut};

    ghost Value = { Intake };

    ghost view = { λ i. record {
      passed = slice_range i.buffer.items i.start i.end;
      hand = slice_range i.buffer.items i.from i.to;
      place = i.place;
      size = length i.buffer.items;
    } };

    ghost invariant = { λ i. IsLaidOut i.buffer.items i.start i.end i.from i.to i.place };
}

impl InputBuffer {
    /// A buffer with nothing in hand.
    pub fn new(buffer: Vec<u8>) -> InputBuffer
        ensures fresh { IsFresh result }
        ensures size { result.size ≡ length buffer.items }
    {
        InputBuffer {
            buffer,
            start: 0,
            end: 0,
            from: 0,
            to: 0,
            place: 0,
        }
    }

    /// How many octets are in hand.
    pub fn len(&self) -> usize
        ensures { result ≡ length self.now.hand }
    {
        self.to - self.from
    }

    /// The place of the first octet in hand.
    pub fn place(&self) -> u64
        ensures { result ≡ self.now.place }
    {
        self.place
    }

    /// How many octets were taken from the source. The one that shows that there are too many does not count.
    pub fn taken(&self) -> u64
        ensures count { result ≡ taken self.now }
        ensures reach { result ≤ INPUT_LIMIT }
    {
        self.place + (self.to - self.from) as u64
    }

    /// The octets in hand.
    pub fn hand(&self) -> &[u8]
        ensures hand { result.now ≡ self.now.hand }
        ensures octets { AllByRecursion (λ octet. octet < 256) self.now.hand }
        ensures reach { taken self.now ≤ INPUT_LIMIT }
        ensures within { length self.now.hand ≤ self.now.size }
    {
        part(&self.buffer, self.from, self.to)
    }

    /// The part that was passed last.
    pub fn passed(&self) -> &[u8]
        ensures { result.now ≡ self.now.passed }
    {
        &self.buffer[self.start..self.end]
    }

    /// Edits the part that was passed last, in place.
    pub fn edit<E: Edit>(&mut self, by: &E)
        requires { E.can_edit by.now self.old.passed }
        ensures passed { self.new.passed ≡ E.edited by.now self.old.passed }
        ensures hand { self.new.hand ≡ self.old.hand }
        ensures place { self.new.place ≡ self.old.place }
        ensures size { self.new.size ≡ self.old.size }
    {
        edit_part(&mut self.buffer, self.start, self.end, by);
    }

    /// Passes so many octets, which `passed` then lends.
    pub fn pass(&mut self, count: usize)
        requires { count ≤ length self.old.hand }
        ensures passed { self.new.passed ≡ take count self.old.hand }
        ensures hand { self.new.hand ≡ drop count self.old.hand }
        ensures place { self.new.place ≡ self.old.place + count }
        ensures size { self.new.size ≡ self.old.size }
        ensures reach { taken self.new ≤ INPUT_LIMIT }
    {
        self.start = self.from;
        self.end = self.from + count;
        self.from = self.end;
        self.place += count as u64;
    }

    /// Leaves so many octets out.
    pub fn skip(&mut self, count: usize)
        requires { count ≤ length self.old.hand }
        ensures passed { self.new.passed ≡ self.old.passed }
        ensures hand { self.new.hand ≡ drop count self.old.hand }
        ensures place { self.new.place ≡ self.old.place + count }
        ensures size { self.new.size ≡ self.old.size }
        ensures reach { taken self.new ≤ INPUT_LIMIT }
    {
        self.from += count;
        self.place += count as u64;
    }

    /// Pulls octets, at most so many, to stand behind those in hand. These move to the front of the buffer before, over the
    /// part that was passed last.
    fn pull<S: Source>(&mut self, most: usize, source: &mut S) -> Pulled
        requires some { 0 < most }
        requires room { length self.old.hand < self.old.size }
        requires reach { taken self.old + most ≤ INPUT_LIMIT }
        ensures pulled { IsPulledBehind result most self.old.hand self.new.hand (S.left source.old) (S.left source.new) }
        ensures faults { CountsFaults (OnFailed result) (S.faults source.old) (S.faults source.new) }
        ensures place { self.new.place ≡ self.old.place }
        ensures size { self.new.size ≡ self.old.size }
    {
        move_to_front(&mut self.buffer, self.from, self.to);
        self.to -= self.from;
        self.start = 0;
        self.end = 0;
        self.from = 0;
        let pulled = pull_behind(&mut self.buffer, self.to, most, source);
        if let Pulled::Got(count) = pulled {
            self.to += count;
        }
        pulled
    }

    /// Pulls once: as much as there is room for, and not past the limit.
    #[cold]
    #[inline(never)]
    pub fn refill<S: Source>(&mut self, source: &mut S) -> Refill
        requires { length self.old.hand < self.old.size }
        ensures refilled { IsRefilled self.old self.new (S.left source.old) (S.left source.new) result }
        ensures faults { CountsFaults (RefillFault result) (S.faults source.old) (S.faults source.new) }
        ensures reach { taken self.new ≤ INPUT_LIMIT }
    {
        let left = INPUT_LIMIT - self.taken();
        if left == 0 {
            let mut octet = [0];
            match source.pull(&mut octet) {
                Pulled::Got(_) => return Refill::Long,
                Pulled::End => return Refill::End,
                Pulled::Failed => return Refill::Failed,
            }
        }
        match self.pull(left as usize, source) {
            Pulled::Got(_) => Refill::Got,
            Pulled::End => Refill::End,
            Pulled::Failed => Refill::Failed,
        }
    }
}

/// A part of a buffer.
fn part(buffer: &[u8], start: usize, end: usize) -> &[u8]
    requires order { start ≤ end }
    requires within { end ≤ length buffer.now }
    ensures part { result.now ≡ slice_range buffer.now start end }
    ensures octets { AllByRecursion (λ octet. octet < 256) result.now }
{
    &buffer[start..end]
}

/// Edits a part of a buffer.
fn edit_part<E: Edit>(buffer: &mut [u8], start: usize, end: usize, by: &E)
    requires order { start ≤ end }
    requires within { end ≤ length buffer.old }
    requires can { E.can_edit by.now (slice_range buffer.old start end) }
    ensures part { slice_range buffer.new start end ≡ E.edited by.now (slice_range buffer.old start end) }
    ensures rest { drop end buffer.new ≡ drop end buffer.old }
    ensures len { length buffer.new ≡ length buffer.old }
{
    by.edit(&mut buffer[start..end]);
}

/// Moves a part of a buffer to its front.
fn move_to_front(buffer: &mut [u8], from: usize, to: usize)
    requires order { from ≤ to }
    requires within { to ≤ length buffer.old }
    ensures { take (to - from) buffer.new ≡ slice_range buffer.old from to }
{
    if from > 0 {
        buffer.copy_within(from..to, 0);
    }
}

/// Pulls octets, at most so many, into a buffer, behind its first `to` octets.
fn pull_behind<S: Source>(buffer: &mut [u8], to: usize, most: usize, source: &mut S) -> Pulled
    requires some { 0 < most }
    requires room { to < length buffer.old }
    ensures pulled { IsPulledBehind result most (take to buffer.old) (take (to + got result) buffer.new) (S.left source.old) (S.left source.new) }
    ensures within { to + got result ≤ length buffer.old }
    ensures faults { CountsFaults (OnFailed result) (S.faults source.old) (S.faults source.new) }
{
    let end = to + most.min(buffer.len() - to);
    source.pull(&mut buffer[to..end])
}
