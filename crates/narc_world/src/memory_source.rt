//! A source in memory.

ghost use Rattle.std.specs.Prelude.{◌≡◌, ◌<◌, ◌≤◌, IfOk, Some, length};
ghost use Rattle.narc_world.specs.Memory.{piece, pull_answer};
ghost use Rattle.narc_world.specs.Outside.{CountsFaults, IsPulled, OnFailed, faults_after, one_more};

use crate::calls::Calls;
use crate::error::NoMemory;
use crate::source::{Pulled, Source};
use std::alloc::Global;
use std::marker::Model;

/// Octets that are given in pieces of chosen lengths. Chosen calls fail.
#[derive(Drop)]
pub struct MemorySource {
    bytes: Vec<u8>,
    taken: usize,
    pieces: Vec<usize>,
    calls: Calls,
}

impl Model for MemorySource {
    ghost use Rattle.std.specs.Prelude.{◌≤◌, drop, vec_len};
    ghost use Rattle.narc_world.specs.Memory.{SourceView};

    ghost Value = { SourceView };

    ghost view = { λ s. record {
      left = drop s.taken s.bytes.items;
      pieces = s.pieces.items;
      failing = s.calls.failing.items;
      calls = s.calls.made;
      faults = s.calls.faults;
    } };

    ghost invariant = { λ s. s.taken ≤ vec_len s.bytes };
}

impl MemorySource {
    /// Call `k`, counted from 1, gives at most as many octets as entry `k` of `pieces` says. An entry
    /// 0 counts as 1, and behind the last there is no bound but the slice. The calls whose numbers are
    /// in `failing` fail, and no others.
    pub fn new(
        alloc: Global,
        bytes: &[u8],
        pieces: &[usize],
        failing: &[u64],
    ) -> Result<MemorySource, NoMemory>
        ensures left { IfOk result (λ source. source.left ≡ bytes.now) }
        ensures pieces { IfOk result (λ source. source.pieces ≡ pieces.now) }
        ensures failing { IfOk result (λ source. source.failing ≡ failing.now) }
        ensures calls { IfOk result (λ source. source.calls ≡ 0) }
        ensures faults { IfOk result (λ source. source.faults ≡ 0) }
    {
        Ok(MemorySource {
            bytes: Vec::from_slice(alloc, bytes)?,
            taken: 0,
            pieces: Vec::from_slice(alloc, pieces)?,
            calls: Calls::new(alloc, failing)?,
        })
    }

    /// The most octets that the next call puts into a slice of so many.
    fn piece(&self, slice: usize) -> usize
        ensures { result ≡ piece self.now.pieces self.now.calls slice }
    {
        let entry = self.calls.made() as usize;
        self.pieces
            .get(entry)
            .copied()
            .unwrap_or(slice)
            .max(1)
            .min(slice)
    }
}

impl Source for MemorySource {
    ghost left = { λ source. Some source.left };

    ghost faults = { λ source. source.faults };

    fn pull(&mut self, into: &mut [u8]) -> Pulled
        requires { 0 < length into.old }
        ensures octets { IsPulled result (Some self.old.left) (Some self.new.left) into.new }
        ensures faults { CountsFaults (OnFailed result) self.old.faults self.new.faults }
        ensures answer { result ≡ pull_answer self.old (length into.old) }
        ensures count { self.new.faults ≡ faults_after result self.old.faults }
        ensures calls { self.new.calls ≡ one_more self.old.calls }
        ensures pieces { self.new.pieces ≡ self.old.pieces }
        ensures failing { self.new.failing ≡ self.old.failing }
    {
        let piece = self.piece(into.len());
        if self.calls.begin() {
            self.calls.fail();
            return Pulled::Failed;
        }
        let rest = &self.bytes[self.taken..];
        if rest.is_empty() {
            return Pulled::End;
        }
        let count = piece.min(rest.len());
        into[..count].copy_from_slice(&rest[..count]);
        self.taken += count;
        Pulled::Got(count)
    }
}
