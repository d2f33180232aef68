//! A sink in memory.

ghost use Rattle.std.specs.Prelude.{◌≡◌, ◌≤◌, ◌++◌, [], IfOk, OnErr, Some, if◌then◌else◌, is_ok, length, take};
ghost use Rattle.narc_world.specs.Memory.{accepted, takes_all};
ghost use Rattle.narc_world.specs.Outside.{CountsFaults, IsPushed, one_more};

use crate::calls::Calls;
use crate::error::{Failed, NoMemory};
use crate::sink::Sink;
use std::alloc::Global;
use std::marker::Model;

/// Room for a number of octets. Chosen calls fail.
#[derive(Drop)]
pub struct MemorySink {
    bytes: Vec<u8>,
    capacity: usize,
    calls: Calls,
}

impl Model for MemorySink {
    ghost use Rattle.std.specs.Prelude.{◌≤◌, vec_capacity, vec_len};
    ghost use Rattle.narc_world.specs.Memory.{SinkView};

    ghost Value = { SinkView };

    ghost view = { λ s. record {
      held = s.bytes.items;
      capacity = s.capacity;
      failing = s.calls.failing.items;
      calls = s.calls.made;
      faults = s.calls.faults;
    } };

    ghost invariant = { λ s. (vec_len s.bytes ≤ s.capacity) × (s.capacity ≤ vec_capacity s.bytes) };
}

impl MemorySink {
    /// An empty sink that holds at most `capacity` octets. A call whose number, counted from 1, is in
    /// `failing` takes half of its octets and fails.
    pub fn new(alloc: Global, capacity: usize, failing: &[u64]) -> Result<MemorySink, NoMemory>
        ensures held { IfOk result (λ sink. sink.held ≡ []) }
        ensures capacity { IfOk result (λ sink. sink.capacity ≡ capacity) }
        ensures failing { IfOk result (λ sink. sink.failing ≡ failing.now) }
        ensures calls { IfOk result (λ sink. sink.calls ≡ 0) }
        ensures faults { IfOk result (λ sink. sink.faults ≡ 0) }
    {
        Ok(MemorySink {
            bytes: Vec::with_capacity(alloc, capacity)?,
            capacity,
            calls: Calls::new(alloc, failing)?,
        })
    }

    /// What is held.
    pub fn bytes(&self) -> &[u8]
        ensures { result.now ≡ self.now.held }
    {
        self.bytes.as_slice()
    }
}

impl Sink for MemorySink {
    ghost held = { λ sink. Some sink.held };

    ghost faults = { λ sink. sink.faults };

    fn push(&mut self, bytes: &[u8]) -> Result<(), Failed>
        ensures octets { IsPushed result (Some self.old.held) (Some self.new.held) bytes.now }
        ensures faults { CountsFaults (OnErr result) self.old.faults self.new.faults }
        ensures answer { is_ok result ≡ takes_all self.old (length bytes.now) }
        ensures held { self.new.held ≡ self.old.held ++ take (accepted self.old (length bytes.now)) bytes.now }
        ensures count { self.new.faults ≡ (if is_ok result then self.old.faults else one_more self.old.faults) }
        ensures calls { self.new.calls ≡ one_more self.old.calls }
        ensures capacity { self.new.capacity ≡ self.old.capacity }
        ensures failing { self.new.failing ≡ self.old.failing }
    {
        let fails = self.calls.begin();
        let wanted = if fails { bytes.len() / 2 } else { bytes.len() };
        let taken = wanted.min(self.capacity - self.bytes.len());
        // The room was made at the start, so this takes no memory.
        let is_refused = self.bytes.extend_from_slice(&bytes[..taken]).is_err();
        if fails || taken < wanted || is_refused {
            self.calls.fail();
            return Err(Failed);
        }
        Ok(())
    }
}
