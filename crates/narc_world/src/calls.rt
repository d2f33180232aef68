//! The calls of a source or a sink in memory.

ghost use Rattle.std.specs.Prelude.{◌≡◌, [], IfOk};
ghost use Rattle.narc_world.specs.Memory.{is_failing};
ghost use Rattle.narc_world.specs.Outside.{one_more};

use crate::error::NoMemory;
use std::alloc::Global;

/// How many calls were made and how many of them failed, and the numbers of those that are to fail.
/// Calls are numbered from 1. Both counts stay at the last value of their type.
#[derive(Drop)]
pub(crate) struct Calls {
    failing: Vec<u64>,
    made: u64,
    faults: u64,
}

impl Calls {
    pub(crate) fn new(alloc: Global, failing: &[u64]) -> Result<Calls, NoMemory>
        ensures failing { IfOk result (λ calls. calls.failing.items ≡ failing.now) }
        ensures made { IfOk result (λ calls. calls.made ≡ 0) }
        ensures faults { IfOk result (λ calls. calls.faults ≡ 0) }
    {
        Ok(Calls {
            failing: Vec::from_slice(alloc, failing)?,
            made: 0,
            faults: 0,
        })
    }

    pub(crate) fn made(&self) -> u64
        ensures { result ≡ self.now.made }
    {
        self.made
    }

    /// Counts a call, and says whether it is one of those that are to fail.
    pub(crate) fn begin(&mut self) -> bool
        ensures fails { result ≡ is_failing self.old.failing.items (one_more self.old.made) }
        ensures made { self.new.made ≡ one_more self.old.made }
        ensures failing { self.new.failing.items ≡ self.old.failing.items }
        ensures faults { self.new.faults ≡ self.old.faults }
    {
        self.made = self.made.saturating_add(1);
        self.failing.contains(&self.made)
    }

    /// Counts a call that failed.
    pub(crate) fn fail(&mut self)
        ensures faults { self.new.faults ≡ one_more self.old.faults }
        ensures made { self.new.made ≡ self.old.made }
        ensures failing { self.new.failing.items ≡ self.old.failing.items }
    {
        self.faults = self.faults.saturating_add(1);
    }
}
