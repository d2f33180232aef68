//! A run of the command in memory.
ghost use Rattle.std.specs.Prelude.{◌≡◌, [], bytes_eq};

use narc_run::{Outcome, run_counted};
use narc_world::{MemorySink, MemorySource, NoMemory, Words};
use std::alloc::Global;
use std::marker::Brand;
use std::sync::ledger::Blank;

/// A source and a sink in memory, before a run.
#[derive(Drop)]
pub struct World<'a> {
    /// What the source gives.
    pub octets: &'a [u8],
    /// The most octets that each pull gives; behind the last there is no bound.
    pub pieces: &'a [usize],
    /// The numbers of the pulls that fail, from 1.
    pub failing_pulls: &'a [u64],
    /// How many octets the sink holds.
    pub capacity: usize,
    /// The numbers of the pushes that fail, from 1, each behind half of its octets.
    pub failing_pushes: &'a [u64],
}

impl World<'_> {
    /// These octets in one piece, a sink with room, and no call that fails.
    pub fn of(octets: &[u8]) -> World<'_>
        ensures octets { result.octets.now ≡ octets.now }
        ensures pieces { result.pieces.now ≡ [] }
        ensures pulls { result.failing_pulls.now ≡ [] }
        ensures capacity { result.capacity ≡ 600000 }
        ensures pushes { result.failing_pushes.now ≡ [] }
    {
        World {
            octets,
            pieces: &[],
            failing_pulls: &[],
            capacity: 600_000,
            failing_pushes: &[],
        }
    }
}

/// How a run ended, and what it wrote.
#[derive(Drop)]
pub struct Ended {
    pub outcome: Outcome,
    pub written: MemorySink,
}

impl Ended {
    /// Whether the run ended so, and wrote this.
    pub fn is(&self, status: u8, at: u64, written: &[u8]) -> bool {
        self.outcome.status == status && self.outcome.at == at && self.written.bytes() == written
    }
}

/// Runs the command with these words, which reads the world's source and writes to its sink.
pub fn end_of(alloc: Global, words: &[&str], world: World<'_>) -> Result<Ended, NoMemory> {
    let mut given = Words::new(alloc);
    for word in words {
        given.add(word)?;
    }
    let mut source = MemorySource::new(alloc, world.octets, world.pieces, world.failing_pulls)?;
    let mut written = MemorySink::new(alloc, world.capacity, world.failing_pushes)?;
    let outcome = run_counted::<_, _, Brand, Brand>(
        alloc,
        &given,
        &mut source,
        &mut written,
        Blank::new(1),
        Blank::new(1),
    );
    Ok(Ended { outcome, written })
}
