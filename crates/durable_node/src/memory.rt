ghost use Rattle.std.specs.Prelude.{◌≡◌, ◌≤◌, ◌<◌, ◌+◌, ◌-◌, ◌^◌, ◌↔◌, true, false, Err, IsTrue, OnErr, length, drop, min};
ghost use Rattle.durable_node.specs.Keeping.{Stays};
ghost use Rattle.durable_node.specs.Memory.{Mem, FailsNext, new_mem, IsCall, after_call, after_fault, after_stop, appended, begun_at, synced};

use crate::copied::copied;
use crate::{KeepFault, Keeper};
use std::alloc::Global;
use std::marker::Model;

/// A keeper in memory. Of its calls of `begin`, `append` and `sync` those with the listed numbers fail, counted from 1.
/// They change nothing but the counts. Each stop keeps as many bytes after the durable ones as are listed for it.
pub struct MemKeeper {
    bytes: Vec<u8>,
    durable_size: usize,
    openings: u64,
    begun: bool,
    failing: Vec<u64>,
    calls: u64,
    faults: u64,
    tails: Vec<u64>,
    stops: u64,
}

impl Drop for MemKeeper {
    fn drop(self) {
        let MemKeeper {
            bytes: _,
            durable_size: _,
            openings: _,
            begun: _,
            failing: _,
            calls: _,
            faults: _,
            tails: _,
            stops: _,
        } = self;
    }
}

impl Model for MemKeeper {
    ghost use Rattle.std.specs.Prelude.{◌≤◌, length};
    ghost use Rattle.durable_node.specs.Memory.{Mem};

    ghost Value = { Mem };

    ghost view = { λ m. record {
      bytes = m.bytes.items;
      durable_size = m.durable_size;
      openings = m.openings;
      begun = m.begun;
      failing = m.failing.items;
      calls = m.calls;
      faults = m.faults;
      tails = m.tails.items;
      stops = m.stops;
    } };

    ghost invariant = { λ m. (m.durable_size ≤ length m.bytes.items) × (m.faults ≤ m.calls) };
}

impl MemKeeper {
    /// It has no bytes.
    pub fn new(alloc: Global, failing: Vec<u64>, tails: Vec<u64>) -> MemKeeper
        ensures { result ≡ new_mem failing.items tails.items }
    {
        MemKeeper {
            bytes: Vec::new(alloc),
            durable_size: 0,
            openings: 0,
            begun: false,
            failing,
            calls: 0,
            faults: 0,
            tails,
            stops: 0,
        }
    }

    /// How often it was opened.
    pub fn openings(&self) -> u64
        ensures { result ≡ self.now.openings }
    {
        self.openings
    }

    /// All its bytes, durable or not.
    pub fn bytes(&self) -> &[u8]
        ensures { result.now ≡ self.now.bytes }
    {
        self.bytes.as_slice()
    }

    /// Whether the next call fails.
    fn fails_next(&self) -> bool
        ensures { IsTrue result ↔ FailsNext self.now }
    {
        self.calls < u64::MAX && self.failing.contains(&(self.calls + 1))
    }

    fn succeed(&mut self)
        ensures { self.new ≡ after_call self.old }
    {
        self.calls = self.calls.saturating_add(1);
    }

    fn fail(&mut self)
        requires { FailsNext self.old }
        ensures { self.new ≡ after_fault self.old }
    {
        self.calls += 1;
        self.faults += 1;
    }
}

impl Keeper for MemKeeper {
    ghost bytes = { λ m. m.bytes };

    ghost durable_size = { λ m. m.durable_size };

    ghost faults = { λ m. m.faults };

    ghost openings = { λ m. m.openings };

    ghost begun = { λ m. m.begun };

    fn read(&mut self, at: u64, into: &mut [u8]) -> Result<usize, KeepFault> {
        Ok(copied(self.bytes.as_slice(), at, into))
    }

    #[tactic(auto, using(crate::proofs::Grown::stays_same))]
    fn begin(&mut self, size: u64) -> Result<(), KeepFault>
        requires countable { self.old.openings < 2 ^ 64 - 1 }
        requires within { size ≤ length self.old.bytes }
        ensures call { IsCall self.old (begun_at size) result self.new }
        ensures refused { OnErr result (Stays size self.old.bytes self.new.bytes) }
        ensures able { result ≡ Err KeepFault.NoMemory → ⊥ }
    {
        if self.fails_next() {
            self.fail();
            return Err(KeepFault::Failed);
        }
        self.succeed();
        self.bytes.truncate(size as usize);
        self.durable_size = size as usize;
        self.openings += 1;
        self.begun = true;
        Ok(())
    }

    #[tactic(auto, using(crate::proofs::Grown::grew_nothing))]
    fn append(&mut self, piece: &[u8]) -> Result<(), KeepFault>
        ensures call { IsCall self.old (appended piece.now) result self.new }
    {
        if self.fails_next() {
            self.fail();
            return Err(KeepFault::Failed);
        }
        self.succeed();
        match self.bytes.extend_from_slice(piece) {
            Ok(()) => Ok(()),
            Err(_) => Err(KeepFault::NoMemory),
        }
    }

    fn sync(&mut self) -> Result<(), KeepFault>
        ensures call { IsCall self.old synced result self.new }
        ensures durable_size { self.old.durable_size ≤ self.new.durable_size }
        ensures able { result ≡ Err KeepFault.NoMemory → ⊥ }
    {
        if self.fails_next() {
            self.fail();
            return Err(KeepFault::Failed);
        }
        self.succeed();
        self.durable_size = self.bytes.len();
        Ok(())
    }

    fn stop(&mut self)
        ensures call { self.new ≡ after_stop self.old }
        ensures bytes { Stays self.old.durable_size self.old.bytes self.new.bytes }
    {
        let tail = match self.tails.get(self.stops as usize) {
            Some(tail) => *tail as usize,
            None => 0,
        };
        let kept = self.bytes.len().min(self.durable_size.saturating_add(tail));
        self.bytes.truncate(kept);
        self.begun = false;
        self.stops = self.stops.saturating_add(1);
    }
}
