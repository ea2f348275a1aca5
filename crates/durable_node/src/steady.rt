ghost use Rattle.std.specs.Prelude.{◌≡◌, ◌≤◌, ◌<◌, ◌+◌, ◌-◌, ◌^◌, ◌++◌, [], true, false, OnErr, length, take};
ghost use Rattle.durable_node.specs.Keeping.{Stays};
ghost use Rattle.durable_node.specs.Memory.{IsSteadyCall};

use crate::copied::copied;
use crate::{KeepFault, Keeper};
use std::alloc::Global;
use std::marker::Model;

/// A keeper in memory that never fails. A stop leaves only the durable bytes.
#[derive(Drop)]
pub struct SteadyKeeper {
    bytes: Vec<u8>,
    durable_size: usize,
    openings: u64,
    begun: bool,
}

impl Model for SteadyKeeper {
    ghost use Rattle.std.specs.Prelude.{◌≤◌, length};
    ghost use Rattle.durable_node.specs.Memory.{Steady};

    ghost Value = { Steady };

    ghost view = { λ m. record { bytes = m.bytes.items; durable_size = m.durable_size; openings = m.openings; begun = m.begun } };

    ghost invariant = { λ m. m.durable_size ≤ length m.bytes.items };
}

impl SteadyKeeper {
    /// It has no bytes.
    pub fn new(alloc: Global) -> SteadyKeeper
        ensures { result ≡ record { bytes = []; durable_size = 0; openings = 0; begun = false } }
    {
        SteadyKeeper {
            bytes: Vec::new(alloc),
            durable_size: 0,
            openings: 0,
            begun: false,
        }
    }

    /// How often it was opened.
    pub fn openings(&self) -> u64
        ensures { result ≡ self.now.openings }
    {
        self.openings
    }
}

impl Keeper for SteadyKeeper {
    ghost bytes = { λ m. m.bytes };

    ghost durable_size = { λ m. m.durable_size };

    ghost faults = { λ _. 0 };

    ghost openings = { λ m. m.openings };

    ghost begun = { λ m. m.begun };

    fn read(&mut self, at: u64, into: &mut [u8]) -> Result<usize, KeepFault> {
        Ok(copied(self.bytes.as_slice(), at, into))
    }

    #[tactic(auto, using(crate::proofs::Grown::stays_same))]
    fn begin(&mut self, size: u64) -> Result<(), KeepFault>
        requires countable { self.old.openings < 2 ^ 64 - 1 }
        requires within { size ≤ length self.old.bytes }
        ensures call { IsSteadyCall self.old
            (record { bytes = take size self.old.bytes; durable_size = size; openings = self.old.openings + 1; begun = true }) result self.new }
        ensures refused { OnErr result (Stays size self.old.bytes self.new.bytes) }
    {
        self.bytes.truncate(size as usize);
        self.durable_size = size as usize;
        self.openings += 1;
        self.begun = true;
        Ok(())
    }

    #[tactic(auto, using(crate::proofs::Grown::grew_nothing))]
    fn append(&mut self, piece: &[u8]) -> Result<(), KeepFault>
        ensures call { IsSteadyCall self.old (record self.old { bytes = self.old.bytes ++ piece.now }) result self.new }
    {
        match self.bytes.extend_from_slice(piece) {
            Ok(()) => Ok(()),
            Err(_) => Err(KeepFault::NoMemory),
        }
    }

    fn sync(&mut self) -> Result<(), KeepFault>
        ensures call { IsSteadyCall self.old (record self.old { durable_size = length self.old.bytes }) result self.new }
        ensures durable_size { self.old.durable_size ≤ self.new.durable_size }
    {
        self.durable_size = self.bytes.len();
        Ok(())
    }

    fn stop(&mut self)
        ensures { self.new ≡ record self.old { bytes = take self.old.durable_size self.old.bytes; begun = false } }
    {
        self.bytes.truncate(self.durable_size);
        self.begun = false;
    }
}
