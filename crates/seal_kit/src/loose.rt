ghost use Rattle.std.specs.Prelude.{◌<◌, ◌≤◌, nat_lt};

use crate::{Checker, Height, Kit, SealFault, SealMaker, Sealer};
use seq_base::{NoMemory, Seal};
use std::alloc::Global;
use std::marker::Model;

/// Makes empty seals.
#[derive(Drop)]
pub struct LooseSealer {
    alloc: Global,
    replica: u32,
    made: u32,
    capacity: u32,
}

impl Model for LooseSealer {
    ghost use Rattle.std.specs.Prelude.{◌≤◌};
    ghost use Rattle.seal_kit.specs.Seals.{Counter};

    ghost Value = { Counter };

    ghost view = { λ s. record { replica = s.replica; made = s.made; capacity = s.capacity } };

    ghost invariant = { λ s. s.made ≤ s.capacity };
}

impl Sealer for LooseSealer {
    ghost use Rattle.std.specs.Prelude.{[]};

    ghost made = { λ s. s.made };

    ghost capacity = { λ s. s.capacity };

    ghost replica = { λ s. s.replica };

    ghost gives = { λ _ number bytes. [] };

    fn seal(&mut self, _: &[u8]) -> Result<Seal, SealFault> {
        if self.made == self.capacity {
            return Err(SealFault::Spent);
        }
        self.made += 1;
        Ok(Seal::of(Vec::new(self.alloc)))
    }

    fn made(&self) -> u32 {
        self.made
    }

    fn capacity(&self) -> u32 {
        self.capacity
    }

    fn replica(&self) -> u32 {
        self.replica
    }
}

/// Accepts any seal of a replica below n.
#[derive(Drop)]
pub struct LooseChecker {
    n: u32,
}

impl Checker for LooseChecker {
    ghost use Rattle.std.specs.Prelude.{nat_lt};

    ghost meaning = { λ c replica bytes seal. nat_lt replica c.n };

    fn fits(&self, replica: u32, _: &[u8], _: &[u8]) -> bool {
        replica < self.n
    }
}

/// Makes sealers of empty seals, and a checker that accepts every seal of a replica below n.
#[derive(Drop)]
pub struct LooseMaker {
    alloc: Global,
}

impl LooseMaker {
    /// Takes no memory: the allocator is stored for what is made later.
    pub fn new(alloc: Global) -> LooseMaker {
        LooseMaker { alloc }
    }
}

impl SealMaker for LooseMaker {
    type S = LooseSealer;

    type C = LooseChecker;

    ghost use Rattle.std.specs.Prelude.{[], nat_lt};

    ghost fits = { λ _ seed height n replica bytes seal. nat_lt replica n };

    ghost gives = { λ _ seed height n replica number bytes. [] };

    fn make(
        &self,
        _: u64,
        height: Height,
        n: u32,
    ) -> Result<Kit<LooseSealer, LooseChecker>, NoMemory> {
        let capacity = height.capacity();
        let mut sealers = Vec::new(self.alloc);
        for replica in 0..n {
            sealers.push(LooseSealer {
                alloc: self.alloc,
                replica,
                made: 0,
                capacity,
            })?;
        }
        Ok(Kit {
            sealers,
            checker: LooseChecker { n },
        })
    }
}
