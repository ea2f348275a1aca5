//! A tick of one replica and a delivery to another wait for each other. The test passes only if their workers run
//! concurrently.
ghost use Rattle.std.specs.Prelude.{◌≡◌, IfOk};

use crate::calls::call;
use crate::run::ends_right;
use seal_kit::{
    Checker, CheckerMaker, Height, Kit, SealFault, SealGrower, SealMaker, Sealer, TagChecker,
    TagMaker, TagSealer,
};
use seq_base::{NoMemory, Seal};
use std::alloc::Global;
use std::marker::Model;
use std::sync::Wait;
use std::sync::atomic::{AtomicBool, Ordering};
use std::test::Fail;
use std::thread::Threads;

/// Five replicas that each receive 1.1.0 before 2.1.0. The run has one tick.
const CLEAN: &str =
    "n = 5\nf = 1\np = 1\nq = 1\nseed = 7\nheight = 5\nviews = 6\nticks = 1\nturns = 100\n\
    arrival = [{ replica = 0, turn = 0, txs = [\"1.1.0\", \"2.1.0\"] }, { replica = 1, turn = 0, txs = [\"1.1.0\", \"2.1.0\"] }, \
    { replica = 2, turn = 0, txs = [\"1.1.0\", \"2.1.0\"] }, { replica = 3, turn = 0, txs = [\"1.1.0\", \"2.1.0\"] }, \
    { replica = 4, turn = 0, txs = [\"1.1.0\", \"2.1.0\"] }]\n";

/// The number of times that one of the two checks for the other: some seconds in the built program.
const LOOKS: u64 = 10_000_000_000;

/// The replica whose first seal waits.
const HELD: u32 = 2;

/// Whether the first seal of the replica has started, whether the first check of a seal has, and whether one of them
/// timed out.
#[derive(Drop)]
struct Gate {
    seals: AtomicBool,
    looks: AtomicBool,
    alone: AtomicBool,
}

impl Gate {
    fn new() -> Gate {
        Gate {
            seals: AtomicBool::new(false),
            looks: AtomicBool::new(false),
            alone: AtomicBool::new(false),
        }
    }

    /// The first call for a place waits until a call for the other place, for at most `LOOKS` checks.
    fn hold(&self, here: &AtomicBool, there: &AtomicBool) {
        if here.swap(true, Ordering::SeqCst) {
            return;
        }
        for _ in 0..LOOKS {
            if there.load(Ordering::SeqCst) {
                return;
            }
        }
        self.alone.store(true, Ordering::SeqCst);
    }

    /// Whether both places were reached, and none timed out.
    fn has_met(&self) -> bool {
        self.seals.load(Ordering::SeqCst)
            && self.looks.load(Ordering::SeqCst)
            && !self.alone.load(Ordering::SeqCst)
    }
}

/// A sealer. That of replica 2 waits in its first seal.
#[derive(Drop)]
struct HeldSealer<'a> {
    gate: &'a Gate,
    inner: TagSealer,
}

impl<'a> Model for HeldSealer<'a> {
    ghost use Rattle.seal_kit.specs.Seals.{Counter};

    ghost Value = { Counter };

    ghost view = { λ s. s.inner };
}

impl<'a> Sealer for HeldSealer<'a> {
    ghost use Rattle.seal_kit.specs.Tags.{tag};

    ghost made = { λ s. s.made };

    ghost capacity = { λ s. s.capacity };

    ghost replica = { λ s. s.replica };

    ghost gives = { λ s number bytes. tag s.replica bytes };

    fn seal(&mut self, bytes: &[u8]) -> Result<Seal, SealFault> {
        if self.inner.replica() == HELD {
            self.gate.hold(&self.gate.seals, &self.gate.looks);
        }
        self.inner.seal(bytes)
    }

    fn made(&self) -> u32 {
        self.inner.made()
    }

    fn capacity(&self) -> u32 {
        self.inner.capacity()
    }

    fn replica(&self) -> u32 {
        self.inner.replica()
    }
}

/// A checker that waits in the first check of a seal.
#[derive(Drop)]
struct HeldChecker<'a> {
    gate: &'a Gate,
    inner: TagChecker,
}

impl<'a> Checker for HeldChecker<'a> {
    ghost use Rattle.seal_kit.specs.Tags.{tag_fits};

    ghost meaning = { λ c replica bytes seal. tag_fits c.inner.n replica bytes seal };

    fn fits(&self, replica: u32, bytes: &[u8], seal: &[u8]) -> bool {
        self.gate.hold(&self.gate.looks, &self.gate.seals);
        self.inner.fits(replica, bytes, seal)
    }
}

/// Makes tag sealers and checkers, with a gate between a seal and a check of a seal.
#[derive(Drop)]
struct HeldMaker<'a> {
    alloc: Global,
    gate: &'a Gate,
    inner: TagMaker,
}

/// The same sealers with a gate.
fn held_all<'a>(
    alloc: Global,
    gate: &'a Gate,
    sealers: Vec<TagSealer>,
) -> Result<Vec<HeldSealer<'a>>, NoMemory>
    ensures { IfOk result (λ held. held.items ≡ sealers.items) }
{
    let mut held = Vec::new(alloc);
    for inner in sealers {
        held.push(HeldSealer { gate, inner })?;
    }
    Ok(held)
}

impl<'a> SealMaker for HeldMaker<'a> {
    type S = HeldSealer<'a>;

    type C = HeldChecker<'a>;

    ghost use Rattle.seal_kit.specs.Tags.{tag, tag_fits};

    ghost fits = { λ _ seed height n replica bytes seal. tag_fits n replica bytes seal };

    ghost gives = { λ _ seed height n replica number bytes. tag replica bytes };

    fn make(
        &self,
        seed: u64,
        height: Height,
        n: u32,
    ) -> Result<Kit<HeldSealer<'a>, HeldChecker<'a>>, NoMemory> {
        let Kit { sealers, checker } = self.inner.make(seed, height, n)?;
        Ok(Kit {
            sealers: held_all(self.alloc, self.gate, sealers)?,
            checker: HeldChecker {
                gate: self.gate,
                inner: checker,
            },
        })
    }
}

impl<'a> SealGrower for HeldMaker<'a> {}

impl<'a> CheckerMaker for HeldMaker<'a> {
    ghost use Rattle.seal_kit.specs.Tags.{tag_fits};

    ghost keys_fit = { λ _ height keys replica bytes seal. tag_fits 16 replica bytes seal };

    fn checker_of(&self, height: Height, keys: &[[u8; 60]]) -> Result<HeldChecker<'a>, NoMemory> {
        Ok(HeldChecker {
            gate: self.gate,
            inner: self.inner.checker_of(height, keys)?,
        })
    }
}

/// Whether the two met in a run that ends as expected.
fn meet<R: Threads + Wait + Sync>(rt: &R, alloc: Global, gate: &Gate) -> Result<bool, NoMemory> {
    let maker = HeldMaker {
        alloc,
        gate,
        inner: TagMaker::new(alloc),
    };
    let answer = call(rt, alloc, "run|", CLEAN.as_bytes(), &maker)?;
    Ok(ends_right(&answer, "transactions=2", 1, 100) && gate.has_met())
}

/// No replica seals before the tick. At the tick each replica sends a sealed NewView to replica 1, which leads view 1.
/// No other replica has a seal to check before replica 1 has checked these. So the first seal of replica 2 is a part
/// of its tick. The first check is a part of a delivery to replica 1, after the tick of that replica.
#[test]
fn a_tick_of_one_replica_runs_alongside_a_delivery_of_another(rt: HostRuntime) -> Result<(), Fail> {
    let gate = Gate::new();
    assert!(rt; meet(&rt, rt.alloc(), &gate)?);
    Ok(())
}
