//! Workers wait until another worker is in the same call. The test passes only if they run concurrently.

use plan_text::read_plan;
use seal_kit::{Checker, SealMaker, TagChecker, TagMaker};
use std::alloc::Global;
use std::sync::Wait;
use std::sync::atomic::{AtomicBool, AtomicU32, Ordering};
use std::test::Fail;
use std::thread::Threads;
use thread_run::threads;

/// The number of times that a waiting worker checks for another one.
const LOOKS: u64 = 20_000_000;

/// Five replicas that each receive a and then b. The run has one tick.
const TICKED: &str =
    "n = 5\nf = 1\np = 1\nq = 1\nseed = 7\nheight = 5\nviews = 6\nticks = 1\nturns = 100\n\
    arrival = [{ replica = 0, turn = 0, txs = [\"1.1.0\", \"2.1.0\"] }, { replica = 1, turn = 0, txs = [\"1.1.0\", \"2.1.0\"] }, \
    { replica = 2, turn = 0, txs = [\"1.1.0\", \"2.1.0\"] }, { replica = 3, turn = 0, txs = [\"1.1.0\", \"2.1.0\"] }, \
    { replica = 4, turn = 0, txs = [\"1.1.0\", \"2.1.0\"] }]\n";

/// The number of workers that check a seal now, and whether two ever did so concurrently.
#[derive(Drop)]
struct Gate {
    inside: AtomicU32,
    met: AtomicBool,
}

impl Gate {
    fn new() -> Gate {
        Gate {
            inside: AtomicU32::new(0),
            met: AtomicBool::new(false),
        }
    }

    /// Waits until another worker is inside, for at most `LOOKS` checks, unless two have met before.
    fn hold(&self) {
        self.inside.fetch_add(1, Ordering::SeqCst);
        for _ in 0..LOOKS {
            if self.met.load(Ordering::SeqCst) {
                break;
            }
            if self.inside.load(Ordering::SeqCst) > 1 {
                self.met.store(true, Ordering::SeqCst);
            }
        }
        self.inside.fetch_sub(1, Ordering::SeqCst);
    }
}

/// A checker that waits at the gate in each check of a seal.
#[derive(Drop)]
struct HeldChecker<'a> {
    gate: &'a Gate,
    inner: TagChecker,
}

impl<'a> Checker for HeldChecker<'a> {
    ghost use Rattle.seal_kit.specs.Tags.{tag_fits};

    ghost meaning = { λ c replica bytes seal. tag_fits c.inner.n replica bytes seal };

    fn fits(&self, replica: u32, bytes: &[u8], seal: &[u8]) -> bool {
        self.gate.hold();
        self.inner.fits(replica, bytes, seal)
    }
}

/// Whether two workers met at the gate in a run that reaches its tick.
fn meet<R: Threads + Wait + Sync>(rt: &R, alloc: Global, gate: &Gate) -> Result<bool, Fail> {
    let plan = read_plan(alloc, TICKED.as_bytes())?;
    let kit = TagMaker::new(alloc).make(plan.seed, plan.height, plan.setting.n())?;
    let checker = HeldChecker {
        gate,
        inner: kit.checker,
    };
    let run = threads(rt, alloc, &plan, kit.sealers, &checker)?;
    Ok(run.ticks == 1 && gate.met.load(Ordering::SeqCst))
}

#[test]
fn two_replicas_work_concurrently(rt: HostRuntime) -> Result<(), Fail> {
    let gate = Gate::new();
    assert!(rt; meet(&rt, rt.alloc(), &gate)?);
    Ok(())
}
