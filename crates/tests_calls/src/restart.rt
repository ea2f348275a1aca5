//! `replay` performs the restarts of a plan. Its text can't show this, because it equals the text of the plan without
//! them. So the tests use a maker that can't make the sealer for a restart.
use crate::calls::call;
use seal_kit::{CheckerMaker, Height, Kit, SealGrower, SealMaker, TagChecker, TagMaker, TagSealer};
use seq_base::NoMemory;
use std::alloc::{AllocError, Global};
use std::sync::Wait;
use std::test::Fail;
use std::thread::Threads;

/// Five replicas without faults. The run has one tick, and 49 turns.
const PLAN: &str =
    "n = 5\nf = 1\np = 1\nq = 1\nseed = 7\nheight = 5\nviews = 6\nticks = 1\nturns = 100\n";

/// Makes kits of tag sealers, but no single sealer.
#[derive(Drop)]
struct OnceMaker {
    inner: TagMaker,
}

impl SealMaker for OnceMaker {
    type S = TagSealer;

    type C = TagChecker;

    ghost use Rattle.seal_kit.specs.Tags.{tag, tag_fits};

    ghost fits = { λ _ seed height n replica bytes seal. tag_fits n replica bytes seal };

    ghost gives = { λ _ seed height n replica number bytes. tag replica bytes };

    fn make(
        &self,
        seed: u64,
        height: Height,
        n: u32,
    ) -> Result<Kit<TagSealer, TagChecker>, NoMemory> {
        self.inner.make(seed, height, n)
    }
}

impl SealGrower for OnceMaker {
    fn make_one(&self, _: u64, _: Height, _: u32, _: u32) -> Result<TagSealer, NoMemory> {
        Err(NoMemory)
    }
}

impl CheckerMaker for OnceMaker {
    ghost use Rattle.seal_kit.specs.Tags.{tag_fits};

    ghost keys_fit = { λ _ height keys replica bytes seal. tag_fits 16 replica bytes seal };

    fn checker_of(&self, height: Height, keys: &[[u8; 60]]) -> Result<TagChecker, NoMemory> {
        self.inner.checker_of(height, keys)
    }
}

/// The plan with these restarts.
fn plan(alloc: Global, restarts: &str) -> Result<String, AllocError> {
    let mut text = String::from_str(alloc, PLAN)?;
    for replica in 0..5u32 {
        let arrival = format!(in alloc;
            "[[arrival]]\nreplica = {replica}\nturn = 0\ntxs = [\"1.1.0\", \"2.1.0\"]\n"
        )?;
        text.push_str(arrival.as_str())?;
    }
    text.push_str(restarts)?;
    Ok(text)
}

/// The status of `replay` of the plan with these restarts.
fn status<R: Threads + Wait + Sync>(rt: &R, alloc: Global, restarts: &str) -> Result<u8, NoMemory> {
    let plan = plan(alloc, restarts)?;
    let maker = OnceMaker {
        inner: TagMaker::new(alloc),
    };
    Ok(
        call(rt, alloc, "replay|", plan.as_bytes(), &maker)?
            .summary
            .number,
    )
}

/// A restart within the run needs a sealer, and one that no turn reaches does not.
#[test]
fn replay_makes_restarts(rt: HostRuntime) -> Result<(), Fail> {
    let alloc = rt.alloc();
    assert!(rt; status(&rt, alloc, "")? == 0);
    assert!(rt; status(&rt, alloc, "[[restart]]\nreplica = 2\nturn = 20\n")? == 10);
    assert!(rt; status(&rt, alloc, "[[restart]]\nreplica = 2\nturn = 50\n")? == 0);
    Ok(())
}
