use crate::calls::{answers, call, called, sink_of, source_of};
use seal_kit::{LooseMaker, TagMaker};
use seq_base::NoMemory;
use std::alloc::Global;
use std::sync::Wait;
use std::test::Fail;
use std::thread::Threads;

const OF_TWO: &str =
    "n = 5\nf = 1\np = 1\nq = 1\nseed = 1\nheight = 10\nviews = 200\nticks = 4\nturns = 10000\nprint = \"summary\"\n[[arrival]]\nreplica = 0\nturn = 0\ntxs = [\"1.1.0\", \"2.1.1\"]\n[[arrival]]\nreplica = 1\nturn = 0\ntxs = [\"1.1.0\", \"2.1.1\"]\n[[arrival]]\nreplica = 2\nturn = 0\ntxs = [\"1.1.0\", \"2.1.1\"]\n[[arrival]]\nreplica = 3\nturn = 0\ntxs = [\"1.1.0\", \"2.1.1\"]\n[[arrival]]\nreplica = 4\nturn = 0\ntxs = [\"1.1.0\", \"2.1.1\"]\n";

/// The arguments for two plans, and the text of each plan's run.
const PLAYED: [(&str, &str); 2] = [("make|7|2000|", TWO_THOUSAND), ("make|1|100|", A_HUNDRED)];

const TWO_THOUSAND: &str =
    "setting n=5 f=1 gamma=1/1 threshold=2 solid=3 quorum=4\nticks=1 turns=199\nreplica 0 view=20 commit=16 batches=1996 transactions=2000\nreplica 1 view=20 commit=16 batches=1996 transactions=2000\nreplica 2 view=20 commit=16 batches=1996 transactions=2000\nreplica 3 view=20 commit=16 batches=1996 transactions=2000\nreplica 4 view=19 commit=16 batches=1996 transactions=2000\nend done\n";

const A_HUNDRED: &str =
    "setting n=5 f=1 gamma=1/1 threshold=2 solid=3 quorum=4\nticks=1 turns=49\nreplica 0 view=5 commit=1 batches=100 transactions=100\nreplica 1 view=5 commit=1 batches=100 transactions=100\nreplica 2 view=5 commit=1 batches=100 transactions=100\nreplica 3 view=5 commit=1 batches=100 transactions=100\nreplica 4 view=4 commit=1 batches=100 transactions=100\nend done\n";

/// Whether `make` writes a plan of two transactions and does not read its source, which would fail.
fn is_made_unread<R: Threads + Wait + Sync>(rt: &R, alloc: Global) -> Result<bool, NoMemory> {
    let source = source_of(alloc, &[], 1)?;
    let sink = sink_of(alloc, 4096, 0)?;
    let maker = LooseMaker::new(alloc);
    let answer = called(rt, alloc, "make|1|2|", source, sink, &maker)?;
    Ok(
        answer.summary.number == 0
            && answer.summary.used == 0
            && answer.written.as_slice() == OF_TWO.as_bytes(),
    )
}

#[test]
fn a_plan_is_made_unread(rt: HostRuntime) -> Result<(), Fail> {
    assert!(rt; is_made_unread(&rt, rt.alloc())?);
    Ok(())
}

/// Whether a plan is made once and played twice, with this text each time.
fn is_played_twice<R: Threads + Wait + Sync>(
    rt: &R,
    alloc: Global,
    arguments: &str,
    text: &str,
) -> Result<bool, NoMemory> {
    let plan = call(rt, alloc, arguments, &[], &LooseMaker::new(alloc))?.written;
    for _ in 0..2 {
        if !is_played(rt, alloc, plan.as_slice(), text)? {
            return Ok(false);
        }
    }
    Ok(true)
}

/// Whether a plan is played with this text.
fn is_played<R: Threads + Wait + Sync>(
    rt: &R,
    alloc: Global,
    plan: &[u8],
    text: &str,
) -> Result<bool, NoMemory> {
    let maker = TagMaker::new(alloc);
    answers(rt, alloc, "replay|", plan, &maker, 0, text.as_bytes())
}

#[test]
fn made_plans_are_played_the_same_each_time(rt: HostRuntime) -> Result<(), Fail> {
    for (arguments, text) in PLAYED {
        if !is_played_twice(&rt, rt.alloc(), arguments, text)? {
            return Err(Fail::new(arguments));
        }
    }
    Ok(())
}
