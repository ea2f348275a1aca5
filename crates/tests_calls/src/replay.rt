use crate::calls::{all_answer, all_refused};
use seal_kit::{LooseMaker, TagMaker};
use std::alloc::{AllocError, Global};
use std::test::Fail;

const HEAD: &str =
    "n = 5\nf = 1\np = 1\nq = 1\nseed = 7\nheight = 5\nviews = 6\nticks = 1\nturns = 100\n";

const FORGE: &str = "[[deed]]\nreplica = 0\nview = 1\ndeed = \"forge\"\n";

const NOTHING_DUE_TEXT: &str =
    "setting n=5 f=1 gamma=1/1 threshold=2 solid=3 quorum=4\nticks=0 turns=0\nreplica 0 view=0 commit=0 batches=0 transactions=0\nreplica 1 view=0 commit=0 batches=0 transactions=0\nreplica 2 view=0 commit=0 batches=0 transactions=0\nreplica 3 view=0 commit=0 batches=0 transactions=0\nreplica 4 view=0 commit=0 batches=0 transactions=0\nend done\n";

const FORGED_TEXT: &str =
    "setting n=5 f=1 gamma=1/1 threshold=2 solid=3 quorum=4\nticks=1 turns=50\nreplica 1 view=5 commit=1 batches=2 transactions=2\nreplica 2 view=5 commit=1 batches=2 transactions=2\nreplica 3 view=5 commit=1 batches=2 transactions=2\nreplica 4 view=4 commit=1 batches=2 transactions=2\nend forged receiver=2 entry=5 part=0 signer=1\n";

/// The plan of five replicas that all receive 1.1.0 before 2.1.0, with further keys before the arrivals and tables
/// after them.
fn plan(alloc: Global, keys: &str, tables: &str) -> Result<String, AllocError> {
    let mut text = String::from_str(alloc, HEAD)?;
    text.push_str(keys)?;
    for replica in 0..5u32 {
        let arrival = format!(in alloc;
            "[[arrival]]\nreplica = {replica}\nturn = 0\ntxs = [\"1.1.0\", \"2.1.0\"]\n"
        )?;
        text.push_str(arrival.as_str())?;
    }
    text.push_str(tables)?;
    Ok(text)
}

#[test]
fn a_run_with_nothing_due_is_done_immediately(rt: HostRuntime) -> Result<(), Fail> {
    let cases = [("replay|", HEAD, 0, NOTHING_DUE_TEXT)];
    all_answer(&rt, rt.alloc(), &TagMaker::new(rt.alloc()), &cases)
}

#[test]
fn a_forged_vote_is_found_where_any_seal_fits(rt: HostRuntime) -> Result<(), Fail> {
    let alloc = rt.alloc();
    let plan = plan(alloc, "faulty = [0]\nprint = \"summary\"\n", FORGE)?;
    let cases = [("replay|", plan.as_str(), 8, FORGED_TEXT)];
    all_answer(&rt, alloc, &LooseMaker::new(alloc), &cases)
}

#[test]
fn a_fault_of_the_plan_is_named_and_nothing_is_written(rt: HostRuntime) -> Result<(), Fail> {
    let cases = [
        ("replay|", "n = ", "bad plan: toml"),
        ("replay|", "", "bad plan: missing n"),
        ("replay|", "colour = 1\n", "bad plan: unknown colour"),
        (
            "replay|",
            "n = 4\nf = 1\np = 1\nq = 1\n",
            "bad plan: setting resilience",
        ),
        (
            "replay|",
            "n = 5\nf = 1\np = 1\nq = 1\nseed = 7\nheight = 5\nviews = 7\n",
            "bad plan: range views",
        ),
    ];
    all_refused(&rt, rt.alloc(), &cases)
}
