use crate::calls::{Answer, all_answer, all_refused, call};
use seal_kit::{LooseMaker, TagMaker};
use std::str;
use std::test::Fail;

/// No transaction is due, so the run is done before its first tick.
const IDLE: &str =
    "n = 5\nf = 1\np = 1\nq = 1\nseed = 7\nheight = 5\nviews = 6\nticks = 1\nturns = 100\n";

const IDLE_TEXT: &str =
    "setting n=5 f=1 gamma=1/1 threshold=2 solid=3 quorum=4\nticks=0 turns=0\nreplica 0 view=0 commit=0 batches=0 transactions=0\nreplica 1 view=0 commit=0 batches=0 transactions=0\nreplica 2 view=0 commit=0 batches=0 transactions=0\nreplica 3 view=0 commit=0 batches=0 transactions=0\nreplica 4 view=0 commit=0 batches=0 transactions=0\nend done\n";

/// No tick is allowed, so the only replica enters no view.
const STALLED: &str =
    "n = 1\nf = 0\np = 1\nq = 1\nseed = 7\nheight = 5\nviews = 6\nticks = 0\nturns = 100\narrival = [{ replica = 0, turn = 0, txs = [\"1.1.0\"] }]\n";

const STALLED_TEXT: &str =
    "setting n=1 f=0 gamma=1/1 threshold=1 solid=1 quorum=1\nticks=0 turns=0\nreplica 0 view=0 commit=0 batches=0 transactions=0\nend stalled\n";

/// Five replicas and three clients with 200 transactions each.
const BUSY: &str =
    "n = 5\nf = 1\np = 1\nq = 1\nseed = 1\nheight = 10\nviews = 100\nticks = 20\nturns = 8000\nprint = \"summary\"\n\
    client = [{ id = 1, count = 200 }, { id = 2, count = 200 }, { id = 3, count = 200 }]\n";

/// Whether a run of five honest replicas ends as expected. It is done if and only if the line of each replica ends with
/// `all`, the count of all transactions. Otherwise it stalled after `ticks` ticks or `turns` turns.
pub(crate) fn ends_right(answer: &Answer, all: &str, ticks: u32, turns: u32) -> bool {
    let Ok(text) = str::from_utf8(answer.written.as_slice()) else {
        return false;
    };
    if text.lines().filter(|line| line.ends_with(all)).count() == 5 {
        return answer.summary.number == 0 && text.ends_with("\nend done\n");
    }
    answer.summary.number == 7
        && text.ends_with("\nend stalled\n")
        && is_used_up(text, ticks, turns)
}

/// Whether the second line of a text reports that the ticks or the turns were used up.
fn is_used_up(text: &str, ticks: u32, turns: u32) -> bool {
    match counts_of(text) {
        Some((ticked, delivered)) => ticked == ticks || delivered >= turns,
        None => false,
    }
}

fn counts_of(text: &str) -> Option<(u32, u32)> {
    let (ticks, turns) = text
        .lines()
        .nth(1)?
        .strip_prefix("ticks=")?
        .split_once(" turns=")?;
    Some((ticks.parse().ok()?, turns.parse().ok()?))
}

#[test]
fn a_run_in_threads_with_nothing_due_is_done_immediately(rt: HostRuntime) -> Result<(), Fail> {
    let cases = [("run|", IDLE, 0, IDLE_TEXT)];
    all_answer(&rt, rt.alloc(), &TagMaker::new(rt.alloc()), &cases)
}

#[test]
fn a_run_in_threads_without_a_tick_stalls(rt: HostRuntime) -> Result<(), Fail> {
    let cases = [("run|", STALLED, 7, STALLED_TEXT)];
    all_answer(&rt, rt.alloc(), &LooseMaker::new(rt.alloc()), &cases)
}

#[test]
fn a_fault_of_the_plan_of_a_run_is_named(rt: HostRuntime) -> Result<(), Fail> {
    let cases = [("run|", "n = 5\n", "bad plan: missing f")];
    all_refused(&rt, rt.alloc(), &cases)
}

#[test]
fn a_run_in_threads_of_three_clients_is_done_or_stalls(rt: HostRuntime) -> Result<(), Fail> {
    let alloc = rt.alloc();
    let answer = call(&rt, alloc, "run|", BUSY.as_bytes(), &TagMaker::new(alloc))?;
    assert!(rt; ends_right(&answer, "transactions=600", 20, 8000));
    Ok(())
}
