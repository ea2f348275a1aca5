//! Whole runs of plans.
use audit_core::first_unlawful;
use node_core::{Entry, Event};
use plan_text::{Plan, read_plan};
use run_record::RunRecord;
use seal_kit::{SealMaker, TagChecker, TagMaker};
use seq_base::{BatchList, Tx, TxList};
use std::alloc::Global;
use std::sync::Wait;
use std::test::Fail;
use std::thread::Threads;
use thread_run::threads;
use trace_form::{Keys, TraceFault, read_trace, write_trace};

/// Five replicas and three clients with 200 transactions each.
const BUSY: &str =
    "n = 5\nf = 1\np = 1\nq = 1\nseed = 1\nheight = 10\nviews = 100\nticks = 20\nturns = 8000\n\
    client = [{ id = 1, count = 200 }, { id = 2, count = 200 }, { id = 3, count = 200 }]\n";

/// Five replicas, one of which reverses its lists. One link loses a send.
const FAULTY: &str =
    "n = 5\nf = 1\np = 1\nq = 1\nseed = 2\nheight = 10\nviews = 30\nticks = 20\nturns = 2000\nfaulty = [4]\n\
    client = [{ id = 1, count = 20 }]\ndeed = [{ replica = 4, view = 1, deed = \"reverse\" }]\n\
    link = [{ from = 0, to = 1, number = 1, fault = \"lose\" }]\n";

/// No turn is allowed.
const NO_TURN: &str =
    "n = 5\nf = 1\np = 1\nq = 1\nseed = 3\nheight = 5\nviews = 6\nticks = 1\nturns = 0\nclient = [{ id = 1, count = 2 }]\n";

/// Five replicas at which a transaction arrives once 3,000 envelopes are delivered. The run has 2,000 turns.
const NEVER: &str =
    "n = 5\nf = 1\np = 1\nq = 1\nseed = 4\nheight = 10\nviews = 30\nticks = 3\nturns = 2000\n\
    client = [{ id = 1, count = 20 }]\n\
    arrival = [{ replica = 0, turn = 3000, txs = [\"9.1.0\"] }, { replica = 1, turn = 3000, txs = [\"9.1.0\"] }, \
    { replica = 2, turn = 3000, txs = [\"9.1.0\"] }, { replica = 3, turn = 3000, txs = [\"9.1.0\"] }, \
    { replica = 4, turn = 3000, txs = [\"9.1.0\"] }]\n";

/// The same, but the transaction arrives once 40 envelopes are delivered.
const MIDDLE: &str =
    "n = 5\nf = 1\np = 1\nq = 1\nseed = 4\nheight = 10\nviews = 30\nticks = 20\nturns = 2000\n\
    client = [{ id = 1, count = 20 }]\n\
    arrival = [{ replica = 0, turn = 40, txs = [\"9.1.0\"] }, { replica = 1, turn = 40, txs = [\"9.1.0\"] }, \
    { replica = 2, turn = 40, txs = [\"9.1.0\"] }, { replica = 3, turn = 40, txs = [\"9.1.0\"] }, \
    { replica = 4, turn = 40, txs = [\"9.1.0\"] }]\n";

/// One client has transactions for one round, and one for three.
const SLOW: &str =
    "n = 5\nf = 1\np = 1\nq = 1\nseed = 5\nheight = 10\nviews = 100\nticks = 20\nturns = 8000\n\
    client = [{ id = 1, count = 1 }, { id = 2, count = 130 }]\n";

/// The number of a client's transactions in a list; None if they are not numbered consecutively from 1.
fn count_of(list: &TxList, client: u32) -> Option<u32> {
    let mut last = 0u32;
    for tx in list.as_slice() {
        if tx.client == client {
            if tx.number != last.wrapping_add(1) {
                return None;
            }
            last = tx.number;
        }
    }
    Some(last)
}

/// Whether a list holds `count` transactions of each of `clients` clients, in their order, and nothing else.
fn holds_all(list: &TxList, clients: u32, count: u32) -> bool {
    for client in 1..clients.wrapping_add(1) {
        if count_of(list, client) != Some(count) {
            return false;
        }
    }
    list.as_slice().len() == clients.wrapping_mul(count) as usize
}

/// The same for each list.
fn hold_all(lists: &[TxList], clients: u32, count: u32) -> bool {
    for list in lists {
        if !holds_all(list, clients, count) {
            return false;
        }
    }
    true
}

/// Whether each list holds the one transaction of client 1 and the 130 of client 2.
fn are_counted(lists: &[TxList]) -> bool {
    for list in lists {
        if count_of(list, 1) != Some(1) || count_of(list, 2) != Some(130) {
            return false;
        }
    }
    true
}

/// Whether one of two lists of batches is a prefix of the other.
fn agree(one: &[TxList], other: &[TxList]) -> bool {
    one.iter()
        .zip(other)
        .all(|(a, b)| a.as_slice() == b.as_slice())
}

/// Whether a list of batches agrees with each of these.
fn agrees(one: &[TxList], others: &[BatchList]) -> bool {
    for other in others {
        if !agree(one, other.as_slice()) {
            return false;
        }
    }
    true
}

/// Whether any two lists of batches agree.
fn all_agree(run: &RunRecord) -> bool {
    let lists = run.batches.as_slice();
    for one in lists {
        if !agrees(one.as_slice(), lists) {
            return false;
        }
    }
    true
}

/// Whether this is the transaction that arrives late.
fn is_late(tx: &Tx) -> bool {
    tx.client == 9
}

fn has_late(list: &TxList) -> bool {
    list.as_slice().iter().any(|tx| is_late(tx))
}

/// Whether the late transaction arrived at a node.
fn has_late_arrival(entries: &[Entry]) -> bool {
    for entry in entries {
        if let Event::Arrived(list) = &entry.event {
            if has_late(list) {
                return true;
            }
        }
    }
    false
}

/// The number of nodes at which the late transaction arrived.
fn arrived_late(run: &RunRecord) -> u32 {
    let mut arrived = 0u32;
    for journal in run.journals.as_slice() {
        if has_late_arrival(journal.entries.as_slice()) {
            arrived = arrived.wrapping_add(1);
        }
    }
    arrived
}

/// The number of arrival lists that hold the late transaction.
fn listed_late(run: &RunRecord) -> u32 {
    let mut listed = 0u32;
    for list in run.arrivals.as_slice() {
        if has_late(list) {
            listed = listed.wrapping_add(1);
        }
    }
    listed
}

/// The number of replicas that finalised the late transaction.
fn finalised_late(run: &RunRecord) -> u32 {
    let mut finalised = 0u32;
    for batches in run.batches.as_slice() {
        if batches.as_slice().iter().any(|batch| has_late(batch)) {
            finalised = finalised.wrapping_add(1);
        }
    }
    finalised
}

/// Whether the run of a plan in threads conforms to the protocol, and has the expected properties.
fn keeps<R: Threads + Wait + Sync>(
    rt: &R,
    alloc: Global,
    text: &str,
    asked: &str,
) -> Result<bool, Fail> {
    let plan = read_plan(alloc, text.as_bytes())?;
    let kit = TagMaker::new(alloc).make(plan.seed, plan.height, plan.setting.n())?;
    let run = threads(rt, alloc, &plan, kit.sealers, &kit.checker)?;
    is_right(alloc, &run, &plan, &kit.checker, asked)
}

fn is_right(
    alloc: Global,
    run: &RunRecord,
    plan: &Plan,
    checker: &TagChecker,
    asked: &str,
) -> Result<bool, Fail> {
    let is_kept = match asked {
        "three clients" => hold_all(run.arrivals.as_slice(), 3, 200) && all_agree(run),
        "one client" => hold_all(run.arrivals.as_slice(), 1, 20),
        "no turn" => run.turns == 0 && run.ticks == 0 && hold_all(run.arrivals.as_slice(), 1, 2),
        "never" => arrived_late(run) == 0 && listed_late(run) == 5 && finalised_late(run) == 0,
        "middle" => arrived_late(run) == 5 && run.turns >= 40 && finalised_late(run) == 5,
        "slow client" => are_counted(run.arrivals.as_slice()) && all_agree(run),
        _ => false,
    };
    Ok(is_kept && is_audited(alloc, run, plan, checker)?)
}

/// Whether an audit of the trace of a run finds no violation.
fn is_audited(
    alloc: Global,
    run: &RunRecord,
    plan: &Plan,
    checker: &TagChecker,
) -> Result<bool, Fail> {
    let keys = Keys::Seed(plan.seed);
    let bytes = write_trace(alloc, run, &keys, plan.height, plan.views)?;
    is_lawful(alloc, bytes.as_slice(), checker)
}

/// Whether bytes are a trace in which an audit finds no violation.
fn is_lawful(alloc: Global, bytes: &[u8], checker: &TagChecker) -> Result<bool, Fail> {
    match read_trace(alloc, bytes) {
        Ok(trace) => obeys(alloc, &trace.run, checker),
        Err(TraceFault::BadTrace { .. }) => Ok(false),
        Err(TraceFault::NoMemory) => Err(Fail::new("no memory")),
    }
}

fn obeys(alloc: Global, run: &RunRecord, checker: &TagChecker) -> Result<bool, Fail> {
    Ok(first_unlawful(alloc, run, checker)?.is_none())
}

#[test]
fn three_clients_at_five_replicas(rt: HostRuntime) -> Result<(), Fail> {
    assert!(rt; keeps(&rt, rt.alloc(), BUSY, "three clients")?);
    Ok(())
}

#[test]
fn faulty_replicas_and_links_leave_lawful_runs(rt: HostRuntime) -> Result<(), Fail> {
    assert!(rt; keeps(&rt, rt.alloc(), FAULTY, "one client")?);
    Ok(())
}

#[test]
fn a_plan_without_turns_delivers_nothing(rt: HostRuntime) -> Result<(), Fail> {
    assert!(rt; keeps(&rt, rt.alloc(), NO_TURN, "no turn")?);
    Ok(())
}

#[test]
fn an_arrival_whose_turn_never_comes_reaches_no_node(rt: HostRuntime) -> Result<(), Fail> {
    assert!(rt; keeps(&rt, rt.alloc(), NEVER, "never")?);
    Ok(())
}

#[test]
fn an_arrival_in_the_middle_is_finalised(rt: HostRuntime) -> Result<(), Fail> {
    assert!(rt; keeps(&rt, rt.alloc(), MIDDLE, "middle")?);
    Ok(())
}

#[test]
fn a_slow_client_submits_all_that_it_has(rt: HostRuntime) -> Result<(), Fail> {
    assert!(rt; keeps(&rt, rt.alloc(), SLOW, "slow client")?);
    Ok(())
}
