//! A log, and a shared log in one thread.
ghost use Rattle.std.specs.Prelude.{◌≡◌, ◌≤◌, length, IfSome};
ghost use Rattle.locked_log.specs.History.{IsPassOf};

use arrival_log::{Log, LogPass, Placed, SharedLog, SubmitFault};
use seq_base::Tx;
use std::alloc::Global;
use std::sync::Wait;
use std::test::Fail;

fn tx(client: u32, number: u32) -> Tx {
    Tx {
        client,
        number,
        payload: 0,
    }
}

/// Whether the log holds a and then b, and nothing else.
fn is_second(log: &Log, a: Tx, b: Tx) -> bool {
    log.len() == 2 && log.get(0) == Some(a) && log.get(1) == Some(b) && log.get(2) == None
}

/// Whether two transactions get the places 0 and 1, and submitting the first again returns its place.
fn submit_thrice<R: Wait>(rt: &R, log: &SharedLog, pass: &mut LogPass, a: Tx, b: Tx) -> Option<bool>
    requires { IsPassOf log.now pass.old }
    ensures own { IsPassOf log.now pass.new × (pass.new.parts ≡ pass.old.parts) }
    ensures seen { IfSome result (λ _. 1 ≤ length pass.new.seen) }
{
    let first = log.submit(rt, pass, a).ok()?;
    let second = log.submit(rt, pass, b).ok()?;
    let again = log.submit(rt, pass, a).ok()?;
    Some(first == Placed::At(0) && second == Placed::At(1) && again == Placed::Again(0))
}

/// Whether each of two transactions is in the log once.
fn are_placed_once<R: Wait>(rt: &R, alloc: Global, a: Tx, b: Tx) -> Option<bool> {
    let (log, mut pass) = SharedLog::start(alloc, 1).ok()?;
    let are_placed = submit_thrice(rt, &log, &mut pass, a, b)?;
    let late = log.snapshot(rt, &mut pass, 1).ok()?;
    let is_late = late.as_slice() == [b].as_slice();
    let log = log.finish(pass);
    Some(are_placed && is_late && is_second(&log, a, b))
}

#[test]
fn each_transaction_is_placed_once(rt: HostRuntime) -> Result<(), Fail> {
    let are_placed_once = are_placed_once(&rt, rt.alloc(), tx(1, 1), tx(2, 1));
    assert!(rt; are_placed_once.ok_or("memory")?);
    Ok(())
}

/// Fills a log. Stops if a transaction gets another place than the next one.
fn fill(log: &mut Log) {
    for number in 0..65_536 {
        if log.submit(tx(1, number)) != Ok(Placed::At(number)) {
            return;
        }
    }
}

/// Whether a full log refuses a new transaction, and returns the places of those that it holds.
fn takes_nothing_new(log: &mut Log) -> bool {
    log.submit(tx(2, 0)) == Err(SubmitFault::Full)
        && log.submit(tx(1, 0)) == Ok(Placed::Again(0))
        && log.submit(tx(1, 65_535)) == Ok(Placed::Again(65_535))
}

fn is_full(log: &Log) -> bool {
    log.len() == 65_536
        && log.get(0) == Some(tx(1, 0))
        && log.get(65_535) == Some(tx(1, 65_535))
        && log.get(65_536) == None
}

#[test]
fn a_full_log_takes_nothing_new(rt: HostRuntime) -> Result<(), Fail> {
    let mut log = Log::new(rt.alloc());
    fill(&mut log);
    assert!(rt; takes_nothing_new(&mut log) && is_full(&log));
    Ok(())
}

/// Whether a second pass sees the transaction that the first one submitted and reported to it.
fn other_pass_sees<R: Wait>(rt: &R, alloc: Global) -> Option<bool> {
    let (log, mut first) = SharedLog::start(alloc, 3).ok()?;
    let mut second = log.split(&mut first);
    let placed = log.submit(rt, &mut first, tx(1, 1));
    log.report(&mut first, &mut second);
    let list = log.snapshot(rt, &mut second, 0).ok()?;
    let is_seen = list.as_slice() == [tx(1, 1)].as_slice();
    log.join(&mut first, second);
    let count = log.finish(first).len();
    Some(placed == Ok(Placed::At(0)) && is_seen && count == 1)
}

#[test]
fn a_pass_sees_what_another_reports(rt: HostRuntime) -> Result<(), Fail> {
    assert!(rt; other_pass_sees(&rt, rt.alloc()).ok_or("memory")?);
    Ok(())
}
