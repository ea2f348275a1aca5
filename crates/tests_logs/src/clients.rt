//! Two clients of one log, each in its own thread.
ghost use Rattle.std.specs.Prelude.{◌∷◌, [], IfOk};
ghost use Rattle.locked_log.specs.History.{IsPassOf};
ghost use Rattle.client_logs.specs.Clients.{IsFresh, OfClient};

use arrival_log::{LogPass, SharedLog};
use client_logs::Client;
use seq_base::{NoMemory, TxList};
use std::alloc::{AllocError, Global};
use std::sync::Wait;
use std::test::Fail;
use std::thread::{Threads, join};

// A client of one log.
fn client_of(
    alloc: Global,
    id: u32,
    count: u32,
    log: &SharedLog,
    pass: LogPass,
) -> Result<Client, AllocError>
    requires { IsPassOf log.now pass × IsFresh pass }
    ensures { IfOk result (λ client. OfClient (log.now ∷ []) client) }
{
    let mut passes = Vec::new(alloc);
    passes.push(pass)?;
    Ok(Client::new(id, count, passes))
}

// Two clients of one log.
fn two_clients(
    alloc: Global,
    log: &SharedLog,
    first: LogPass,
    second: LogPass,
) -> Result<(Client, Client), AllocError>
    requires first { IsPassOf log.now first × IsFresh first }
    requires second { IsPassOf log.now second × IsFresh second }
    ensures { IfOk result (λ r. OfClient (log.now ∷ []) r.0 × OfClient (log.now ∷ []) r.1) }
{
    let first = client_of(alloc, 0, 200, log, first)?;
    let second = client_of(alloc, 1, 100, log, second)?;
    Ok((first, second))
}

// Four rounds of a client, in which it submits at most 256 transactions.
fn run_rounds<R: Wait>(rt: &R, logs: &[SharedLog], mut client: Client) -> Client
    requires { OfClient logs.now client }
    ensures { OfClient logs.now result }
{
    client.round(rt, logs);
    client.round(rt, logs);
    client.round(rt, logs);
    client.round(rt, logs);
    client
}

// Runs both clients concurrently.
fn run_concurrently<R: Threads + Wait + Sync>(
    rt: &R,
    logs: &[SharedLog],
    first: Client,
    second: Client,
) -> (Client, Client)
    requires first { OfClient logs.now first }
    requires second { OfClient logs.now second }
    ensures { OfClient logs.now result.0 × OfClient logs.now result.1 }
{
    join(
        rt,
        || run_rounds(rt, logs, first),
        || run_rounds(rt, logs, second),
    )
}

// The number of each client's transactions in the list; None if they are not in their order.
fn counts(list: &TxList) -> Option<[u32; 2]> {
    let mut next = [0u32; 2];
    for tx in list.as_slice() {
        let client = tx.client as usize;
        if client >= 2 || next[client].wrapping_add(1) != tx.number {
            return None;
        }
        next[client] = tx.number;
    }
    Some(next)
}

// The number of each client's transactions in the log; None if they are not in their order.
fn counts_in<R: Wait>(rt: &R, log: &SharedLog, driver: &mut LogPass) -> Option<[u32; 2]>
    requires { IsPassOf log.now driver.old }
{
    let list = log.snapshot(rt, driver, 0).ok()?;
    counts(&list)
}

// Whether each of the two clients submitted all its transactions, and the log holds them.
fn has_all<R: Threads + Wait + Sync>(rt: &R, alloc: Global) -> Result<bool, NoMemory> {
    let (log, mut driver) = SharedLog::start(alloc, 4)?;
    let first = log.split(&mut driver);
    let second = log.split(&mut driver);
    let (first, second) = two_clients(alloc, &log, first, second)?;
    let logs = [log];
    let (mut first, mut second) = run_concurrently(rt, &logs, first, second);
    first.report(&logs, 0, &mut driver);
    second.report(&logs, 0, &mut driver);
    let counts = counts_in(rt, &logs[0], &mut driver);
    Ok((first.next, second.next) == (200, 100) && counts == Some([200, 100]))
}

#[test]
fn a_log_has_all_of_each_client_in_order(rt: HostRuntime) -> Result<(), Fail> {
    assert!(rt; has_all(&rt, rt.alloc())?);
    Ok(())
}
