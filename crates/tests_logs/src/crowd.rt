//! Several threads that share one log.
ghost use Rattle.std.specs.Prelude.{◌≡◌, ◌<◌};
ghost use Rattle.locked_log.specs.History.{IsPassOf};

use arrival_log::{Log, LogPass, SharedLog};
use seq_base::Tx;
use std::sync::Wait;
use std::test::Fail;
use std::thread::{Threads, join};

const EACH: u32 = 10_000;

// Submits a client's transactions. Stops if memory runs out.
fn submit_all<R: Wait>(rt: &R, log: &SharedLog, mut pass: LogPass, client: u32) -> LogPass
    requires { IsPassOf log.now pass × (pass.parts ≡ 1) }
    ensures { IsPassOf log.now result × (result.parts ≡ 1) }
{
    for number in 0..EACH {
        let tx = Tx {
            client,
            number,
            payload: 0,
        };
        if log.submit(rt, &mut pass, tx).is_err() {
            return pass;
        }
    }
    pass
}

// Submits the transactions of two clients concurrently.
fn submit_two<R: Threads + Wait + Sync>(
    rt: &R,
    log: &SharedLog,
    one: LogPass,
    other: LogPass,
    client: u32,
) -> LogPass
    requires one { IsPassOf log.now one × (one.parts ≡ 1) }
    requires other { IsPassOf log.now other × (other.parts ≡ 1) }
    requires client { client < 4 }
    ensures { IsPassOf log.now result × (result.parts ≡ 2) }
{
    let (mut one, other) = join(
        rt,
        || submit_all(rt, log, one, client),
        || submit_all(rt, log, other, client + 1),
    );
    log.join(&mut one, other);
    one
}

// The number of each client's transactions in the log, for four clients; None if they are not in their order.
fn counts(log: &Log) -> Option<[u32; 4]> {
    let mut next = [0u32; 4];
    for at in 0..log.len() {
        let tx = log.get(at)?;
        let client = tx.client as usize;
        if client >= 4 || next[client] != tx.number {
            return None;
        }
        next[client] = tx.number.wrapping_add(1);
    }
    Some(next)
}

// Whether all transactions are in the log.
fn is_filled(log: &Log) -> bool {
    log.len() == 4 * EACH && counts(log) == Some([EACH; 4])
}

#[test]
fn four_threads_fill_one_log(rt: HostRuntime) -> Result<(), Fail> {
    let (log, mut a) = SharedLog::start(rt.alloc(), 4)?;
    let b = log.split(&mut a);
    let c = log.split(&mut a);
    let d = log.split(&mut a);
    let (mut pass, other) = join(
        &rt,
        || submit_two(&rt, &log, a, b, 0),
        || submit_two(&rt, &log, c, d, 2),
    );
    log.join(&mut pass, other);
    let log = log.finish(pass);
    assert!(rt; is_filled(&log));
    Ok(())
}
