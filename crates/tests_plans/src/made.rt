//! Made plans, which an independent program wrote from the format alone.
use crate::words::words_of;
use plan_maker::make_plan;
use plan_text::read_plan;
use seq_base::Tx;
use std::alloc::Global;
use std::test::Fail;

const SIX: &str =
    "n = 5\nf = 1\np = 1\nq = 1\nseed = 1\nheight = 10\nviews = 200\nticks = 4\nturns = 10000\nprint = \"summary\"\n\
    [[arrival]]\nreplica = 0\nturn = 0\ntxs = [\"1.1.0\", \"2.1.1\", \"4.1.3\", \"3.1.2\", \"1.2.4\", \"2.2.5\"]\n\
    [[arrival]]\nreplica = 1\nturn = 0\ntxs = [\"1.1.0\", \"2.1.1\", \"3.1.2\", \"1.2.4\", \"4.1.3\", \"2.2.5\"]\n\
    [[arrival]]\nreplica = 2\nturn = 0\ntxs = [\"1.1.0\", \"2.1.1\", \"3.1.2\", \"1.2.4\", \"4.1.3\", \"2.2.5\"]\n\
    [[arrival]]\nreplica = 3\nturn = 0\ntxs = [\"1.1.0\", \"2.1.1\", \"3.1.2\", \"4.1.3\", \"1.2.4\", \"2.2.5\"]\n\
    [[arrival]]\nreplica = 4\nturn = 0\ntxs = [\"1.1.0\", \"2.1.1\", \"3.1.2\", \"4.1.3\", \"1.2.4\", \"2.2.5\"]\n";

const FIVE: &str =
    "n = 5\nf = 1\np = 1\nq = 1\nseed = 9223372036854775807\nheight = 10\nviews = 200\nticks = 4\nturns = 10000\nprint = \"summary\"\n\
    [[arrival]]\nreplica = 0\nturn = 0\ntxs = [\"2.1.1\", \"1.1.0\", \"3.1.2\", \"4.1.3\", \"1.2.4\"]\n\
    [[arrival]]\nreplica = 1\nturn = 0\ntxs = [\"2.1.1\", \"1.1.0\", \"4.1.3\", \"3.1.2\", \"1.2.4\"]\n\
    [[arrival]]\nreplica = 2\nturn = 0\ntxs = [\"1.1.0\", \"2.1.1\", \"3.1.2\", \"4.1.3\", \"1.2.4\"]\n\
    [[arrival]]\nreplica = 3\nturn = 0\ntxs = [\"1.1.0\", \"2.1.1\", \"3.1.2\", \"4.1.3\", \"1.2.4\"]\n\
    [[arrival]]\nreplica = 4\nturn = 0\ntxs = [\"2.1.1\", \"3.1.2\", \"4.1.3\", \"1.1.0\", \"1.2.4\"]\n";

#[test]
fn made_plans_are_those_of_their_seeds(rt: HostRuntime) -> Result<(), Fail> {
    let alloc = rt.alloc();
    let six = make_plan(alloc, 1, 6)?;
    let five = make_plan(alloc, 9223372036854775807, 5)?;
    assert!(rt; six.as_slice() == SIX.as_bytes() && five.as_slice() == FIVE.as_bytes());
    assert_eq!(rt; words_of(alloc, five.as_slice())?.as_str(), "read");
    Ok(())
}

/// The number of arrival lists of a made plan, and the number of those with `count` transactions that differ from the
/// list before.
fn lists_apart(alloc: Global, count: u32) -> Result<(usize, u32), Fail> {
    let text = make_plan(alloc, 7, count)?;
    let plan = read_plan(alloc, text.as_slice())?;
    let mut before: &[Tx] = &[];
    let mut apart = 0u32;
    for arrival in plan.arrivals.as_slice() {
        let txs = arrival.txs.as_slice();
        if txs.len() == count as usize && txs != before {
            apart = apart.saturating_add(1);
        }
        before = txs;
    }
    Ok((plan.arrivals.as_slice().len(), apart))
}

/// Each replica has its own order.
#[test]
fn two_replicas_lists_differ(rt: HostRuntime) -> Result<(), Fail> {
    assert_eq!(rt; lists_apart(rt.alloc(), 40)?, (5, 5));
    Ok(())
}
