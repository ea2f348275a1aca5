use crate::calls::answers;
use seal_kit::TagMaker;
use std::test::Fail;

/// Five replicas, the last of which is faulty. One transaction arrives at replica 1, so nothing is due.
const PLAN: &str =
    "n = 5\nf = 1\np = 1\nq = 1\nseed = 7\nheight = 5\nviews = 6\nticks = 1\nturns = 100\nfaulty = [4]\narrival = [{ replica = 1, turn = 0, txs = [\"1.2.3\"] }]\n";

/// The first fields of its trace: the setting, the views, the seed, the height, no turn, no tick, and the faulty
/// replica.
const OPENING: &str =
    "THEMISR1\x05\x01\0\x01\0\x01\0\0\0\x06\0\0\0\0\0\0\0\x07\x01\0\0\0\0\0\0\0\0\x01\x04";

/// The arrivals of each replica.
const ARRIVALS: &str =
    "\0\0\0\0\0\0\0\x01\0\0\0\x01\0\0\0\x02\0\0\0\0\0\0\0\x03\0\0\0\0\0\0\0\0\0\0\0\0";

/// An honest replica without events: no entry, view 0, commit 0, no batch.
const NOTHING: &str = "\0\0\0\0\0\0\0\0\0\0\0\0\0\0\0\0";

/// An honest replica with one entry: the transaction arrived, with reason Done, one known transaction and no statement.
const ONE_ARRIVAL: &str =
    "\0\0\0\x01\x01\0\0\0\x01\0\0\0\x01\0\0\0\x02\0\0\0\0\0\0\0\x03\0\0\0\0\x01\0\0\0\0\0\0\0\0\0\0\0\0\0";

#[test]
fn the_record_of_a_run_is_written_field_by_field(rt: HostRuntime) -> Result<(), Fail> {
    let alloc = rt.alloc();
    let wanted = format!(in alloc; "{OPENING}{ARRIVALS}{NOTHING}{ONE_ARRIVAL}{NOTHING}{NOTHING}")?;
    let (plan, maker) = (PLAN.as_bytes(), TagMaker::new(alloc));
    assert!(rt; answers(&rt, alloc, "trace|", plan, &maker, 0, wanted.as_bytes())?);
    Ok(())
}
