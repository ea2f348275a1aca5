//! The calls of an intake, written out: what a host passes on, and what arrives.
use crate::blocks::Blocks;
use crate::desks::peer;
use crate::words::tx;
use intake::{Intake, Receipt, ShownList, Standing};
use seq_base::{NoMemory, Setting, Tx};
use std::alloc::Global;
use std::test::Fail;

/// Replica 0 of five receives a transaction of a client and one that a peer reports. A block names both and a third one,
/// which the replica has not received yet. Then the first is final.
#[test]
fn what_a_host_passes_on_arrives(rt: HostRuntime) -> Result<(), Fail> {
    let alloc = rt.alloc();
    let mut intake = opened(alloc)?;
    receive_two(&mut intake)?;
    let mut blocks = Blocks::new(alloc);
    assert_eq!(rt; arrived(&mut intake, &blocks)?, 2);
    intake.accepted(1, 0, lists_of(alloc, &[tx(1), tx(2), tx(3)])?)?;
    blocks.proposed.insert(tx(3))?;
    assert_eq!(rt; arrived(&mut intake, &blocks)?, 1);
    intake.settle(&[tx(1)])?;
    assert!(rt; stands(&intake));
    Ok(())
}

fn opened(alloc: Global) -> Result<Intake, Fail> {
    let Ok(setting) = Setting::new(5, 1, 1, 1) else {
        return Err(Fail::new("the setting is refused"));
    };
    if 0 < setting.n() {
        return Ok(Intake::new(alloc, setting, 0)?);
    }
    Err(Fail::new("no replica"))
}

/// A client submits the one, and a peer reports the other with the stamp of its clock.
fn receive_two(intake: &mut Intake) -> Result<(), NoMemory> {
    intake.submit(tx(1))?;
    let from = peer(intake.desk(), 1);
    let receipt = Receipt {
        tx: tx(2),
        stamp: 7,
    };
    intake.hear(from, receipt)?;
    Ok(())
}

/// How many arrive now: the host passes them to its core in one event.
fn arrived(intake: &mut Intake, blocks: &Blocks) -> Result<usize, NoMemory> {
    let arrivals = intake.arrive(blocks)?;
    Ok(arrivals.txs.len())
}

/// The lists of the first two replicas in a block, each with these transactions.
fn lists_of(alloc: Global, txs: &[Tx]) -> Result<Vec<ShownList>, NoMemory> {
    let mut lists = Vec::new(alloc);
    for replica in 0..2 {
        lists.push(ShownList {
            replica,
            txs: Vec::from_slice(alloc, txs)?,
        })?;
    }
    Ok(lists)
}

fn stands(intake: &Intake) -> bool {
    let desk = intake.desk();
    matches!(desk.standing(&tx(1)), Standing::Final)
        && matches!(desk.standing(&tx(2)), Standing::Arrived)
        && matches!(desk.standing(&tx(3)), Standing::Arrived)
        && matches!(desk.standing(&tx(4)), Standing::Unknown)
}
