//! A new replica: its header, a prepared event, and the turn on it.
use crate::replicas::{TICK, first};
use node_core::{Event, Reason};
use replica_box::{ActFault, Replica};
use std::alloc::Global;
use std::test::Fail;

/// The header: the magic bytes, n, f, the numerator and denominator of γ, the views, the replica, the height of the keys,
/// the digest that names the keys, and a check. Python's `hashlib` computed the keys, the digest and the check.
const HEADER: [u8; 76] = [
    0x54, 0x48, 0x45, 0x4d, 0x49, 0x53, 0x4c, 0x32, 0, 0, 0, 5, 0, 0, 0, 1, 0, 0, 0, 1, 0, 0, 0, 1,
    0, 0, 0, 6, 0, 0, 0, 0, 0, 0, 0, 5, 0x59, 0x70, 0xb9, 0x97, 0x9f, 0x51, 0x3a, 0x69, 0x78, 0xb7,
    0x53, 0x92, 0xe7, 0x5a, 0x19, 0x12, 0x51, 0x31, 0x40, 0x23, 0x1d, 0x23, 0x53, 0x24, 0xcc, 0x41,
    0x76, 0xf2, 0x7e, 0xf8, 0xd9, 0x73, 0xfc, 0x95, 0x7e, 0x77, 0xde, 0xb2, 0x18, 0x0b,
];

fn has_header(alloc: Global) -> Result<bool, Fail> {
    let (replica, used) = first(alloc, &[])?;
    let header = replica.header();
    Ok(used == 0 && header == HEADER.as_slice())
}

#[test]
fn a_new_log_begins_with_a_header(rt: HostRuntime) -> Result<(), Fail> {
    assert!(rt; has_header(rt.alloc())?);
    Ok(())
}

/// Whether the only record is that of the tick.
fn has_record(replica: &Replica) -> bool {
    replica.record(0) == Some(TICK.as_slice()) && replica.record(1) == None
}

/// Whether the replica sent its call for view 1 to the leader.
fn has_called(replica: &Replica) -> bool {
    replica.view() == 1
        && replica.commit_view() == 0
        && replica.sealed().len() == 1
        && replica.sends().len() == 1
        && replica.sends().iter().all(|send| send.to == 1)
}

/// Whether the replica has no final batch and no block.
fn has_no_batch(replica: &Replica) -> Result<bool, Fail> {
    let none = replica.batch_count()? == 0 && replica.batch(0)?.is_none();
    Ok(none && replica.give_count(0) == 0 && replica.give(0, 0)?.is_none())
}

/// Whether a tick is prepared and acted on once, and makes the replica send a call.
fn acts(alloc: Global) -> Result<bool, Fail> {
    let (mut replica, _) = first(alloc, &[])?;
    replica.prepare(Event::Tick { floor: 0 })?;
    let prepared = has_record(&replica);
    let acted = replica.act() == Ok(Reason::Done);
    let called = has_called(&replica);
    let none = has_no_batch(&replica)?;
    Ok(prepared && acted && called && none && replica.act() == Err(ActFault::Unready))
}

#[test]
fn a_replica_acts_on_what_is_prepared(rt: HostRuntime) -> Result<(), Fail> {
    assert!(rt; acts(rt.alloc())?);
    Ok(())
}
