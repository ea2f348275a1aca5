//! Events that change nothing have no record.
use crate::cluster::new_cluster;
use crate::replicas::first;
use node_core::{Event, Reason};
use replica_box::{ActFault, Replica};
use seq_base::{Bytes, Packet};
use std::alloc::Global;
use std::test::Fail;

/// Whether the last turn sealed nothing and sent nothing.
fn is_quiet(replica: &Replica) -> bool {
    replica.sealed().is_empty() && replica.sends().is_empty()
}

/// Whether the event at a place has a record.
fn has_record(replica: &Replica, at: usize) -> bool {
    match replica.record(at) {
        Some(record) => !record.is_empty(),
        None => false,
    }
}

/// Whether bytes that are no message have no record, and are refused with `BadWire`.
fn garbage(alloc: Global) -> Result<bool, Fail> {
    let (mut replica, _) = first(alloc, &[])?;
    let bytes = Packet::of(Bytes::of([9].to_vec(alloc)?))?;
    replica.prepare(Event::Deliver { from: 1, bytes })?;
    let empty = replica.record(0).is_some() && !has_record(&replica, 0);
    let refused = matches!(replica.act(), Ok(Reason::BadWire(_)));
    Ok(empty && refused && is_quiet(&replica))
}

#[test]
fn garbage_has_no_record(rt: HostRuntime) -> Result<(), Fail> {
    assert!(rt; garbage(rt.alloc())?);
    Ok(())
}

/// The answers of replica 2 to the messages that were held back: a request for its order, a block, and votes for that
/// block. All are prepared before it has the block. The first half has `r` for each event with a record and `-` for
/// each without. The second half has `t` for each turn that is made, and `a` for each event that has to be prepared
/// again.
fn answers(alloc: Global) -> Result<Vec<u8>, Fail> {
    let mut cluster = new_cluster(alloc)?;
    cluster.tick(0)?;
    cluster.deliver_all(2)?;
    let mut answers = Vec::new(alloc);
    let Some(replica) = cluster.replicas.get_mut(2) else {
        return Ok(answers);
    };
    for message in &cluster.held {
        replica.prepare(message.event()?)?;
    }
    for at in 0..cluster.held.len() {
        answers.push(if has_record(replica, at) { b'r' } else { b'-' })?;
    }
    for _ in 0..cluster.held.len() {
        answers.push(match replica.act() {
            Ok(_) => b't',
            Err(ActFault::Again) => b'a',
            Err(_) => b'?',
        })?;
    }
    Ok(answers)
}

#[test]
fn an_event_is_prepared_again_after_the_state_changed(rt: HostRuntime) -> Result<(), Fail> {
    assert!(rt; answers(rt.alloc())?.as_slice() == b"rr----ttaaaa".as_slice());
    Ok(())
}
