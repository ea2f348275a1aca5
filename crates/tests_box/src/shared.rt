//! Final batches at each replica, and blocks for a lagging replica.
use crate::cluster::{Cluster, new_cluster};
use crate::replicas::{opened_with, publics};
use node_core::Event;
use replica_box::Replica;
use seal_kit::Height;
use seq_base::{Packet, Tx, TxList};
use std::alloc::Global;
use std::test::Fail;

const TX: Tx = Tx {
    client: 7,
    number: 1,
    payload: 70,
};

const OTHER: Tx = Tx {
    client: 8,
    number: 1,
    payload: 80,
};

/// Five replicas after a run in which a transaction arrived at each. Messages to replica `held` are held back.
pub(crate) fn played(alloc: Global, held: u32) -> Result<Cluster, Fail> {
    let mut cluster = new_cluster(alloc)?;
    for me in 0..5 {
        let txs = [TX].to_vec(alloc)?;
        cluster.turn(me, Event::Arrived(TxList::of(txs)))?;
    }
    cluster.tick(0)?;
    cluster.deliver_all(held)?;
    Ok(cluster)
}

/// Whether the replica has one final batch, which holds only the transaction.
fn has_batch(replica: &Replica) -> Result<bool, Fail> {
    let one = replica.batch_count()? == 1 && replica.batch(1)?.is_none();
    match replica.batch(0)? {
        Some(batch) => Ok(one && batch.as_slice() == [TX].as_slice()),
        None => Ok(false),
    }
}

/// Whether only the transaction is known, and it is proposed.
fn knows(replica: &Replica) -> Result<bool, Fail> {
    Ok(replica.known() == 1 && replica.is_proposed(&TX)? && !replica.is_proposed(&OTHER)?)
}

fn all_have_the_batch(alloc: Global) -> Result<bool, Fail> {
    let cluster = played(alloc, 5)?;
    for replica in &cluster.replicas {
        if !has_batch(replica)? || !knows(replica)? {
            return Ok(false);
        }
    }
    Ok(true)
}

#[test]
fn a_batch_is_final_at_each_replica(rt: HostRuntime) -> Result<(), Fail> {
    assert!(rt; all_have_the_batch(rt.alloc())?);
    Ok(())
}

/// Whether replica 0 has the batch once it is reopened over its log, of which it uses all bytes.
fn opened_again(alloc: Global) -> Result<bool, Fail> {
    let cluster = played(alloc, 5)?;
    let publics = publics(alloc, Height::H5H5)?;
    let log = logged(alloc, &cluster)?;
    let (replica, used) = opened_with(
        alloc,
        Height::H5H5,
        publics.as_slice(),
        0,
        0,
        log.as_slice(),
    )??;
    Ok(used == log.len() && has_batch(&replica)? && knows(&replica)?)
}

/// The log of replica 0.
fn logged(alloc: Global, cluster: &Cluster) -> Result<Vec<u8>, Fail> {
    let mut log = Vec::new(alloc);
    if let Some(first) = cluster.replicas.get(0) {
        log.extend_from_slice(first.header())?;
    }
    log.extend_from_slice(cluster.log.as_slice())?;
    Ok(log)
}

#[test]
fn a_batch_is_final_again_after_the_log(rt: HostRuntime) -> Result<(), Fail> {
    assert!(rt; opened_again(rt.alloc())?);
    Ok(())
}

/// Gives the blocks of replica 0 to replica 4. Returns the numbers of blocks of both, before and after.
fn given(alloc: Global) -> Result<[usize; 4], Fail> {
    let mut cluster = played(alloc, 4)?;
    let before = counts(&cluster);
    for at in 0..before.0 {
        give(&mut cluster, at)?;
    }
    let after = counts(&cluster);
    Ok([before.0, before.1, after.0, after.1])
}

/// The numbers of blocks of the replicas 0 and 4.
fn counts(cluster: &Cluster) -> (usize, usize) {
    match (cluster.replicas.get(0), cluster.replicas.get(4)) {
        (Some(first), Some(last)) => (first.give_count(0), last.give_count(0)),
        _ => (0, 0),
    }
}

/// Delivers a block of replica 0 to replica 4.
fn give(cluster: &mut Cluster, at: usize) -> Result<(), Fail> {
    let message = match cluster.replicas.get(0) {
        Some(first) => first.give(0, at)?,
        None => None,
    };
    match message {
        Some(bytes) => cluster.turn(
            4,
            Event::Deliver {
                from: 0,
                bytes: Packet::of(bytes)?,
            },
        ),
        None => Ok(()),
    }
}

#[test]
fn blocks_let_a_lagging_replica_catch_up(rt: HostRuntime) -> Result<(), Fail> {
    assert!(rt; given(rt.alloc())? == [3, 0, 3, 3]);
    Ok(())
}
