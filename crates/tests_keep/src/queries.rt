//! The queries of a host to a node after a run of five replicas: its final batches, the proposed transactions, and the
//! blocks for a lagging replica. All replicas receive the transactions 1.1.0 and 2.1.0 in this order. The run has six
//! views, each with a block, and each transaction is a batch.
use crate::journal::{checker, node, node_after};
use node_core::{Event, Node, Reason};
use seal_kit::{TagChecker, TagSealer};
use seq_base::{Packet, Tx};
use std::alloc::Global;
use std::test::Fail;

fn tx(client: u32) -> Tx {
    Tx {
        client,
        number: 1,
        payload: 0,
    }
}

/// Whether the batch at a position consists of the only transaction of this client.
fn is_batch(node: &Node<TagSealer>, at: usize, client: u32) -> Result<bool, Fail> {
    match node.batch(at)? {
        Some(batch) => Ok(batch.as_slice() == [tx(client)].as_slice()),
        None => Ok(false),
    }
}

/// Whether the two transactions are final, each in its own batch.
fn has_batches(node: &Node<TagSealer>) -> Result<bool, Fail> {
    let some = is_batch(node, 0, 1)? && is_batch(node, 1, 2)?;
    Ok(some && node.batch(2)?.is_none() && node.batch_count()? == 2)
}

/// Whether the two transactions are proposed, and a third one is not.
fn has_proposed(node: &Node<TagSealer>) -> Result<bool, Fail> {
    Ok(node.is_proposed(&tx(1))? && node.is_proposed(&tx(2))? && !node.is_proposed(&tx(3))?)
}

fn is_known(alloc: Global) -> Result<bool, Fail> {
    let node = node_after(alloc, &checker(alloc)?)?;
    Ok(node.kept() == 2 && has_batches(&node)? && has_proposed(&node)?)
}

#[test]
fn a_node_returns_its_batches_one_by_one(rt: HostRuntime) -> Result<(), Fail> {
    assert!(rt; is_known(rt.alloc())?);
    Ok(())
}

/// Whether a node has no transaction and no block.
fn is_empty(node: &Node<TagSealer>) -> Result<bool, Fail> {
    let none = node.kept() == 0 && node.batch_count()? == 0 && node.give_count(0) == 0;
    Ok(none && !node.is_proposed(&tx(1))? && node.give(0, 0)?.is_none())
}

/// Delivers a block of one node to another. False: there is no such block, or it is refused.
fn give(
    from: &Node<TagSealer>,
    to: &mut Node<TagSealer>,
    checker: &TagChecker,
    at: usize,
) -> Result<bool, Fail> {
    let Some(bytes) = from.give(0, at)? else {
        return Ok(false);
    };
    let event = Event::Deliver {
        from: 4,
        bytes: Packet::of(bytes)?,
    };
    Ok(to.turn(checker, &event)?.reason == Reason::Done)
}

/// Whether one node stores the six blocks of another in the order in which they are given.
fn is_given(
    from: &Node<TagSealer>,
    to: &mut Node<TagSealer>,
    checker: &TagChecker,
) -> Result<bool, Fail> {
    for at in 0..6 {
        if !give(from, to, checker, at)? {
            return Ok(false);
        }
    }
    Ok(from.give(0, 6)?.is_none())
}

/// Whether the node has six blocks, and exactly one of them is after view 5.
fn has_blocks(node: &Node<TagSealer>) -> Result<bool, Fail> {
    let counts = [node.give_count(0), node.give_count(5), node.give_count(6)];
    Ok(counts == [6, 1, 0] && node.give(5, 1)?.is_none() && node.give(6, 0)?.is_none())
}

fn catches_up(alloc: Global) -> Result<bool, Fail> {
    let checker = checker(alloc)?;
    let from = node_after(alloc, &checker)?;
    let mut to = node(alloc, 0)?;
    let empty = is_empty(&to)?;
    let given = is_given(&from, &mut to, &checker)?;
    Ok(empty && given && has_blocks(&from)? && has_blocks(&to)? && has_batches(&to)?)
}

#[test]
fn a_lagging_node_catches_up(rt: HostRuntime) -> Result<(), Fail> {
    assert!(rt; catches_up(rt.alloc())?);
    Ok(())
}
