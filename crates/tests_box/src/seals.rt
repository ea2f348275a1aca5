//! Seals that a replica has checked before. It remembers up to eight of each replica, and answers as it would without them.
use crate::replicas::{opened_until, publics};
use crate::shared::played;
use node_core::{Event, Reason};
use replica_box::Replica;
use seal_kit::Height;
use seq_base::{Bytes, Packet};
use std::alloc::Global;
use std::test::Fail;

/// A message by its place, a byte of it, and what this byte is XORed with.
pub(crate) type Case = (usize, usize, u8);

/// Messages of replica 0: a seal that does not fit, twice, ten that fit, the last and the first of them again, and the last
/// one changed. Byte 6 is the view, 46, which becomes 51. Byte 100 is in the signature of the seal's top tree, and byte
/// 4000 in that of its lower tree.
const CALLS: [Case; 18] = [
    (0, 4000, 1),
    (0, 4000, 1),
    (0, 0, 0),
    (1, 0, 0),
    (2, 0, 0),
    (3, 0, 0),
    (4, 0, 0),
    (5, 0, 0),
    (6, 0, 0),
    (7, 0, 0),
    (8, 0, 0),
    (9, 0, 0),
    (9, 0, 0),
    (0, 0, 0),
    (9, 6, 46 ^ 51),
    (9, 100, 1),
    (9, 4000, 1),
    (9, 0, 0),
];

/// A block whose seals are known. Byte 4000 is in the seal of its certificate's first vote, byte 38000 in that of its last
/// order.
pub(crate) const BLOCKS: [Case; 4] = [(0, 0, 0), (0, 4000, 1), (0, 38000, 1), (0, 0, 0)];

/// Replica `me` of a run with 60 views.
fn replica(alloc: Global, me: u8) -> Result<Replica, Fail> {
    let keys = publics(alloc, Height::H5H5)?;
    let (replica, _) = opened_until(alloc, 60, Height::H5H5, keys.as_slice(), me, me, &[])??;
    Ok(replica)
}

/// The calls of replica 0 for the views 1, 6, .., 46, all of which replica 1 leads.
fn calls(alloc: Global) -> Result<Vec<Packet>, Fail> {
    let mut sender = replica(alloc, 0)?;
    let mut calls = Vec::new(alloc);
    for k in 0..10u32 {
        sender.prepare(Event::Tick { floor: 5 * k })?;
        sender.act()?;
        if let Some(call) = sender.sends().get(0) {
            calls.push(call.bytes.share()?)?;
        }
    }
    Ok(calls)
}

/// The bytes with one byte changed.
pub(crate) fn changed(alloc: Global, bytes: &[u8], at: usize, by: u8) -> Result<Packet, Fail> {
    let mut bytes = Vec::from_slice(alloc, bytes)?;
    if let Some(byte) = bytes.get_mut(at) {
        *byte ^= by;
    }
    Ok(Packet::of(Bytes::of(bytes))?)
}

/// The answer of a replica to bytes of replica 0, as a letter.
pub(crate) fn answer(replica: &mut Replica, bytes: Packet) -> Result<u8, Fail> {
    replica.prepare(Event::Deliver { from: 0, bytes })?;
    Ok(match replica.act()? {
        Reason::Done => b'd',
        Reason::BadSeal => b's',
        Reason::BadCert => b'c',
        Reason::Misfit => b'm',
        Reason::Repeat => b'r',
        _ => b'?',
    })
}

/// The answers of a replica to messages.
fn answers(
    alloc: Global,
    replica: &mut Replica,
    messages: &[Packet],
    cases: &[Case],
) -> Result<Vec<u8>, Fail> {
    let mut answers = Vec::new(alloc);
    for (message, at, by) in cases {
        if let Some(bytes) = messages.get(*message) {
            answers.push(answer(replica, changed(alloc, bytes.as_slice(), *at, *by)?)?)?;
        }
    }
    Ok(answers)
}

fn answers_to_calls(alloc: Global) -> Result<Vec<u8>, Fail> {
    let calls = calls(alloc)?;
    answers(alloc, &mut replica(alloc, 1)?, calls.as_slice(), &CALLS)
}

#[test]
fn only_the_same_seal_of_the_same_statement_is_known(rt: HostRuntime) -> Result<(), Fail> {
    assert!(rt; answers_to_calls(rt.alloc())?.as_slice() == b"ssddddddddddrrsssr".as_slice());
    Ok(())
}

/// The second block of a replica, with the message that carries it.
pub(crate) fn second_block(alloc: Global, replica: &Replica) -> Result<Vec<Packet>, Fail> {
    let mut blocks = Vec::new(alloc);
    if let Some(bytes) = replica.give(0, 1)? {
        blocks.push(Packet::of(bytes)?)?;
    }
    Ok(blocks)
}

fn answers_to_blocks(alloc: Global) -> Result<Vec<u8>, Fail> {
    let mut cluster = played(alloc, 5)?;
    let Some(replica) = cluster.replicas.get_mut(1) else {
        return Ok(Vec::new(alloc));
    };
    let blocks = second_block(alloc, replica)?;
    answers(alloc, replica, blocks.as_slice(), &BLOCKS)
}

#[test]
fn a_changed_seal_in_a_known_block_is_refused(rt: HostRuntime) -> Result<(), Fail> {
    assert!(rt; answers_to_blocks(rt.alloc())?.as_slice() == b"rcmr".as_slice());
    Ok(())
}
