//! Seals that verifiers check ahead: which ones each keeps, and a replica that takes them and answers as it would without.
use crate::cluster::Message;
use crate::replicas::{opened_with, publics};
use crate::seals::{BLOCKS, answer, changed, second_block};
use crate::shared::played;
use node_core::Reason;
use replica_box::{Replica, Verifier};
use seal_kit::Height;
use seq_base::Packet;
use std::alloc::Global;
use std::mem::replace;
use std::test::Fail;

fn verifier(alloc: Global, height: Height) -> Result<Verifier, Fail> {
    let keys = publics(alloc, Height::H5H5)?;
    Ok(Verifier::new(alloc, height, keys.as_slice())?)
}

/// The second block of a cluster: four votes and four local orders, with a seal each.
fn block(alloc: Global) -> Result<Packet, Fail> {
    let cluster = played(alloc, 5)?;
    if let Some(replica) = cluster.replicas.get(1) {
        for block in second_block(alloc, replica)? {
            return Ok(block);
        }
    }
    Err(Fail::new("there is no block"))
}

/// A share of a message and the number of shares, a byte of it and what this byte is XORed with, and how many of its seals are
/// kept then. Byte 4000 is in the first seal, and byte 38000 in the last one.
const SHARES: [(u32, u32, usize, u8, usize); 9] = [
    (0, 1, 0, 0, 8),
    (0, 3, 0, 0, 3),
    (1, 3, 0, 0, 3),
    (2, 3, 0, 0, 2),
    (3, 3, 0, 0, 0),
    (0, 0, 0, 0, 0),
    (0, 1, 4000, 1, 0),
    (0, 1, 38000, 1, 7),
    (1, 2, 4000, 1, 4),
];

/// Whether a verifier keeps that many seals of each share.
fn shares_are_kept(alloc: Global) -> Result<bool, Fail> {
    let mut verifier = verifier(alloc, Height::H5H5)?;
    let block = block(alloc)?;
    for (share, shares, at, by, kept) in SHARES {
        let bytes = changed(alloc, block.as_slice(), at, by)?;
        if verifier.verify(9, 0, bytes.as_slice(), share, shares) != kept {
            return Ok(false);
        }
    }
    Ok(true)
}

#[test]
fn a_verifier_keeps_the_seals_of_its_share_that_fit(rt: HostRuntime) -> Result<(), Fail> {
    assert!(rt; shares_are_kept(rt.alloc())?);
    Ok(())
}

/// The answers of a replica to a block that it knows and to changed ones, which a verifier checks first.
fn answers_to_blocks(alloc: Global) -> Result<Vec<u8>, Fail> {
    let mut answers = Vec::new(alloc);
    let block = block(alloc)?;
    let mut verifier = verifier(alloc, Height::H5H5)?;
    let mut cluster = played(alloc, 5)?;
    if let Some(replica) = cluster.replicas.get_mut(1) {
        for (_, at, by) in BLOCKS {
            let bytes = changed(alloc, block.as_slice(), at, by)?;
            verifier.verify(0, 0, bytes.as_slice(), 0, 1);
            replica.take_verified(&mut verifier);
            answers.push(answer(replica, bytes)?)?;
        }
    }
    Ok(answers)
}

/// Whether a replica takes from a verifier of this height.
fn takes(alloc: Global, height: Height) -> Result<bool, Fail> {
    let keys = publics(alloc, Height::H5H5)?;
    let (mut replica, _) = opened_with(alloc, Height::H5H5, keys.as_slice(), 4, 4, &[])??;
    Ok(replica.take_verified(&mut verifier(alloc, height)?))
}

#[test]
fn only_a_verifier_with_the_same_keys_is_taken_from(rt: HostRuntime) -> Result<(), Fail> {
    assert!(rt; takes(rt.alloc(), Height::H5H5)?);
    assert!(rt; !takes(rt.alloc(), Height::H5H10)?);
    Ok(())
}

/// Replica 4 of a cluster, and a verifier with the cluster's keys.
#[derive(Drop)]
struct Seated {
    replica: Replica,
    verifier: Verifier,
}

fn make_seated(alloc: Global) -> Result<Seated, Fail> {
    let keys = publics(alloc, Height::H5H5)?;
    let (replica, _) = opened_with(alloc, Height::H5H5, keys.as_slice(), 4, 4, &[])??;
    let verifier = verifier(alloc, Height::H5H5)?;
    Ok(Seated { replica, verifier })
}

impl Seated {
    /// Lets the replica take the seals of a message in that many shares.
    fn take(&mut self, message: &Message, shares: u32) {
        for share in 0..shares {
            let bytes = message.bytes.as_slice();
            let view = self.replica.view();
            self.verifier
                .verify(view, message.from, bytes, share, shares);
            self.replica.take_verified(&mut self.verifier);
        }
    }

    /// The size of a message's record, and the reason of its turn.
    fn turn(&mut self, message: &Message) -> Result<(usize, Reason), Fail> {
        self.replica.prepare(message.event()?)?;
        let size = self.replica.record(0).unwrap_or(&[]).len();
        Ok((size, self.replica.act()?))
    }
}

/// The messages that were held back from replica 4.
fn held(alloc: Global) -> Result<Vec<Message>, Fail> {
    let mut cluster = played(alloc, 4)?;
    Ok(replace(&mut cluster.held, Vec::new(alloc)))
}

/// Whether all turns are the same with seals that were checked ahead in that many shares.
fn are_same(alloc: Global, shares: u32) -> Result<bool, Fail> {
    let mut ahead = make_seated(alloc)?;
    let mut alone = make_seated(alloc)?;
    for message in &held(alloc)? {
        ahead.take(message, shares);
        if ahead.turn(message)? != alone.turn(message)? {
            return Ok(false);
        }
    }
    Ok(true)
}

#[test]
fn seals_that_were_checked_ahead_change_no_turn(rt: HostRuntime) -> Result<(), Fail> {
    assert!(rt; are_same(rt.alloc(), 3)?);
    Ok(())
}

#[test]
fn a_changed_seal_is_refused_after_a_verifier(rt: HostRuntime) -> Result<(), Fail> {
    assert!(rt; answers_to_blocks(rt.alloc())?.as_slice() == b"rcmr".as_slice());
    Ok(())
}
