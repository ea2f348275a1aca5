//! Verifiers: which are made, and whose seals a replica takes.
use super::bench::{Bench, KEY};
use super::runs::played;
use crate::verifier_handle::VerifierHandle;
use crate::verifying::{
    themis_take_verified, themis_verifier_free, themis_verifier_new, themis_verify,
};
use crate::{BAD_HEIGHT, OK, OTHER_VERIFIER, VACANT};
use std::alloc::Global;
use std::test::Fail;

/// The status of a check of bytes that are no message, and how many seals are kept.
fn checked(alloc: Global, verifier: &mut VerifierHandle) -> (u32, usize) {
    let mut kept = 9;
    let status = themis_verify(alloc, verifier, 0, 0, &[9], 0, 1, &mut kept);
    (status, kept)
}

/// Whether a verifier is made for a height that there is alone.
fn is_made(alloc: Global, verifier: &mut VerifierHandle) -> bool {
    checked(alloc, verifier) == (VACANT, 9)
        && themis_verifier_new(alloc, verifier, 6, &[KEY]) == BAD_HEIGHT
        && checked(alloc, verifier) == (VACANT, 9)
        && themis_verifier_new(alloc, verifier, 5, &[KEY]) == OK
        && checked(alloc, verifier) == (OK, 0)
}

#[test]
fn a_verifier_is_made(rt: HostRuntime) {
    let mut verifier = VerifierHandle::vacant(rt.alloc());
    let made = is_made(rt.alloc(), &mut verifier);
    verifier.end();
    assert!(rt; made);
}

/// The status of a replica that takes from a verifier with these keys.
fn taken(
    alloc: Global,
    bench: &mut Bench,
    verifier: &mut VerifierHandle,
    height: u32,
    key: [u8; 60],
) -> u32 {
    if themis_verifier_new(alloc, verifier, height, &[key]) != OK {
        return 99;
    }
    themis_take_verified(alloc, &mut bench.handle, verifier)
}

/// Whether a replica with one key takes from a verifier with the same one alone.
fn takes_from_its_own(alloc: Global, verifier: &mut VerifierHandle) -> bool {
    let mut bench = Bench::new(alloc);
    let mut other = KEY;
    other[59] ^= 1;
    taken(alloc, &mut bench, verifier, 5, KEY) == VACANT
        && bench.open_one(&[]) == OK
        && taken(alloc, &mut bench, verifier, 5, KEY) == OK
        && taken(alloc, &mut bench, verifier, 10, KEY) == OTHER_VERIFIER
        && taken(alloc, &mut bench, verifier, 5, other) == OTHER_VERIFIER
        && is_vacant_once_freed(alloc, &mut bench, verifier)
}

fn is_vacant_once_freed(alloc: Global, bench: &mut Bench, verifier: &mut VerifierHandle) -> bool {
    themis_verifier_free(alloc, verifier);
    themis_take_verified(alloc, &mut bench.handle, verifier) == VACANT
}

#[test]
fn a_replica_takes_from_a_verifier_with_its_keys(rt: HostRuntime) {
    let mut verifier = VerifierHandle::vacant(rt.alloc());
    let takes = takes_from_its_own(rt.alloc(), &mut verifier);
    verifier.end();
    assert!(rt; takes);
}

/// How many seals a verifier keeps of each message of a run: in one share, and in the second of two.
fn kept(alloc: Global, verifier: &mut VerifierHandle) -> Result<Vec<(usize, usize)>, Fail> {
    let run = played(alloc)?;
    let mut counts = Vec::new(alloc);
    if themis_verifier_new(alloc, verifier, 5, &[KEY]) != OK {
        return Ok(counts);
    }
    for message in &run.messages {
        let (mut all, mut half) = (9, 9);
        themis_verify(alloc, verifier, 0, 0, message.as_slice(), 0, 1, &mut all);
        themis_verify(alloc, verifier, 0, 0, message.as_slice(), 1, 2, &mut half);
        counts.push((all, half))?;
    }
    Ok(counts)
}

#[test]
fn a_verifier_keeps_its_share(rt: HostRuntime) -> Result<(), Fail> {
    let mut verifier = VerifierHandle::vacant(rt.alloc());
    let counts = kept(rt.alloc(), &mut verifier);
    verifier.end();
    let counts = counts?;
    // A call, an Ask, a local order, a proposal without votes, and its vote with an order; then the same with votes.
    let first = [(1, 0), (1, 0), (1, 0), (2, 1), (2, 1)];
    assert!(rt; counts.as_slice().get(..5) == Some(first.as_slice()));
    Ok(())
}
