//! The owner of a log: which logs a replica opens, and which it refuses.
use crate::journal::{STOPPED, entries};
use crate::stopped::{log_after, started};
use crate::tampered::{changed, fault_of, holding};
use durable_node::{DurableNode, KeptFault};
use seal_kit::{Height, SealMaker, Sealer, TagChecker, TagMaker, TagSealer};
use seq_base::Setting;
use std::alloc::Global;
use std::test::Fail;

/// The header of replica 1 of five, one of which may be faulty, with γ = 1, six views, keys of height 5, and a digest of the
/// keys with 7 in each byte. It was computed with Python's `hashlib`.
const HEADER: [u8; 76] = [
    0x54, 0x48, 0x45, 0x4d, 0x49, 0x53, 0x4c, 0x32, 0, 0, 0, 5, 0, 0, 0, 1, 0, 0, 0, 1, 0, 0, 0, 1,
    0, 0, 0, 6, 0, 0, 0, 1, 0, 0, 0, 5, 7, 7, 7, 7, 7, 7, 7, 7, 7, 7, 7, 7, 7, 7, 7, 7, 7, 7, 7, 7,
    7, 7, 7, 7, 7, 7, 7, 7, 7, 7, 7, 7, 0xc9, 0x75, 0x9a, 0x2b, 0x24, 0x38, 0xa2, 0xb7,
];

/// The log after a replica is started over these bytes and crashes immediately.
fn left_over(alloc: Global, bytes: &[u8]) -> Result<Vec<u8>, Fail> {
    let keeper = started(alloc, holding(alloc, bytes)?)?.crash();
    Ok(Vec::from_slice(alloc, keeper.bytes())?)
}

/// The first length of a torn header after which the replica does not rewrite the whole header.
fn first_wrong_length(alloc: Global) -> Result<Option<usize>, Fail> {
    for length in 0..=HEADER.len() {
        let left = left_over(alloc, HEADER.get(..length).unwrap_or(&[]))?;
        if left.as_slice() != HEADER.as_slice() {
            return Ok(Some(length));
        }
    }
    Ok(None)
}

#[test]
fn a_torn_header_is_written_again(rt: HostRuntime) -> Result<(), Fail> {
    assert_eq!(rt; first_wrong_length(rt.alloc())?, None);
    Ok(())
}

/// The first byte of the header in which a flipped bit is not found.
fn first_unseen_flip(alloc: Global, log: &[u8]) -> Result<Option<usize>, Fail> {
    for at in 0..HEADER.len() {
        let log = changed(alloc, log, at)?;
        if fault_of(alloc, log.as_slice())? != Some(KeptFault::NoHeader) {
            return Ok(Some(at));
        }
    }
    Ok(None)
}

fn unseen_flip(alloc: Global) -> Result<Option<usize>, Fail> {
    let entries = entries(alloc)?;
    let log = log_after(alloc, entries.as_slice(), 1)?;
    first_unseen_flip(alloc, log.as_slice())
}

#[test]
fn a_changed_header_is_refused(rt: HostRuntime) -> Result<(), Fail> {
    assert_eq!(rt; unseen_flip(rt.alloc())?, None);
    Ok(())
}

/// What a replica with a tag sealer is started with. `key` is in each byte of its digest of the keys.
#[derive(Clone, Copy)]
struct Start {
    n: u32,
    f: u32,
    p: u32,
    q: u32,
    views: u32,
    replica: usize,
    height: Height,
    key: u8,
}

/// What the replica that wrote the log was started with.
const OWN: Start = Start {
    n: 5,
    f: 1,
    p: 1,
    q: 1,
    views: 6,
    replica: STOPPED,
    height: Height::H5,
    key: 7,
};

/// Starts that differ from `OWN` in n, f, γ, how γ is written, the views, the replica, the height of the keys, and the keys.
const OTHERS: [Start; 8] = [
    Start { n: 6, ..OWN },
    Start { f: 0, ..OWN },
    Start {
        p: 19,
        q: 20,
        ..OWN
    },
    Start { p: 2, q: 2, ..OWN },
    Start { views: 5, ..OWN },
    Start { replica: 2, ..OWN },
    Start {
        height: Height::H10,
        ..OWN
    },
    Start { key: 8, ..OWN },
];

/// The sealer of a replica from a new kit, and the kit's checker.
fn kit_for(
    alloc: Global,
    setting: Setting,
    replica: usize,
) -> Result<(TagSealer, TagChecker), Fail> {
    let mut kit = TagMaker::new(alloc).make(7, Height::H5, setting.n())?;
    if replica >= kit.sealers.len() {
        return Err(Fail::new("no such replica"));
    }
    Ok((kit.sealers.remove(replica), kit.checker))
}

/// Why a replica that is started like this refuses these bytes; None if it does not.
fn refusal(alloc: Global, start: &Start, bytes: &[u8]) -> Result<Option<KeptFault>, Fail> {
    let keeper = holding(alloc, bytes)?;
    let setting = Setting::new(start.n, start.f, start.p, start.q)?;
    let (sealer, checker) = kit_for(alloc, setting, start.replica)?;
    if keeper.openings() > 2
        || start.views > 6
        || sealer.replica() >= setting.n()
        || sealer.made() != 0
        || sealer.capacity() < 30
    {
        return Err(Fail::new("not to be started"));
    }
    let keys = [start.key; 32];
    match DurableNode::start(
        alloc,
        setting,
        start.views,
        start.height,
        &keys,
        sealer,
        &checker,
        keeper,
    ) {
        Ok(_) => Ok(None),
        Err((_, fault)) => Ok(Some(fault)),
    }
}

/// The first of the other starts that does not report the log as another's, or does not refuse its torn header.
fn first_accepted(alloc: Global, log: &[u8]) -> Result<Option<usize>, Fail> {
    for at in 0..OTHERS.len() {
        let whole = refusal(alloc, &OTHERS[at], log)?;
        let torn = refusal(alloc, &OTHERS[at], log.get(..75).unwrap_or(&[]))?;
        if whole != Some(KeptFault::OtherLog) || torn != Some(KeptFault::NoHeader) {
            return Ok(Some(at));
        }
    }
    Ok(None)
}

/// Whether all other starts refuse a log, and its own does not.
fn is_its_own(alloc: Global, log: &[u8]) -> Result<bool, Fail> {
    Ok(first_accepted(alloc, log)?.is_none() && refusal(alloc, &OWN, log)?.is_none())
}

/// Whether a log without its header is refused.
fn is_refused_without(alloc: Global, log: &[u8]) -> Result<bool, Fail> {
    let records = log.get(HEADER.len()..).unwrap_or(&[]);
    Ok(fault_of(alloc, records)? == Some(KeptFault::NoHeader))
}

fn is_distinguished(alloc: Global) -> Result<bool, Fail> {
    let entries = entries(alloc)?;
    let log = log_after(alloc, entries.as_slice(), 2)?;
    Ok(is_its_own(alloc, log.as_slice())? && is_refused_without(alloc, log.as_slice())?)
}

#[test]
fn a_log_is_accepted_only_by_its_own_replica(rt: HostRuntime) -> Result<(), Fail> {
    assert!(rt; is_distinguished(rt.alloc())?);
    Ok(())
}
