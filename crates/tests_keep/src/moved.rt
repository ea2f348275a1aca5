//! Logs with records in the wrong place: removed, exchanged, repeated, or of another log.
use crate::journal::{STOPPED, checker, entries};
use crate::stopped::{kept_after, log_after};
use crate::tampered::{fault_of, holding};
use durable_node::{DurableNode, KeptFault, is_short};
use node_core::Entry;
use seal_kit::{Height, SealMaker, TagMaker};
use seq_base::Setting;
use std::alloc::Global;
use std::test::Fail;

/// The log of the first four events, and where each of its records starts and the last one ends.
#[derive(Drop)]
struct Log {
    bytes: Vec<u8>,
    ends: [usize; 5],
}

fn log_of_four(alloc: Global, entries: &[Entry]) -> Result<Log, Fail> {
    let bytes = log_after(alloc, entries, 4)?;
    let ends = [
        kept_after(alloc, entries, 0)?,
        kept_after(alloc, entries, 1)?,
        kept_after(alloc, entries, 2)?,
        kept_after(alloc, entries, 3)?,
        kept_after(alloc, entries, 4)?,
    ];
    Ok(Log { bytes, ends })
}

/// The bytes of some records of the log: from the start of one to the start of another.
fn part(log: &Log, from: usize, to: usize) -> &[u8] {
    if from >= 5 || to >= 5 {
        return &[];
    }
    log.bytes.get(log.ends[from]..log.ends[to]).unwrap_or(&[])
}

/// Why the replica does not start over the header and these records.
fn refusal(alloc: Global, log: &Log, records: &[&[u8]]) -> Result<Option<KeptFault>, Fail> {
    let mut bytes = Vec::from_slice(alloc, log.bytes.get(..log.ends[0]).unwrap_or(&[]))?;
    for record in records {
        bytes.extend_from_slice(record)?;
    }
    fault_of(alloc, bytes.as_slice())
}

/// The fault of a corrupt record where record `at` of the log starts.
fn corrupt(log: &Log, at: usize) -> Option<KeptFault> {
    if at >= 5 {
        return None;
    }
    Some(KeptFault::BadLog {
        at: log.ends[at] as u64,
    })
}

fn is_whole(alloc: Global, log: &Log) -> Result<bool, Fail> {
    Ok(refusal(alloc, log, &[part(log, 0, 2), part(log, 2, 4)])? == None)
}

/// Whether the log without its second record is corrupt where that stood.
fn finds_removed(alloc: Global, log: &Log) -> Result<bool, Fail> {
    Ok(refusal(alloc, log, &[part(log, 0, 1), part(log, 2, 4)])? == corrupt(log, 1))
}

/// Whether the log with its second and third record exchanged is corrupt where the second stood.
fn finds_exchanged(alloc: Global, log: &Log) -> Result<bool, Fail> {
    let records = [
        part(log, 0, 1),
        part(log, 2, 3),
        part(log, 1, 2),
        part(log, 3, 4),
    ];
    Ok(refusal(alloc, log, &records)? == corrupt(log, 1))
}

/// Whether the log with its first record twice is corrupt where the second stood.
fn finds_repeated(alloc: Global, log: &Log) -> Result<bool, Fail> {
    let records = [part(log, 0, 1), part(log, 0, 1), part(log, 1, 4)];
    Ok(refusal(alloc, log, &records)? == corrupt(log, 1))
}

/// The record of an event in the log of a replica with other keys, where it is the first.
fn other_record(alloc: Global, entry: &Entry) -> Result<Vec<u8>, Fail> {
    let setting = Setting::new(5, 1, 1, 1)?;
    let mut kit = TagMaker::new(alloc).make(7, Height::H5, 5)?;
    let sealer = kit.sealers.remove(STOPPED);
    let keeper = holding(alloc, &[])?;
    if keeper.openings() > 2 || !is_short(&entry.event) {
        return Err(Fail::new("not to be started"));
    }
    let checker = checker(alloc)?;
    let started = DurableNode::start(
        alloc,
        setting,
        6,
        Height::H5,
        &[8; 32],
        sealer,
        &checker,
        keeper,
    );
    let Ok(mut kept) = started else {
        return Err(Fail::new("not started"));
    };
    let _ = kept.turn(&checker, &entry.event);
    let keeper = kept.crash();
    Ok(Vec::from_slice(alloc, keeper.bytes().get(76..).unwrap_or(&[]))?)
}

/// Whether the first record of another log is corrupt where it replaces the log's own, of the same event.
fn finds_pasted(alloc: Global, entries: &[Entry], log: &Log) -> Result<bool, Fail> {
    let Some(entry) = entries.first() else {
        return Ok(false);
    };
    let record = other_record(alloc, entry)?;
    let same_size = record.len() == part(log, 0, 1).len();
    Ok(same_size && refusal(alloc, log, &[record.as_slice(), part(log, 1, 4)])? == corrupt(log, 0))
}

fn finds_all(alloc: Global) -> Result<bool, Fail> {
    let entries = entries(alloc)?;
    let entries = entries.as_slice();
    let log = log_of_four(alloc, entries)?;
    Ok(
        is_whole(alloc, &log)?
            && finds_removed(alloc, &log)?
            && finds_exchanged(alloc, &log)?
            && finds_repeated(alloc, &log)?
            && finds_pasted(alloc, entries, &log)?,
    )
}

#[test]
fn a_record_out_of_its_place_is_corrupt_there(rt: HostRuntime) -> Result<(), Fail> {
    assert!(rt; finds_all(rt.alloc())?);
    Ok(())
}
