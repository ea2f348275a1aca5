//! Damaged logs: with a flipped bit, torn, or without the last record.
ghost use Rattle.std.specs.Prelude.{◌≡◌, ◌<◌, ◌≤◌, false, IfOk};

use crate::journal::entries;
use crate::stopped::{kept_after, log_after, recovers, start_with, started};
use durable_node::{Keeper, KeptFault, MemKeeper};
use node_core::Entry;
use std::alloc::Global;
use std::test::Fail;

/// A keeper that holds these bytes, all durable, and is not open.
pub(crate) fn holding(alloc: Global, bytes: &[u8]) -> Result<MemKeeper, Fail>
    ensures { IfOk result (λ keeper. keeper.begun ≡ false) }
{
    let mut keeper = MemKeeper::new(alloc, Vec::new(alloc), Vec::new(alloc));
    if keeper.begin(0).is_err() || keeper.append(bytes).is_err() || keeper.sync().is_err() {
        return Err(Fail::new("the keeper failed"));
    }
    keeper.stop();
    Ok(keeper)
}

/// Why the replica does not start over these bytes; None if it does.
pub(crate) fn fault_of(alloc: Global, bytes: &[u8]) -> Result<Option<KeptFault>, Fail> {
    Ok(start_with(alloc, holding(alloc, bytes)?)?.err())
}

/// The size of the log after the replica has started over these bytes.
fn left_of(alloc: Global, bytes: &[u8]) -> Result<usize, Fail> {
    let keeper = started(alloc, holding(alloc, bytes)?)?.crash();
    Ok(keeper.bytes().len())
}

/// A header of 76 bytes and the log of the first two events: the arrival of two transactions, and a tick. The checksums
/// were computed with Python's `hashlib`.
const LOG: [u8; 158] = [
    84, 72, 69, 77, 73, 83, 76, 50, 0, 0, 0, 5, 0, 0, 0, 1, 0, 0, 0, 1, 0, 0, 0, 1, 0, 0, 0, 6, 0,
    0, 0, 1, 0, 0, 0, 5, 7, 7, 7, 7, 7, 7, 7, 7, 7, 7, 7, 7, 7, 7, 7, 7, 7, 7, 7, 7, 7, 7, 7, 7, 7,
    7, 7, 7, 7, 7, 7, 7, 201, 117, 154, 43, 36, 56, 162, 183, 0, 0, 0, 37, 166, 228, 179, 147, 86,
    37, 183, 217, 1, 0, 0, 0, 2, 0, 0, 0, 1, 0, 0, 0, 1, 0, 0, 0, 0, 0, 0, 0, 0, 0, 0, 0, 2, 0, 0,
    0, 1, 0, 0, 0, 0, 0, 0, 0, 0, 182, 175, 70, 235, 183, 16, 230, 180, 0, 0, 0, 5, 105, 92, 66,
    43, 221, 130, 195, 81, 3, 0, 0, 0, 0, 162, 137, 93, 125, 55, 108, 44, 39,
];

/// Where the first record of that log starts.
const FIRST: usize = 76;

/// Where its second record starts.
const SECOND: usize = 133;

fn is_written(alloc: Global) -> Result<bool, Fail> {
    let entries = entries(alloc)?;
    Ok(log_after(alloc, entries.as_slice(), 2)?.as_slice() == LOG.as_slice())
}

#[test]
fn a_log_holds_records_with_checks(rt: HostRuntime) -> Result<(), Fail> {
    assert!(rt; is_written(rt.alloc())?);
    Ok(())
}

pub(crate) fn changed(alloc: Global, log: &[u8], at: usize) -> Result<Vec<u8>, Fail> {
    let mut log = Vec::from_slice(alloc, log)?;
    if at < log.len() {
        log[at] ^= 0x40;
    }
    Ok(log)
}

/// The expected fault for a bit flipped in this byte. It has the place of the record that holds the byte.
fn corrupt_at(at: usize) -> Option<KeptFault> {
    let at = if at < SECOND { FIRST } else { SECOND };
    Some(KeptFault::BadLog { at: at as u64 })
}

/// The first byte after the header in which a flipped bit is not reported at its record. The byte may be in a length, a
/// body or a checksum.
fn first_not_found(alloc: Global) -> Result<Option<usize>, Fail> {
    for at in FIRST..LOG.len() {
        let log = changed(alloc, LOG.as_slice(), at)?;
        if fault_of(alloc, log.as_slice())? != corrupt_at(at) {
            return Ok(Some(at));
        }
    }
    Ok(None)
}

#[test]
fn a_flipped_bit_is_found_at_its_record(rt: HostRuntime) -> Result<(), Fail> {
    assert_eq!(rt; first_not_found(rt.alloc())?, None);
    Ok(())
}

/// The expected size of the log after it was torn at this size. A torn header is rewritten.
fn whole_before(size: usize) -> usize {
    if size < SECOND {
        FIRST
    } else if size < LOG.len() {
        SECOND
    } else {
        LOG.len()
    }
}

/// The first size at which a torn log does not lose exactly its torn record.
fn first_wrong_size(alloc: Global) -> Result<Option<usize>, Fail> {
    for size in 0..=LOG.len() {
        let torn = LOG.get(..size).unwrap_or(&[]);
        if left_of(alloc, torn)? != whole_before(size) {
            return Ok(Some(size));
        }
    }
    Ok(None)
}

#[test]
fn a_torn_log_loses_only_its_last_record(rt: HostRuntime) -> Result<(), Fail> {
    assert_eq!(rt; first_wrong_size(rt.alloc())?, None);
    Ok(())
}

/// Whether a flipped bit in the length of a torn last record is found. The length and its checksum are not torn.
fn is_found_in_torn(alloc: Global) -> Result<bool, Fail> {
    let torn = LOG.get(..SECOND + 12).unwrap_or(&[]);
    let log = changed(alloc, torn, SECOND)?;
    Ok(fault_of(alloc, log.as_slice())? == corrupt_at(SECOND))
}

#[test]
fn a_flipped_length_is_not_taken_for_a_torn_record(rt: HostRuntime) -> Result<(), Fail> {
    assert!(rt; is_found_in_torn(rt.alloc())?);
    Ok(())
}

/// Whether the replica recovers the state after `count` events from the first `size` bytes of the log.
fn recovers_from(
    alloc: Global,
    entries: &[Entry],
    log: &[u8],
    size: usize,
    count: usize,
) -> Result<bool, Fail> {
    let bytes = log.get(..size).unwrap_or(&[]);
    recovers(alloc, holding(alloc, bytes)?, entries, count)
}

/// Whether the replica recovers the state after the first event, and not that after both, if the record of the second
/// event, a tick, is lost.
fn recovers_without_last(alloc: Global) -> Result<bool, Fail> {
    let entries = entries(alloc)?;
    let entries = entries.as_slice();
    let log = log_after(alloc, entries, 2)?;
    let size = kept_after(alloc, entries, 1)?;
    Ok(
        recovers_from(alloc, entries, log.as_slice(), size, 1)?
            && !recovers_from(alloc, entries, log.as_slice(), size, 2)?
            && recovers_from(alloc, entries, log.as_slice(), log.len(), 2)?,
    )
}

#[test]
fn a_lost_record_changes_the_node(rt: HostRuntime) -> Result<(), Fail> {
    assert!(rt; recovers_without_last(rt.alloc())?);
    Ok(())
}
