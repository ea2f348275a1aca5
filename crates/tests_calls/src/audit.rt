use crate::calls::{answers, call};
use run_record::BatchLists;
use seal_kit::TagMaker;
use seq_base::{BatchList, Bytes, NoMemory};
use std::alloc::Global;
use std::mem;
use std::sync::Wait;
use std::test::Fail;
use std::thread::Threads;
use trace_form::{read_trace, write_trace};

/// Five replicas that all receive 1.1.0 before 2.1.0.
const PLAN: &str =
    "n = 5\nf = 1\np = 1\nq = 1\nseed = 7\nheight = 5\nviews = 6\nticks = 1\nturns = 100\narrival = [\n{ replica = 0, turn = 0, txs = [\"1.1.0\", \"2.1.0\"] },\n{ replica = 1, turn = 0, txs = [\"1.1.0\", \"2.1.0\"] },\n{ replica = 2, turn = 0, txs = [\"1.1.0\", \"2.1.0\"] },\n{ replica = 3, turn = 0, txs = [\"1.1.0\", \"2.1.0\"] },\n{ replica = 4, turn = 0, txs = [\"1.1.0\", \"2.1.0\"] },\n]\n";

const YES: &str =
    "setting n=5 f=1 gamma=1/1 threshold=2 solid=3 quorum=4\naudit yes\nreplica 0 batches=2 transactions=2\nreplica 1 batches=2 transactions=2\nreplica 2 batches=2 transactions=2\nreplica 3 batches=2 transactions=2\nreplica 4 batches=2 transactions=2\n";

const LACKS_BATCHES: &str =
    "setting n=5 f=1 gamma=1/1 threshold=2 solid=3 quorum=4\naudit unlawful replica=0 entry=7 rule=7\n";

/// The digest of five keys. Key r has r in each byte. It was computed with Python's `hashlib`.
const KEYS: &str = "keys 3220e68d3a910dd78fe873e231cfb7e6df1dd434f976ccc34d7f43cd788b289e\n";

/// The trace that `trace` writes for the run of the plan.
fn traced<R: Threads + Wait + Sync>(rt: &R, alloc: Global) -> Result<Bytes, NoMemory> {
    Ok(call(rt, alloc, "trace|", PLAN.as_bytes(), &TagMaker::new(alloc))?.written)
}

/// Whether `audit` of a trace ends with this status number and writes this text.
fn is_audited<R: Threads + Wait + Sync>(
    rt: &R,
    alloc: Global,
    trace: &[u8],
    number: u8,
    text: &str,
) -> Result<bool, NoMemory> {
    let maker = TagMaker::new(alloc);
    answers(rt, alloc, "audit|", trace, &maker, number, text.as_bytes())
}

#[test]
fn the_audit_says_yes_of_a_clean_run(rt: HostRuntime) -> Result<(), Fail> {
    let trace = traced(&rt, rt.alloc())?;
    assert!(rt; is_audited(&rt, rt.alloc(), trace.as_slice(), 0, YES)?);
    Ok(())
}

/// The trace without the batches of replica 0; None if the bytes are no trace.
fn without_batches(alloc: Global, bytes: &[u8]) -> Result<Option<Bytes>, NoMemory> {
    let Ok(mut trace) = read_trace(alloc, bytes) else {
        return Ok(None);
    };
    let batches = mem::replace(&mut trace.run.batches, BatchLists::of(Vec::new(alloc)));
    trace.run.batches = first_emptied(alloc, batches)?;
    let (height, views) = (trace.height, trace.views);
    Ok(Some(write_trace(alloc, &trace.run, &trace.keys, height, views)?))
}

/// The lists, without the batches of the first one.
fn first_emptied(alloc: Global, batches: BatchLists) -> Result<BatchLists, NoMemory> {
    let mut lists = Vec::new(alloc);
    for (replica, list) in batches.into_vec().into_iter().enumerate() {
        if replica == 0 {
            lists.push(BatchList::of(Vec::new(alloc)))?;
        } else {
            lists.push(list)?;
        }
    }
    Ok(BatchLists::of(lists))
}

/// Whether a trace without the batches of replica 0 is refused.
fn lack_is_reported<R: Threads + Wait + Sync>(
    rt: &R,
    alloc: Global,
    trace: &[u8],
) -> Result<bool, NoMemory> {
    match without_batches(alloc, trace)? {
        Some(lacking) => is_audited(rt, alloc, lacking.as_slice(), 12, LACKS_BATCHES),
        None => Ok(false),
    }
}

#[test]
fn a_missing_batch_list_is_reported_with_its_replica(rt: HostRuntime) -> Result<(), Fail> {
    let trace = traced(&rt, rt.alloc())?;
    assert!(rt; lack_is_reported(&rt, rt.alloc(), trace.as_slice())?);
    Ok(())
}

/// The trace with its first byte changed.
fn first_changed(alloc: Global, trace: &[u8]) -> Result<Vec<u8>, NoMemory> {
    let mut bytes = Vec::from_slice(alloc, trace)?;
    if let Some(first) = bytes.first_mut() {
        *first ^= 1;
    }
    Ok(bytes)
}

/// Whether a trace is refused with its first byte changed, without its last byte, without its first byte, and if it is
/// empty.
fn damage_is_reported<R: Threads + Wait + Sync>(
    rt: &R,
    alloc: Global,
    trace: &[u8],
) -> Result<bool, NoMemory> {
    let without_last = trace.get(..trace.len().saturating_sub(1)).unwrap_or(&[]);
    let without_first = trace.get(1..).unwrap_or(&[]);
    let changed = first_changed(alloc, trace)?;
    Ok(
        is_audited(rt, alloc, &changed, 11, "")?
            && is_audited(rt, alloc, without_last, 11, "")?
            && is_audited(rt, alloc, without_first, 11, "")?
            && is_audited(rt, alloc, &[], 11, "")?,
    )
}

#[test]
fn damaged_bytes_are_no_trace(rt: HostRuntime) -> Result<(), Fail> {
    let trace = traced(&rt, rt.alloc())?;
    assert!(rt; damage_is_reported(&rt, rt.alloc(), trace.as_slice())?);
    Ok(())
}

/// A trace of the first form, converted to the second form. It has five keys instead of the seed. Key r has r in each
/// byte.
fn with_keys(alloc: Global, trace: &[u8]) -> Result<Vec<u8>, NoMemory> {
    let mut bytes = Vec::from_slice(alloc, b"THEMISR2")?;
    bytes.extend_from_slice(trace.get(8..18).unwrap_or(&[]))?;
    bytes.extend_from_slice(trace.get(26..27).unwrap_or(&[]))?;
    for replica in 0..5u8 {
        bytes.extend_from_slice(&[replica; 60])?;
    }
    bytes.extend_from_slice(trace.get(27..).unwrap_or(&[]))?;
    Ok(bytes)
}

/// Whether the findings for a trace with public keys are those for the trace with the seed, each followed by the
/// digest of the keys.
fn keys_are_reported<R: Threads + Wait + Sync>(
    rt: &R,
    alloc: Global,
    trace: &[u8],
) -> Result<bool, NoMemory> {
    let keyed = with_keys(alloc, trace)?;
    let yes = format!(in alloc; "{YES}{KEYS}")?;
    let lacks = format!(in alloc; "{LACKS_BATCHES}{KEYS}")?;
    let Some(lacking) = without_batches(alloc, &keyed)? else {
        return Ok(false);
    };
    Ok(
        is_audited(rt, alloc, &keyed, 0, yes.as_str())?
            && is_audited(rt, alloc, lacking.as_slice(), 12, lacks.as_str())?
            && damage_is_reported(rt, alloc, &keyed)?,
    )
}

#[test]
fn the_digest_of_public_keys_follows_the_finding(rt: HostRuntime) -> Result<(), Fail> {
    let trace = traced(&rt, rt.alloc())?;
    assert!(rt; keys_are_reported(&rt, rt.alloc(), trace.as_slice())?);
    Ok(())
}
