//! Calls in which one read or one write fails, for each read and each write.
use crate::calls::{Answer, ORDINARY, called, sink_of, source_of};
use seal_kit::TagMaker;
use seq_base::NoMemory;
use std::alloc::Global;
use std::sync::Wait;
use std::test::Fail;
use std::thread::Threads;

/// The number of bytes that the sink accepts in one call.
const MOST: u64 = 8;

/// The number of bytes that are read in one call.
const PIECE: u64 = 4096;

/// No transaction is due, so the run is done immediately.
const IDLE: &str =
    "n = 5\nf = 1\np = 1\nq = 1\nseed = 7\nheight = 5\nviews = 6\nticks = 1\nturns = 100\n";

/// No tick is allowed, so the only replica enters no view.
const STALLED: &str =
    "n = 1\nf = 0\np = 1\nq = 1\nseed = 7\nheight = 5\nviews = 6\nticks = 0\nturns = 100\nprint = \"summary\"\narrival = [{ replica = 0, turn = 0, txs = [\"1.1.0\"] }]\n";

const OPEN: &str =
    "setting 9 1 3 4\norder 1.1.0 2.1.0 3.1.0\norder 1.1.0 2.1.0 3.1.0\norder 2.1.0 1.1.0 3.1.0\norder 2.1.0 1.1.0 3.1.0\norder 3.1.0\norder 3.1.0\norder 3.1.0\norder 3.1.0\n";

/// A call in which the read and the write with these numbers fail. No read or write has the number 0.
fn failing<R: Threads + Wait + Sync>(
    rt: &R,
    alloc: Global,
    arguments: &str,
    input: &[u8],
    read: u64,
    write: u64,
) -> Result<Answer, NoMemory> {
    let source = source_of(alloc, input, read)?;
    let sink = sink_of(alloc, MOST as usize, write)?;
    called(rt, alloc, arguments, source, sink, &TagMaker::new(alloc))
}

fn is_same(one: &Answer, other: &Answer) -> bool {
    one.summary.number == other.summary.number
        && one.summary.used == other.summary.used
        && one.written.as_slice() == other.written.as_slice()
}

/// Whether each failing write leaves exactly the bytes of the writes before it, and a fault after the last write
/// changes nothing.
fn writes_fail_in_turn<R: Threads + Wait + Sync>(
    rt: &R,
    alloc: Global,
    arguments: &str,
    input: &[u8],
    number: u8,
    size: u64,
) -> Result<bool, NoMemory> {
    let whole = failing(rt, alloc, arguments, input, 0, 0)?;
    Ok(
        whole.summary.number == number
            && whole.written.as_slice().len() as u64 == size
            && writes_fail(rt, alloc, arguments, input, &whole)?,
    )
}

fn writes_fail<R: Threads + Wait + Sync>(
    rt: &R,
    alloc: Global,
    arguments: &str,
    input: &[u8],
    whole: &Answer,
) -> Result<bool, NoMemory> {
    let writes = (whole.written.as_slice().len() as u64).div_ceil(MOST);
    for k in 0..writes {
        if !is_prefix(
            &failing(rt, alloc, arguments, input, 0, k.saturating_add(1))?,
            whole,
            k,
        ) {
            return Ok(false);
        }
    }
    let beyond = failing(rt, alloc, arguments, input, 0, writes.saturating_add(1))?;
    Ok(is_same(&beyond, whole))
}

/// Whether a call failed after `writes` writes.
fn is_prefix(failed: &Answer, whole: &Answer, writes: u64) -> bool {
    let prefix = failed.written.as_slice();
    failed.summary.number == 2
        && failed.summary.used == whole.summary.used
        && prefix.len() as u64 == writes.saturating_mul(MOST)
        && whole.written.as_slice().starts_with(prefix)
}

/// Whether each failing read leaves the sink empty, and a fault after the last read changes nothing.
fn reads_fail_in_turn<R: Threads + Wait + Sync>(
    rt: &R,
    alloc: Global,
    arguments: &str,
    input: &[u8],
) -> Result<bool, NoMemory> {
    let size = input.len() as u64;
    let reads = size.div_ceil(PIECE).saturating_add(1);
    for k in 0..reads {
        let failed = failing(rt, alloc, arguments, input, k.saturating_add(1), 0)?;
        if !is_unwritten(&failed, k.saturating_mul(PIECE).min(size)) {
            return Ok(false);
        }
    }
    no_more_is_read(rt, alloc, arguments, input, reads.saturating_add(1))
}

/// Whether a call failed at a read after `used` bytes, and wrote nothing.
fn is_unwritten(failed: &Answer, used: u64) -> bool {
    failed.summary.number == 1
        && failed.summary.used == used
        && failed.written.as_slice().is_empty()
}

/// Whether a call makes no read with this number, which would fail.
fn no_more_is_read<R: Threads + Wait + Sync>(
    rt: &R,
    alloc: Global,
    arguments: &str,
    input: &[u8],
    read: u64,
) -> Result<bool, NoMemory> {
    let whole = failing(rt, alloc, arguments, input, 0, 0)?;
    let beyond = failing(rt, alloc, arguments, input, read, 0)?;
    Ok(whole.summary.number != 1 && is_same(&beyond, &whole))
}

#[test]
fn a_failing_write_leaves_what_was_written_before_it(rt: HostRuntime) -> Result<(), Fail> {
    let alloc = rt.alloc();
    let cases = [
        ("order|", ORDINARY, 0, 101),
        ("line|", ORDINARY, 0, 127),
        ("order|", OPEN, 6, 114),
        ("replay|", IDLE, 0, 335),
        ("replay|", STALLED, 7, 134),
        ("run|", IDLE, 0, 335),
        ("run|", STALLED, 7, 134),
        ("trace|", IDLE, 0, 136),
        ("make|1|2|", "", 0, 389),
    ];
    for (arguments, input, number, size) in cases {
        if !writes_fail_in_turn(&rt, alloc, arguments, input.as_bytes(), number, size)? {
            return Err(Fail::new(format_args!("at {arguments} {input}")));
        }
    }
    Ok(())
}

#[test]
fn a_failing_read_leaves_the_sink_empty(rt: HostRuntime) -> Result<(), Fail> {
    let alloc = rt.alloc();
    let blank = "\n".repeat(alloc, 9000)?;
    let long = format!(in alloc; "{IDLE}{blank}")?;
    let cases = [
        ("order|", ORDINARY),
        ("line|", OPEN),
        ("replay|", IDLE),
        ("run|", IDLE),
        ("trace|", IDLE),
        ("replay|", long.as_str()),
    ];
    for (arguments, input) in cases {
        if !reads_fail_in_turn(&rt, alloc, arguments, input.as_bytes())? {
            return Err(Fail::new(format_args!("at {arguments} {input}")));
        }
    }
    Ok(())
}

/// Whether the faults of reads and writes have the same effects in `audit` of the trace of a run.
fn audit_fails_in_turn<R: Threads + Wait + Sync>(rt: &R, alloc: Global) -> Result<bool, NoMemory> {
    let trace = failing(rt, alloc, "trace|", IDLE.as_bytes(), 0, 0)?.written;
    let trace = trace.as_slice();
    Ok(
        writes_fail_in_turn(rt, alloc, "audit|", trace, 0, 240)?
            && reads_fail_in_turn(rt, alloc, "audit|", trace)?,
    )
}

#[test]
fn an_audit_shows_failing_reads_and_writes(rt: HostRuntime) -> Result<(), Fail> {
    assert!(rt; audit_fails_in_turn(&rt, rt.alloc())?);
    Ok(())
}
