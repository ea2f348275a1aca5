//! Traces that are read and written.
use crate::changes::played;
use crate::samples::{by_hand, of_one};
use run_record::Journal;
use seal_kit::{Height, LooseMaker};
use std::alloc::Global;
use std::test::Fail;
use trace_form::{Keys, Trace, read_trace, write_trace};

/// One replica, which receives 1.1.0.
const ONE: &str =
    "n = 1\nf = 0\np = 1\nq = 1\nseed = 7\nheight = 5\nviews = 2\nticks = 1\nturns = 20\n\
    arrival = [{ replica = 0, turn = 0, txs = [\"1.1.0\"] }]\n";

fn is_written(alloc: Global) -> Result<bool, Fail> {
    let good = played(alloc, &LooseMaker::new(alloc), ONE)?;
    Ok(good.bytes.as_slice() == of_one(alloc)?.as_slice())
}

#[test]
fn a_run_is_written_as_an_independent_program_writes_it(rt: HostRuntime) -> Result<(), Fail> {
    assert!(rt; is_written(rt.alloc())?);
    Ok(())
}

/// Whether a trace has the values of the one made by hand.
fn has_values(trace: &Trace) -> bool {
    is_seed(&trace.keys, 7)
        && (trace.height, trace.views) == (Height::H5, 6)
        && (trace.run.turns, trace.run.ticks) == (1, 2)
        && trace.run.faulty.has(2)
        && has_three(trace.run.journals.as_slice())
}

fn is_seed(keys: &Keys, expected: u64) -> bool {
    match keys {
        Keys::Seed(seed) => *seed == expected,
        Keys::Public(_) => false,
    }
}

fn has_three(journals: &[Journal]) -> bool {
    match journals.first() {
        Some(journal) => journal.entries.as_slice().len() == 3,
        None => false,
    }
}

pub(crate) fn is_written_back(alloc: Global, trace: &Trace, bytes: &[u8]) -> Result<bool, Fail> {
    let written = write_trace(alloc, &trace.run, &trace.keys, trace.height, trace.views)?;
    Ok(written.as_slice() == bytes)
}

/// Whether the trace made by hand is read with its values, and whether it is written back.
fn round_trip(alloc: Global) -> Result<(bool, bool), Fail> {
    let bytes = by_hand(alloc)?;
    let trace = read_trace(alloc, &bytes)?;
    Ok((has_values(&trace), is_written_back(alloc, &trace, &bytes)?))
}

/// The trace made by hand is read with its values, and written back byte for byte.
#[test]
fn a_trace_is_read_and_written_back(rt: HostRuntime) -> Result<(), Fail> {
    let (has_values, is_written) = round_trip(rt.alloc())?;
    assert!(rt; has_values);
    assert!(rt; is_written);
    Ok(())
}
