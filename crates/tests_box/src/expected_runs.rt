//! Traces of several runs over one set of keys: each is audited as that of its own run, and refused as that of another.
use audit_core::Finding;
use count_set::ReplicaSet;
use node_core::Entries;
use run_record::{BatchLists, Head, Heads, Journal, Journals, RunRecord};
use seal_kit::Height;
use seq_base::{BatchList, Setting, TxList, TxLists};
use std::alloc::Global;
use std::test::Fail;
use trace_audit::{AuditFault, ExpectedRun, audit};
use trace_form::{Keys, PublicKeys, write_trace};

/// The keys of five replicas. No seal is checked, so any bytes serve.
const PUBLICS: [[u8; 60]; 5] = [[1; 60], [2; 60], [3; 60], [4; 60], [5; 60]];

/// A run of five replicas in which nothing happens: f, γ = p/q and the views. `faulty` is how many replicas are named as
/// faulty, from 0 on.
#[derive(Clone, Copy)]
struct Idle {
    f: u32,
    p: u32,
    q: u32,
    views: u32,
    faulty: u32,
}

const RUNS: [Idle; 5] = [
    Idle {
        f: 0,
        p: 1,
        q: 1,
        views: 6,
        faulty: 0,
    },
    Idle {
        f: 1,
        p: 1,
        q: 1,
        views: 6,
        faulty: 0,
    },
    Idle {
        f: 1,
        p: 1,
        q: 1,
        views: 6,
        faulty: 1,
    },
    Idle {
        f: 0,
        p: 501,
        q: 1000,
        views: 6,
        faulty: 0,
    },
    Idle {
        f: 0,
        p: 1,
        q: 1,
        views: 5,
        faulty: 0,
    },
];

/// The bytes of the run's trace.
fn trace_of(alloc: Global, idle: &Idle) -> Result<Vec<u8>, Fail> {
    let mut arrivals = Vec::new(alloc);
    let mut journals = Vec::new(alloc);
    let mut heads = Vec::new(alloc);
    let mut batches = Vec::new(alloc);
    for _ in 0..5u32 {
        arrivals.push(TxList::of(Vec::new(alloc)))?;
        journals.push(Journal {
            entries: Entries::of(Vec::new(alloc)),
        })?;
        heads.push(Head { view: 0, commit: 0 })?;
        batches.push(BatchList::of(Vec::new(alloc)))?;
    }
    let mut faulty = ReplicaSet::empty();
    if idle.faulty == 1 {
        faulty.add(0);
    }
    let run = RunRecord {
        setting: Setting::new(5, idle.f, idle.p, idle.q)?,
        faulty,
        arrivals: TxLists::of(arrivals),
        journals: Journals::of(journals),
        heads: Heads::of(heads),
        batches: BatchLists::of(batches),
        turns: 0,
        ticks: 0,
    };
    let keys = Keys::Public(PublicKeys::of(Vec::from_array(alloc, PUBLICS)?));
    Ok(write_trace(alloc, &run, &keys, Height::H5, idle.views)?.into_vec())
}

/// The run as an auditor expects it, with keys of a height.
fn expected(idle: &Idle, height: Height) -> Result<ExpectedRun, Fail> {
    Ok(ExpectedRun {
        setting: Setting::new(5, idle.f, idle.p, idle.q)?,
        views: idle.views,
        height,
    })
}

/// Whether the two differ in nothing that an auditor expects.
fn are_alike(one: &Idle, other: &Idle) -> bool {
    one.f == other.f && one.p == other.p && one.q == other.q && one.views == other.views
}

/// Whether the trace of one run, audited as that of another, is refused exactly where they differ, and is answered with its
/// own faulty replicas where they do not.
fn is_answered(alloc: Global, own: &Idle, other: &Idle) -> Result<bool, Fail> {
    let bytes = trace_of(alloc, own)?;
    let run = expected(other, Height::H5)?;
    let is_of_run = are_alike(own, other);
    match audit(alloc, &bytes, &run, &PUBLICS) {
        Ok(audited) => Ok(
            is_of_run
                && audited.finding == Finding::Obeys
                && audited.faulty.size() == own.faulty
                && audited.faulty.has(0) == (own.faulty == 1),
        ),
        Err(fault) => Ok(!is_of_run && fault == AuditFault::OtherRun),
    }
}

fn are_answered(alloc: Global) -> Result<bool, Fail> {
    for own in &RUNS {
        if !is_answered_by_each(alloc, own)? {
            return Ok(false);
        }
    }
    Ok(true)
}

fn is_answered_by_each(alloc: Global, own: &Idle) -> Result<bool, Fail> {
    for other in &RUNS {
        if !is_answered(alloc, own, other)? {
            return Ok(false);
        }
    }
    Ok(true)
}

#[test]
fn a_trace_is_audited_as_that_of_its_own_run_alone(rt: HostRuntime) -> Result<(), Fail> {
    assert!(rt; are_answered(rt.alloc())?);
    Ok(())
}

/// Whether a trace is refused where keys of another height are expected.
fn is_refused(alloc: Global) -> Result<bool, Fail> {
    let bytes = trace_of(alloc, &RUNS[0])?;
    let run = expected(&RUNS[0], Height::H10)?;
    match audit(alloc, &bytes, &run, &PUBLICS) {
        Ok(_) => Ok(false),
        Err(fault) => Ok(fault == AuditFault::OtherRun),
    }
}

#[test]
fn a_trace_with_keys_of_another_height_is_refused(rt: HostRuntime) -> Result<(), Fail> {
    assert!(rt; is_refused(rt.alloc())?);
    Ok(())
}
