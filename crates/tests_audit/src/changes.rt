//! Changed traces, and the answers of the audit.
use audit_core::{Unlawful, first_unlawful};
use plan_text::read_plan;
use replay_run::play;
use run_record::RunRecord;
use seal_kit::{Checker, Kit, SealMaker};
use seq_base::Bytes;
use sha2::{Digest, Sha256};
use std::alloc::Global;
use std::test::Fail;
use trace_form::{Keys, TraceFault, read_trace, write_trace};

/// An unchanged trace, and the checker of its seals.
#[derive(Drop)]
pub(crate) struct Good<C> {
    pub(crate) bytes: Bytes,
    checker: C,
}

/// The trace of a plan's run.
pub(crate) fn played<M: SealMaker>(
    alloc: Global,
    maker: &M,
    plan: &str,
) -> Result<Good<M::C>, Fail> {
    let plan = read_plan(alloc, plan.as_bytes())?;
    let Kit { sealers, checker } = maker.make(plan.seed, plan.height, plan.setting.n())?;
    let run = play(alloc, &plan, sealers, &checker)?;
    let keys = Keys::Seed(plan.seed);
    let bytes = write_trace(alloc, &run, &keys, plan.height, plan.views)?;
    Ok(Good { bytes, checker })
}

/// The SHA-256 digest of bytes, in hex.
fn digest_of(alloc: Global, bytes: &[u8]) -> Result<String, Fail> {
    let mut hasher = Sha256::new();
    hasher.update(bytes);
    Ok(hex::encode(alloc, hasher.finalize().as_slice())?)
}

fn number(word: &str) -> usize {
    word.parse().unwrap_or(0)
}

/// Two numbers that a sign separates.
fn numbers(word: &str, sign: char) -> (usize, usize) {
    let (first, second) = word.split_once(sign).unwrap_or((word, ""));
    (number(first), number(second))
}

/// Appends a piece: bytes in hex, or a range of the trace's own bytes, as `place:count`.
fn put(alloc: Global, bytes: &mut Vec<u8>, good: &[u8], piece: &str) -> Result<(), Fail> {
    if piece.contains(':') {
        let (from, count) = numbers(piece, ':');
        let own = good.get(from..from.saturating_add(count));
        bytes.extend_from_slice(own.unwrap_or(&[]))?;
    } else {
        bytes.extend_from_slice(&hex::decode(alloc, piece)?)?;
    }
    Ok(())
}

/// Makes one change: appends the bytes up to its place, and the inserted pieces. Returns the place where the trace
/// continues.
fn change(
    alloc: Global,
    bytes: &mut Vec<u8>,
    good: &[u8],
    change: &str,
    from: usize,
) -> Result<usize, Fail> {
    let mut pieces = change.split('+');
    let (at, count) = numbers(pieces.next().unwrap_or(""), '-');
    bytes.extend_from_slice(good.get(from..at).unwrap_or(&[]))?;
    for piece in pieces {
        put(alloc, bytes, good, piece)?;
    }
    Ok(at.saturating_add(count))
}

fn change_all(alloc: Global, bytes: &mut Vec<u8>, good: &[u8], changes: &str) -> Result<(), Fail> {
    let mut from = 0;
    for one in changes.split(' ') {
        from = change(alloc, bytes, good, one, from)?;
    }
    bytes.extend_from_slice(good.get(from..).unwrap_or(&[]))?;
    Ok(())
}

/// The trace with changes, in ascending order of their places. A change is a place, a count of bytes to remove there,
/// and the pieces to insert, each after a plus sign.
fn changed(alloc: Global, good: &[u8], changes: &str) -> Result<Vec<u8>, Fail> {
    let mut bytes = Vec::new(alloc);
    change_all(alloc, &mut bytes, good, changes)?;
    Ok(bytes)
}

/// The answer for bytes: `bad` and the place of the first invalid field; or the replica, the entry and the rule of the
/// first violation; or `none`.
fn answer<C: Checker>(alloc: Global, bytes: &[u8], checker: &C) -> Result<String, Fail> {
    match read_trace(alloc, bytes) {
        Ok(trace) => answer_for_run(alloc, &trace.run, checker),
        Err(TraceFault::BadTrace { at }) => Ok(format!(in alloc; "bad {at}")?),
        Err(TraceFault::NoMemory) => Err(Fail::new("no memory")),
    }
}

fn answer_for_run<C: Checker>(alloc: Global, run: &RunRecord, checker: &C) -> Result<String, Fail> {
    match first_unlawful(alloc, run, checker)? {
        None => Ok(String::from_str(alloc, "none")?),
        Some(
            Unlawful {
                replica,
                entry,
                rule,
            },
        ) => Ok(format!(in alloc; "{replica}.{entry} rule {rule}")?),
    }
}

/// A case with the answer instead of the expected one.
fn actual_case<C: Checker>(alloc: Global, good: &Good<C>, case: &str) -> Result<String, Fail> {
    let (name, rest) = case.split_once('|').unwrap_or((case, ""));
    let (changes, _) = rest.split_once('|').unwrap_or((rest, ""));
    let bytes = changed(alloc, good.bytes.as_slice(), changes)?;
    let answer = answer(alloc, &bytes, &good.checker)?;
    Ok(format!(in alloc; "{name}|{changes}|{answer}")?)
}

/// Writes the cases with another answer than expected, each with its answer. A case is a line with bars between its
/// parts: a description, the changes, and the expected answer.
fn write_mismatches<C: Checker>(
    alloc: Global,
    mismatches: &mut String,
    good: &Good<C>,
    cases: &str,
) -> Result<(), Fail> {
    for case in cases.lines() {
        let actual = actual_case(alloc, good, case)?;
        if actual.as_str() != case {
            mismatches.push('\n')?;
            mismatches.push_str(actual.as_str())?;
        }
    }
    Ok(())
}

/// The digest of the trace of a plan's run, followed by the cases with another answer than expected.
pub(crate) fn digest_and_mismatches<M: SealMaker>(
    alloc: Global,
    maker: &M,
    plan: &str,
    cases: &str,
) -> Result<String, Fail> {
    let good = played(alloc, maker, plan)?;
    let mut text = digest_of(alloc, good.bytes.as_slice())?;
    write_mismatches(alloc, &mut text, &good, cases)?;
    Ok(text)
}
