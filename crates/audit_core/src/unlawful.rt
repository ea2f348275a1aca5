//! The first place where a record does not obey the protocol.
ghost use Rattle.std.specs.Prelude.{◌≡◌, List, IfOk, option_map};
ghost use Rattle.node_core.specs.declared.entry.Entry.{Entry};
ghost use Rattle.journal_rules.specs.Records.{arrivals_in, batches_in, commit_in, journal_in};
ghost use Rattle.journal_rules.specs.Rules.{Scale};
ghost use Rattle.journal_rules.specs.Tests.{place};
ghost use Rattle.audit_core.specs.Stands.{HasAudited};
ghost use Rattle.audit_core.specs.Unlawful.{broken_after, broken_in, first_unlawful_of, number_of, unlawful_in};

use crate::audit::Auditor;
use node_core::Entry;
use run_record::{RunRecord, is_honest};
use seal_kit::Checker;
use seq_base::{NoMemory, Tx, TxList};
use std::alloc::Global;

/// A broken rule and its place: rules 1 to 5 at an entry, rules 6 and 7 after the last one.
#[derive(Clone, Copy, PartialEq, Eq)]
pub struct Unlawful {
    pub replica: u32,
    pub entry: u32,
    pub rule: u32,
}

/// The first rule that an honest replica's part of the record breaks, in ascending order of replicas; None if all obey.
/// A replica without an item in a list of the record has an empty one.
pub fn first_unlawful<C: Checker>(
    alloc: Global,
    run: &RunRecord,
    checker: &C,
) -> Result<Option<Unlawful>, NoMemory>
    ensures { IfOk result (λ reported. reported ≡ first_unlawful_of (C.meaning checker.now) run.now) }
{
    for replica in 0..run.setting.n() {
        if let Some(reported) = unlawful_in(alloc, run, checker, replica)? {
            return Ok(Some(reported));
        }
    }
    Ok(None)
}

/// The first rule that a replica's part of the record breaks, if the replica is honest.
fn unlawful_in<C: Checker>(
    alloc: Global,
    run: &RunRecord,
    checker: &C,
    replica: u32,
) -> Result<Option<Unlawful>, NoMemory>
    ensures { IfOk result (λ reported. reported ≡ unlawful_in (C.meaning checker.now) run.now replica) }
{
    if !is_honest(&run.setting, &run.faulty, replica) {
        return Ok(None);
    }
    match broken_in(alloc, run, checker, replica)? {
        None => Ok(None),
        Some((entry, rule)) => Ok(Some(Unlawful {
            replica,
            entry: number_of(entry),
            rule,
        })),
    }
}

/// The same, as the number of the entry and the rule.
fn broken_in<C: Checker>(
    alloc: Global,
    run: &RunRecord,
    checker: &C,
    replica: u32,
) -> Result<Option<(usize, u32)>, NoMemory>
    ensures { IfOk result (λ found. option_map (λ x. place x.0 x.1) found ≡ broken_in (C.meaning checker.now) run.now replica) }
{
    let entries = entries_of(run, replica);
    let mut audit = Auditor::new(alloc, run.setting, replica, arrivals_of(run, replica));
    for at in 0..entries.len() {
        if let Some(rule) = audit.audit(checker, &entries[at])? {
            return Ok(Some((at, rule)));
        }
    }
    let rule = broken_after(&audit, commit_of(run, replica), batches_of(run, replica))?;
    Ok(placed(entries.len(), rule))
}

/// The broken rule with its place, if there is one.
fn placed(at: usize, rule: Option<u32>) -> Option<(usize, u32)>
    ensures { option_map (λ x. place x.0 x.1) result ≡ option_map (place at) rule }
{
    match rule {
        None => None,
        Some(rule) => Some((at, rule)),
    }
}

/// The rule that is broken after the last entry: the head reports another view than the commit's, or the batches
/// differ.
fn broken_after(
    audit: &Auditor<'_>,
    commit: u32,
    batches: &[TxList],
) -> Result<Option<u32>, NoMemory>
    ensures { (by : Scale) (journal : List Entry) → HasAudited by journal audit.now
        → IfOk result (λ rule. rule ≡ broken_after by.setting journal commit batches.now) }
{
    if commit != audit.commit_view() {
        Ok(Some(6))
    } else if !audit.has_finals(batches)? {
        Ok(Some(7))
    } else {
        Ok(None)
    }
}

fn number_of(entry: usize) -> u32
    ensures { result ≡ number_of entry }
{
    u32::try_from(entry).unwrap_or(u32::MAX)
}

fn entries_of(run: &RunRecord, replica: u32) -> &[Entry]
    ensures { result.now ≡ journal_in run.now replica }
{
    match run.journals.as_slice().get(replica as usize) {
        Some(journal) => journal.entries.as_slice(),
        None => &[],
    }
}

fn arrivals_of(run: &RunRecord, replica: u32) -> &[Tx]
    ensures { result.now ≡ arrivals_in run.now replica }
{
    match run.arrivals.as_slice().get(replica as usize) {
        Some(arrivals) => arrivals.as_slice(),
        None => &[],
    }
}

fn batches_of(run: &RunRecord, replica: u32) -> &[TxList]
    ensures { result.now ≡ batches_in run.now replica }
{
    match run.batches.as_slice().get(replica as usize) {
        Some(batches) => batches.as_slice(),
        None => &[],
    }
}

/// The view of the commit that a replica's head reports.
fn commit_of(run: &RunRecord, replica: u32) -> u32
    ensures { result ≡ commit_in run.now replica }
{
    match run.heads.as_slice().get(replica as usize) {
        Some(head) => head.commit,
        None => 0,
    }
}
