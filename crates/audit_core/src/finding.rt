//! What an audit finds on a record.
ghost use Rattle.std.specs.Prelude.{◌≡◌, IfOk};
ghost use Rattle.audit_core.specs.Finding.{finding_of, shown_by};

use crate::first_unlawful;
use run_record::{CollidedAt, ForgedAt, RunRecord, Verdict};
use run_verdict::verdict;
use seal_kit::Checker;
use seq_base::NoMemory;
use std::alloc::Global;

/// The finding of an audit on the record of a run.
#[derive(Clone, Copy, PartialEq, Eq)]
pub enum Finding {
    /// Each honest replica conforms to the protocol.
    Obeys,
    /// An honest replica breaks a rule at an entry of its journal, or after the last one.
    Breaks { replica: u32, entry: u32, rule: u32 },
    /// Each honest replica conforms, and a seal is forged.
    Forged(ForgedAt),
    /// Each honest replica conforms, and two blocks have the same digest.
    Collided(CollidedAt),
}

/// The first rule that is broken. If none is, what the verdict shows.
#[tactic(auto, unfolding(crate::specs::Finding::finding_of))]
pub fn finding_of<C: Checker>(
    alloc: Global,
    run: &RunRecord,
    checker: &C,
) -> Result<Finding, NoMemory>
    ensures { IfOk result (λ finding. finding ≡ finding_of (C.meaning checker.now) run.now) }
{
    match first_unlawful(alloc, run, checker)? {
        Some(at) => Ok(Finding::Breaks {
            replica: at.replica,
            entry: at.entry,
            rule: at.rule,
        }),
        None => Ok(shown_by(verdict(alloc, run, checker)?)),
    }
}

fn shown_by(verdict: Verdict) -> Finding
    ensures { result ≡ shown_by verdict }
{
    match verdict {
        Verdict::Done => Finding::Obeys,
        Verdict::Stalled => Finding::Obeys,
        Verdict::Forged(at) => Finding::Forged(at),
        Verdict::Collided(at) => Finding::Collided(at),
    }
}
