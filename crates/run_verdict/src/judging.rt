ghost use Rattle.std.specs.Prelude.{◌≡◌, IfOk};
ghost use Rattle.run_verdict.specs.Verdicts.{is_record_done, lists_all, verdict_of};

use crate::{first_collision, first_forged};
use run_record::{RunRecord, Verdict, due, holds_all};
use seal_kit::Checker;
use seq_base::{NoMemory, TxList};
use std::alloc::Global;

/// The verdict: a forged seal comes before a collision, and both come before what was finalised.
#[tactic(auto, unfolding(crate::specs::Verdicts::verdict_of))]
pub fn verdict<C: Checker>(alloc: Global, run: &RunRecord, checker: &C) -> Result<Verdict, NoMemory>
    ensures { IfOk result (λ verdict. verdict ≡ verdict_of (C.meaning checker.now) run.now) }
{
    if let Some(forged) = first_forged(run, checker) {
        return Ok(Verdict::Forged(forged));
    }
    if let Some(collided) = first_collision(alloc, run)? {
        return Ok(Verdict::Collided(collided));
    }
    if is_record_done(alloc, run)? {
        Ok(Verdict::Done)
    } else {
        Ok(Verdict::Stalled)
    }
}

/// Whether every honest replica has a batch list that contains every transaction that all honest replicas received.
#[tactic(auto, unfolding(crate::specs::Verdicts::is_record_done), using(crate::proofs::Dones::one_more_lists))]
fn is_record_done(alloc: Global, run: &RunRecord) -> Result<bool, NoMemory>
    ensures { IfOk result (λ done. done ≡ is_record_done run.now) }
{
    let due = due(alloc, &run.setting, &run.faulty, run.arrivals.as_slice())?;
    let n = run.setting.n();
    for replica in 0..n {
        if !run.faulty.has(replica) && !lists_all(alloc, run, &due, replica)? {
            return Ok(false);
        }
    }
    Ok(true)
}

/// Whether a replica has a batch list, and the list contains these transactions.
fn lists_all(alloc: Global, run: &RunRecord, due: &TxList, replica: u32) -> Result<bool, NoMemory>
    ensures { IfOk result (λ all. all ≡ lists_all run.now due.now replica) }
{
    match run.batches.as_slice().get(replica as usize) {
        Some(batches) => holds_all(alloc, batches, due),
        None => Ok(false),
    }
}
