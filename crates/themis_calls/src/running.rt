//! The command `run`.
ghost use Rattle.std.specs.Prelude.{◌≡◌, ◌<◌, ◌≤◌, ℕ, IfOk, IfSome, Some, is_some, false, true};
ghost use Rattle.journal_rules.specs.Records.{arrivals_in};
ghost use Rattle.plan_text.specs.Rules.{KeepsRules};
ghost use Rattle.lawful_runs.specs.Lawful.{IsReadableRun};
ghost use Rattle.replica_seat.specs.Arrivals.{IsArrivalList};
ghost use Rattle.run_verdict.specs.Verdicts.{verdict_of};
ghost use Rattle.themis_calls.specs.declared.outcome.Status.TheVariants.{WriteFault, NoMemory as WantOfMemory};
ghost use Rattle.themis_calls.specs.declared.reported.RunForm.TheVariants.{Report};
ghost use Rattle.themis_calls.specs.Devices.{SinkFailed};
ghost use Rattle.themis_calls.specs.Headline.{KeepsOrder};
ghost use Rattle.themis_calls.specs.Planned.{AnswersPlan};
ghost use Rattle.themis_calls.specs.Replayed.{AnswersRun, InRounds, IsRunOf, fits_for, seals_of, text_of_run};
ghost use Rattle.themis_calls.specs.Statuses.{ends_replay, has_run, has_written, is_unread};

use crate::Status;
use crate::reported::{Played, RunForm, report, text_of_run};
use audit_laws::{bare_records_have_one_verdict, lawful_runs_pass};
use lawful_runs::{runs_in_rounds_are_lawful, runs_of_plans_are_ordered};
use plan_text::{Plan, PlanError, read_plan};
use run_record::RunRecord;
use run_verdict::verdict;
use seal_kit::CheckerMaker;
use seq_base::NoMemory;
use seq_io::Sink;
use std::alloc::Global;
use std::sync::Wait;
use std::thread::Threads;
use thread_run::threads;
use trace_form::spellings_are_read;
use trace_laws::{lawful_runs_are_spelled, runs_in_rounds_fit_the_form};

/// A run of the plan in rounds of threads, and its report. The run is returned with the status, if its text was made.
pub(crate) fn run<R: Threads + Wait + Sync, K: Sink, M: CheckerMaker>(
    rt: &R,
    alloc: Global,
    input: &[u8],
    sink: &mut K,
    maker: &M,
) -> (Status, Option<RunRecord>)
    // The fault of a bad plan, what is written and returned of a good one, and what holds of the run that is returned.
    ensures plan { AnswersPlan input.now result.0 }
    ensures text { AnswersRun InRounds (seals_of M.SealMaker M.keys_fit maker.now) input.now result.1 (K.written sink.old) (K.written sink.new) result.0 }
    ensures headline { IfSome result.1 (λ run. KeepsOrder InRounds (seals_of M.SealMaker M.keys_fit maker.now)
        (Some input.now) (K.written sink.old) (K.written sink.new) result.0 run) }
    // The status is one of the command's own, one without reading only where memory ran out, and one with a run exactly
    // if a run is returned.
    ensures ends { ends_replay result.0 ≡ true }
    ensures read { is_unread result.0 ≡ true → result.0 ≡ WantOfMemory }
    ensures run { is_some result.1 ≡ has_run result.0 }
    // A call that writes nothing leaves the sink, and a write fault is returned exactly where a count of faults rises.
    ensures silent { has_written result.0 ≡ false → sink.new ≡ sink.old }
    ensures write_fault { result.0 ≡ WriteFault → SinkFailed K.Sink sink.old sink.new }
    ensures rose { K.faults sink.old < K.faults sink.new → result.0 ≡ WriteFault }
    ensures sink_later { K.faults sink.old ≤ K.faults sink.new }
{
    runs_of_plans_are_ordered();
    runs_in_rounds_are_lawful();
    lawful_runs_pass();
    runs_in_rounds_fit_the_form();
    lawful_runs_are_spelled();
    spellings_are_read();
    bare_records_have_one_verdict();
    let plan = match read_plan(alloc, input) {
        Ok(plan) => plan,
        Err(PlanError::Fault(fault)) => return (Status::BadPlan(fault), None),
        Err(PlanError::NoMemory) => return (Status::NoMemory, None),
    };
    match run_plan(rt, alloc, &plan, maker) {
        Err(NoMemory) => (Status::NoMemory, None),
        Ok(played) => (report(sink, &played), Some(played.run)),
    }
}

/// The keys of all replicas grow concurrently, and then all replicas run concurrently.
fn run_plan<R: Threads + Wait + Sync, M: CheckerMaker>(
    rt: &R,
    alloc: Global,
    plan: &Plan,
    maker: &M,
) -> Result<Played, NoMemory>
    requires { KeepsRules plan.now }
    ensures ran { IfOk result (λ played. IsRunOf InRounds (seals_of M.SealMaker M.keys_fit maker.now) plan.now played.run) }
    ensures arrivals { IfOk result (λ played. (r : ℕ) → r < plan.now.setting.n → IsArrivalList (arrivals_in played.run r)) }
    ensures readable { IfOk result (λ played. IsReadableRun played.run) }
    ensures examined { IfOk result (λ played. played.verdict ≡ verdict_of (fits_for (seals_of M.SealMaker M.keys_fit maker.now) plan.now) played.run) }
    ensures printed { IfOk result (λ played. played.text ≡ text_of_run Report plan.now played.run played.verdict) }
{
    let kit = maker.make_in_parallel(rt, plan.seed, plan.height, plan.setting.n())?;
    let run = threads(rt, alloc, plan, kit.sealers, &kit.checker)?;
    let verdict = verdict(alloc, &run, &kit.checker)?;
    let text = text_of_run(alloc, RunForm::Report, plan, &run, &verdict)?;
    Ok(Played { run, verdict, text })
}
