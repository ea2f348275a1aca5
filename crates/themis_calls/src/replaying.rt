ghost use Rattle.std.specs.Prelude.{◌≡◌, ◌<◌, ◌≤◌, ◌*◌, All, IfOk, IfSome, OnOk, Some, is_some, false, true};
ghost use Rattle.fault_script.specs.Sealing.{signers_of};
ghost use Rattle.restart_run.specs.Started.{gives_for as gives_of};
ghost use Rattle.plan_text.specs.Rules.{KeepsRules};
ghost use Rattle.lawful_runs.specs.Lawful.{IsReadableRun};
ghost use Rattle.progress_laws.specs.Clean.{SealsFit};
ghost use Rattle.replay_run.specs.Play.{play_of};
ghost use Rattle.replica_seat.specs.Kits.{kit_of};
ghost use Rattle.run_verdict.specs.Verdicts.{verdict_of};
ghost use Rattle.seal_kit.specs.Seals.{capacity_of};
ghost use Rattle.themis_calls.specs.declared.outcome.Status.TheVariants.{WriteFault, NoMemory as WantOfMemory};
ghost use Rattle.themis_calls.specs.Devices.{SinkFailed};
ghost use Rattle.themis_calls.specs.Statuses.{ends_replay, has_run, has_written, is_unread};
ghost use Rattle.themis_calls.specs.Planned.{AnswersPlan};
ghost use Rattle.themis_calls.specs.Headline.{KeepsOrder};
ghost use Rattle.themis_calls.specs.Progress.{IsDoneUnlessFailed, ReadsAsClean};
ghost use Rattle.themis_calls.specs.Replayed.{AnswersRun, ByTurns, fits_for, gives_for, run_of, seals_of, text_of_run};

use crate::Status;
use crate::reported::{Played, RunForm, report, text_of_run};
use audit_laws::{bare_records_have_one_verdict, lawful_runs_pass};
use lawful_runs::{
    plans_have_proper_arrival_lists, runs_of_plans_are_ordered, stalled_runs_were_spent,
};
use plan_text::{Plan, PlanError, read_plan};
use progress_laws::runs_of_clean_plans_are_done;
use replay_run::play;
use restart_run::play_restarting;
use run_record::RunRecord;
use run_verdict::verdict;
use seal_kit::CheckerMaker;
use seq_base::NoMemory;
use seq_io::Sink;
use std::alloc::Global;
use trace_form::spellings_are_read;
use trace_laws::{exact_runs_fit_the_form, lawful_runs_are_spelled};

/// The commands `replay` and `trace`: plays the plan and writes the run in the given form. The run is returned with the
/// status, if its text was made.
pub(crate) fn replay<K: Sink, M: CheckerMaker>(
    alloc: Global,
    form: RunForm,
    input: &[u8],
    sink: &mut K,
    maker: &M,
) -> (Status, Option<RunRecord>)
    // The fault of a bad plan, what is written and returned of a good one, and what holds of the run that is returned.
    ensures plan { AnswersPlan input.now result.0 }
    ensures text { AnswersRun (ByTurns form) (seals_of M.SealMaker M.keys_fit maker.now) input.now result.1 (K.written sink.old) (K.written sink.new) result.0 }
    ensures headline { IfSome result.1 (λ run. KeepsOrder (ByTurns form) (seals_of M.SealMaker M.keys_fit maker.now)
        (Some input.now) (K.written sink.old) (K.written sink.new) result.0 run) }
    // The run of a clean plan is done, unless a device or memory fails.
    ensures clean { ReadsAsClean (seals_of M.SealMaker M.keys_fit maker.now) input.now → IsDoneUnlessFailed result.0 }
    // The status is one of the command's own, one without reading only where memory ran out, and one with a run exactly
    // if a run is returned.
    ensures ends { ends_replay result.0 ≡ true }
    ensures read { is_unread result.0 ≡ true → result.0 ≡ WantOfMemory }
    ensures run { is_some result.1 ≡ has_run result.0 }
    // A call that writes nothing leaves the sink, and a write fault is returned exactly where a count of faults rises.
    ensures silent { has_written result.0 ≡ false → sink.new ≡ sink.old }
    ensures write_fault { result.0 ≡ WriteFault → SinkFailed K.Sink sink.old sink.new }
    ensures rose { K.faults sink.old < K.faults sink.new → result.0 ≡ WriteFault }
    ensures sink_later { K.faults sink.old ≤ K.faults sink.new }
{
    runs_of_plans_are_ordered();
    stalled_runs_were_spent();
    runs_of_clean_plans_are_done();
    lawful_runs_pass();
    plans_have_proper_arrival_lists();
    exact_runs_fit_the_form();
    lawful_runs_are_spelled();
    spellings_are_read();
    bare_records_have_one_verdict();
    let plan = match read_plan(alloc, input) {
        Ok(plan) => plan,
        Err(PlanError::Fault(fault)) => return (Status::BadPlan(fault), None),
        Err(PlanError::NoMemory) => return (Status::NoMemory, None),
    };
    match play_plan(alloc, form, &plan, maker) {
        Err(NoMemory) => (Status::NoMemory, None),
        Ok(played) => (report(sink, &played), Some(played.run)),
    }
}

fn play_plan<M: CheckerMaker>(
    alloc: Global,
    form: RunForm,
    plan: &Plan,
    maker: &M,
) -> Result<Played, NoMemory>
    requires { KeepsRules plan.now }
    ensures played { IfOk result (λ played. played.run ≡ run_of (seals_of M.SealMaker M.keys_fit maker.now) plan.now) }
    ensures readable { IfOk result (λ played. IsReadableRun played.run) }
    ensures sealed { OnOk result (SealsFit (fits_for (seals_of M.SealMaker M.keys_fit maker.now) plan.now) plan.now.setting.n
        (gives_for (seals_of M.SealMaker M.keys_fit maker.now) plan.now)) }
    ensures examined { IfOk result (λ played. played.verdict ≡ verdict_of (fits_for (seals_of M.SealMaker M.keys_fit maker.now) plan.now) played.run) }
    ensures printed { IfOk result (λ played. played.text ≡ text_of_run form plan.now played.run played.verdict) }
{
    let kit = maker.make(plan.seed, plan.height, plan.setting.n())?;
    let run = turn_by_turn(alloc, form, plan, maker, kit.sealers, &kit.checker)?;
    let verdict = verdict(alloc, &run, &kit.checker)?;
    let text = text_of_run(alloc, form, plan, &run, &verdict)?;
    Ok(Played { run, verdict, text })
}

/// The exact run of the plan. For a report its restarts are performed: each honest replica logs its events, is stopped,
/// and is started again from its log. This changes nothing in the record.
fn turn_by_turn<M: CheckerMaker>(
    alloc: Global,
    form: RunForm,
    plan: &Plan,
    maker: &M,
    sealers: Vec<M::S>,
    checker: &M::C,
) -> Result<RunRecord, NoMemory>
    requires rules { KeepsRules plan.now }
    requires kit { signers_of M.S.Sealer sealers.items
        ≡ kit_of (gives_of (M.gives maker.now) plan.now) (capacity_of plan.now.height) plan.now.setting.n }
    requires replicas { All (λ s. M.S.replica s < plan.now.setting.n) sealers.items }
    requires suffice { All (λ s. 5 * plan.now.views ≤ M.S.capacity s) sealers.items }
    ensures play { IfOk result (λ run. run ≡ play_of (M.C.meaning checker.now) plan.now
        (signers_of M.S.Sealer sealers.items)) }
    ensures readable { IfOk result (λ run. IsReadableRun run) }
{
    let restarts = match form {
        RunForm::Report => !plan.restarts.as_slice().is_empty(),
        RunForm::Record => false,
    };
    if restarts {
        play_restarting(alloc, plan, maker, sealers, checker)
    } else {
        play(alloc, plan, sealers, checker)
    }
}
