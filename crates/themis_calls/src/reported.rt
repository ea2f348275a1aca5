//! What is written of a run, however it was run.
ghost use Rattle.std.specs.Prelude.{◌≡◌, ◌≢◌, ◌<◌, ◌≤◌, IfOk, false, true};
ghost use Rattle.themis_calls.specs.declared.outcome.Status.TheVariants.{WriteFault};
ghost use Rattle.themis_calls.specs.Devices.{SinkFailed};
ghost use Rattle.themis_calls.specs.Replayed.{Reported, status_of, text_of_run};
ghost use Rattle.themis_calls.specs.Statuses.{ends_replay, has_run, has_written, is_unread};

use crate::Status;
use crate::output::write_text;
use plan_text::Plan;
use report_text::record_text;
use run_record::{RunRecord, Verdict};
use seq_base::{Bytes, NoMemory};
use seq_io::Sink;
use std::alloc::Global;
use trace_form::{Keys, write_trace};

/// The form in which a run is written.
#[derive(Clone, Copy)]
pub(crate) enum RunForm {
    /// What each honest replica has finalised.
    Report,
    /// The record of the run, as a trace.
    Record,
}

/// A run, its verdict, and its text.
#[derive(Drop)]
pub(crate) struct Played {
    pub(crate) run: RunRecord,
    pub(crate) verdict: Verdict,
    pub(crate) text: Bytes,
}

/// The text of a run, in the given form.
#[tactic(auto, unfolding(crate::specs::Replayed::text_of_run))]
pub(crate) fn text_of_run(
    alloc: Global,
    form: RunForm,
    plan: &Plan,
    run: &RunRecord,
    verdict: &Verdict,
) -> Result<Bytes, NoMemory>
    ensures { IfOk result (λ text. text ≡ text_of_run form plan.now run.now verdict.now) }
{
    match form {
        RunForm::Report => record_text(alloc, run, verdict, plan.summary),
        RunForm::Record => {
            let keys = Keys::Seed(plan.seed);
            write_trace(alloc, run, &keys, plan.height, plan.views)
        },
    }
}

/// Writes the text of a run.
pub(crate) fn report<K: Sink>(sink: &mut K, played: &Played) -> Status
    // What is written, and the status of the verdict.
    ensures reported { Reported played.now.run played.now.verdict played.now.text (K.written sink.old) (K.written sink.new) result }
    // The status is one that has a run, a text and an input that was read.
    ensures ends { ends_replay result ≡ true }
    ensures run { has_run result ≡ true }
    ensures written { has_written result ≡ true }
    ensures read { is_unread result ≡ false }
    // A write fault is returned exactly where the count of faults rises.
    ensures write_fault { result ≡ WriteFault → SinkFailed K.Sink sink.old sink.new }
    ensures rose { K.faults sink.old < K.faults sink.new → result ≡ WriteFault }
    ensures sink_later { K.faults sink.old ≤ K.faults sink.new }
{
    match write_text(sink, played.text.as_slice()) {
        Err(_) => Status::WriteFault,
        Ok(()) => ended(played),
    }
}

/// The status of a run, once its text is written.
fn ended(played: &Played) -> Status
    ensures value { result ≡ status_of played.now.run played.now.verdict }
    ensures ends { ends_replay result ≡ true }
    ensures run { has_run result ≡ true }
    ensures written { has_written result ≡ true }
    ensures read { is_unread result ≡ false }
    ensures taken { result ≢ WriteFault }
{
    match played.verdict {
        Verdict::Done => Status::Done,
        Verdict::Stalled => Status::Stalled {
            turns: played.run.turns,
            ticks: played.run.ticks,
        },
        Verdict::Forged(at) => Status::Forged(at),
        Verdict::Collided(at) => Status::Collided(at),
    }
}
