ghost use Rattle.std.specs.Prelude.{◌≡◌, ◌≢◌, ◌<◌, ◌≤◌, IfOk, IfSome, Some, None, is_some, false, true};
ghost use Rattle.audit_core.specs.Finding.{finding_of};
ghost use Rattle.themis_calls.specs.declared.outcome.Status.TheVariants.{WriteFault, NoMemory as WantOfMemory};
ghost use Rattle.themis_calls.specs.Audited.{AnswersAudit, KeepsAudit, ReportedFinding, digest_in, fits_in, status_found, text_of_audit};
ghost use Rattle.themis_calls.specs.Devices.{SinkFailed};
ghost use Rattle.themis_calls.specs.Replayed.{seals_of};
ghost use Rattle.themis_calls.specs.Statuses.{ends_audit, has_run, has_written, is_unread};

use crate::Status;
use crate::output::write_text;
use audit_core::{Finding, finding_of};
use audit_laws::audited_traces_are_lawful;
use lawful_runs::runs_of_plans_are_ordered;
use report_text::audit_text;
use run_record::RunRecord;
use seal_kit::{CheckerMaker, keys_digest};
use seq_base::{Bytes, NoMemory};
use seq_io::Sink;
use std::alloc::Global;
use trace_form::{Keys, Trace, TraceFault, read_trace};

/// The maximum length of a trace in bytes.
pub(crate) const MAX_TRACE: usize = 67_108_864;

/// The command `audit`: checks the record in a trace, by the trace's seed or by its public keys. The record is returned
/// with the status, if its text was made.
pub(crate) fn audit<K: Sink, M: CheckerMaker>(
    alloc: Global,
    input: &[u8],
    sink: &mut K,
    maker: &M,
) -> (Status, Option<RunRecord>)
    // What is written and returned of each input, and what holds of the record that is returned.
    ensures text { AnswersAudit (seals_of M.SealMaker M.keys_fit maker.now) input.now result.1 (K.written sink.old) (K.written sink.new) result.0 }
    ensures headline { IfSome result.1
        (KeepsAudit (seals_of M.SealMaker M.keys_fit maker.now) (Some input.now) (K.written sink.old) (K.written sink.new) result.0) }
    // The status is one of the command's own, one without reading only where memory ran out, and one with a run exactly
    // if a run is returned.
    ensures ends { ends_audit result.0 ≡ true }
    ensures read { is_unread result.0 ≡ true → result.0 ≡ WantOfMemory }
    ensures run { is_some result.1 ≡ has_run result.0 }
    // A call that writes nothing leaves the sink, and a write fault is returned exactly where a count of faults rises.
    ensures silent { has_written result.0 ≡ false → sink.new ≡ sink.old }
    ensures write_fault { result.0 ≡ WriteFault → SinkFailed K.Sink sink.old sink.new }
    ensures rose { K.faults sink.old < K.faults sink.new → result.0 ≡ WriteFault }
    ensures sink_later { K.faults sink.old ≤ K.faults sink.new }
{
    audited_traces_are_lawful();
    runs_of_plans_are_ordered();
    let trace = match read_trace(alloc, input) {
        Ok(trace) => trace,
        Err(TraceFault::BadTrace { at }) => return (Status::BadTrace { at }, None),
        Err(TraceFault::NoMemory) => return (Status::NoMemory, None),
    };
    match examine(alloc, &trace, maker) {
        Err(NoMemory) => (Status::NoMemory, None),
        Ok(examined) => (report(sink, &examined), Some(trace.run)),
    }
}

/// The result of checking a record, and its text.
#[derive(Drop)]
struct Examined {
    finding: Finding,
    text: Bytes,
}

fn examine<M: CheckerMaker>(alloc: Global, trace: &Trace, maker: &M) -> Result<Examined, NoMemory>
    ensures found { IfOk result (λ examined. examined.finding ≡ finding_of (fits_in (seals_of M.SealMaker M.keys_fit maker.now) trace.now) trace.now.run) }
    ensures printed { IfOk result (λ examined. examined.text ≡ text_of_audit trace.now examined.finding) }
{
    let checker = checker_of(trace, maker)?;
    let finding = finding_of(alloc, &trace.run, &checker)?;
    let text = audit_text(alloc, &trace.run, &finding, digest_in(&trace.keys))?;
    Ok(Examined { finding, text })
}

/// The checker of the seals in a trace: by its seed, or by its public keys.
fn checker_of<M: CheckerMaker>(trace: &Trace, maker: &M) -> Result<M::C, NoMemory>
    ensures { IfOk result (λ checker. M.C.meaning checker ≡ fits_in (seals_of M.SealMaker M.keys_fit maker.now) trace.now) }
{
    match &trace.keys {
        Keys::Seed(seed) => {
            Ok(
                maker
                    .make(*seed, trace.height, trace.run.setting.n())?
                    .checker,
            )
        },
        Keys::Public(keys) => maker.checker_of(trace.height, keys.as_slice()),
    }
}

/// The digest of the public keys; a seed has none.
fn digest_in(keys: &Keys) -> Option<[u8; 32]>
    ensures { result ≡ digest_in keys.now }
{
    match keys {
        Keys::Seed(_) => None,
        Keys::Public(keys) => Some(keys_digest(keys.as_slice())),
    }
}

/// Writes the text of an audit.
fn report<K: Sink>(sink: &mut K, examined: &Examined) -> Status
    // What is written, and the status of the finding.
    ensures reported { ReportedFinding examined.now.finding examined.now.text (K.written sink.old) (K.written sink.new) result }
    // The status is one that has a run, a text and an input that was read.
    ensures ends { ends_audit result ≡ true }
    ensures run { has_run result ≡ true }
    ensures written { has_written result ≡ true }
    ensures read { is_unread result ≡ false }
    // A write fault is returned exactly where the count of faults rises.
    ensures write_fault { result ≡ WriteFault → SinkFailed K.Sink sink.old sink.new }
    ensures rose { K.faults sink.old < K.faults sink.new → result ≡ WriteFault }
    ensures sink_later { K.faults sink.old ≤ K.faults sink.new }
{
    match write_text(sink, examined.text.as_slice()) {
        Err(_) => Status::WriteFault,
        Ok(()) => ended(examined.finding),
    }
}

/// The status of an audit, once its text is written.
fn ended(finding: Finding) -> Status
    ensures value { result ≡ status_found finding }
    ensures ends { ends_audit result ≡ true }
    ensures run { has_run result ≡ true }
    ensures written { has_written result ≡ true }
    ensures read { is_unread result ≡ false }
    ensures taken { result ≢ WriteFault }
{
    match finding {
        Finding::Obeys => Status::Done,
        Finding::Breaks {
            replica,
            entry,
            rule,
        } => Status::Unlawful {
            replica,
            entry,
            rule,
        },
        Finding::Forged(at) => Status::Forged(at),
        Finding::Collided(at) => Status::Collided(at),
    }
}
