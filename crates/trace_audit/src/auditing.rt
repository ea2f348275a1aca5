//! Audits the record of a run by what the auditor knows of the run.
ghost use Rattle.std.specs.Prelude.{◌≡◌, ◌↔◌, IfOk, IfErr, OnOk, IsTrue};
ghost use Rattle.audit_core.specs.Finding.{finding_of};
ghost use Rattle.audit_core.specs.declared.finding.Finding.TheVariants.{Obeys};
ghost use Rattle.hss_seal.specs.Any.{any_publics_fit};
ghost use Rattle.trace_form.specs.declared.keys.Keys.TheVariants.{Public};
ghost use Rattle.trace_audit.specs.Audits.{HasAudited, IsAuditCause, IsExact, IsOfRun, IsRefusal};
ghost use Rattle.trace_audit.specs.Promises.{IsPromised};

use crate::expected::is_of_run;
use crate::laws::passing_traces_are_ordered;
use crate::{AuditFault, ExpectedRun};
use audit_core::{Finding, finding_of};
use count_set::ReplicaSet;
use hss_seal::AnyChecker;
use seq_base::NoMemory;
use std::alloc::Global;
use trace_form::{Keys, Trace, TraceFault, read_trace};

/// The result of an audit.
#[derive(Clone, Copy)]
pub struct Audited {
    /// The first rule that is broken, or what the verdict shows.
    pub finding: Finding,
    /// The replicas that the trace names as faulty. Nothing is recorded of them, and nothing is claimed of them.
    pub faulty: ReplicaSet,
}

/// Audits the record in a trace. The trace may have any length. Its public keys have to be these, key number i for replica
/// i: a trace of other keys is refused, and so is one whose keys come from a seed. Then its setting, its views and its
/// height have to be the expected ones. If the finding is [`Finding::Obeys`], the headline holds of the run.
pub fn audit(
    alloc: Global,
    bytes: &[u8],
    run: &ExpectedRun,
    publics: &[[u8; 60]],
) -> Result<Audited, AuditFault>
    ensures found { IfOk result (λ audited. HasAudited bytes.now run.now publics.now audited) }
    ensures promise { IfOk result (λ audited. audited.finding ≡ Obeys → IsPromised bytes.now run.now publics.now audited.faulty) }
    ensures cause { IfErr result (λ fault. IsAuditCause fault bytes.now run.now publics.now) }
    // Unless memory runs out, each trace has its answer.
    ensures exact { IsExact result bytes.now run.now publics.now }
{
    passing_traces_are_ordered();
    audit_expected(alloc, bytes, run, publics)
}

/// The finding on a trace of the expected run.
#[tactic(auto, using(crate::proofs::Answers::refused))]
fn audit_expected(
    alloc: Global,
    bytes: &[u8],
    run: &ExpectedRun,
    publics: &[[u8; 60]],
) -> Result<Audited, AuditFault>
    ensures found { IfOk result (λ audited. HasAudited bytes.now run.now publics.now audited) }
    ensures cause { IfErr result (λ fault. IsAuditCause fault bytes.now run.now publics.now) }
{
    let trace = match read_trace(alloc, bytes) {
        Ok(trace) => trace,
        Err(TraceFault::BadTrace { at }) => return Err(AuditFault::BadTrace { at }),
        Err(TraceFault::NoMemory) => return Err(AuditFault::NoMemory),
    };
    refuse_others(&trace, run, publics)?;
    Ok(examine(alloc, &trace, publics)?)
}

/// Refuses a trace of other keys or of another run. It takes no memory.
fn refuse_others(trace: &Trace, run: &ExpectedRun, publics: &[[u8; 60]]) -> Result<(), AuditFault>
    ensures expected { OnOk result ((trace.now.keys ≡ Public publics.now) × IsOfRun run.now trace.now) }
    ensures refused { IfErr result (λ fault. IsRefusal fault trace.now run.now publics.now) }
{
    if !has_keys(&trace.keys, publics) {
        return Err(AuditFault::OtherKeys);
    }
    if !is_of_run(run, trace) {
        return Err(AuditFault::OtherRun);
    }
    Ok(())
}

/// Whether the keys are these public ones.
fn has_keys(keys: &Keys, publics: &[[u8; 60]]) -> bool
    ensures { IsTrue result ↔ (keys.now ≡ Public publics.now) }
{
    match keys {
        Keys::Seed(_) => false,
        Keys::Public(keys) => are_same(keys.as_slice(), publics),
    }
}

fn are_same(one: &[[u8; 60]], other: &[[u8; 60]]) -> bool
    ensures { IsTrue result ↔ (one.now ≡ other.now) }
{
    one == other
}

/// The faulty replicas, and the finding by the seals that fit under the keys.
fn examine(alloc: Global, trace: &Trace, publics: &[[u8; 60]]) -> Result<Audited, NoMemory>
    ensures found { IfOk result (λ audited. audited.finding ≡ finding_of (any_publics_fit trace.now.height publics.now) trace.now.run) }
    ensures faulty { IfOk result (λ audited. audited.faulty ≡ trace.now.run.faulty) }
{
    let checker = AnyChecker::from_publics(alloc, trace.height, publics)?;
    let finding = finding_of(alloc, &trace.run, &checker)?;
    Ok(Audited {
        finding,
        faulty: trace.run.faulty,
    })
}
