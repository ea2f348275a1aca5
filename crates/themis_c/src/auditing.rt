//! Audits for C.
ghost use Rattle.std.specs.Prelude.{◌≡◌, ◌≢◌, ◌<◌, ◌^◌, ◌↔◌, ◌⊎◌, None};
ghost use Rattle.std.specs.Option.{IsSomeAnd};
ghost use Rattle.seq_base.specs.Setting.{IsValid};
ghost use Rattle.themis_c.specs.Audits.{IsAudited, IsPromisedOf, at_byte, c_audited, c_finding, collided_place, faulty_word, place_of_audit, run_of, setting_of, status_found, status_of_audit};
ghost use Rattle.themis_c.specs.Statuses.{height_of};

use crate::opening::height_of;
use crate::{BAD_HEIGHT, BAD_SETTING, CRun, NO_MEMORY, OK};
use audit_core::Finding;
use count_set::ReplicaSet;
use run_record::CollidedAt;
use seq_base::Setting;
use std::alloc::Global;
use trace_audit::{AuditFault, Audited, ExpectedRun, audit};

/// The bytes are no trace.
pub const BAD_TRACE: u32 = 18;

/// The trace has other public keys, or the seed of its keys.
pub const OTHER_KEYS: u32 = 19;

/// An honest replica breaks a rule.
pub const UNLAWFUL: u32 = 20;

/// Each honest replica conforms to the protocol, and a seal is forged.
pub const FORGED: u32 = 21;

/// Each honest replica conforms to the protocol, and two blocks have the same digest.
pub const COLLIDED: u32 = 22;

/// The trace has these public keys, and another setting, other views or another height than expected.
pub const OTHER_RUN: u32 = 23;

/// The place of what an audit finds. The status says which fields are meant, and the others are 0:
///
/// - [`BAD_TRACE`]: `at`, the byte where the first faulty field begins;
/// - [`UNLAWFUL`]: `replica`, an `entry` of its journal, and `rule`: 1 to 5, or 6 and 7 after the last entry;
/// - [`FORGED`]: the `replica` and the `entry` that received the seal, the `part` of its message, and the `signer`
///   whose seal it pretends to be;
/// - [`COLLIDED`]: the `replica` and the `entry` that received one block and, where `has_second` is 1,
///   `second_replica` and `second_entry` that received the other. Where it is 0, the other is the first block of every
///   chain.
///
/// With [`OK`] and with the last three, bit i of `faulty` says whether the trace names replica i as faulty. All are
/// numbered from 0, but for rules.
#[repr(C)]
#[derive(Clone, Copy)]
pub struct CFinding {
    pub at: u64,
    pub replica: u32,
    pub entry: u32,
    pub rule: u32,
    pub part: u32,
    pub signer: u32,
    pub has_second: u32,
    pub second_replica: u32,
    pub second_entry: u32,
    pub faulty: u32,
}

/// Audits the run that a trace records, by what the auditor knows of it: its setting, views and height, and the public
/// keys, key number i for replica i. The trace may have any length. [`OK`] says that the headline holds of the run: each
/// replica that `faulty` does not name conforms to the protocol, these are at least n-f, no seal is forged, and no two
/// blocks have the same digest.
#[unsafe(no_mangle)]
pub extern "C" fn themis_audit(
    alloc: Global,
    trace: &[u8],
    run: &CRun,
    publics: &[[u8; 60]],
    finding: &mut CFinding,
) -> u32
    ensures setting { (result ≡ BAD_SETTING) ↔ (¬ IsValid (setting_of run.now)) }
    ensures height { (result ≡ BAD_HEIGHT) ↔ (IsValid (setting_of run.now) × (height_of run.now.height ≡ None)) }
    ensures promise { result ≡ OK → IsSomeAnd (height_of run.now.height) (λ height. IsPromisedOf trace.now (run_of run.now height) publics.now finding.new) }
    ensures audited { result ≢ BAD_SETTING → result ≢ BAD_HEIGHT
        → IsSomeAnd (height_of run.now.height) (λ height. IsAudited result trace.now (run_of run.now height) publics.now finding.old finding.new) }
    ensures kept { (result ≡ BAD_SETTING) ⊎ (result ≡ BAD_HEIGHT) → finding.new ≡ finding.old }
{
    let Ok(setting) = Setting::new(run.n, run.f, run.p, run.q) else {
        return BAD_SETTING;
    };
    let Some(height) = height_of(run.height) else {
        return BAD_HEIGHT;
    };
    let expected = ExpectedRun {
        setting,
        views: run.views,
        height,
    };
    audit_expected(alloc, trace, &expected, publics, finding)
}

/// Audits the trace of an expected run.
fn audit_expected(
    alloc: Global,
    trace: &[u8],
    run: &ExpectedRun,
    publics: &[[u8; 60]],
    finding: &mut CFinding,
) -> u32
    ensures known { (result ≢ BAD_SETTING) × (result ≢ BAD_HEIGHT) }
    ensures promise { result ≡ OK → IsPromisedOf trace.now run.now publics.now finding.new }
    ensures audited { IsAudited result trace.now run.now publics.now finding.old finding.new }
{
    let answer = audit(alloc, trace, run, publics);
    report(answer, finding)
}

/// The status of an audit, with the place of what it found.
fn report(answer: Result<Audited, AuditFault>, finding: &mut CFinding) -> u32
    ensures status { result ≡ status_of_audit answer }
    ensures place { finding.new ≡ place_of_audit answer finding.old }
{
    match answer {
        Ok(audited) => {
            *finding = c_audited(&audited);
            status_found(audited.finding)
        }
        Err(AuditFault::BadTrace { at }) => {
            *finding = at_byte(at);
            BAD_TRACE
        }
        Err(AuditFault::OtherKeys) => OTHER_KEYS,
        Err(AuditFault::OtherRun) => OTHER_RUN,
        Err(AuditFault::NoMemory) => NO_MEMORY,
    }
}

/// The place of a finding, with the faulty replicas.
fn c_audited(audited: &Audited) -> CFinding
    ensures { result ≡ c_audited audited.now }
{
    let mut finding = c_finding(audited.finding);
    finding.faulty = faulty_word(&audited.faulty);
    finding
}

/// The word whose bit i says whether replica i is one of them.
fn faulty_word(faulty: &ReplicaSet) -> u32
    ensures { result ≡ faulty_word faulty.now }
{
    let mut word = 0;
    for replica in 0..32 {
        if faulty.has(replica) {
            word += bit(replica);
        }
    }
    word
}

fn bit(place: u32) -> u32
    requires { place < 32 }
    ensures { result ≡ 2 ^ place }
{
    1 << place
}

/// The status that reports a finding.
fn status_found(finding: Finding) -> u32
    ensures { result ≡ status_found finding }
{
    match finding {
        Finding::Obeys => OK,
        Finding::Breaks { .. } => UNLAWFUL,
        Finding::Forged(_) => FORGED,
        Finding::Collided(_) => COLLIDED,
    }
}

fn c_finding(finding: Finding) -> CFinding
    ensures { result ≡ c_finding finding }
{
    let mut place = at_byte(0);
    match finding {
        Finding::Obeys => {}
        Finding::Breaks {
            replica,
            entry,
            rule,
        } => {
            place.replica = replica;
            place.entry = entry;
            place.rule = rule;
        }
        Finding::Forged(at) => {
            place.replica = at.receiver;
            place.entry = at.entry;
            place.part = at.part;
            place.signer = at.signer;
        }
        Finding::Collided(at) => place = collided_place(at),
    }
    place
}

fn collided_place(at: CollidedAt) -> CFinding
    ensures { result ≡ collided_place at }
{
    let mut place = at_byte(0);
    (place.replica, place.entry) = at.first;
    if let Some(second) = at.second {
        place.has_second = 1;
        (place.second_replica, place.second_entry) = second;
    }
    place
}

/// A byte of the trace.
fn at_byte(at: u64) -> CFinding
    ensures { result ≡ at_byte at }
{
    CFinding {
        at,
        replica: 0,
        entry: 0,
        rule: 0,
        part: 0,
        signer: 0,
        has_second: 0,
        second_replica: 0,
        second_entry: 0,
        faulty: 0,
    }
}
