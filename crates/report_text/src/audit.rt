ghost use Rattle.std.specs.Prelude.{◌≡◌, ◌++◌, Some, IfOk, OnOk, string_bytes};
ghost use Rattle.std.specs.List.{flat_map};
ghost use Rattle.report_text.specs.AuditPrint.{audit_text_of, breach_words, finding_text, keys_line, rule_words, spot_words, total_in, total_of};
ghost use Rattle.report_text.specs.RecordPrint.{honest_in};

use crate::record::{is_reported, write_amounts, write_collided, write_forged, write_setting};
use audit_core::Finding;
use run_record::RunRecord;
use seq_base::{BatchList, Bytes, NoMemory};
use std::alloc::{AllocError, Global};
use std::fmt::Write;

/// The text of an audit: the setting of the record, the finding, and, if the record conforms to the protocol, how much
/// each honest replica has finalised. If the record comes with public keys, their digest follows in hex.
pub fn audit_text(
    alloc: Global,
    run: &RunRecord,
    finding: &Finding,
    keys: Option<[u8; 32]>,
) -> Result<Bytes, NoMemory>
    ensures { IfOk result (λ text. text ≡ audit_text_of run.now finding.now keys) }
{
    let mut text = String::new(alloc);
    write_setting(&mut text, &run.setting)?;
    write_finding(&mut text, run, finding)?;
    write_keys(alloc, &mut text, keys)?;
    Ok(Bytes::of(text.into_bytes()))
}

fn write_finding(text: &mut String, run: &RunRecord, finding: &Finding) -> Result<(), AllocError>
    ensures { OnOk result (string_bytes text.new ≡ string_bytes text.old ++ finding_text run.now finding.now) }
{
    match finding {
        Finding::Obeys => {
            text.push_str("audit yes\n")?;
            write_totals(text, run)
        }
        Finding::Breaks {
            replica,
            entry,
            rule,
        } => {
            text.push_str("audit unlawful ")?;
            write_breach(text, *replica, *entry, *rule)
        }
        Finding::Forged(at) => {
            text.push_str("audit ")?;
            write_forged(text, at)
        }
        Finding::Collided(at) => {
            text.push_str("audit ")?;
            write_collided(text, at)
        }
    }
}

/// The place of the violation, and the rule that is broken.
#[tactic(auto, unfolding(crate::specs::AuditPrint::breach_words))]
fn write_breach(text: &mut String, replica: u32, entry: u32, rule: u32) -> Result<(), AllocError>
    ensures { OnOk result (string_bytes text.new ≡ string_bytes text.old ++ breach_words replica entry rule) }
{
    write_spot(text, replica, entry)?;
    write_rule(text, rule)
}

#[tactic(auto, unfolding(crate::specs::AuditPrint::spot_words))]
fn write_spot(text: &mut String, replica: u32, entry: u32) -> Result<(), AllocError>
    ensures { OnOk result (string_bytes text.new ≡ string_bytes text.old ++ spot_words replica entry) }
{
    write!(text, "replica={replica} entry={entry}")
}

#[tactic(auto, unfolding(crate::specs::AuditPrint::rule_words))]
fn write_rule(text: &mut String, rule: u32) -> Result<(), AllocError>
    ensures { OnOk result (string_bytes text.new ≡ string_bytes text.old ++ rule_words rule) }
{
    writeln!(text, " rule={rule}")
}

/// How much each honest replica has finalised, in ascending order of replicas.
fn write_totals(text: &mut String, run: &RunRecord) -> Result<(), AllocError>
    ensures { OnOk result (string_bytes text.new ≡ string_bytes text.old ++ flat_map (total_in run.now) (honest_in run.now)) }
{
    for replica in 0..run.setting.n() {
        if is_reported(run, replica) {
            write_total(text, run, replica)?;
        }
    }
    Ok(())
}

/// One replica, if the record has its batches.
fn write_total(text: &mut String, run: &RunRecord, replica: u32) -> Result<(), AllocError>
    ensures { OnOk result (string_bytes text.new ≡ string_bytes text.old ++ total_in run.now replica) }
{
    match run.batches.as_slice().get(replica as usize) {
        Some(batches) => write_total_of(text, replica, batches),
        None => Ok(()),
    }
}

fn write_total_of(text: &mut String, replica: u32, batches: &BatchList) -> Result<(), AllocError>
    ensures { OnOk result (string_bytes text.new ≡ string_bytes text.old ++ total_of replica (Some batches.now)) }
{
    write!(text, "replica {replica} ")?;
    write_amounts(text, batches)
}

/// The digest of the public keys, if there is one.
fn write_keys(alloc: Global, text: &mut String, keys: Option<[u8; 32]>) -> Result<(), AllocError>
    ensures { OnOk result (string_bytes text.new ≡ string_bytes text.old ++ keys_line keys) }
{
    match keys {
        None => Ok(()),
        Some(digest) => write_keys_line(alloc, text, &digest),
    }
}

fn write_keys_line(alloc: Global, text: &mut String, digest: &[u8; 32]) -> Result<(), AllocError>
    ensures { OnOk result (string_bytes text.new ≡ string_bytes text.old ++ keys_line (Some digest.now)) }
{
    let digits = hex::encode(alloc, digest.as_slice())?;
    text.push_str("keys ")?;
    text.push_str(digits.as_str())?;
    text.push_str("\n")
}
