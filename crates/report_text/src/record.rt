ghost use Rattle.std.specs.Prelude.{◌≡◌, ◌++◌, IfOk, OnOk, length, not, sum_by, string_bytes};
ghost use Rattle.std.specs.List.{flat_map};
ghost use Rattle.count_set.specs.Sets.{is_among};
ghost use Rattle.report_text.specs.Lines.{parameters_text, setting_line, length_line, head_text, batch_count_text, transaction_count_text, collided_words, end_line, forged_words, place_text};
ghost use Rattle.report_text.specs.RecordPrint.{amounts_text, honest_in, record_text_of, replica_text_in, shown_text, standing_text};

use crate::lines::{write_batches, write_counts};
use run_record::{CollidedAt, ForgedAt, Head, RunRecord, Verdict};
use seq_base::{BatchList, Bytes, NoMemory, Setting};
use std::alloc::{AllocError, Global};
use std::fmt::Write;

/// The text of a run: the setting and its counts, the length of the run, the state of each honest replica with its
/// batches, unless a summary is asked for, and how the run ended.
pub fn record_text(
    alloc: Global,
    run: &RunRecord,
    verdict: &Verdict,
    summary: bool,
) -> Result<Bytes, NoMemory>
    ensures { IfOk result (λ text. text ≡ record_text_of run.now verdict.now summary) }
{
    let mut text = String::new(alloc);
    write_setting(&mut text, &run.setting)?;
    write_length(&mut text, run.ticks, run.turns)?;
    write_replicas(&mut text, run, summary)?;
    write_end(&mut text, verdict)?;
    Ok(Bytes::of(text.into_bytes()))
}

pub(crate) fn write_setting(text: &mut String, setting: &Setting) -> Result<(), AllocError>
    ensures { OnOk result (string_bytes text.new ≡ string_bytes text.old ++ setting_line setting.now) }
{
    write_parameters(text, setting)?;
    write_counts(text, setting)
}

fn write_parameters(text: &mut String, setting: &Setting) -> Result<(), AllocError>
    ensures { OnOk result (string_bytes text.new ≡ string_bytes text.old ++ parameters_text setting.now) }
{
    let n = setting.n();
    let f = setting.f();
    let p = setting.p();
    let q = setting.q();
    write!(text, "setting n={n} f={f} gamma={p}/{q} ")
}

fn write_length(text: &mut String, ticks: u32, turns: u32) -> Result<(), AllocError>
    ensures { OnOk result (string_bytes text.new ≡ string_bytes text.old ++ length_line ticks turns) }
{
    writeln!(text, "ticks={ticks} turns={turns}")
}

/// The honest replicas, in ascending order.
fn write_replicas(text: &mut String, run: &RunRecord, summary: bool) -> Result<(), AllocError>
    ensures { OnOk result (string_bytes text.new ≡ string_bytes text.old ++ flat_map (replica_text_in run.now summary) (honest_in run.now)) }
{
    for replica in 0..run.setting.n() {
        if is_reported(run, replica) {
            write_replica(text, run, replica, summary)?;
        }
    }
    Ok(())
}

/// Whether the text reports a replica: the faulty ones are left out.
pub(crate) fn is_reported(run: &RunRecord, replica: u32) -> bool
    ensures { result ≡ not (is_among run.now.faulty replica) }
{
    !run.faulty.has(replica)
}

/// One replica, if the record has it.
fn write_replica(
    text: &mut String,
    run: &RunRecord,
    replica: u32,
    summary: bool,
) -> Result<(), AllocError>
    ensures { OnOk result (string_bytes text.new ≡ string_bytes text.old ++ replica_text_in run.now summary replica) }
{
    let heads = run.heads.as_slice();
    let lists = run.batches.as_slice();
    match (heads.get(replica as usize), lists.get(replica as usize)) {
        (Some(head), Some(batches)) => write_standing(text, replica, head, batches, summary),
        _ => Ok(()),
    }
}

/// The state of a replica, how much it has finalised and, unless a summary is asked for, its batches.
fn write_standing(
    text: &mut String,
    replica: u32,
    head: &Head,
    batches: &BatchList,
    summary: bool,
) -> Result<(), AllocError>
    ensures { OnOk result (string_bytes text.new ≡ string_bytes text.old ++ standing_text summary replica head.now batches.now) }
{
    write_head(text, replica, head)?;
    write_amounts(text, batches)?;
    write_shown(text, batches, summary)
}

pub(crate) fn write_amounts(text: &mut String, batches: &BatchList) -> Result<(), AllocError>
    ensures { OnOk result (string_bytes text.new ≡ string_bytes text.old ++ amounts_text batches.now) }
{
    write_batch_count(text, batches.as_slice().len() as u64)?;
    write_transaction_count(text, transactions_in(batches))
}

fn write_shown(text: &mut String, batches: &BatchList, summary: bool) -> Result<(), AllocError>
    ensures { OnOk result (string_bytes text.new ≡ string_bytes text.old ++ shown_text summary batches.now) }
{
    if summary {
        Ok(())
    } else {
        write_batches(text, batches)
    }
}

fn write_head(text: &mut String, replica: u32, head: &Head) -> Result<(), AllocError>
    ensures { OnOk result (string_bytes text.new ≡ string_bytes text.old ++ head_text replica head.now) }
{
    let view = head.view;
    let commit = head.commit;
    write!(text, "replica {replica} view={view} commit={commit} ")
}

fn write_batch_count(text: &mut String, batches: u64) -> Result<(), AllocError>
    ensures { OnOk result (string_bytes text.new ≡ string_bytes text.old ++ batch_count_text batches) }
{
    write!(text, "batches={batches}")
}

fn write_transaction_count(text: &mut String, transactions: u128) -> Result<(), AllocError>
    ensures { OnOk result (string_bytes text.new ≡ string_bytes text.old ++ transaction_count_text transactions) }
{
    writeln!(text, " transactions={transactions}")
}

/// The number of transactions in the batches. Their lengths are numbers of 63 bits, and the sum may have more.
fn transactions_in(batches: &BatchList) -> u128
    ensures { result ≡ sum_by length batches.now }
{
    let mut count: u128 = 0;
    for batch in batches.as_slice() {
        count += batch.as_slice().len() as u128;
    }
    count
}

fn write_end(text: &mut String, verdict: &Verdict) -> Result<(), AllocError>
    ensures { OnOk result (string_bytes text.new ≡ string_bytes text.old ++ end_line verdict.now) }
{
    match verdict {
        Verdict::Done => text.push_str("end done\n"),
        Verdict::Stalled => text.push_str("end stalled\n"),
        Verdict::Forged(at) => {
            text.push_str("end ")?;
            write_forged(text, at)
        }
        Verdict::Collided(at) => {
            text.push_str("end ")?;
            write_collided(text, at)
        }
    }
}

/// Where a forged seal was found.
#[tactic(auto, unfolding(crate::specs::Lines::forged_words))]
pub(crate) fn write_forged(text: &mut String, at: &ForgedAt) -> Result<(), AllocError>
    ensures { OnOk result (string_bytes text.new ≡ string_bytes text.old ++ forged_words at.now) }
{
    let receiver = at.receiver;
    let entry = at.entry;
    let part = at.part;
    let signer = at.signer;
    writeln!(
        text,
        "forged receiver={receiver} entry={entry} part={part} signer={signer}"
    )
}

/// The places of the two blocks. If the first block's digest is the cause, the place of one.
#[tactic(auto, unfolding(crate::specs::Lines::collided_words))]
pub(crate) fn write_collided(text: &mut String, at: &CollidedAt) -> Result<(), AllocError>
    ensures { OnOk result (string_bytes text.new ≡ string_bytes text.old ++ collided_words at.now) }
{
    text.push_str("collided first=")?;
    write_place(text, at.first)?;
    text.push_str(" second=")?;
    match at.second {
        Some(place) => write_place(text, place)?,
        None => text.push_str("none")?,
    }
    text.push_str("\n")
}

/// A receiver and an entry of its journal.
fn write_place(text: &mut String, place: (u32, u32)) -> Result<(), AllocError>
    ensures { OnOk result (string_bytes text.new ≡ string_bytes text.old ++ place_text place) }
{
    let (receiver, entry) = place;
    write!(text, "{receiver}.{entry}")
}
