//! The answers to the questions about a run.
use crate::cases::Checked;
use crate::records::{write_due, write_honest};
use node_core::Reason;
use report_text::record_text;
use run_record::{ForgedAt, Head, RunRecord, Verdict};
use run_verdict::first_collision;
use seq_base::BatchList;
use std::alloc::Global;
use std::fmt::Write;
use std::test::Fail;
use wire_view::WireFault;

pub(crate) fn write_one(answer: &mut String, checked: &Checked, word: &str) -> Result<(), Fail> {
    let run = &checked.run;
    match word {
        "verdict" => write_verdict(answer, &checked.verdict),
        "collision" => write_collision(answer, checked.alloc, run),
        "ticks" => write_number(answer, run.ticks),
        "turns" => write_number(answer, run.turns),
        "third" => write_replica(answer, run, 3),
        "each" => write_each(answer, run),
        "due" => write_due(answer, checked.alloc, run),
        "text" => write_text(answer, checked, false),
        "summary" => write_text(answer, checked, true),
        _ => write_other(answer, run, word),
    }
}

fn write_other(answer: &mut String, run: &RunRecord, word: &str) -> Result<(), Fail> {
    match word {
        "in_time" => write_yes_or_no(answer, run.turns <= run.setting.n().saturating_mul(10)),
        "parted" => write_yes_or_no(answer, are_parted(run)),
        "honest" => write_honest(answer, run),
        _ => write_count(answer, run, word),
    }
}

pub(crate) fn write_word(answer: &mut String, word: &str) -> Result<(), Fail> {
    Ok(answer.push_str(word)?)
}

pub(crate) fn write_yes_or_no(answer: &mut String, is: bool) -> Result<(), Fail> {
    write_word(answer, if is { "yes" } else { "no" })
}

fn write_number(answer: &mut String, number: u32) -> Result<(), Fail> {
    Ok(write!(answer, "{number}")?)
}

fn write_verdict(answer: &mut String, verdict: &Verdict) -> Result<(), Fail> {
    match verdict {
        Verdict::Done => write_word(answer, "done"),
        Verdict::Stalled => write_word(answer, "stalled"),
        Verdict::Collided(_) => write_word(answer, "collided"),
        Verdict::Forged(place) => {
            write_word(answer, "forged ")?;
            write_place(answer, Some(*place))
        }
    }
}

/// The text of a run, with or without its batches. Semicolons replace the ends of lines.
fn write_text(answer: &mut String, checked: &Checked, is_summary: bool) -> Result<(), Fail> {
    let text = record_text(checked.alloc, &checked.run, &checked.verdict, is_summary)?;
    write_lines(answer, text.as_slice())
}

fn write_lines(answer: &mut String, text: &[u8]) -> Result<(), Fail> {
    for byte in text {
        let letter = char::from(*byte);
        answer.push(if letter == '\n' { ';' } else { letter })?;
    }
    Ok(())
}

/// Whether two blocks of a run collide.
fn write_collision(answer: &mut String, alloc: Global, run: &RunRecord) -> Result<(), Fail> {
    let collides = first_collision(alloc, run)?.is_some();
    write_word(answer, if collides { "some" } else { "none" })
}

/// The receiver, the entry of its journal, the part and the signer.
pub(crate) fn write_place(answer: &mut String, place: Option<ForgedAt>) -> Result<(), Fail> {
    match place {
        None => write_word(answer, "none"),
        Some(
            ForgedAt {
                receiver,
                entry,
                part,
                signer,
            },
        ) => Ok(write!(answer, "{receiver} {entry} {part} {signer}")?),
    }
}

/// A replica's view, the view of its commit, and its batches.
fn write_replica(answer: &mut String, run: &RunRecord, replica: usize) -> Result<(), Fail> {
    if let Some(Head { view, commit }) = run.heads.as_slice().get(replica) {
        write!(answer, "{view}/{commit}")?;
    }
    if let Some(batches) = run.batches.as_slice().get(replica) {
        write_batches(answer, batches)?;
    }
    Ok(())
}

fn write_batches(answer: &mut String, batches: &BatchList) -> Result<(), Fail> {
    for batch in batches.as_slice() {
        answer.push_str(" |")?;
        for tx in batch.as_slice() {
            write!(answer, " {tx}")?;
        }
    }
    Ok(())
}

/// For each replica its view, the view of its commit, the number of its batches with one transaction, and of all of
/// them.
fn write_each(answer: &mut String, run: &RunRecord) -> Result<(), Fail> {
    let mut is_first = true;
    for (head, batches) in run.heads.as_slice().iter().zip(run.batches.as_slice()) {
        let (view, commit) = (head.view, head.commit);
        if !is_first {
            answer.push_str(" ")?;
        }
        write!(answer, "{view}/{commit} ")?;
        write_singles(answer, batches)?;
        is_first = false;
    }
    Ok(())
}

fn write_singles(answer: &mut String, batches: &BatchList) -> Result<(), Fail> {
    let batches = batches.as_slice();
    let count = batches.len();
    let singles = batches
        .iter()
        .filter(|batch| batch.as_slice().len() == 1)
        .count();
    Ok(write!(answer, "{singles}/{count}")?)
}

/// Whether the batch lists of two replicas differ.
fn are_parted(run: &RunRecord) -> bool {
    match run.batches.as_slice() {
        [first, second] => first != second,
        _ => false,
    }
}

/// The number of entries with a reason in a replica's journal.
fn write_count(answer: &mut String, run: &RunRecord, word: &str) -> Result<(), Fail> {
    let (name, replica) = word.split_once('@').unwrap_or((word, ""));
    let replica = match replica {
        "0" => 0,
        "1" => 1,
        _ => 2,
    };
    let count = count_of(run, replica, reason_of(name));
    Ok(write!(answer, "{count}")?)
}

fn reason_of(name: &str) -> Reason {
    match name {
        "short" => Reason::BadWire(WireFault::Short),
        "bad_seal" => Reason::BadSeal,
        "foreign" => Reason::Foreign,
        "repeat" => Reason::Repeat,
        _ => Reason::OldView,
    }
}

fn count_of(run: &RunRecord, replica: usize, reason: Reason) -> usize {
    match run.journals.as_slice().get(replica) {
        None => 0,
        Some(journal) => journal
            .entries
            .as_slice()
            .iter()
            .filter(|entry| entry.turned.reason == reason)
            .count(),
    }
}
