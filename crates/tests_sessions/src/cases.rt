//! Cases as lines of text: a question, two inputs, and the answer, which an independent program computed.
use crate::finals::{write_added, write_arrivals, write_left};
use crate::lists::{read_arrivals, read_batches, read_sessions, read_txs, write_txs};
use seq_base::{BatchList, TxList};
use session_rules::{carried_over, carries_over, count_batches, has_ended, marker};
use std::alloc::Global;
use std::fmt::Write;
use std::test::Fail;

/// Fails at the first case with another answer than expected, and reports that answer. A case is a line with bars
/// between its parts: the question, two inputs, and the expected answer.
pub(crate) fn check_cases(alloc: Global, cases: &str) -> Result<(), Fail> {
    for case in cases.lines() {
        check_case(alloc, case)?;
    }
    Ok(())
}

fn check_case(alloc: Global, case: &str) -> Result<(), Fail> {
    let (asked, rest) = case.split_once('|').unwrap_or((case, ""));
    let (first, rest) = rest.split_once('|').unwrap_or((rest, ""));
    let (second, expected) = rest.split_once('|').unwrap_or((rest, ""));
    let answer = answer(alloc, asked, first, second)?;
    if answer.as_str() == expected {
        return Ok(());
    }
    Err(Fail::new(format_args!("{asked}|{first}|{second}|{answer}")))
}

/// Only this function owns the text of the answer, because an owner drops it on each return path.
fn answer(alloc: Global, asked: &str, first: &str, second: &str) -> Result<String, Fail> {
    let mut answer = String::new(alloc);
    write_answer(&mut answer, alloc, asked, first, second)?;
    Ok(answer)
}

fn write_answer(
    answer: &mut String,
    alloc: Global,
    asked: &str,
    first: &str,
    second: &str,
) -> Result<(), Fail> {
    match asked {
        "marker" => write_marker(answer, number_of(first)),
        "cut" => write_cut(answer, number_of(first), &read_batches(alloc, second)?),
        "carried" => {
            let arrived = read_txs(alloc, first)?;
            write_carried(answer, alloc, &arrived, &read_batches(alloc, second)?)
        }
        "rules" => write_rules(answer, alloc, first, second),
        "left" => write_left(answer, alloc, first, second),
        "add" => write_added(answer, alloc, first, second),
        "arrives" => write_arrivals(answer, alloc, first, second),
        _ => Ok(answer.push_str("no such question")?),
    }
}

fn write_marker(answer: &mut String, session: u32) -> Result<(), Fail> {
    let tx = marker(session);
    Ok(write!(answer, "{}.{}.{}", tx.client, tx.number, tx.payload)?)
}

fn write_cut(answer: &mut String, session: u32, batches: &BatchList) -> Result<(), Fail> {
    let last = marker(session);
    let count = count_batches(batches.as_slice(), &last);
    let ended = word_of(has_ended(batches.as_slice(), &last));
    Ok(write!(answer, "{count} {ended}")?)
}

fn write_carried(
    answer: &mut String,
    alloc: Global,
    arrived: &TxList,
    batches: &BatchList,
) -> Result<(), Fail> {
    let left = carried_over(alloc, batches.as_slice(), arrived.as_slice())?;
    write_txs(answer, left.as_slice())
}

fn write_rules(
    answer: &mut String,
    alloc: Global,
    arrivals: &str,
    batches: &str,
) -> Result<(), Fail> {
    let arrivals = read_arrivals(alloc, arrivals)?;
    let batches = read_sessions(alloc, batches)?;
    let word = word_on_rules(alloc, arrivals.as_slice(), batches.as_slice())?;
    Ok(answer.push_str(word)?)
}

/// The texts of the tables have few sessions.
fn word_on_rules(
    alloc: Global,
    arrivals: &[TxList],
    batches: &[BatchList],
) -> Result<&'static str, Fail> {
    if arrivals.len() != batches.len() || batches.len() > 100 {
        return Ok("uneven");
    }
    Ok(word_of(carries_over(alloc, batches, arrivals)?))
}

fn word_of(is: bool) -> &'static str {
    if is { "yes" } else { "no" }
}

/// The number that a text spells, or 0.
pub(crate) fn number_of(text: &str) -> u32 {
    text.parse().unwrap_or(0)
}
