//! Cases as lines of text: a question, its input, and the expected answer.
use crate::{from_bytes, learned, makers, one_level, one_time, two_levels};
use hex::encode;
use std::alloc::Global;
use std::test::Fail;

/// Fails at the first case with another answer than expected, and reports that answer. A case is a line with bars
/// between its parts: the question, its input, and the expected answer.
pub(crate) fn check_cases(alloc: Global, cases: &str) -> Result<(), Fail> {
    for case in cases.lines() {
        check_case(alloc, case)?;
    }
    Ok(())
}

fn check_case(alloc: Global, case: &str) -> Result<(), Fail> {
    let (asked, rest) = case.split_once('|').unwrap_or((case, ""));
    let (input, expected) = rest.split_once('|').unwrap_or((rest, ""));
    let answer = answer(alloc, asked, input)?;
    if answer.as_str() == expected {
        return Ok(());
    }
    Err(Fail::new(format_args!("{asked}|{input}|{answer}")))
}

fn answer(alloc: Global, asked: &str, input: &str) -> Result<String, Fail> {
    match asked {
        "capacity" => makers::capacity_text(alloc, input),
        "made" => makers::seal_text(alloc, input),
        "made alone" => makers::alone_text(alloc, input),
        "grown" => from_bytes::grown_text(alloc, input),
        "drawn" => from_bytes::drawn_text(alloc, input),
        "chain" => one_time::chain_text(alloc, input),
        "one time" => one_time::signature_text(alloc, input),
        "one time fits" => one_time::fit_text(alloc, input),
        "key" => one_level::key_text(alloc, input),
        "growing key" => one_level::growing_text(alloc, input),
        "one level" => one_level::sealer_text(alloc),
        "one level changed" => one_level::changes_text(alloc),
        "two levels" => two_levels::sealer_text(alloc),
        "two levels changed" => two_levels::changes_text(alloc),
        "after seals" => two_levels::later_text(alloc, input),
        "learned" => learned::answers_text(alloc),
        _ => two_levels::high_text(alloc),
    }
}

/// `yes` or `no`.
pub(crate) fn word_of(is: bool) -> &'static str {
    if is { "yes" } else { "no" }
}

/// Two counts and a digest.
pub(crate) fn counts_text(
    alloc: Global,
    good: u32,
    made: u32,
    all: &[u8; 32],
) -> Result<String, Fail> {
    let all = encode(alloc, all.as_slice())?;
    Ok(format!(in alloc; "{good} {made} {all}")?)
}
