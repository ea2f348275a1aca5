//! The answers of the plan reader.
use plan_text::read_plan;
use std::alloc::{AllocError, Global};

/// A valid plan: a line for each required key.
const WHOLE: &str =
    "n = 5\nf = 1\np = 1\nq = 1\nseed = 7\nheight = 5\nviews = 6\nticks = 2\nturns = 100\n";

/// The cases with another answer than expected, each with its answer. A case is a line with bars between its parts:
/// the keys that are omitted from `WHOLE`, the lines to append, with slashes between them, and the expected answer.
pub(crate) fn mismatches(alloc: Global, cases: &str) -> Result<String, AllocError> {
    let mut mismatches = String::new(alloc);
    for case in cases.lines() {
        let actual = actual_case(alloc, case)?;
        if actual.as_str() != case {
            mismatches.push_str(actual.as_str())?;
            mismatches.push('\n')?;
        }
    }
    Ok(mismatches)
}

/// A case with the answer for its plan instead of the expected one.
fn actual_case(alloc: Global, case: &str) -> Result<String, AllocError> {
    let (left_out, rest) = case.split_once('|').unwrap_or(("", case));
    let (lines, _) = rest.split_once('|').unwrap_or((rest, ""));
    let mut text = whole_without(alloc, left_out)?;
    text.push_str(lines.replace(alloc, '/', "\n")?.as_str())?;
    text.push('\n')?;
    let words = words_of(alloc, text.as_bytes())?;
    format!(in alloc; "{left_out}|{lines}|{words}")
}

fn whole_without(alloc: Global, left_out: &str) -> Result<String, AllocError> {
    let mut text = String::new(alloc);
    for line in WHOLE.lines() {
        let (key, _) = line.split_once(' ').unwrap_or((line, ""));
        if !is_among(key, left_out) {
            text.push_str(line)?;
            text.push('\n')?;
        }
    }
    Ok(text)
}

fn is_among(key: &str, keys: &str) -> bool {
    for other in keys.split_whitespace() {
        if other == key {
            return true;
        }
    }
    false
}

/// `read`, or the first fault.
pub(crate) fn words_of(alloc: Global, text: &[u8]) -> Result<String, AllocError> {
    match read_plan(alloc, text) {
        Ok(_) => format!(in alloc; "read"),
        Err(error) => format!(in alloc; "{error}"),
    }
}
