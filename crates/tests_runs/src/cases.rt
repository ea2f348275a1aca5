//! Cases as lines of text: the questions, the run, and the expected answers.
use crate::{clean, records, reports, runs, scripts};
use hss_seal::LmsMaker;
use plan_text::read_plan;
use replay_run::play;
use run_record::{RunRecord, Verdict};
use run_verdict::verdict;
use seal_kit::{Checker, LooseMaker, SealMaker, TagMaker};
use std::alloc::Global;
use std::test::Fail;

/// The cases with another answer than expected, each with its answer. A case is a line with bars between its parts: the
/// questions, a word each; the input; and the expected answers. The input is a kind of seals with a plan, or a record.
pub(crate) fn mismatches(alloc: Global, cases: &str) -> Result<String, Fail> {
    let mut mismatches = String::new(alloc);
    for case in cases.lines() {
        let actual = actual_case(alloc, case)?;
        if actual.as_str() != case {
            mismatches.push_str(actual.as_str())?;
            mismatches.push('\n')?;
        }
    }
    Ok(mismatches)
}

/// Fails with the cases that have another answer than expected.
pub(crate) fn check_cases(alloc: Global, cases: &str) -> Result<(), Fail> {
    let mismatches = mismatches(alloc, cases)?;
    if mismatches.is_empty() {
        return Ok(());
    }
    Err(Fail::new(mismatches))
}

/// A case with the answer instead of the expected one.
fn actual_case(alloc: Global, case: &str) -> Result<String, Fail> {
    let (asked, rest) = case.split_once('|').unwrap_or((case, ""));
    let (input, _) = rest.split_once('|').unwrap_or((rest, ""));
    let answer = answer(alloc, asked, input)?;
    Ok(format!(in alloc; "{asked}|{input}|{answer}")?)
}

fn answer(alloc: Global, asked: &str, input: &str) -> Result<String, Fail> {
    let mut answer = String::new(alloc);
    write_answer(&mut answer, alloc, asked, input)?;
    Ok(answer)
}

fn write_answer(answer: &mut String, alloc: Global, asked: &str, input: &str) -> Result<(), Fail> {
    match asked {
        "forged" => reports::write_place(answer, records::forged_at(alloc, input)?),
        "given" => scripts::write_given(answer, alloc, input),
        "sent" => scripts::write_sent(answer, alloc, input),
        _ => write_answers(answer, &check(alloc, input)?, asked),
    }
}

fn write_answers(answer: &mut String, checked: &Checked, asked: &str) -> Result<(), Fail> {
    for word in asked.split_whitespace() {
        if !answer.is_empty() {
            answer.push(' ')?;
        }
        reports::write_one(answer, checked, word)?;
    }
    Ok(())
}

/// A run, and its verdict.
#[derive(Drop)]
pub(crate) struct Checked {
    pub(crate) alloc: Global,
    pub(crate) run: RunRecord,
    pub(crate) verdict: Verdict,
}

/// The run of an input with its verdict. The input is a record, a clean plan, or a kind of seals and the names of a
/// plan's parts.
fn check(alloc: Global, input: &str) -> Result<Checked, Fail> {
    let (kind, text) = input.split_once(' ').unwrap_or((input, ""));
    match kind {
        "record" => records::check(alloc, text),
        "clean" => play_with(alloc, kind, clean::plan_of(alloc, text)?.as_str()),
        _ => play_with(alloc, kind, runs::plan_of(alloc, text)?.as_str()),
    }
}

fn play_with(alloc: Global, kind: &str, plan: &str) -> Result<Checked, Fail> {
    match kind {
        "signatures" => played(alloc, &LmsMaker::new(alloc), plan),
        "nothing" => played(alloc, &LooseMaker::new(alloc), plan),
        _ => played(alloc, &TagMaker::new(alloc), plan),
    }
}

/// The run of a plan with the sealers of a maker, and its verdict.
fn played<M: SealMaker>(alloc: Global, maker: &M, text: &str) -> Result<Checked, Fail> {
    let plan = read_plan(alloc, text.as_bytes())?;
    let kit = maker.make(plan.seed, plan.height, plan.setting.n())?;
    let run = play(alloc, &plan, kit.sealers, &kit.checker)?;
    with_verdict(alloc, run, &kit.checker)
}

/// A run with its verdict.
pub(crate) fn with_verdict<C: Checker>(
    alloc: Global,
    run: RunRecord,
    checker: &C,
) -> Result<Checked, Fail> {
    let verdict = verdict(alloc, &run, checker)?;
    Ok(Checked {
        alloc,
        run,
        verdict,
    })
}
