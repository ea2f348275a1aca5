//! The texts of one proposal.
use crate::cases::check_cases;
use plan_text::read_order_text;
use report_text::{line_text, order_text};
use seq_base::{Bytes, Tx};
use std::alloc::Global;
use std::fmt::Write;
use std::test::Fail;

/// The text, in which slashes replace the ends of lines, followed by the missing pair.
const REPORTS: &str = "\
order text|kept and cut|threshold=2 solid=3 quorum=4/tx 1.1.0 shaded 2 kept/tx 2.1.0 solid 4 kept/tx 3.1.0 shaded 2 cut/tx 4.1.0 blank 1/batch 1 1.1.0/batch 2 2.1.0/ none
order text|missing pair|threshold=4 solid=7 quorum=8/tx 1.1.0 shaded 4 kept/tx 2.1.0 shaded 4 kept/tx 3.1.0 solid 8 kept/open 1.1.0 2.1.0/ 1.1.0 2.1.0
line text|cycle between|threshold=2 solid=3 quorum=4/tx 1.1.0 solid 4 kept/tx 2.1.0 solid 4 kept/tx 3.1.0 solid 4 kept/tx 4.1.0 solid 4 kept/tx 5.1.0 solid 4 kept/batch 1 1.1.0/line 1 1.1.0/batch 2 2.1.0 3.1.0 4.1.0/line 2 4.1.0 2.1.0 3.1.0/batch 3 5.1.0/line 3 5.1.0/ none
line text|missing pair|threshold=4 solid=7 quorum=8/tx 1.1.0 shaded 4 kept/tx 2.1.0 shaded 4 kept/tx 3.1.0 solid 8 kept/open 1.1.0 2.1.0/ 1.1.0 2.1.0
";

#[test]
fn texts_of_a_proposal_show_classes_and_batches(rt: HostRuntime) -> Result<(), Fail> {
    check_cases(rt.alloc(), REPORTS)
}

#[test]
fn sixteen_lists_of_two_thousand_shaded_transactions_have_their_text(
    rt: HostRuntime,
) -> Result<(), Fail> {
    let case = sixteen_case(rt.alloc())?;
    check_cases(rt.alloc(), case.as_str())
}

pub(crate) fn write_report(
    answer: &mut String,
    alloc: Global,
    asked: &str,
    text: &str,
) -> Result<(), Fail> {
    let (report, pair) = report_of(alloc, asked, text)?;
    write_text(answer, report.as_slice())?;
    match pair {
        Some((u, v)) => Ok(write!(answer, " {u} {v}")?),
        None => Ok(answer.push_str(" none")?),
    }
}

fn report_of(alloc: Global, asked: &str, text: &str) -> Result<(Bytes, Option<(Tx, Tx)>), Fail> {
    let text = read_order_text(alloc, text.as_bytes())?;
    let report = if asked == "line text" {
        line_text(alloc, &text.setting, text.lists.as_slice())
    } else {
        order_text(alloc, &text.setting, text.lists.as_slice())
    };
    Ok(report?)
}

fn write_text(answer: &mut String, bytes: &[u8]) -> Result<(), Fail> {
    for byte in bytes {
        let letter = char::from(*byte);
        answer.push(if letter == '\n' { '/' } else { letter })?;
    }
    Ok(())
}

/// Each of sixteen lists holds 127 transactions of its own client, followed by one that all lists hold.
pub(crate) fn write_sixteen(answer: &mut String, alloc: Global) -> Result<(), Fail> {
    let lists = sixteen_lists(alloc)?;
    write_report(answer, alloc, "order text", lists.as_str())
}

fn sixteen_lists(alloc: Global) -> Result<String, Fail> {
    let mut text = String::from_str(alloc, "setting 16 0 1 1\n")?;
    push_lists(&mut text)?;
    Ok(text)
}

fn push_lists(text: &mut String) -> Result<(), Fail> {
    for client in 1..17 {
        text.push_str("order")?;
        for number in 1..128 {
            write!(text, " {client}.{number}.0")?;
        }
        text.push_str(" 99.1.0\n")?;
    }
    Ok(())
}

/// Each of the 2,032 transactions is in only one list. In the fifteen other lists it counts as after the solid one, so
/// no walk leads from it to the solid one.
fn sixteen_case(alloc: Global) -> Result<String, Fail> {
    let mut case = String::from_str(alloc, "sixteen lists||threshold=1 solid=16 quorum=16/")?;
    push_classes(&mut case)?;
    case.push_str("tx 99.1.0 solid 16 kept/batch 1 99.1.0/ none")?;
    Ok(case)
}

fn push_classes(text: &mut String) -> Result<(), Fail> {
    for client in 1..17 {
        for number in 1..128 {
            write!(text, "tx {client}.{number}.0 shaded 1 cut/")?;
        }
    }
    Ok(())
}
