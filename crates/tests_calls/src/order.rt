use crate::calls::{all_answer, all_refused};
use seal_kit::LooseMaker;
use std::alloc::Global;
use std::fmt::Write;
use std::test::Fail;

#[test]
fn lists_that_hold_nothing_have_no_batch(rt: HostRuntime) -> Result<(), Fail> {
    let cases = [(
        "order|",
        "setting 5 1 1 1\norder\norder\norder\norder\n",
        0,
        "threshold=2 solid=3 quorum=4\n",
    )];
    all_answer(&rt, rt.alloc(), &LooseMaker::new(rt.alloc()), &cases)
}

#[test]
fn a_fault_of_the_input_is_named_and_nothing_is_written(rt: HostRuntime) -> Result<(), Fail> {
    let cases = [
        (
            "order|",
            "setting 4 1 1 1\norder 1.1.0\n",
            "bad plan: setting resilience",
        ),
        ("order|", "setting 5 1 1 2\n", "bad plan: setting gamma"),
        (
            "order|",
            "setting 5 1 1001 1001\n",
            "bad plan: setting gamma",
        ),
        ("order|", "setting 0 0 1 1\n", "bad plan: setting replicas"),
        ("order|", "setting 17 0 1 1\n", "bad plan: setting replicas"),
        (
            "order|",
            "setting 5 1 1 1\norder 1.1.0 2.1.0\norder 1.1.0 2.1.0\norder 1.1.0 1.1.0\norder 1.1.0 2.1.0\n",
            "bad plan: double line 4",
        ),
        (
            "order|",
            "setting 5 1 1 1\norder 1.1.0 2.1.0\norder 1.1.0 2.1.0\norder 1.1.0 2.1.0\n",
            "bad plan: missing line 5",
        ),
        (
            "order|",
            "setting 5 1 1 1\norder 1.1.0 2.1.0\norder 1.1.0 2.1.0\norder 1.1.0 2.1.0\norder 1.1.0 2.1.0",
            "bad plan: line line 5",
        ),
        (
            "order|",
            "setting 5 1 1 1\norder 1.1.0 2.1.0\norder 1.1.0 2.1.0\norder 1.1.0 2.1.0\norder 1.1.0 2.1.0\norder 1.1.0 2.1.0\n",
            "bad plan: line line 6",
        ),
    ];
    all_refused(&rt, rt.alloc(), &cases)
}

#[test]
fn two_thousand_shaded_transactions_are_cut(rt: HostRuntime) -> Result<(), Fail> {
    let (alloc, maker) = (rt.alloc(), LooseMaker::new(rt.alloc()));
    let (lists, text) = (sixteen_lists(alloc)?, sixteen_text(alloc)?);
    let cases = [("order|", lists.as_str(), 0, text.as_str())];
    all_answer(&rt, alloc, &maker, &cases)
}

/// Each of sixteen lists holds 127 transactions of its own client, followed by one that all lists hold.
fn sixteen_lists(alloc: Global) -> Result<String, Fail> {
    let mut text = String::from_str(alloc, "setting 16 0 1 1\n")?;
    push_lists(&mut text)?;
    Ok(text)
}

fn push_lists(text: &mut String) -> Result<(), Fail> {
    for client in 1..17 {
        text.push_str("order")?;
        for number in 1..128 {
            write!(text, " {client}.{number}.0")?;
        }
        text.push_str(" 99.1.0\n")?;
    }
    Ok(())
}

/// Each of the 2,032 transactions is in only one list. In the fifteen other lists it counts as after the solid one, so
/// no walk leads from it to the solid one.
fn sixteen_text(alloc: Global) -> Result<String, Fail> {
    let mut text = String::from_str(alloc, "threshold=1 solid=16 quorum=16\n")?;
    push_classes(&mut text)?;
    text.push_str("tx 99.1.0 solid 16 kept\nbatch 1 99.1.0\n")?;
    Ok(text)
}

fn push_classes(text: &mut String) -> Result<(), Fail> {
    for client in 1..17 {
        for number in 1..128 {
            write!(text, "tx {client}.{number}.0 shaded 1 cut\n")?;
        }
    }
    Ok(())
}
