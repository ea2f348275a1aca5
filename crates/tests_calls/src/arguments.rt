use crate::calls::{ORDINARY, called, sink_of, source_of};
use seal_kit::LooseMaker;
use seq_base::NoMemory;
use std::alloc::Global;
use std::sync::Wait;
use std::test::Fail;
use std::thread::Threads;

/// Whether arguments are refused without a read or a write: the first of each would fail.
fn are_refused<R: Threads + Wait + Sync>(
    rt: &R,
    alloc: Global,
    arguments: &str,
) -> Result<bool, NoMemory> {
    let source = source_of(alloc, ORDINARY.as_bytes(), 1)?;
    let sink = sink_of(alloc, 1, 1)?;
    let answer = called(rt, alloc, arguments, source, sink, &LooseMaker::new(alloc))?;
    Ok(
        answer.summary.number == 3
            && answer.summary.used == 0
            && answer.summary.message.as_str() == "bad words"
            && answer.written.as_slice().is_empty(),
    )
}

#[test]
fn arguments_outside_the_grammar_are_refused_unread(rt: HostRuntime) -> Result<(), Fail> {
    let cases = [
        "",
        "|",
        "sort|",
        "order|order|",
        "order||",
        "lines|",
        "line|order|",
        "line|1|5|",
        "replay|order|",
        "trace|1|5|",
        "traces|",
        "run|order|",
        "runs|",
        "make|",
        "make|1|",
        "make|1|5|7|",
        "make|+1|5|",
        "make|9223372036854775808|5|",
        "make|1|0|",
        "make|01|5|",
        "make|1|8001|",
        "--help|",
        "--|order|",
        "Order|",
        "order |",
    ];
    for case in cases {
        if !are_refused(&rt, rt.alloc(), case)? {
            return Err(Fail::new(case));
        }
    }
    Ok(())
}
