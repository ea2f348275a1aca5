//! Calls of the program over devices in memory, and their outcomes. All tests of this crate use them.
ghost use Rattle.std.specs.Prelude.{◌≤◌};

use seal_kit::{CheckerMaker, LooseMaker};
use seq_base::{Bytes, NoMemory};
use seq_io::{MemSink, MemSource, Sink, Source};
use std::alloc::Global;
use std::sync::Wait;
use std::test::Fail;
use std::thread::Threads;
use themis_calls::{Outcome, themis};

pub(crate) const ORDINARY: &str =
    "setting 5 1 1 1\norder 1.1.0 2.1.0\norder 1.1.0 2.1.0\norder 1.1.0 2.1.0\norder 1.1.0 2.1.0\n";

/// The arguments in a text. A bar ends each argument.
fn arguments_of(alloc: Global, text: &str) -> Result<Vec<String>, NoMemory> {
    let mut all = Vec::new(alloc);
    for argument in text.split_terminator('|') {
        all.push(String::from_str(alloc, argument)?)?;
    }
    Ok(all)
}

/// An outcome: the number and the text of its status, the count of bytes read, and whether it has a run.
#[derive(Drop)]
pub(crate) struct Summary {
    pub(crate) number: u8,
    pub(crate) message: String,
    pub(crate) used: u64,
    pub(crate) has_run: bool,
}

fn summary_of(alloc: Global, outcome: &Outcome) -> Result<Summary, NoMemory> {
    Ok(Summary {
        number: outcome.status.number(),
        message: outcome.status.to_string(alloc)?,
        used: outcome.used,
        has_run: outcome.run.is_some(),
    })
}

/// Runs a command over any devices. All tests call `themis` through this function. It has no clause about the outcome,
/// which keeps the obligations of each test short.
pub(crate) fn run_program<R: Threads + Wait + Sync, S: Source, K: Sink, M: CheckerMaker>(
    rt: &R,
    alloc: Global,
    arguments: &str,
    source: &mut S,
    sink: &mut K,
    maker: &M,
) -> Result<Summary, NoMemory> {
    let arguments = arguments_of(alloc, arguments)?;
    summary_of(alloc, &themis(rt, alloc, &arguments, source, sink, maker))
}

/// The outcome of a call, and the written bytes.
#[derive(Drop)]
pub(crate) struct Answer {
    pub(crate) summary: Summary,
    pub(crate) written: Bytes,
}

/// A source in memory whose call with this number fails. No call has the number 0.
pub(crate) fn source_of(alloc: Global, input: &[u8], failing: u64) -> Result<MemSource, NoMemory> {
    let bytes = Bytes::of(Vec::from_slice(alloc, input)?);
    Ok(MemSource::new(bytes, vec![in alloc; failing]?))
}

/// A sink in memory that accepts at most `most` bytes in one call, and whose call with this number fails.
pub(crate) fn sink_of(alloc: Global, most: usize, failing: u64) -> Result<MemSink, NoMemory>
    requires { 1 ≤ most }
{
    MemSink::new(alloc, most, 262_144, vec![in alloc; failing]?)
}

/// Runs a command over devices in memory.
pub(crate) fn called<R: Threads + Wait + Sync, M: CheckerMaker>(
    rt: &R,
    alloc: Global,
    arguments: &str,
    mut source: MemSource,
    mut sink: MemSink,
    maker: &M,
) -> Result<Answer, NoMemory> {
    let summary = run_program(rt, alloc, arguments, &mut source, &mut sink, maker)?;
    answer_of(alloc, summary, sink.written())
}

fn answer_of(alloc: Global, summary: Summary, written: &[u8]) -> Result<Answer, NoMemory> {
    Ok(Answer {
        summary,
        written: Bytes::of(Vec::from_slice(alloc, written)?),
    })
}

/// The same over devices that never fail.
pub(crate) fn call<R: Threads + Wait + Sync, M: CheckerMaker>(
    rt: &R,
    alloc: Global,
    arguments: &str,
    input: &[u8],
    maker: &M,
) -> Result<Answer, NoMemory> {
    let source = source_of(alloc, input, 0)?;
    let sink = sink_of(alloc, 4096, 0)?;
    called(rt, alloc, arguments, source, sink, maker)
}

/// Whether a call reads its whole input, ends with this status number, writes this text, and has a run if a run is
/// expected.
pub(crate) fn answers<R: Threads + Wait + Sync, M: CheckerMaker>(
    rt: &R,
    alloc: Global,
    arguments: &str,
    input: &[u8],
    maker: &M,
    number: u8,
    text: &[u8],
) -> Result<bool, NoMemory> {
    let answer = call(rt, alloc, arguments, input, maker)?;
    Ok(
        answer.written.as_slice() == text
            && is_expected(&answer.summary, arguments, input, number, text),
    )
}

fn is_expected(summary: &Summary, arguments: &str, input: &[u8], number: u8, text: &[u8]) -> bool {
    summary.number == number
        && summary.used == input.len() as u64
        && summary.has_run == (shows_run(arguments) && !text.is_empty())
}

fn shows_run(arguments: &str) -> bool {
    match arguments {
        "replay|" | "run|" | "trace|" | "audit|" => true,
        _ => false,
    }
}

/// Fails at the first case with another answer than expected. A case has arguments, an input, a status number and a
/// text.
pub(crate) fn all_answer<R: Threads + Wait + Sync, M: CheckerMaker>(
    rt: &R,
    alloc: Global,
    maker: &M,
    cases: &[(&str, &str, u8, &str)],
) -> Result<(), Fail> {
    for case in cases {
        let (arguments, input, number, text) = *case;
        if !answers(
            rt,
            alloc,
            arguments,
            input.as_bytes(),
            maker,
            number,
            text.as_bytes(),
        )? {
            return Err(Fail::new(format_args!("another answer than {text}")));
        }
    }
    Ok(())
}

/// Fails at the first case that is not refused as a bad plan with the expected message, or writes something. A case has
/// arguments, an input and a message.
pub(crate) fn all_refused<R: Threads + Wait + Sync>(
    rt: &R,
    alloc: Global,
    cases: &[(&str, &str, &str)],
) -> Result<(), Fail> {
    for case in cases {
        let (arguments, input, message) = *case;
        if !is_refused(rt, alloc, arguments, input, message)? {
            return Err(Fail::new(format_args!("another answer than {message}")));
        }
    }
    Ok(())
}

fn is_refused<R: Threads + Wait + Sync>(
    rt: &R,
    alloc: Global,
    arguments: &str,
    input: &str,
    message: &str,
) -> Result<bool, NoMemory> {
    let answer = call(
        rt,
        alloc,
        arguments,
        input.as_bytes(),
        &LooseMaker::new(alloc),
    )?;
    Ok(
        answer.summary.message.as_str() == message
            && answer.written.as_slice().is_empty()
            && is_expected(&answer.summary, arguments, input.as_bytes(), 4, &[]),
    )
}
