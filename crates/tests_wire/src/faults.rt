//! The first fault of each sample with one byte changed, and of each truncation.
use crate::samples::{byte_of, check_cases, number_of, sample};
use std::alloc::Global;
use std::fmt::Write;
use std::test::Fail;
use wire_view::{WireFault, read};

/// A case is a kind of message, a place and a byte to put there. The answer has the results of reading the prefixes,
/// each with the size from which on it holds.
const FAULTS: &str = "\
cuts|6 0 1|short 0 version 1
cuts|6 0 3|short 0 version 1
cuts|6 1 0|short 0 kind 2
cuts|6 1 8|short 0 kind 2
cuts|7 107 4|short 0 kind 108
cuts|4 108 2|short 0 kind 109
cuts|5 43 5|short 0 kind 44
cuts|1 43 17|short 0 count 44
cuts|2 43 17|short 0 count 44
cuts|4 43 17|short 0 count 44
cuts|7 42 17|short 0 count 43
cuts|1 52 19|short 0 count 54
cuts|1 107 19|short 0 count 109
cuts|3 91 19|short 0 count 93
cuts|3 40 129|short 0 count 41
cuts|3 73 1|short 0 count 75
cuts|7 106 17|short 0 count 107
cuts|4 107 17|short 0 count 108
cuts|5 42 2|short 0 count 43
cuts|1 48 0|short 0 shape 49
cuts|1 51 1|short 0 shape 52
cuts|7 253 1|short 0 shape 254
cuts|7 253 0|short 0 shape 254
";

/// The same for each unchanged message with one more byte, and for an order with a transaction twice.
const CUTS: &str = "\
cuts|1|short 0 read 162 trailing 163
cuts|2|short 0 read 109 trailing 110
cuts|3|short 0 read 146 trailing 147
cuts|4|short 0 read 301 trailing 302
cuts|5|short 0 read 188 trailing 189
cuts|6|short 0 read 34 trailing 35
cuts|7|short 0 read 296 trailing 297
twice|3|short 0 shape 73
";

#[test]
fn the_first_fault_is_reported(rt: HostRuntime) -> Result<(), Fail> {
    check_cases(rt.alloc(), FAULTS)
}

#[test]
fn each_cut_is_short_and_one_byte_more_trails(rt: HostRuntime) -> Result<(), Fail> {
    check_cases(rt.alloc(), CUTS)
}

/// The answers for a kind with a place and a byte, or for a kind alone, whose message gets one more byte.
pub(crate) fn write_cuts(answer: &mut String, alloc: Global, input: &str) -> Result<(), Fail> {
    let mut words = input.split_whitespace();
    let mut bytes = sample(alloc, number_of(words.next()))?;
    match words.next() {
        Some(at) => change(&mut bytes, number_of(Some(at)), byte_of(words.next())),
        None => bytes.push(0)?,
    }
    write_answers(answer, &bytes)
}

fn change(bytes: &mut Vec<u8>, at: u32, byte: u8) {
    if let Some(place) = bytes.get_mut(at as usize) {
        *place = byte;
    }
}

/// The answers for the order whose two fresh transactions, at 41 and 57, are both the first one.
pub(crate) fn write_twice(answer: &mut String, alloc: Global) -> Result<(), Fail> {
    let mut bytes = sample(alloc, 3)?;
    for at in 41..57u32 {
        let byte = bytes.get(at as usize).copied().unwrap_or(0);
        change(&mut bytes, at + 16, byte);
    }
    write_answers(answer, &bytes)
}

/// The results of reading the prefixes, from the empty one to all bytes. Each result has the size from which on it
/// holds.
fn write_answers(answer: &mut String, bytes: &[u8]) -> Result<(), Fail> {
    let mut before = "";
    for size in 0..bytes.len() + 1 {
        let word = word_of(read(&bytes[..size]).err());
        if word != before {
            let space = if size > 0 { " " } else { "" };
            write!(answer, "{space}{word} {size}")?;
            before = word;
        }
    }
    Ok(())
}

fn word_of(fault: Option<WireFault>) -> &'static str {
    match fault {
        None => "read",
        Some(WireFault::Short) => "short",
        Some(WireFault::Trailing) => "trailing",
        Some(WireFault::Kind) => "kind",
        Some(WireFault::Version) => "version",
        Some(WireFault::Count) => "count",
        Some(WireFault::Shape) => "shape",
    }
}
