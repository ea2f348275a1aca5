use crate::calls::run_program;
use seal_kit::LooseMaker;
use seq_base::{Bytes, NoMemory};
use seq_io::{SteadySink, SteadySource};
use std::alloc::Global;
use std::sync::Wait;
use std::test::Fail;
use std::thread::Threads;

/// Whether `order` of a text of this size ends with this status number and message, after it read `used` bytes.
fn is_answered<R: Threads + Wait + Sync>(
    rt: &R,
    alloc: Global,
    size: usize,
    number: u8,
    used: u64,
    message: &str,
) -> Result<bool, NoMemory> {
    let mut source = SteadySource::new(Bytes::of(vec![in alloc; b'a'; size]?));
    let (mut sink, maker) = (SteadySink::new(), LooseMaker::new(alloc));
    let summary = run_program(rt, alloc, "order|", &mut source, &mut sink, &maker)?;
    Ok(summary.number == number && summary.used == used && summary.message.as_str() == message)
}

#[test]
fn input_of_a_million_bytes_is_the_limit(rt: HostRuntime) -> Result<(), Fail> {
    let cases = [
        (1_048_576, 4, 1_048_576, "bad plan: line line 1"),
        (1_048_577, 5, 1_048_577, "too long"),
        (1_050_000, 5, 1_048_577, "too long"),
    ];
    for (size, number, used, message) in cases {
        if !is_answered(&rt, rt.alloc(), size, number, used, message)? {
            return Err(Fail::new(message));
        }
    }
    Ok(())
}
