//! One message of each kind, which an independent program wrote from the format alone, and the cases about them.
use crate::faults::{write_cuts, write_twice};
use crate::large::write_large;
use crate::messages::write_is_written;
use crate::walks::write_view;
use hex::FromHexError;
use seq_base::parse_u32;
use std::alloc::Global;
use std::test::Fail;

const NEW_VIEW: &str =
    "0201020102030501020304202122232425262728292a2b2c2d2e2f303132333435363738393a3b3c3d3e3f03000001aa\
    0200000500350102030405060708090a0b0c0d0e0f101112131415161718191a1b1c1d1e1f202122232425262728292a\
    2b2c2d2e2f30313233343500350708090a0b0c0d0e0f101112131415161718191a1b1c1d1e1f20212223242526272829\
    2a2b2c2d2e2f303132333435363738393a3b";

const ASK: &str =
    "0202000102030501020304202122232425262728292a2b2c2d2e2f303132333435363738393a3b3c3d3e3f03000001aa\
    0200000500350102030405060708090a0b0c0d0e0f101112131415161718191a1b1c1d1e1f202122232425262728292a\
    2b2c2d2e2f3031323334350000";

const ORDER: &str =
    "02030101020305222222222222222222222222222222222222222222222222222222222222222200020a0b0c0d000000\
    020102030405060708000000040000000500000000000000060001000000070000000800000000000000090035808182\
    838485868788898a8b8c8d8e8f909192939495969798999a9b9c9d9e9fa0a1a2a3a4a5a6a7a8a9aaabacadaeafb0b1b2\
    b3b4";

const PROPOSE: &str =
    "0204010102030501020304202122232425262728292a2b2c2d2e2f303132333435363738393a3b3c3d3e3f03000001aa\
    0200000500350102030405060708090a0b0c0d0e0f101112131415161718191a1b1c1d1e1f202122232425262728292a\
    2b2c2d2e2f30313233343502030101020305222222222222222222222222222222222222222222222222222222222222\
    222200020a0b0c0d00000002010203040506070800000004000000050000000000000006000100000007000000080000\
    0000000000090035808182838485868788898a8b8c8d8e8f909192939495969798999a9b9c9d9e9fa0a1a2a3a4a5a6a7\
    a8a9aaabacadaeafb0b1b2b3b40303010203052222222222222222222222222222222222222222222222222222222222\
    2222220000000000000002ddee";

const VOTE: &str =
    "0205020102030411111111111111111111111111111111111111111111111111111111111111110001ee010301010203\
    05222222222222222222222222222222222222222222222222222222222222222200020a0b0c0d000000020102030405\
    060708000000040000000500000000000000060001000000070000000800000000000000090035808182838485868788\
    898a8b8c8d8e8f909192939495969798999a9b9c9d9e9fa0a1a2a3a4a5a6a7a8a9aaabacadaeafb0b1b2b3b4";

const FETCH: &str = "0206000102030405060708090a0b0c0d0e0f101112131415161718191a1b1c1d1e1f";

const GIVE: &str =
    "02070102030501020304202122232425262728292a2b2c2d2e2f303132333435363738393a3b3c3d3e3f03000001aa02\
    00000500350102030405060708090a0b0c0d0e0f101112131415161718191a1b1c1d1e1f202122232425262728292a2b\
    2c2d2e2f3031323334350203010102030522222222222222222222222222222222222222222222222222222222222222\
    2200020a0b0c0d0000000201020304050607080000000400000005000000000000000600010000000700000008000000\
    00000000090035808182838485868788898a8b8c8d8e8f909192939495969798999a9b9c9d9e9fa0a1a2a3a4a5a6a7a8\
    a9aaabacadaeafb0b1b2b3b4030301020305222222222222222222222222222222222222222222222222222222222222\
    2222000000000000";

/// The message of a kind.
pub(crate) fn sample(alloc: Global, kind: u32) -> Result<Vec<u8>, FromHexError> {
    let text = match kind {
        1 => NEW_VIEW,
        2 => ASK,
        3 => ORDER,
        4 => PROPOSE,
        5 => VOTE,
        6 => FETCH,
        _ => GIVE,
    };
    hex::decode(alloc, text)
}

pub(crate) fn number_of(word: Option<&str>) -> u32 {
    match word {
        Some(word) => parse_u32(word.as_bytes()).unwrap_or(0),
        None => 0,
    }
}

/// The lowest byte of a number.
pub(crate) fn byte_of(word: Option<&str>) -> u8 {
    number_of(word).to_le_bytes()[0]
}

/// Fails at the first case with another answer than expected, and reports that answer. A case is a line with bars
/// between its parts: the question, the sample and its change, and the expected answer.
pub(crate) fn check_cases(alloc: Global, cases: &str) -> Result<(), Fail> {
    for case in cases.lines() {
        check_case(alloc, case)?;
    }
    Ok(())
}

fn check_case(alloc: Global, case: &str) -> Result<(), Fail> {
    let (asked, rest) = case.split_once('|').unwrap_or((case, ""));
    let (input, expected) = rest.split_once('|').unwrap_or((rest, ""));
    let answer = answer(alloc, asked, input)?;
    if answer.as_str() == expected {
        return Ok(());
    }
    Err(Fail::new(format_args!("{asked}|{input}|{answer}")))
}

/// Only this function owns the text of the answer, because an owner drops it on each return path.
fn answer(alloc: Global, asked: &str, input: &str) -> Result<String, Fail> {
    let mut answer = String::new(alloc);
    write_answer(&mut answer, alloc, asked, input)?;
    Ok(answer)
}

fn write_answer(answer: &mut String, alloc: Global, asked: &str, input: &str) -> Result<(), Fail> {
    match asked {
        "cuts" => write_cuts(answer, alloc, input),
        "twice" => write_twice(answer, alloc),
        "view" => write_view(answer, alloc, number_of(Some(input))),
        "large" => write_large(answer, alloc, byte_of(Some(input))),
        _ => write_is_written(answer, alloc, asked, number_of(Some(input))),
    }
}
