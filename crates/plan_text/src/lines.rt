//! Lines and their words.
ghost use Rattle.std.specs.Prelude.{◌≡◌, ◌==◌, ◌∷◌, [], IfSome, IfNone, position};
ghost use Rattle.std.specs.List.{slice_split};
ghost use Rattle.std.specs.Option.{option_map};
ghost use Rattle.plan_text.specs.Reads.{IsFaultOf, ReadsAs};
ghost use Rattle.plan_text.specs.OrderReading.{cut_at, line_at, line_key, words_in, words_after};

use crate::{FaultKind, PlanError, PlanFault};
use seq_base::KeyText;
use std::alloc::Global;

/// A fault of the line of a number, counted from 1.
pub(crate) fn line_fault(alloc: Global, kind: FaultKind, number: u32) -> PlanError
    ensures { IsFaultOf result kind (line_key number) }
{
    match format!(in alloc; "line {number}") {
        Ok(key) => PlanError::Fault(PlanFault {
            kind,
            key: KeyText::of(key),
        }),
        Err(_) => PlanError::NoMemory,
    }
}

/// The first line of a text and the rest after it. The line is missing at the end of the text, and malformed where no
/// line feed ends it.
pub(crate) fn take_line(
    alloc: Global,
    text: &[u8],
    number: u32,
) -> Result<(&[u8], &[u8]), PlanError>
    ensures { ReadsAs (λ found. (found.0.now, found.1.now)) result (line_at number text.now) }
{
    if text.is_empty() {
        return Err(line_fault(alloc, FaultKind::Missing, number));
    }
    match split_at_byte(text, b'\n') {
        Some(found) => Ok(found),
        None => Err(line_fault(alloc, FaultKind::Line, number)),
    }
}

/// The first word of a line, and the rest after its space if there is one.
pub(crate) fn first_word(line: &[u8]) -> (&[u8], Option<&[u8]>)
    ensures { words_in line.now ≡ result.0.now ∷ words_after result.1 }
{
    match split_at_byte(line, b' ') {
        Some((word, rest)) => (word, Some(rest)),
        None => (line, None),
    }
}

/// The bytes before the first occurrence of this byte, and those after it.
pub(crate) fn split_at_byte(text: &[u8], byte: u8) -> Option<(&[u8], &[u8])>
    ensures cut { option_map (λ found. (found.0.now, found.1.now)) result ≡ cut_at byte text.now }

    // A split of the text at each occurrence of the byte gives these parts.
    ensures some { IfSome result (λ found. slice_split (λ b. b == byte) text.now ≡ found.0.now ∷ slice_split (λ b. b == byte) found.1.now) }
    ensures none { IfNone result (slice_split (λ b. b == byte) text.now ≡ text.now ∷ []) }
{
    match place_of(text, byte) {
        Some(at) => Some((&text[..at], &text[at + 1..])),
        None => None,
    }
}

/// The position of the first occurrence of this byte.
fn place_of(text: &[u8], byte: u8) -> Option<usize>
    ensures { result ≡ position (λ b. b == byte) text.now }
{
    text.iter().position(|b| *b == byte)
}
