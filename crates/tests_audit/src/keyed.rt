//! Traces of the second form, which have public keys. The trace was made by hand, and its places were counted by hand.
use crate::faults::{fault_of, first_mismatch, first_wrong_truncation, set};
use crate::samples::{by_hand, by_hand_keyed};
use crate::traces::is_written_back;
use seal_kit::Height;
use std::alloc::Global;
use std::test::Fail;
use trace_form::{Keys, Trace, TraceFault, read_trace, write_trace};

/// The first byte of each field, up to the first arrival list. The five keys start at 19, 79, 139, 199 and 259.
const FIELDS: [usize; 17] = [
    0, 8, 9, 10, 12, 14, 18, 19, 79, 139, 199, 259, 319, 323, 327, 328, 329,
];

/// Whether a trace has the values of the one made by hand.
fn has_values(trace: &Trace) -> bool {
    are_made_by_hand(&trace.keys)
        && (trace.height, trace.views) == (Height::H5, 6)
        && (trace.run.turns, trace.run.ticks) == (1, 2)
        && trace.run.faulty.has(2)
}

/// Whether there are five keys, and the first and the last have the bytes 3, `a0` + r and `b0` + r in their places.
fn are_made_by_hand(keys: &Keys) -> bool {
    match keys {
        Keys::Seed(_) => false,
        Keys::Public(keys) => { keys.as_slice().len() == 5 && is_made_by_hand(keys.as_slice()) }
    }
}

fn is_made_by_hand(keys: &[[u8; 60]]) -> bool {
    match (keys.first(), keys.last()) {
        (Some(first), Some(last)) => {
            (first[11], first[12], first[59]) == (3, 0xa0, 0xb0)
                && (last[11], last[12], last[59]) == (3, 0xa4, 0xb4)
        }
        _ => false,
    }
}

/// Whether the run of the trace, written in the first form, is the trace that was made by hand in that form.
fn has_the_same_run(alloc: Global, trace: &Trace) -> Result<bool, Fail> {
    let written = write_trace(alloc, &trace.run, &Keys::Seed(7), trace.height, trace.views)?;
    Ok(written.as_slice() == by_hand(alloc)?.as_slice())
}

fn round_trip(alloc: Global) -> Result<(bool, bool, bool), Fail> {
    let bytes = by_hand_keyed(alloc)?;
    let trace = read_trace(alloc, &bytes)?;
    let is_written = is_written_back(alloc, &trace, &bytes)?;
    Ok((
        has_values(&trace),
        is_written,
        has_the_same_run(alloc, &trace)?,
    ))
}

/// The trace made by hand is read with its values, and written back byte for byte. Its run is that of the trace made by
/// hand in the first form.
#[test]
fn a_trace_with_public_keys_is_read_and_written_back(rt: HostRuntime) -> Result<(), Fail> {
    let (has_values, is_written, is_same) = round_trip(rt.alloc())?;
    assert!(rt; has_values);
    assert!(rt; is_written);
    assert!(rt; is_same);
    Ok(())
}

/// Whether each truncation up to the first arrival list is reported at its field.
fn truncations_are_reported(alloc: Global) -> Result<bool, Fail> {
    let bytes = by_hand_keyed(alloc)?;
    Ok(bytes.len() == 524 && first_wrong_truncation(alloc, &bytes, &FIELDS, 330) == None)
}

#[test]
fn a_truncation_is_reported_at_its_key(rt: HostRuntime) -> Result<(), Fail> {
    assert!(rt; truncations_are_reported(rt.alloc())?);
    Ok(())
}

/// Changes outside the keys.
const CHANGED: &str = "\
7 51 0 a form that does not exist
7 49 26 the first form, in which byte 26 is no height
8 4 8 too many replicas are faulty
17 0 14 no views
17 7 14 more views than the sealers suffice for
14 128 14 more views than the sealers suffice for
18 0 18 an unknown code of a height
18 5 18 an unknown code of a height
327 2 327 more faulty replicas than f
328 5 328 a faulty replica that is not below n
";

fn mismatch(alloc: Global) -> Result<&'static str, Fail> {
    let good = by_hand_keyed(alloc)?;
    first_mismatch(alloc, &good, CHANGED)
}

#[test]
fn an_invalid_field_is_reported_before_and_after_the_keys(rt: HostRuntime) -> Result<(), Fail> {
    assert_eq!(rt; mismatch(rt.alloc())?, "");
    Ok(())
}

/// The fault of a trace of 0x1900 + `byte` views whose sealers have two levels and make 32,768 seals.
fn fault_of_views(alloc: Global, byte: u8) -> Result<Option<TraceFault>, Fail> {
    let mut bytes = by_hand_keyed(alloc)?;
    set(&mut bytes, 16, 0x19)?;
    set(&mut bytes, 17, byte)?;
    set(&mut bytes, 18, 4)?;
    Ok(fault_of(alloc, &bytes))
}

/// Only the sealers limit the number of views, not the rules for plans. 6,553 views of five seals each are accepted,
/// and 6,554 are not.
#[test]
fn views_last_as_long_as_the_sealers(rt: HostRuntime) -> Result<(), Fail> {
    assert!(rt; fault_of_views(rt.alloc(), 0x99)? == None);
    assert!(rt; fault_of_views(rt.alloc(), 0x9a)? == Some(TraceFault::BadTrace { at: 14 }));
    Ok(())
}

/// Whether a trace is accepted with the first byte of a key, one in the middle and the last one changed.
fn keys_are_any_bytes(alloc: Global) -> Result<bool, Fail> {
    let mut bytes = by_hand_keyed(alloc)?;
    set(&mut bytes, 19, 255)?;
    set(&mut bytes, 150, 255)?;
    set(&mut bytes, 318, 255)?;
    Ok(fault_of(alloc, &bytes) == None)
}

#[test]
fn any_sixty_bytes_are_a_key(rt: HostRuntime) -> Result<(), Fail> {
    assert!(rt; keys_are_any_bytes(rt.alloc())?);
    Ok(())
}
