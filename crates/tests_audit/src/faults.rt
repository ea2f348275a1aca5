//! The first fault in a trace, with its place. The trace was made by hand, and its places were counted by hand.
use crate::samples::by_hand;
use std::alloc::Global;
use std::test::Fail;
use trace_form::{TraceFault, read_trace};

/// The first byte of each field.
const FIELDS: [usize; 65] = [
    0, 8, 9, 10, 12, 14, 18, 26, 27, 31, 35, 36, 37, 41, 45, 49, 57, 61, 65, 73, 77, 81, 85, 89,
    93, 94, 98, 102, 106, 114, 115, 119, 120, 121, 122, 126, 129, 130, 134, 135, 136, 140, 141,
    145, 146, 150, 152, 156, 160, 164, 168, 172, 176, 184, 188, 192, 196, 200, 204, 208, 212, 216,
    220, 224, 228,
];

pub(crate) fn fault_of(alloc: Global, bytes: &[u8]) -> Option<TraceFault> {
    read_trace(alloc, bytes).err()
}

/// The first byte of the field in which a trace of this size ends.
fn field_start(fields: &[usize], size: usize) -> u64 {
    let starts = fields.iter().copied().filter(|start| *start <= size);
    starts.max().unwrap_or(0) as u64
}

/// The first size below `sizes` at which a truncation is reported at another place than its field.
pub(crate) fn first_wrong_truncation(
    alloc: Global,
    bytes: &[u8],
    fields: &[usize],
    sizes: usize,
) -> Option<usize> {
    for size in 0..sizes.min(bytes.len()) {
        let at = field_start(fields, size);
        if fault_of(alloc, &bytes[..size]) != Some(TraceFault::BadTrace { at }) {
            return Some(size);
        }
    }
    None
}

/// Whether each of 232 truncations is reported at its field.
fn truncations_are_reported(alloc: Global) -> Result<bool, Fail> {
    let bytes = by_hand(alloc)?;
    Ok(bytes.len() == 232 && first_wrong_truncation(alloc, &bytes, &FIELDS, 232) == None)
}

/// A trace that ends within a field, or before it, is reported with the place of that field.
#[test]
fn a_truncation_is_reported_at_its_field(rt: HostRuntime) -> Result<(), Fail> {
    assert!(rt; truncations_are_reported(rt.alloc())?);
    Ok(())
}

const CHANGED: &str = "\
0 0 0 the first bytes
7 51 0 the first bytes
7 50 18 the second form, in which byte 18 is no height
8 0 8 a setting without replicas
8 4 8 too many replicas are faulty
9 2 8 too many replicas are faulty
11 2 8 γ is above one
13 0 8 a denominator of 0
17 0 14 no views
17 7 14 more views than the sealers suffice for
26 0 26 an unknown code of a height
26 5 26 an unknown code of a height
35 2 35 more faulty replicas than f
36 5 36 a faulty replica that is not below n
38 1 37 more than 65,536 transactions
60 1 57 the second transaction equals the first
93 0 93 an unknown kind of event
93 4 93 an unknown kind of event
121 5 121 a sender that is not below n
125 200 126 fewer bytes than their length
129 18 129 an unknown reason
145 3 145 three statements
";

fn change_of(case: &str) -> Option<(usize, u8, u64)> {
    let mut words = case.split(' ');
    let place = words.next()?.parse().ok()?;
    let byte = words.next()?.parse().ok()?;
    let at = words.next()?.parse().ok()?;
    Some((place, byte, at))
}

pub(crate) fn set(bytes: &mut [u8], place: usize, byte: u8) -> Result<(), Fail> {
    match bytes.get_mut(place) {
        Some(at) => {
            *at = byte;
            Ok(())
        }
        None => Err(Fail::new("no such place")),
    }
}

/// The fault of the trace with one byte changed.
fn fault_with(
    alloc: Global,
    good: &[u8],
    place: usize,
    byte: u8,
) -> Result<Option<TraceFault>, Fail> {
    let mut bytes = Vec::from_slice(alloc, good)?;
    set(&mut bytes, place, byte)?;
    Ok(fault_of(alloc, &bytes))
}

fn is_reported(alloc: Global, good: &[u8], case: &str) -> Result<bool, Fail> {
    let (place, byte, at) = change_of(case).ok_or("no case")?;
    Ok(fault_with(alloc, good, place, byte)? == Some(TraceFault::BadTrace { at }))
}

/// The first case with another answer than expected. A case is a place of the valid trace, the byte to put there, the
/// expected place of the fault, and the reason.
pub(crate) fn first_mismatch<'a>(
    alloc: Global,
    good: &[u8],
    cases: &'a str,
) -> Result<&'a str, Fail> {
    for case in cases.lines() {
        if !is_reported(alloc, good, case)? {
            return Ok(case);
        }
    }
    Ok("")
}

fn mismatch(alloc: Global) -> Result<&'static str, Fail> {
    let good = by_hand(alloc)?;
    first_mismatch(alloc, &good, CHANGED)
}

/// One byte is changed, and the fault is reported at the expected place.
#[test]
fn an_invalid_field_is_reported_where_it_starts(rt: HostRuntime) -> Result<(), Fail> {
    assert_eq!(rt; mismatch(rt.alloc())?, "");
    Ok(())
}

fn fault_after_the_end(alloc: Global) -> Result<Option<TraceFault>, Fail> {
    let mut bytes = by_hand(alloc)?;
    bytes.push(0)?;
    Ok(fault_of(alloc, &bytes))
}

#[test]
fn bytes_after_the_end_are_reported_there(rt: HostRuntime) -> Result<(), Fail> {
    let fault = fault_after_the_end(rt.alloc())?;
    assert_eq!(rt; fault, Some(TraceFault::BadTrace { at: 232 }));
    Ok(())
}

/// The bytes up to the faulty replicas, for nine replicas, two of which may be faulty.
fn prefix_of_nine(alloc: Global) -> Result<Vec<u8>, Fail> {
    let mut bytes = by_hand(alloc)?;
    bytes.truncate(35);
    set(&mut bytes, 8, 9)?;
    set(&mut bytes, 9, 2)?;
    Ok(bytes)
}

/// Whether a fault is reported at the second faulty replica, if the faulty replicas are number 3 and `second`.
fn second_is_reported(alloc: Global, second: u8) -> Result<bool, Fail> {
    let mut bytes = prefix_of_nine(alloc)?;
    let size = bytes.len();
    bytes.extend_from_slice(&[2, 3, second])?;
    Ok(size == 35 && fault_of(alloc, &bytes) == Some(TraceFault::BadTrace { at: 37 }))
}

/// Two faulty replicas that are not in ascending order: 3 and 1, and 3 twice.
#[test]
fn faulty_replicas_are_ascending(rt: HostRuntime) -> Result<(), Fail> {
    assert!(rt; second_is_reported(rt.alloc(), 1)?);
    assert!(rt; second_is_reported(rt.alloc(), 3)?);
    Ok(())
}
