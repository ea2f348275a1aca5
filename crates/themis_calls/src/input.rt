ghost use Rattle.std.specs.Prelude.{◌≡◌, ◌≢◌, ◌<◌, ◌≤◌, ◌+◌, ◌↔◌, true, drop, length, vec_len, Err, IfErr, IfSome, OnOk, OnErr};
ghost use Rattle.std.specs.Option.{option_map};
ghost use Rattle.themis_calls.specs.declared.outcome.Status.TheVariants.{ReadFault, TooLong};
ghost use Rattle.themis_calls.specs.Devices.{SourceFailed};
ghost use Rattle.themis_calls.specs.Moved.{HasRead, HasEnded};
ghost use Rattle.themis_calls.specs.Statuses.{is_unread};

use crate::Status;
use seq_io::Source;

/// The maximum length of an order text or a plan in bytes.
pub(crate) const MAX_INPUT: usize = 1_048_576;

/// How many bytes one read or write moves at most.
pub(crate) const PIECE: usize = 4096;

/// Why reading ended before the end of the input.
#[derive(Clone, Copy)]
pub(crate) enum ReadStop {
    Failed,
    NoMemory,
}

/// Reads the rest of the input into an empty `input`. It stops one byte after the limit.
fn read_to_limit<S: Source>(
    source: &mut S,
    input: &mut Vec<u8>,
    most: usize,
) -> Result<(), ReadStop>
    requires empty { vec_len input.old ≡ 0 }
    requires most { most < 4294967296 }
    // What was read, and whether it is all that was left.
    ensures limit { vec_len input.new ≤ most + 1 }
    ensures read { HasRead (vec_len input.new) input.new.items (S.left source.old) (S.left source.new) }
    ensures whole { OnOk result (vec_len input.new ≤ most → HasEnded (S.left source.new)) }
    ensures below { OnErr result (vec_len input.new ≤ most) }
    // Failed is returned exactly where the count of faults rises.
    ensures failed { result ≡ Err ReadStop.Failed → SourceFailed S.Source source.old source.new }
    ensures quiet { result ≢ Err ReadStop.Failed → S.faults source.new ≡ S.faults source.old }
    ensures later { S.faults source.old ≤ S.faults source.new }
{
    let mut piece = [0u8; PIECE];
    while input.len() <= most {
        let want = PIECE.min(most + 1 - input.len());
        let Ok(()) = input.reserve(want) else {
            return Err(ReadStop::NoMemory);
        };
        let into = &mut piece[..want];
        let Ok(count) = source.read(into) else {
            return Err(ReadStop::Failed);
        };
        if count == 0 {
            break;
        }
        // There is room, so this allocates nothing.
        input.extend_from_slice(&into[..count]).unwrap();
    }
    Ok(())
}

/// The whole input, or the status of a call that did not get all of it.
pub(crate) fn read_whole<S: Source>(
    source: &mut S,
    input: &mut Vec<u8>,
    most: usize,
) -> Result<(), Status>
    requires empty { vec_len input.old ≡ 0 }
    requires most { most < 4294967296 }
    // What was taken of the source: the whole of it with Ok, and never more than one byte above the limit.
    ensures used { S.left source.new ≡ option_map (drop (vec_len input.new)) (S.left source.old) }
    ensures within { IfSome (S.left source.old) (λ left. vec_len input.new ≤ length left) }
    ensures whole { OnOk result (HasEnded (S.left source.new)) }
    ensures bytes { OnOk result (IfSome (S.left source.old) (λ left. input.new.items ≡ left)) }
    ensures limit { vec_len input.new ≤ most + 1 }
    ensures below { OnOk result (vec_len input.new ≤ most) }
    // Which status a call has that did not get all, and that a read fault is returned exactly where the count rises.
    ensures stopped { IfErr result (λ status. is_unread status ≡ true) }
    ensures too_long { IfErr result (λ status. (status ≡ TooLong) ↔ (vec_len input.new ≡ most + 1)) }
    ensures read_fault { IfErr result (λ status. status ≡ ReadFault → SourceFailed S.Source source.old source.new) }
    ensures rose { S.faults source.old < S.faults source.new → result ≡ Err ReadFault }
    ensures later { S.faults source.old ≤ S.faults source.new }
{
    match read_to_limit(source, input, most) {
        Err(ReadStop::Failed) => Err(Status::ReadFault),
        Err(ReadStop::NoMemory) => Err(Status::NoMemory),
        Ok(()) if input.len() > most => Err(Status::TooLong),
        Ok(()) => Ok(()),
    }
}
