//! Looks for a corrupt record. It takes no memory, so that one is found also where the records before it find none.
ghost use Rattle.std.specs.Prelude.{◌≡◌, true, false, None, IfSome, IfNone};
ghost use Rattle.std.specs.Option.{is_some};
ghost use Rattle.durable_node.specs.Log.{IsBadAt, IsCut, IsNext, NoneBad, Skips, arrived_in, event_in};

use crate::reading::{TX_BYTES, is_cut, next_body, read_u32, record_size};

/// The place of the first corrupt record, after this running digest.
#[tactic(auto, using(crate::proofs::Scans::none_scanned, crate::proofs::Scans::bad_scanned, crate::proofs::Scans::good_scanned))]
pub(crate) fn first_corrupt(start: &[u8; 32], log: &[u8]) -> Option<usize>
    ensures corrupt { IfSome result (λ at. IsBadAt start.now log.now at) }
    ensures good { IfNone result (NoneBad start.now log.now) }
{
    let mut digest = *start;
    let mut rest = log;
    while !is_cut(&digest, rest) {
        if !skip_event(&mut digest, rest) {
            return Some(log.len() - rest.len());
        }
        let (_, more) = rest.split_at(record_size(rest));
        rest = more;
    }
    None
}

/// Whether the first record is an event's. The running digest moves on over it.
fn skip_event(digest: &mut [u8; 32], rest: &[u8]) -> bool
    requires { IsCut digest.old rest.now → ⊥ }
    ensures event { result ≡ true → Skips digest.old rest.now digest.new }
    ensures corrupt { result ≡ false → IsNext digest.old rest.now None }
{
    match next_body(digest, rest) {
        Some(body) => is_event(body),
        None => false,
    }
}

/// Whether these bytes are the body of an event.
#[tactic(auto, unfolding(crate::specs::Log::event_in))]
fn is_event(body: &[u8]) -> bool
    ensures { result ≡ is_some (event_in body.now) }
{
    match body {
        [1, rest @ ..] => is_arrived(rest),
        [2, rest @ ..] => !rest.is_empty(),
        [3, rest @ ..] => rest.len() == 4,
        _ => false,
    }
}

fn is_arrived(rest: &[u8]) -> bool
    ensures { result ≡ is_some (arrived_in rest.now) }
{
    rest.len() >= 4 && rest.len() - 4 == TX_BYTES * read_u32(rest) as usize
}
