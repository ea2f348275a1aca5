//! Arrivals continue the arrival list.
ghost use Rattle.std.specs.Prelude.{◌≡◌, ◌≤◌, ◌+◌, ◌==◌, length, take};
ghost use Rattle.std.specs.Cmp.Lexicographic.{pointwise};
ghost use Rattle.seq_base.specs.Tx.{tx_eq};
ghost use Rattle.audit_core.specs.Judging.{goes_on};

use seq_base::Tx;

/// Rule 1: whether a list continues the arrival list after the first `from` arrivals, and `kept` counts these and the
/// list.
pub(crate) fn goes_on(arrivals: &[Tx], from: usize, kept: usize, list: &[Tx]) -> bool
    requires { from ≤ length arrivals.now }
    ensures { result ≡ goes_on arrivals.now from kept list.now }
{
    is_as_far(from, kept, list.len()) && begins(&arrivals[from..], list)
}

fn is_as_far(from: usize, kept: usize, count: usize) -> bool
    ensures { result ≡ (kept == from + count) }
{
    kept >= from && kept - from == count
}

#[tactic(auto, using(crate::proofs::Rest::too_short))]
fn begins(rest: &[Tx], list: &[Tx]) -> bool
    ensures { result ≡ pointwise tx_eq list.now (take (length list.now) rest.now) }
{
    match rest.get(..list.len()) {
        Some(prefix) => list == prefix,
        None => false,
    }
}
