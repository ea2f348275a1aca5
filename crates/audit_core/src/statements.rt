//! What the bytes that a turn sealed name, for any bytes: a kind, a replica, a view, and what follows these.
ghost use Rattle.std.specs.Prelude.{◌≡◌, ◌<◌, ◌==◌, drop, get_or, length, option_map, IfSome, IfNone};
ghost use Rattle.agreement_laws.specs.Journals.{ballot};
ghost use Rattle.journal_rules.specs.Rules.{replica_named, view_named, parent_named};
ghost use Rattle.journal_rules.specs.Sealed.{mark_of};
ghost use Rattle.journal_rules.specs.Shown.{ballot_in};
ghost use Rattle.journal_rules.specs.Tests.{are_own};
ghost use Rattle.audit_core.specs.Marking.{mark};

use seq_base::kinds::{NEW_VIEW, ORDER, VOTE};
use seq_base::{Bytes, Digest};

/// The kind and the view of a statement, if its kind is one of the five.
#[tactic(auto, using(crate::proofs::Rest::mark_is))]
pub(crate) fn mark_of(statement: &[u8]) -> Option<(u32, u32)>
    ensures { option_map (λ m. mark m.0 m.1) result ≡ mark_of statement.now }
{
    let kind = byte_at(statement, 0);
    if kind < NEW_VIEW || kind > VOTE {
        return None;
    }
    Some((u32::from(kind), view_of(statement)))
}

/// The view and the digest of a vote.
#[tactic(auto, using(crate::proofs::Rest::ballot_is))]
pub(crate) fn ballot_in(statement: &[u8]) -> Option<(u32, &[u8])>
    ensures { option_map (λ v. ballot v.0 (record { 0 = v.1.now })) result ≡ ballot_in statement.now }
{
    if byte_at(statement, 0) != VOTE {
        return None;
    }
    Some((view_of(statement), following(statement, 6)))
}

pub(crate) fn is_order(statement: &[u8]) -> bool
    ensures { result ≡ (get_or statement.now 0 0 == ORDER) }
{
    byte_at(statement, 0) == ORDER
}

/// The replica that a statement names after its kind, or 0.
pub(crate) fn replica_of(statement: &[u8]) -> u32
    ensures { result ≡ replica_named statement.now }
{
    u32::from(byte_at(statement, 1))
}

/// Whether each statement names this replica.
pub(crate) fn are_own(replica: u32, statements: &[Bytes]) -> bool
    ensures { result ≡ are_own replica statements.now }
{
    let mut statements = statements.iter();
    statements.all(|statement| replica_of(statement.as_slice()) == replica)
}

/// The view that a statement names after its kind and its replica: the number in the four bytes there, where missing
/// bytes count as 0.
#[tactic(auto, using(crate::proofs::Rest::four_bytes))]
pub(crate) fn view_of(statement: &[u8]) -> u32
    ensures { result ≡ view_named statement.now }
{
    u32::from_be_bytes([
        byte_at(statement, 2),
        byte_at(statement, 3),
        byte_at(statement, 4),
        byte_at(statement, 5),
    ])
}

/// The parent that a local order names, if the statement is long enough.
pub(crate) fn parent_of(statement: &[u8]) -> Option<Digest>
    ensures long { IfSome result (λ parent. parent ≡ parent_named statement.now) }
    ensures short { IfNone result (length statement.now < 38) }
{
    let named = statement.get(6..38)?;
    let mut digest = [0; 32];
    digest.copy_from_slice(named);
    Some(Digest(digest))
}

/// The bytes after the first `count`.
fn following(bytes: &[u8], count: usize) -> &[u8]
    ensures { result.now ≡ drop count bytes.now }
{
    match bytes.get(count..) {
        Some(rest) => rest,
        None => &[],
    }
}

fn byte_at(bytes: &[u8], place: usize) -> u8
    ensures { result ≡ get_or bytes.now place 0 }
{
    bytes.get(place).copied().unwrap_or(0)
}
