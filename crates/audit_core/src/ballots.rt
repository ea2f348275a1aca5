//! The votes that a turn sealed.
ghost use Rattle.std.specs.Prelude.{◌≡◌, ◌∷◌, [], IsTrue};
ghost use Rattle.hotstuff_core.specs.Rules.{voted_in};
ghost use Rattle.audit_core.specs.Voting.{votes_in, rises_from, last_view};

use crate::statements::ballot_in;
use hotstuff_core::Safety;
use seq_base::Bytes;

/// Rule 4: whether the view of each vote is above those before it and above the lock's. Records each vote.
pub(crate) fn vote_all(safety: &mut Safety, lock_view: u32, statements: &[Bytes]) -> bool
    ensures test { result ≡ rises_from lock_view safety.old.voted (votes_in statements.now) }
    ensures others { safety.new ≡ voted_in safety.new.voted safety.old }
    ensures voted { IsTrue result → safety.new.voted ≡ last_view safety.old.voted (votes_in statements.now) }
{
    for statement in statements {
        if !vote_of(safety, lock_view, statement) {
            return false;
        }
    }
    true
}

/// The same for one statement, which may not be a vote.
fn vote_of(safety: &mut Safety, lock_view: u32, statement: &Bytes) -> bool
    ensures test { result ≡ rises_from lock_view safety.old.voted (votes_in (statement.now ∷ [])) }
    ensures others { safety.new ≡ voted_in safety.new.voted safety.old }
    ensures voted { IsTrue result → safety.new.voted ≡ last_view safety.old.voted (votes_in (statement.now ∷ [])) }
{
    let Some((view, _)) = ballot_in(statement.as_slice()) else {
        return true;
    };
    if view <= safety.voted() || view <= lock_view {
        return false;
    }
    safety.vote(view);
    true
}
