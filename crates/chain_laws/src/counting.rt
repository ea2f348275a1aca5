//! Where enough replicas received two transactions in one order, few lists of a block reverse it.
ghost use Rattle.std.specs.Prelude.{ℕ, ◌≡◌, ◌≢◌, ◌↔◌, List, Bool, true, false};
ghost use Rattle.seq_base.specs.Setting.{Parameters};
ghost use Rattle.seq_base.specs.declared.tx.Tx.{Tx};
ghost use Rattle.fair_laws.specs.FairClaims.{FewTurnRound};
ghost use Rattle.chain_laws.specs.Received.{Arrivals, Before, is_before};
ghost use Rattle.chain_laws.specs.Drawn.{Placed, fresh_lists, late_lists};
ghost use Rattle.chain_laws.specs.ChainClaims.{WhereFirstInBlock};

use count_set::distinct_replicas_are_counted;
use fair_laws::received_leaves_few;

/// The test `is_before` is correct: it agrees with the positions in the list.
pub fn places_show_before()
    ensures { (list : List Tx) (a b : Tx) → a ≢ b → (is_before list a b ≡ true) ↔ Before list a b }
{}

/// Where enough replicas received a before b, fewer lists of a block than the threshold hold b without an earlier a.
/// This holds for its fresh lists where a is not used yet, and for its late lists where a is waiting. Whether b waits
/// makes no difference.
pub fn few_lists_turn_round()
    ensures fresh { (s : Parameters) (faulty : ℕ → Bool) (arrivals : Arrivals) (block : Placed) (a b : Tx)
        → WhereFirstInBlock s faulty arrivals block a b (block.used a ≡ false → FewTurnRound s (fresh_lists block) a b) }
    ensures late { (s : Parameters) (faulty : ℕ → Bool) (arrivals : Arrivals) (block : Placed) (a b : Tx)
        → WhereFirstInBlock s faulty arrivals block a b (block.waiting a ≡ true → FewTurnRound s (late_lists block) a b) }
{
    distinct_replicas_are_counted();
    received_leaves_few();
}
