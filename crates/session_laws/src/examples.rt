//! Two sessions that can be checked by hand: the rules can be met, and none can be left out.
ghost use Rattle.std.specs.Prelude.{◌≡◌, ◌++◌, [], ◌∷◌, ℕ, true};
ghost use Rattle.seq_base.specs.Lists.{AreDistinct, holds};
ghost use Rattle.majority_graph.specs.Examples.{first, second, third, five};
ghost use Rattle.chain_state.specs.Proposals.{joined};
ghost use Rattle.chain_laws.specs.Blocks.{final_list};
ghost use Rattle.chain_laws.specs.Examples.{is_last};
ghost use Rattle.chain_laws.specs.Keeping.{AreBlocks};
ghost use Rattle.chain_laws.specs.Proposed.{IsProposedAt};
ghost use Rattle.chain_laws.specs.Received.{Received};
ghost use Rattle.chain_laws.specs.SmallChain.{both};
ghost use Rattle.headline_laws.specs.Headline.{Begins};
ghost use Rattle.session_rules.specs.Cuts.{marker};
ghost use Rattle.session_rules.specs.Histories.{HasEndedBefore, cut_in, history};
ghost use Rattle.session_rules.specs.Rules.{ArrivesInTurn, ArrivesNew, CarriesFirst, CarriesOver};
ghost use Rattle.session_laws.specs.Examples.{again, carrying, cut, early, hasty, marked, patient, repeated, slow, turned};

use chain_laws::a_second_block_completes_a_chain;

/// A replica may end a session and carry over what is final after the marker.
pub fn a_replica_may_carry_over()
    ensures ended { HasEndedBefore cut 1 }
    ensures carries { CarriesOver 2 cut carrying }
    ensures history { history cut 1 ≡ (first ∷ []) ∷ (marker 0 ∷ []) ∷ (second ∷ []) ∷ [] }
{}

/// Where what is in the history may arrive again, a history may hold a transaction twice.
pub fn histories_need_new_receipts()
    ensures in_turn { ArrivesInTurn 2 repeated again }
    ensures carries { CarriesFirst 2 repeated again }
    ensures distinct { (session : ℕ) → AreDistinct (joined (repeated session)) }
    ensures twice { ¬ AreDistinct (joined (history repeated 1)) }
{}

/// Where something may arrive at a replica that has not ended the session before, this may be what others have finalised
/// there, and their histories may hold it twice.
pub fn histories_need_receipts_in_turn()
    ensures agree { (session : ℕ) → Begins (slow session) (repeated session) }
    ensures new { ArrivesNew 2 slow early }
    ensures unended { ¬ HasEndedBefore slow 1 }
    ensures arrived { holds first (early 1) ≡ true }
    ensures cut { cut_in repeated 1 ≡ (first ∷ []) ∷ [] }
    ensures twice { ¬ AreDistinct (joined (history repeated 1)) }
{}

/// Where a replica continues from a list without the marker, histories may differ, though the lists of each session agree.
pub fn histories_need_ended_sessions()
    ensures agree { (session : ℕ) → Begins (hasty session) (patient session) }
    ensures ended { HasEndedBefore patient 1 }
    ensures one { ¬ Begins (history hasty 1) (history patient 1) }
    ensures other { ¬ Begins (history patient 1) (history hasty 1) }
{}

/// Where what is carried over need not come first, and in its order, fairness over sessions may fail. All of five replicas
/// received the second transaction before the first. The session ends, and nothing but its marker counts. The next one
/// proposes both, in a chain of valid blocks, and finalises the first before the second.
pub fn fairness_needs_carrying()
    ensures ended { HasEndedBefore marked 1 }
    ensures in_turn { (r : ℕ) → ArrivesInTurn 2 marked (turned r) }
    ensures new { (r : ℕ) → ArrivesNew 2 marked (turned r) }
    ensures received { Received five is_last (λ r. turned r 0 ++ turned r 1) second first }
    ensures blocks { AreBlocks five is_last (λ r. turned r 1) both }
    ensures list { final_list five both ≡ marked 1 }
    ensures proposed { IsProposedAt five both 0 first }
    ensures alongside { IsProposedAt five both 0 second }
    ensures cut { cut_in marked 1 ≡ (first ∷ []) ∷ (second ∷ []) ∷ (third ∷ []) ∷ [] }
{
    a_second_block_completes_a_chain();
}
