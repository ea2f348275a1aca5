//! Short journals, each of which breaks one rule.
ghost use Rattle.std.specs.Prelude.{[], ◌∷◌};
ghost use Rattle.seq_base.specs.Blocks.{first_digest};
ghost use Rattle.seq_base.specs.declared.block.Block.{Block};
ghost use Rattle.journal_rules.specs.Examples.{none_fits, all_fit, forgetting, taking_without_doing, naming_another, calling_twice, taking_vote, unknown, sealing_no_order, voting_for_nothing, one_arrives, BreaksAlone, BreaksAloneAfter};
ghost use Rattle.journal_rules.specs.Proposals.{child, grandchild, locked_on_child, of_one, proposed, voted_for, Collide, HaveOwnDigests};

use wire_view::spellings_are_read;

/// No rule follows from the others: for each rule there is an entry that breaks it alone. Rule 2 has one entry for each
/// of its parts. Rule 5 has a second entry, which delivers the block that it votes for (`lock`). Three entries depend
/// on digests. Those of `rises` and `lock` deliver given blocks, and assume that the digests of these differ. The one
/// of `alone` assumes two valid blocks with the same digest: only such blocks, or one with the first block's digest,
/// break that part.
pub fn no_rule_is_idle()
    // Rule 1.
    ensures knows { BreaksAlone (one_arrives all_fit) forgetting 1 }
    // Rule 2: what a refused turn does, what is sealed, and what votes and blocks are accepted.
    ensures idle { BreaksAlone (one_arrives all_fit) taking_without_doing 2 }
    ensures own { BreaksAlone (one_arrives all_fit) naming_another 2 }
    ensures once { BreaksAlone (one_arrives all_fit) calling_twice 2 }
    ensures fits { BreaksAlone (one_arrives none_fits) (taking_vote 0 first_digest) 2 }
    ensures stored { BreaksAlone (one_arrives all_fit) (taking_vote 1 unknown) 2 }
    ensures alone { (a b : Block) → Collide a b → BreaksAloneAfter of_one (proposed a ∷ []) (proposed b) 2 }
    // Rule 3.
    ensures draws { BreaksAlone (one_arrives all_fit) sealing_no_order 3 }
    // Rule 4.
    ensures rises { HaveOwnDigests (child 2 ∷ child 1 ∷ []) → BreaksAloneAfter of_one (voted_for (child 2) ∷ []) (voted_for (child 1)) 4 }
    // Rule 5.
    ensures votes { BreaksAlone (one_arrives all_fit) voting_for_nothing 5 }
    ensures lock { HaveOwnDigests (child 1 ∷ grandchild ∷ child 3 ∷ []) → BreaksAloneAfter of_one locked_on_child (voted_for (child 3)) 5 }
{
    spellings_are_read();
}
