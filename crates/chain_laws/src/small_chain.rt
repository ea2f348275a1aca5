//! A small chain that can be checked by hand.
ghost use Rattle.std.specs.Prelude.{◌≡◌, ◌≤◌, [], ◌∷◌};
ghost use Rattle.seq_base.specs.Setting.{IsValid};
ghost use Rattle.majority_graph.specs.Examples.{first, second, third, five};
ghost use Rattle.count_set.specs.Sets.{size_of};
ghost use Rattle.chain_laws.specs.Examples.{is_last};
ghost use Rattle.chain_laws.specs.Received.{Received};
ghost use Rattle.chain_laws.specs.Blocks.{final_list};
ghost use Rattle.chain_laws.specs.SmallChain.{arrived, one, both};
ghost use Rattle.chain_laws.specs.Keeping.{AreBlocks};
ghost use Rattle.chain_laws.specs.Proposed.{IsProposedAt};

use crate::premises_are_met;

/// The premises can be met. All but one of five replicas received the first before the second, and that one reverses
/// them in a block that proposes both. With this block alone nothing is final. With the next one all is, the first
/// before the second.
pub fn a_second_block_completes_a_chain()
    ensures valid { IsValid five }
    ensures few { size_of five.n is_last ≤ five.f }
    ensures received { Received five is_last arrived first second }
    ensures blocks { AreBlocks five is_last arrived both }
    ensures proposed { IsProposedAt five both 0 second }
    ensures alongside { IsProposedAt five both 0 first }
    ensures early { final_list five (one ∷ []) ≡ [] }
    ensures list { final_list five both ≡ (first ∷ []) ∷ (second ∷ []) ∷ (third ∷ []) ∷ [] }
{
    premises_are_met();
}
