//! A small block that can be checked by hand.
ghost use Rattle.std.specs.Prelude.{◌≡◌, ◌≤◌, [], ◌∷◌};
ghost use Rattle.seq_base.specs.Setting.{IsValid, threshold_of};
ghost use Rattle.majority_graph.specs.Examples.{first, second, five};
ghost use Rattle.count_set.specs.Sets.{size_of};
ghost use Rattle.fair_laws.specs.Earlier.{without_earlier};
ghost use Rattle.chain_laws.specs.Received.{Received};
ghost use Rattle.chain_laws.specs.Drawn.{IsBlock, fresh_lists};
ghost use Rattle.chain_laws.specs.Chain.{IsChain, FreshAreUnused, IsFinalised};
ghost use Rattle.chain_laws.specs.Examples.{is_last, alike, opening};

/// The premises can be met. All of five replicas received the first before the second. A block of four orders, one of
/// a faulty replica that reverses them, is a chain. One of its lists reverses them, where two would reach the
/// threshold.
pub fn premises_are_met()
    ensures valid { IsValid five }
    ensures few { size_of five.n is_last ≤ five.f }
    ensures received { Received five is_last alike first second }
    ensures block { IsBlock five is_last alike opening }
    ensures chain { IsChain five is_last alike (opening ∷ []) }
    ensures unused { FreshAreUnused (opening ∷ []) }
    ensures batches { IsFinalised five (opening ∷ []) (((first ∷ []) ∷ (second ∷ []) ∷ []) ∷ []) }
    ensures turned { without_earlier (fresh_lists opening) second first ≡ 1 }
    ensures threshold { threshold_of five ≡ 2 }
{}
