//! What holds for the calls of every sealer, in any order and number.
ghost use Rattle.std.specs.Prelude.{ℕ, List};
ghost use Rattle.std.specs.List.{AllPairs};
ghost use Rattle.seal_kit.specs.Calls.{Call, AreCalls, UsesUp};

/// No number seals twice: after a seal with a number, each later call has a greater one.
pub fn numbers_seal_once()
    ensures { (gives : ℕ → List ℕ → List ℕ) (capacity made : ℕ) (calls : List Call)
        → AreCalls gives capacity made calls → AllPairs UsesUp calls }
{}
