//! What a log shows of the events that it was made of.
ghost use Rattle.std.specs.Prelude.{◌≡◌, ◌≢◌, ◌++◌, ◌∷◌, ℕ, List, length, All};
ghost use Rattle.node_core.specs.declared.event.Event.{Event};
ghost use Rattle.durable_node.specs.Incarnations.{IsPrefixOf};
ghost use Rattle.durable_node.specs.Log.{CanBeKept, IsBadAt, IsWholePrefix, IsWrong, digest_after, record_of, records_of, size_check};

/// A log is read back, wherever it ends: the whole records are a prefix of its events, and none of them is corrupt. The
/// records follow a running digest, that of the log's header.
pub fn logs_are_read_back()
    ensures whole { (digest : List ℕ) (events : List Event) → All CanBeKept events
        → IsWholePrefix digest (records_of digest events) events (length (records_of digest events)) }
    ensures cut { (digest : List ℕ) (events read : List Event) (log : List ℕ) (end : ℕ) → All CanBeKept events → IsPrefixOf log (records_of digest events)
        → IsWholePrefix digest log read end → IsPrefixOf read events }
    ensures good { (digest : List ℕ) (events : List Event) (log : List ℕ) (at : ℕ) → All CanBeKept events
        → IsPrefixOf log (records_of digest events) → IsBadAt digest log at → ⊥ }
    // Bytes have at most one longest prefix of whole records, at most one first corrupt record, and never both.
    ensures one_prefix { (digest log : List ℕ) (a b : List Event) (i j : ℕ) → IsWholePrefix digest log a i → IsWholePrefix digest log b j → (a ≡ b) × (i ≡ j) }
    ensures one_place { (digest log : List ℕ) (i j : ℕ) → IsBadAt digest log i → IsBadAt digest log j → i ≡ j }
    ensures either { (digest log : List ℕ) (events : List Event) (end at : ℕ) → IsWholePrefix digest log events end → IsBadAt digest log at → ⊥ }
    // A record whose check does not match is corrupt. It is never taken for a torn one.
    ensures corrupt { (digest : List ℕ) (events : List Event) (rest : List ℕ) → All CanBeKept events → IsWrong (digest_after digest events) rest
        → IsBadAt digest (records_of digest events ++ rest) (length (records_of digest events)) }
    // So is a record that was made after another running digest, as one of another log: unless both digests give its length
    // the same check. Then the two are the same digest, or two different texts have the same check.
    ensures moved { (digest other : List ℕ) (events : List Event) (e : Event) (more : List ℕ) → All CanBeKept events
        → size_check (digest_after digest events) e ≢ size_check other e
        → IsBadAt digest (records_of digest events ++ (record_of other e ++ more)) (length (records_of digest events)) }
    // Records are left out in the middle of a log: the one that follows is corrupt.
    ensures left_out { (digest : List ℕ) (a out : List Event) (e : Event) (more : List Event) → All CanBeKept a
        → size_check (digest_after digest a) e ≢ size_check (digest_after digest (a ++ out)) e
        → IsBadAt digest (records_of digest a ++ records_of (digest_after digest (a ++ out)) (e ∷ more)) (length (records_of digest a)) }
    // Two records are exchanged: the one that now comes first is corrupt, whatever follows it.
    ensures exchanged { (digest : List ℕ) (a between : List Event) (first second : Event) (more : List ℕ) → All CanBeKept a
        → size_check (digest_after digest a) second ≢ size_check (digest_after digest (a ++ first ∷ between)) second
        → IsBadAt digest (records_of digest a ++ (record_of (digest_after digest (a ++ first ∷ between)) second ++ more)) (length (records_of digest a)) }
{}
