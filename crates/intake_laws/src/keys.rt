//! Laws of keys and clocks, over lists of numbers.
ghost use Rattle.std.specs.Prelude.{◌≡◌, ◌⊎◌, ◌↔◌, ℕ, ◌+◌, ◌*◌, ◌<◌, ◌≤◌, List, length, Bool, true, false, not, ◌||◌, get_or};
ghost use Rattle.seq_base.specs.Setting.{Parameters, IsValid};
ghost use Rattle.count_set.specs.Sets.{size_of};
ghost use Rattle.intake.specs.Keys.{unknown, k_of, key_of, low_of, reaches, adopted_of, count_from};
ghost use Rattle.intake_laws.specs.Middle.{count_below, IsMiddle};
ghost use Rattle.intake_laws.specs.KeyClaims.{honest, AreStamps, AllKnown, AllTrue, AreStamped};

/// A key is at most a number exactly where k stamps are.
pub fn keys_are_reached()
    ensures { (k s : ℕ) (stamps : List ℕ) → 0 < k → s < unknown → (key_of k stamps ≤ s) ↔ (reaches k stamps s ≡ true) }
{}

/// An adopted clock is at least a number exactly where f+1 clocks are, or the number is 0.
pub fn adopted_clocks_are_reached()
    ensures { (f c : ℕ) (clocks : List ℕ) → (c ≤ adopted_of f clocks) ↔ ((c ≡ 0) ⊎ (f + 1 ≤ count_from c clocks)) }
{}

/// Of the stamps of more than f replicas, one is in the middle: f+1 of them have it or a greater one, and all but f
/// have it or a smaller one.
pub fn stamps_have_a_middle()
    ensures { (n f : ℕ) (set : ℕ → Bool) (stamp : ℕ → ℕ) → f < size_of n set → (a : ℕ) × IsMiddle n f set stamp a }
{}

/// An adopted clock is never above all honest clocks that were heard.
pub fn adopted_clocks_are_honest()
    ensures { (n f : ℕ) (faulty : ℕ → Bool) (clocks : List ℕ) → length clocks ≡ n → size_of n faulty ≤ f → 0 < adopted_of f clocks
        → (i : ℕ) × (i < n) × (faulty i ≡ false) × (adopted_of f clocks ≤ get_or clocks i 0) }
{}

/// Whatever f liars say, a key lies between the (k-f)-th and the k-th smallest honest stamp.
pub fn keys_lie_among_honest_stamps()
    ensures upper { (n k s : ℕ) (faulty : ℕ → Bool) (stamp : ℕ → ℕ) (stamps : List ℕ) → AreStamps n stamps → AllKnown n (honest faulty) stamp stamps
        → 0 < k → k ≤ count_below n (honest faulty) stamp s → key_of k stamps ≤ s }
    ensures lower { (n k s : ℕ) (faulty : ℕ → Bool) (stamp : ℕ → ℕ) (stamps : List ℕ) → AreStamps n stamps → AllTrue n (honest faulty) stamp stamps
        → s < unknown → key_of k stamps ≤ s → k ≤ count_below n (honest faulty) stamp s + size_of n faulty }
{}

/// Where every honest replica but at most f late ones stamped b after it had heard the stamps of a, the keys are in that
/// order. Where at most f replicas are faulty or late, even the low stamp of b is above the key of a.
pub fn keys_do_not_turn_round()
    ensures keys { (s : Parameters) (faulty late : ℕ → Bool) (first second : ℕ → ℕ) (one other : List ℕ) → IsValid s → AreStamps s.n one → AreStamps s.n other
        → size_of s.n faulty ≤ s.f → size_of s.n late ≤ s.f → AreStamped s faulty late first second one other
        → key_of (k_of s.n) one < key_of (k_of s.n) other }
    ensures low { (s : Parameters) (faulty late : ℕ → Bool) (first second : ℕ → ℕ) (one other : List ℕ) → IsValid s → AreStamps s.n one → AreStamps s.n other
        → size_of s.n (λ i. faulty i || late i) ≤ s.f → AreStamped s faulty late first second one other
        → key_of (k_of s.n) one < low_of s.f other }
{}
