//! Laws of the calls of one desk.
ghost use Rattle.std.specs.Prelude.{◌≡◌, ◌≢◌, ℕ, ◌<◌, ◌≤◌, List, true, All, Contains, get_or};
ghost use Rattle.std.specs.List.{AllPairs};
ghost use Rattle.seq_base.specs.Setting.{Parameters, IsValid};
ghost use Rattle.intake.specs.declared.slot.Receipt.{Receipt};
ghost use Rattle.intake_laws.specs.Past.{Call};
ghost use Rattle.intake_laws.specs.Premises.{lifetime_of};
ghost use Rattle.intake_laws.specs.LifetimeClaims.{WhereCalls, SlotsAreReported};

/// At each moment of a lifetime: the own stamps ascend strictly in the order of receipt, each stamp that a held
/// transaction's slot has is one that was heard of that replica, and no clock is below a stamp that was heard.
pub fn lifetimes_keep_time()
    ensures ascending { (s : Parameters) (r : ℕ) (lifetime : List Call)
        → WhereCalls s r lifetime (AllPairs (λ x y. x.stamp < y.stamp) ((lifetime_of s r lifetime).receipts r)) }
    ensures reported { (s : Parameters) (r : ℕ) (lifetime : List Call) → WhereCalls s r lifetime (SlotsAreReported s (lifetime_of s r lifetime)) }
    ensures own_clock { (s : Parameters) (r : ℕ) (lifetime : List Call)
        → WhereCalls s r lifetime ((x : Receipt) → Contains ((lifetime_of s r lifetime).receipts r) x
        → x.stamp ≤ (lifetime_of s r lifetime).desk.clock) }
    ensures clocks { (s : Parameters) (r : ℕ) (lifetime : List Call) → WhereCalls s r lifetime ((i : ℕ) → i ≢ r → (x : Receipt)
        → Contains ((lifetime_of s r lifetime).receipts i) x → x.stamp ≤ get_or (lifetime_of s r lifetime).desk.clocks i 0) }
{}
