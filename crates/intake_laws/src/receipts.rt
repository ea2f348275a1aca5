//! From receipts to arrivals.
ghost use Rattle.std.specs.Prelude.{◌≡◌, ℕ, List, Bool, true, false};
ghost use Rattle.seq_base.specs.Setting.{Parameters, IsValid};
ghost use Rattle.seq_base.specs.declared.tx.Tx.{Tx};
ghost use Rattle.chain_laws.specs.Received.{Received, is_before};
ghost use Rattle.intake_laws.specs.Past.{Call};
ghost use Rattle.intake_laws.specs.Premises.{History, ForHonest, AreInOrder, arrivals_of};
ghost use Rattle.intake_laws.specs.OneLifetime.{lifetimes_of, AreHeardInOrder};

/// Where the logs show that a was received before b, each honest replica's arrival list holds a without an earlier b.
/// So enough replicas received a before b in the sense of batch order fairness, for every γ.
pub fn receipts_decide_arrivals()
    ensures first { (s : Parameters) (faulty late : ℕ → Bool) (history : History) (stamp : ℕ → ℕ) (a b : Tx) → IsValid s
        → AreInOrder s faulty late history stamp a b → ForHonest s faulty (λ r. is_before (arrivals_of s history r) a b ≡ true) }
    ensures received { (s : Parameters) (faulty late : ℕ → Bool) (history : History) (stamp : ℕ → ℕ) (a b : Tx) → IsValid s
        → AreInOrder s faulty late history stamp a b → Received s faulty (arrivals_of s history) a b }
{}

/// Where no replica restarted, it is enough that every honest replica received b after it had heard the stamps of a, that
/// these are true, and that b was not given: then a waits ahead of b wherever b arrives, or has arrived.
pub fn first_lifetimes_need_less()
    ensures { (s : Parameters) (faulty : ℕ → Bool) (log : ℕ → List Call) (stamp : ℕ → ℕ) (a b : Tx) → IsValid s
        → AreHeardInOrder s faulty log stamp a b → AreInOrder s faulty (λ r. false) (lifetimes_of log) stamp a b }
{}
