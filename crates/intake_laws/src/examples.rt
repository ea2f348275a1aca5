//! Small logs that can be checked by hand.
ghost use Rattle.std.specs.Prelude.{◌≡◌, [], ◌∷◌};
ghost use Rattle.seq_base.specs.Setting.{IsValid};
ghost use Rattle.majority_graph.specs.Examples.{first, second, third, five};
ghost use Rattle.intake_laws.specs.Premises.{ForHonest, AreInOrder, lifetime_of, arrivals_of};
ghost use Rattle.intake_laws.specs.OneLifetime.{AreHeardInOrder};
ghost use Rattle.intake_laws.specs.Examples.{is_faulty, is_late, log_of, history, first_stamp, reversed, excepted};

/// The premises can be met: in four logs, one of each honest replica of five, where the faulty one stamps the first
/// transaction late and the second early. In each of them the first arrives, and then the second.
pub fn premises_are_met()
    ensures valid { IsValid five }
    ensures heard { AreHeardInOrder five is_faulty log_of first_stamp first second }
    ensures in_order { AreInOrder five is_faulty is_late history first_stamp first second }
    ensures arrivals { ForHonest five is_faulty (λ r. arrivals_of five history r ≡ first ∷ second ∷ []) }
{}

/// They are needed: with a faulty and a late replica, which stamp the second transaction early, it may be let in before
/// the first where one fault is allowed. And a transaction that is given passes any other.
pub fn few_late_and_none_given_is_needed()
    ensures late { (lifetime_of five 0 reversed).arrivals ≡ second ∷ third ∷ first ∷ [] }
    ensures given { (lifetime_of five 0 excepted).arrivals ≡ second ∷ first ∷ [] }
{}
