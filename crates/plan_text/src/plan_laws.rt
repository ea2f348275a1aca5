//! What every plan meets beyond its rules: a law, which is the contract of a function with an empty body.
ghost use Rattle.std.specs.Prelude.{◌≡◌, ℕ, List, Ok};
ghost use Rattle.plan_text.specs.declared.plan.Plan.{Plan};
ghost use Rattle.plan_text.specs.Apart.{KeepsApart};
ghost use Rattle.plan_text.specs.Plans.{plan_of};

/// A plan that is read with no fault gives no replica a transaction twice. Its clients differ, and the arrivals in
/// addition to their transactions are distinct and no client's.
pub fn plans_keep_transactions_apart()
    ensures { (bytes : List ℕ) (plan : Plan) → plan_of bytes ≡ Ok plan → KeepsApart plan }
{}
