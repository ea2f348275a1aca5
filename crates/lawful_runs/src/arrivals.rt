//! Arrival lists of plans.
ghost use Rattle.std.specs.Prelude.{◌≡◌, ℕ, ◌<◌, List, Ok};
ghost use Rattle.plan_text.specs.declared.plan.Plan.{Plan};
ghost use Rattle.plan_text.specs.Plans.{plan_of};
ghost use Rattle.plan_text.specs.Rules.{KeepsRules};
ghost use Rattle.replica_seat.specs.Feed.{timed_for, txs_of};
ghost use Rattle.replica_seat.specs.Arrivals.{IsArrivalList};

use plan_text::plans_keep_transactions_apart;

/// The arrivals of a replica of a plan that was read, from the clients and from the plan's arrivals, are distinct,
/// within the widths of a transaction, and no more than a log holds.
pub fn plans_have_proper_arrival_lists()
    ensures { (bytes : List ℕ) (plan : Plan) (r : ℕ) → plan_of bytes ≡ Ok plan → KeepsRules plan → r < plan.setting.n
        → IsArrivalList (txs_of (timed_for plan r)) }
{
    plans_keep_transactions_apart();
}
