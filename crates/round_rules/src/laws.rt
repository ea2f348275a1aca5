//! What rounds preserve, and what it implies for the record.
ghost use Rattle.std.specs.Prelude.{ℕ, Option, None};
ghost use Rattle.plan_text.specs.declared.plan.Plan.{Plan};
ghost use Rattle.node_core.specs.Rows.{Check};
ghost use Rattle.node_core.specs.Reported.{Gives};
ghost use Rattle.run_record.specs.declared.record.RunRecord.{RunRecord};
ghost use Rattle.round_rules.specs.RoundClaims.{RoundGoesOn, KnowAtCuts, Logs, LogsHold, ShowsTicks};
ghost use Rattle.round_rules.specs.Moments.{Moment};
ghost use Rattle.round_rules.specs.Rounds.{HasGone, IsRound, nothing};

/// If each log holds what has to be known when a round begins, and ticks come only when all that the links give was
/// delivered, each round preserves what held at the ticks and before the deliveries so far.
pub fn rounds_keep_what_was_so()
    ensures first { (fits : Check) (plan : Plan) (gives : ℕ → Gives) (capacity : ℕ) (new : Moment) (logs : Logs)
        → IsRound plan None logs nothing new → LogsHold plan 0 0 logs → HasGone fits plan gives capacity 1 0 0 new }
    ensures more { (fits : Check) (plan : Plan) (gives : ℕ → Gives) (capacity : ℕ) (old new : Moment) (tick : Option ℕ)
        → RoundGoesOn fits plan gives capacity old new tick }
{}

/// What the rounds so far preserved implies what `Ran` requires of the record's ticks, and of what its nodes know at
/// each cut.
pub fn rounds_are_what_a_record_says()
    ensures ticks { (fits : Check) (plan : Plan) (gives : ℕ → Gives) (capacity : ℕ) (run : RunRecord) (rounds base : ℕ) (m : Moment)
        → ShowsTicks fits plan gives capacity run rounds base m }
    ensures fed { (fits : Check) (plan : Plan) (gives : ℕ → Gives) (capacity rounds ticks base : ℕ) (m : Moment)
        → HasGone fits plan gives capacity rounds ticks base m → KnowAtCuts plan ticks m }
{}
