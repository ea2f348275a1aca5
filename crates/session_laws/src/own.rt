//! Services in which no replica takes a history from another.
ghost use Rattle.std.specs.Prelude.{ℕ};
ghost use Rattle.node_core.specs.Rows.{Check};
ghost use Rattle.session_laws.specs.OwnHistories.{IsOwnService, own_starts};
ghost use Rattle.session_laws.specs.Service.{IsService};
ghost use Rattle.session_laws.specs.Sessions.{Sessions};

/// Where each honest replica carries over by the rules, and each starts from its own history, the laws over sessions hold.
/// `carries_over` (`session_rules`) decides these rules from a replica's lists.
pub fn own_histories_serve()
    ensures { (fits : ℕ → Check) (sessions : Sessions) (many : ℕ)
        → IsOwnService fits sessions many → IsService fits sessions (own_starts sessions) many }
{}
