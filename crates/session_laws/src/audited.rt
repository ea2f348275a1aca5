//! Services of which an auditor has checked one session after another.
ghost use Rattle.std.specs.Prelude.{◌≡◌, ◌||◌, ◌++◌, ◌∷◌, [], ℕ, List};
ghost use Rattle.seq_base.specs.declared.tx.Tx.{Tx};
ghost use Rattle.seq_base.specs.Lists.{holds};
ghost use Rattle.run_record.specs.Done.{is_finalised};
ghost use Rattle.node_core.specs.Rows.{Check};
ghost use Rattle.session_rules.specs.Final.{MayFollow, is_known};
ghost use Rattle.session_laws.specs.Audited.{Histories, IsAuditedService, KnowsHistory, audited_starts};
ghost use Rattle.session_laws.specs.Service.{IsService};
ghost use Rattle.session_laws.specs.Sessions.{History, Sessions};

/// Where the records are sound, each session was ended by an honest replica's marker, and the arrivals of each honest replica
/// have passed the check, the laws over sessions hold, also where replicas took a history from another.
pub fn audited_services_serve()
    ensures { (fits : ℕ → Check) (sessions : Sessions) (before : Histories) (many : ℕ)
        → IsAuditedService fits sessions before many → IsService fits sessions (audited_starts before) many }
{}

/// The set of `FinalTxs` (`session_rules`) has what is in the history: at first, and with each batch that is added. So what it
/// lets arrive may follow the history.
pub fn sets_know_histories()
    ensures first { KnowsHistory [] [] }
    ensures more { (keys later batch : List Tx) (history : History) → KnowsHistory keys history
        → ((t : Tx) → is_known later t ≡ (is_known keys t || holds t batch)) → KnowsHistory later (history ++ batch ∷ []) }
    ensures arrivals { (keys before arrived : List Tx) (history : History) → KnowsHistory keys history
        → MayFollow (is_known keys) before arrived → MayFollow (is_finalised history) before arrived }
{}
