//! Small traces that can be checked by hand.
ghost use Rattle.std.specs.Prelude.{◌≡◌, ◌<◌, [], ◌∷◌, All, Some, None};
ghost use Rattle.run_record.specs.declared.verdict.Verdict.TheVariants.{Done, Stalled};
ghost use Rattle.node_core.specs.Rows.{Check};
ghost use Rattle.journal_rules.specs.Examples.{tx};
ghost use Rattle.run_verdict.specs.Verdicts.{verdict_of};
ghost use Rattle.audit_core.specs.Unlawful.{first_unlawful_of, unlawful_at};
ghost use Rattle.journal_rules.specs.Tests.{place};
ghost use Rattle.trace_form.specs.Contents.{contents_of, bared};
ghost use Rattle.trace_form.specs.Fitting.{Traces};
ghost use Rattle.trace_form.specs.Spelling.{contents_spelling};
ghost use Rattle.audit_laws.specs.Examples.{one_view, heard};

/// The premises of an audit can be met: bytes spell a trace in which a transaction arrived at each honest replica, no
/// place of it is unlawful, and its verdict is Stalled.
pub fn a_passing_trace_may_hold_arrivals()
    ensures spelled { Traces (bared (heard []) one_view) (contents_spelling (contents_of (heard []) one_view)) }
    ensures bytes { All (λ b. b < 256) (contents_spelling (contents_of (heard []) one_view)) }
    ensures lawful { (fits : Check) → first_unlawful_of fits (bared (heard []) one_view).run ≡ None }
    ensures stalled { (fits : Check) → verdict_of fits (bared (heard []) one_view).run ≡ Stalled }
{}

/// A verdict alone is no audit. If each honest replica lists the transaction as final, and no chain contains it, the
/// verdict is Done, and the audit finds the first such list.
pub fn a_verdict_does_not_see_lists_without_chains()
    ensures verdict { (fits : Check) → verdict_of fits (bared (heard ((tx ∷ []) ∷ [])) one_view).run ≡ Done }
    ensures audit { (fits : Check) → first_unlawful_of fits (bared (heard ((tx ∷ []) ∷ [])) one_view).run ≡ Some (unlawful_at 0 (place 1 7)) }
{}
