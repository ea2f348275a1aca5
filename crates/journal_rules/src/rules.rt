//! Consequences of the rules, and what their tests return.
ghost use Rattle.std.specs.Prelude.{◌≡◌, ◌≤◌, ◌↔◌, ◌^◌, ◌<◌, List, [], ◌∷◌, ◌++◌, map, length, get_or, Some, None, All};
ghost use Rattle.seq_base.specs.declared.kinds.TheConstants.{ORDER};
ghost use Rattle.seq_base.specs.declared.order.LocalOrder.{LocalOrder};
ghost use Rattle.seq_base.specs.Spelling.{order_spelling};
ghost use Rattle.agreement_laws.specs.Lawful.{KeepsVotingRule as Agrees};
ghost use Rattle.agreement_laws.specs.Seen.{IsKeptPrefix};
ghost use Rattle.node_core.specs.declared.entry.Entry.{Entry};
ghost use Rattle.journal_rules.specs.Rules.{Scale, Place, Knows, Takes, Draws, IsLawful, IsOwnOrder, BreaksFirst, replica_named, view_named, parent_named};
ghost use Rattle.journal_rules.specs.Shown.{shown};
ghost use Rattle.journal_rules.specs.Tests.{first_broken};

use quorum_cert::good_certificates_have_quorums;

/// The count of known arrivals never decreases from an entry to the next.
pub fn kept_never_falls()
    ensures { (by : Scale) (before : List Entry) (e f : Entry) → Knows by before e → Knows by (before ++ e ∷ []) f → e.turned.kept ≤ f.turned.kept }
{}

/// The image of a lawful journal satisfies the premises of the laws of agreement.
pub fn lawful_journals_agree()
    ensures agrees { (by : Scale) (journal : List Entry) → IsLawful by journal → Agrees by.setting (map shown journal) }
    ensures kept { (by : Scale) (journal : List Entry) → IsLawful by journal → IsKeptPrefix by.setting (map shown journal) }
{}

/// The statement of a local order names the replica, the view and the parent of the order. If an entry keeps rules 2
/// and 3, each order that it seals is one of the journal's own replica.
pub fn statements_name_their_orders()
    ensures replica { (order : LocalOrder) → order.replica < 256 → replica_named (order_spelling order) ≡ order.replica }
    ensures view { (order : LocalOrder) → order.view < 2 ^ 32 → view_named (order_spelling order) ≡ order.view }
    ensures parent { (order : LocalOrder) → length order.parent.0 ≡ 32 → parent_named (order_spelling order) ≡ order.parent }
    ensures own { (by : Scale) (before : List Entry) (e : Entry) → Takes by before e → Draws by before e
        → All (λ statement. get_or statement 0 0 ≡ ORDER → IsOwnOrder by statement) e.turned.sealed }
{}

/// The tests find nothing exactly where a journal is lawful. Otherwise they find the first entry that breaks a rule,
/// and the least rule that it breaks.
pub fn tests_decide_rules()
    ensures none { (by : Scale) (journal : List Entry) → (first_broken by journal ≡ None) ↔ IsLawful by journal }
    ensures some { (by : Scale) (journal : List Entry) (at : Place) → first_broken by journal ≡ Some at → BreaksFirst by journal at }
{
    good_certificates_have_quorums();
}
