//! The rules that the journal of an honest replica obeys, and their tests. No code.
//!
//! A crate above may rely on this. Each rule is a statement about an entry and the prefix before it. The tests find
//! where a journal first breaks a rule, and which rule it is. The laws of agreement apply to every lawful journal
//! (`rules`). For each rule some entry breaks it alone (`examples`). Each law is the contract of a function that only
//! names what it rests on. The definitions are in `specs/`. The crate stands on `node_core`, whose journals it checks,
//! and on `agreement_laws`, to whose journals it maps them. It must not know how a journal came about.
#![tactic(auto)]

mod examples;
mod rules;

pub use examples::no_rule_is_idle;
pub use rules::{
    kept_never_falls, lawful_journals_agree, statements_name_their_orders, tests_decide_rules,
};
