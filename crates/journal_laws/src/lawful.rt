//! The journals of nodes are lawful.
ghost use Rattle.std.specs.Prelude.{ℕ, List};
ghost use Rattle.node_core.specs.declared.event.Event.{Event};
ghost use Rattle.node_core.specs.Runs.{opening_state, journal_of};
ghost use Rattle.node_core.specs.Reported.{Gives};
ghost use Rattle.journal_rules.specs.Rules.{Scale, IsLawful};
ghost use Rattle.journal_laws.specs.Standing.{MayCome, StandsAsReported};

use crate::sealing::each_kind_is_sealed_once_a_view;
use agreement_laws::locks_and_commits_move_as_seen;
use block_store::{stored_blocks_are_found, stored_blocks_stay};
use chain_state::a_state_stands_for_its_chain;
use quorum_cert::good_certificates_have_quorums;

/// The journal of a node is lawful, whatever events it was given, over every arrival list of which its arrivals are a
/// prefix.
pub fn journals_are_lawful()
    ensures { (gives : Gives) (by : Scale) (views me capacity : ℕ) (events : List Event) → MayCome by views me events
        → IsLawful by (journal_of by.fits gives (opening_state by.setting views me capacity) events) }
{
    locks_and_commits_move_as_seen();
    stored_blocks_stay();
    stored_blocks_are_found();
    good_certificates_have_quorums();
    a_state_stands_for_its_chain();
    each_kind_is_sealed_once_a_view();
}

/// The journal of a node shows its last state: its locked and its committed block, the view of the latter, and its
/// final batches.
pub fn journals_show_where_nodes_stand()
    ensures { (gives : Gives) (by : Scale) (views me capacity : ℕ) (events : List Event) → MayCome by views me events
        → StandsAsReported gives by views me capacity events }
{
    locks_and_commits_move_as_seen();
    stored_blocks_stay();
    stored_blocks_are_found();
    good_certificates_have_quorums();
    a_state_stands_for_its_chain();
}
