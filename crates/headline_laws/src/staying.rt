//! Final batches stay final.
ghost use Rattle.std.specs.Prelude.{◌≡◌, ◌++◌, ℕ, List};
ghost use Rattle.node_core.specs.declared.entry.Entry.{Entry};
ghost use Rattle.node_core.specs.Rows.{Check};
ghost use Rattle.run_record.specs.declared.record.RunRecord.{RunRecord};
ghost use Rattle.run_verdict.specs.Shown.{IsHonest};
ghost use Rattle.journal_rules.specs.Records.{journal_in};
ghost use Rattle.journal_rules.specs.Rules.{finals_of};
ghost use Rattle.headline_laws.specs.Headline.{Begins};
ghost use Rattle.headline_laws.specs.Premises.{IsSound};

use agreement_laws::{
    chains_stand_on_parents, commits_are_stored, committed_chains_agree, honest_prefixes_are_kept,
    locks_and_commits_move_as_seen, stored_blocks_have_one_chain,
};
use chain_laws::longer_chains_have_longer_lists;
use journal_rules::statements_name_their_orders;
use wire_view::no_bytes_spell_two_messages;

/// What an honest replica's batch list was after a part of its journal is a prefix of what it was later. A commit moves to a
/// block of a greater view, whichever that is: that this block extends the last one rests on agreement, and so on the same
/// premise as the headline.
pub fn final_batches_stay()
    ensures { (fits : Check) (run : RunRecord) (r : ℕ) (before more after : List Entry) → IsSound fits run → IsHonest run r
        → journal_in run r ≡ (before ++ more) ++ after
        → Begins (finals_of run.setting before) (finals_of run.setting (before ++ more)) }
{
    committed_chains_agree();
    honest_prefixes_are_kept();
    commits_are_stored();
    chains_stand_on_parents();
    stored_blocks_have_one_chain();
    locks_and_commits_move_as_seen();
    no_bytes_spell_two_messages();
    statements_name_their_orders();
    longer_chains_have_longer_lists();
}
