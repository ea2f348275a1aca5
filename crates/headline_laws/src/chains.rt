//! What the record of a run shows of its honest replicas' committed chains.
ghost use Rattle.std.specs.Prelude.{◌≡◌, ℕ};
ghost use Rattle.run_record.specs.declared.record.RunRecord.{RunRecord};
ghost use Rattle.node_core.specs.Rows.{Check};
ghost use Rattle.chain_laws.specs.Blocks.{final_list};
ghost use Rattle.chain_laws.specs.Keeping.{AreBlocks};
ghost use Rattle.run_verdict.specs.Shown.{IsHonest};
ghost use Rattle.journal_rules.specs.Records.{arrivals_in, batches_in};
ghost use Rattle.headline_laws.specs.Chains.{CommittedChainsAgree, FinalsArrived};
ghost use Rattle.headline_laws.specs.Premises.{IsSound};
ghost use Rattle.headline_laws.specs.Records.{faulty_in, committed_in};

use agreement_laws::{
    chains_stand_on_parents, commits_are_stored, committed_chains_agree, honest_prefixes_are_kept,
    stored_blocks_have_one_chain,
};
use chain_laws::{final_lists_hold_once, proposed_transactions_arrived};
use journal_rules::statements_name_their_orders;
use wire_view::no_bytes_spell_two_messages;

/// Each block of an honest replica's committed chain has n-f orders over the blocks before it, and honest ones are drawn
/// from arrival lists. The replica's batches are the final list of the chain. One of two such chains is a prefix of the
/// other.
pub fn committed_chains_are_blocks()
    ensures blocks { (fits : Check) (run : RunRecord) (i : ℕ) → IsSound fits run → IsHonest run i
        → AreBlocks run.setting (faulty_in run) (arrivals_in run) (committed_in run i) }
    ensures list { (fits : Check) (run : RunRecord) (i : ℕ) → IsSound fits run → IsHonest run i
        → batches_in run i ≡ final_list run.setting (committed_in run i) }
    ensures agree { (fits : Check) (run : RunRecord) → IsSound fits run → CommittedChainsAgree run }
{
    committed_chains_agree();
    honest_prefixes_are_kept();
    commits_are_stored();
    chains_stand_on_parents();
    stored_blocks_have_one_chain();
    no_bytes_spell_two_messages();
    statements_name_their_orders();
}

/// What is final at an honest replica arrived at an honest replica. So faulty replicas alone make nothing final.
pub fn final_transactions_arrived()
    ensures { (fits : Check) (run : RunRecord) → IsSound fits run → FinalsArrived run }
{
    committed_chains_are_blocks();
    final_lists_hold_once();
    proposed_transactions_arrived();
}
