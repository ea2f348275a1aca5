//! Small records that can be checked by hand.
ghost use Rattle.std.specs.Prelude.{◌≡◌, ◌≢◌, ◌≤◌, ◌<◌, ℕ, List, All};
ghost use Rattle.seq_base.specs.Lists.{AreDistinct};
ghost use Rattle.seq_base.specs.Setting.{IsValid, Parameters};
ghost use Rattle.seq_base.specs.Tx.{FitsTx};
ghost use Rattle.seq_base.specs.Writable.{IsWritableBlock};
ghost use Rattle.seq_base.specs.declared.block.Block.{Block};
ghost use Rattle.seq_base.specs.declared.tx.Tx.{Tx};
ghost use Rattle.node_core.specs.Rows.{Check};
ghost use Rattle.block_store.specs.Store.{block_digest};
ghost use Rattle.run_verdict.specs.Shown.{IsCollided};
ghost use Rattle.journal_rules.specs.Records.{arrivals_in};
ghost use Rattle.headline_laws.specs.Examples.{idle, parted, waiting};
ghost use Rattle.headline_laws.specs.Headline.{Agree};
ghost use Rattle.headline_laws.specs.Premises.{IsSound};

use wire_view::spellings_are_read;

/// The premises can be met, by a run in which nothing was delivered to any replica, whether anything arrived or not.
pub fn a_sound_record_may_be_idle()
    ensures idle { (fits : Check) (s : Parameters) → IsValid s → IsSound fits (idle s) }
    ensures waiting { (fits : Check) (s : Parameters) (arrivals : List (List Tx)) → IsValid s
        → ((r : ℕ) → r < s.n → AreDistinct (arrivals_in (waiting s arrivals) r))
        → ((r : ℕ) → r < s.n → All FitsTx (arrivals_in (waiting s arrivals) r)) → IsSound fits (waiting s arrivals) }
{}

/// A record of two honest replicas that were given two different blocks with the same digest, one each, and whose batch
/// lists differ, shows the collision. The lists are written by hand: they do not follow from the journals here.
pub fn lists_may_part_where_blocks_collide()
    ensures { (s : Parameters) (a b : Block) → 2 ≤ s.n → IsWritableBlock a → IsWritableBlock b → a ≢ b → block_digest a ≡ block_digest b
        → IsCollided (parted s a b) × (¬ Agree (parted s a b)) }
{
    spellings_are_read();
}
