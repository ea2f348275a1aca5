ghost use Rattle.std.specs.Prelude.{◌≡◌, ◌≤◌, ◌||◌, length, IsOk, OnOk};
ghost use Rattle.std.specs.HashSet.{spare};
ghost use Rattle.seq_base.specs.declared.tx.Tx.{Tx};
ghost use Rattle.seq_base.specs.Lists.{holds};
ghost use Rattle.chain_state.specs.Keeping.{is_among};

use seq_base::{NoMemory, Tx};
use std::collections::HashSet;

/// Inserts each of these. Where the set has room for them, the call does not fail.
pub(crate) fn insert_all(set: &mut HashSet<Tx>, txs: &[Tx]) -> Result<(), NoMemory>
    ensures inserted { OnOk result ((t : Tx) → is_among set.new.keys t ≡ (is_among set.old.keys t || holds t txs.now)) }
    ensures room { length txs.now ≤ spare set.old → IsOk result }
{
    for tx in txs {
        set.insert(*tx)?;
    }
    Ok(())
}
