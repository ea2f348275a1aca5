//! What the chain of a replica says.
use seq_base::{NoMemory, Tx};

/// What the chain of a replica says of a transaction.
pub trait Chain {
    ghost use Rattle.std.specs.Prelude.{◌≡◌, Bool, IfOk};
    ghost use Rattle.seq_base.specs.declared.tx.Tx.{Tx};

    /// Whether a block of the certified chain proposes it.
    ghost proposes: { Self → Tx → Bool };

    fn is_proposed(&self, tx: &Tx) -> Result<bool, NoMemory>
        ensures { IfOk result (λ proposed. proposed ≡ proposes self.now tx.now) };
}

/// Only those that no block proposes stay.
pub(crate) fn keep_unproposed<C: Chain>(chain: &C, txs: &mut Vec<Tx>) -> Result<(), NoMemory> {
    let mut kept = 0;
    for at in 0..txs.len() {
        if !chain.is_proposed(&txs[at])? {
            txs[kept] = txs[at];
            kept += 1;
        }
    }
    txs.truncate(kept);
    Ok(())
}
