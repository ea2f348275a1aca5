//! What a host asks of a node between its turns. No answer changes the node.
ghost use Rattle.std.specs.Prelude.{◌≡◌, length, slice_get, IfOk};
ghost use Rattle.chain_state.specs.Standings.{at_most_usize, finals, is_used};
ghost use Rattle.node_core.specs.State.{kept_of};
ghost use Rattle.node_core.specs.Rows.{chain_at};

use super::Node;
use seal_kit::Sealer;
use seq_base::{NoMemory, Tx, TxList};

impl<S: Sealer> Node<S> {
    /// The number of transactions that arrived, at most `u32::MAX`. It is the `kept` of the last turn.
    pub fn kept(&self) -> u32
        ensures { result ≡ kept_of self.now.state.known }
    {
        self.state.kept()
    }

    /// The number of final batches, at most `usize::MAX`.
    pub fn batch_count(&self) -> Result<usize, NoMemory>
        ensures { IfOk result (λ count. count ≡ at_most_usize (length (finals (chain_at self.now.state.known self.now.state.known.safety.committed)))) }
    {
        self.state.batch_count()
    }

    /// The final batch at a position, from 0 on, or `None` from [`Node::batch_count`] on. Only this batch is copied.
    pub fn batch(&self, at: usize) -> Result<Option<TxList>, NoMemory>
        ensures { IfOk result (λ batch. batch ≡ slice_get (finals (chain_at self.now.state.known self.now.state.known.safety.committed)) at) }
    {
        self.state.batch(at)
    }

    /// Whether a proposal in the chain of the highest certificate's block has this transaction. It need not be final
    /// then: the next certificate may be one of another chain, which does not have it.
    pub fn is_proposed(&self, tx: &Tx) -> Result<bool, NoMemory>
        ensures { IfOk result (λ proposed. proposed ≡ is_used (chain_at self.now.state.known self.now.state.known.high.block) tx.now) }
    {
        self.state.is_proposed(tx)
    }
}
