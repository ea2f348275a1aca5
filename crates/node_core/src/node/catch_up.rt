//! Give messages of the stored blocks, for a replica that fell behind.
ghost use Rattle.std.specs.Prelude.{◌≡◌, length, IfOk};
ghost use Rattle.node_core.specs.Above.{blocks_above, give_at};

use super::Node;
use seal_kit::Sealer;
use seq_base::{Bytes, NoMemory};
use wire_write::give_message;

impl<S: Sealer> Node<S> {
    /// How many stored blocks have a view above this one. The first block is not among them.
    pub fn give_count(&self, above: u32) -> usize
        ensures { result ≡ length (blocks_above self.now.state.known above) }
    {
        self.state.count_above(above)
    }

    /// The Give message at a position, from 0 on, among those of the stored blocks whose view is above this one, or
    /// `None` from [`Node::give_count`] on. They stand in the order in which the blocks were stored, so each parent
    /// comes before its children. The bytes are those that a Fetch of the block is answered with.
    pub fn give(&self, above: u32, at: usize) -> Result<Option<Bytes>, NoMemory>
        ensures { IfOk result (λ bytes. bytes ≡ give_at self.now.state.known above at) }
    {
        match self.state.block_above(above, at) {
            Some(block) => Ok(Some(give_message(self.alloc, block)?)),
            None => Ok(None),
        }
    }
}
