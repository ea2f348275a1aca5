//! The statement of a proposal, as the definition `proposal` that the clauses of turns cite. Otherwise the bytes of a
//! block would appear in each of their goals.
ghost use Rattle.std.specs.Prelude.{◌≡◌, IfOk};
ghost use Rattle.node_core.specs.Order.{proposal};

use seq_base::{Block, Bytes, NoMemory};
use std::alloc::Global;

/// The leader proposes a block.
#[tactic(auto, unfolding(crate::specs::Order::proposal))]
pub(crate) fn propose_statement(
    alloc: Global,
    replica: u32,
    block: &Block,
) -> Result<Bytes, NoMemory>
    ensures { IfOk result (λ bytes. bytes ≡ proposal replica block.now) }
{
    wire_write::propose_statement(alloc, replica, block)
}
