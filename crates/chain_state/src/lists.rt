ghost use Rattle.std.specs.Prelude.{◌≡◌, IfOk};
ghost use Rattle.chain_state.specs.Lists.{fresh_of, late_of};

use seq_base::{Block, NoMemory, TxList};
use std::alloc::Global;

/// The fresh lists of a block, in the order of its orders.
pub(crate) fn fresh_lists(alloc: Global, block: &Block) -> Result<Vec<TxList>, NoMemory>
    ensures { IfOk result (λ lists. lists.items ≡ fresh_of block.now) }
{
    let orders = block.orders.as_slice();
    let mut lists = Vec::with_capacity(alloc, orders.len())?;
    for order in orders {
        lists.push(copied(alloc, &order.order.fresh)?)?;
    }
    Ok(lists)
}

/// The late lists of a block, in the order of its orders.
pub(crate) fn late_lists(alloc: Global, block: &Block) -> Result<Vec<TxList>, NoMemory>
    ensures { IfOk result (λ lists. lists.items ≡ late_of block.now) }
{
    let orders = block.orders.as_slice();
    let mut lists = Vec::with_capacity(alloc, orders.len())?;
    for order in orders {
        lists.push(copied(alloc, &order.order.late)?)?;
    }
    Ok(lists)
}

pub(crate) fn copied(alloc: Global, list: &TxList) -> Result<TxList, NoMemory>
    ensures { IfOk result (λ copy. copy ≡ list.now) }
{
    let items = Vec::from_slice(alloc, list.as_slice())?;
    Ok(TxList::of(items))
}
