ghost use Rattle.std.specs.Prelude.{◌≡◌, not, IfOk};
ghost use Rattle.seq_base.specs.Limits.{IsShort};
ghost use Rattle.chain_state.specs.Drawn.{drawn};
ghost use Rattle.chain_state.specs.Standings.{is_used, is_waiting, order_drawn};

use crate::ChainState;
use seq_base::{Digest, LocalOrder, NoMemory, Tx, TxList};
use std::alloc::Global;

/// The maximum number of fresh entries in a local order.
const MAX_FRESH: usize = 128;

/// The maximum number of late entries in a local order.
const MAX_LATE: usize = 256;

/// The order of a replica that knows a prefix of its arrival list, over the chain of a parent: the first 128
/// transactions of the prefix that are not used, and the first 256 that wait, in the order of arrival.
pub fn make_order(
    alloc: Global,
    replica: u32,
    view: u32,
    parent: Digest,
    prefix: &[Tx],
    chain: &ChainState,
) -> Result<LocalOrder, NoMemory>
    ensures drawn { IfOk result (λ order. order ≡ order_drawn replica view parent prefix.now chain.now) }
    ensures short { IfOk result IsShort }
{
    let fresh = first_unused(alloc, prefix, chain)?;
    let late = late_entries(alloc, prefix, chain)?;
    Ok(LocalOrder {
        replica,
        view,
        parent,
        fresh: TxList::of(fresh),
        late: TxList::of(late),
    })
}

/// The first transactions that are not used.
fn first_unused(alloc: Global, prefix: &[Tx], chain: &ChainState) -> Result<Vec<Tx>, NoMemory>
    ensures { IfOk result (λ txs. txs.items ≡ drawn MAX_FRESH (λ t. not (is_used chain.now t)) prefix.now) }
{
    let mut txs = Vec::with_capacity(alloc, MAX_FRESH)?;
    for tx in prefix {
        if txs.len() == MAX_FRESH {
            return Ok(txs);
        }
        if !chain.is_used(tx) {
            txs.push(*tx)?;
        }
    }
    Ok(txs)
}

/// The first transactions that wait. Mostly none does, and then the prefix is not searched.
fn late_entries(alloc: Global, prefix: &[Tx], chain: &ChainState) -> Result<Vec<Tx>, NoMemory>
    ensures { IfOk result (λ txs. txs.items ≡ drawn MAX_LATE (is_waiting chain.now) prefix.now) }
{
    if chain.none_waits() {
        return Ok(Vec::new(alloc));
    }
    first_waiting(alloc, prefix, chain)
}

/// The first transactions that wait.
fn first_waiting(alloc: Global, prefix: &[Tx], chain: &ChainState) -> Result<Vec<Tx>, NoMemory>
    ensures { IfOk result (λ txs. txs.items ≡ drawn MAX_LATE (is_waiting chain.now) prefix.now) }
{
    let mut txs = Vec::with_capacity(alloc, MAX_LATE)?;
    for tx in prefix {
        if txs.len() == MAX_LATE {
            return Ok(txs);
        }
        if chain.is_waiting(tx) {
            txs.push(*tx)?;
        }
    }
    Ok(txs)
}
