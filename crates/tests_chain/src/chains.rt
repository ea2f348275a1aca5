//! Proposals along a chain: a missing pair, the late lists that give its edge, and copies of the chain state.
ghost use Rattle.std.specs.Prelude.{◌≡◌, ◌≤◌, length, All, IfOk, OnOk};
ghost use Rattle.seq_base.specs.Limits.{IsShort, IsWithin};

use chain_state::{ChainState, make_order};
use seq_base::{
    Block, Cert, CertVotes, Digest, LocalOrder, NoMemory, Seal, SealedOrder, SealedOrders, Setting,
    Tx, TxList,
};
use std::alloc::Global;
use std::test::Fail;

/// Properties of a chain that starts empty, for nine replicas.
const CASES: [&str; 5] = [
    "a missing pair waits",
    "late lists give the edge",
    "extending a copy does not change the chain",
    "orders are drawn over a chain",
    "a copy of an empty chain has no batches",
];

#[test]
fn chains_wait_for_missing_pairs(rt: HostRuntime) -> Result<(), Fail> {
    for case in CASES {
        if !holds(rt.alloc(), case)? {
            return Err(Fail::new(case));
        }
    }
    Ok(())
}

pub(crate) const fn tx(client: u32) -> Tx {
    Tx {
        client,
        number: 1,
        payload: 0,
    }
}

/// Appends orders with these lists until there are `count`.
fn fill(
    alloc: Global,
    orders: &mut Vec<SealedOrder>,
    count: usize,
    fresh: &[Tx],
    late: &[Tx],
) -> Result<(), NoMemory>
    requires fresh { length fresh.now ≤ 128 }
    requires late { length late.now ≤ 256 }
    requires count { length orders.old.items ≤ count }
    requires short { All (λ sealed. IsShort sealed.order) orders.old.items }
    ensures count { OnOk result (length orders.new.items ≡ count) }
    ensures short { All (λ sealed. IsShort sealed.order) orders.new.items }
{
    while orders.len() < count {
        orders.push(order(alloc, fresh, late)?)?;
    }
    Ok(())
}

fn order(alloc: Global, fresh: &[Tx], late: &[Tx]) -> Result<SealedOrder, NoMemory>
    requires fresh { length fresh.now ≤ 128 }
    requires late { length late.now ≤ 256 }
    ensures { IfOk result (λ sealed. IsShort sealed.order) }
{
    Ok(SealedOrder {
        order: LocalOrder {
            replica: 0,
            view: 1,
            parent: Digest::FIRST,
            fresh: TxList::of(Vec::from_slice(alloc, fresh)?),
            late: TxList::of(Vec::from_slice(alloc, late)?),
        },
        seal: Seal::of(Vec::new(alloc)),
    })
}

/// A block of these orders.
fn block(alloc: Global, orders: Vec<SealedOrder>) -> Block
    requires few { length orders.items ≤ 16 }
    requires short { All (λ sealed. IsShort sealed.order) orders.items }
    ensures { IsWithin result }
{
    Block {
        view: 1,
        cert: Cert {
            view: 0,
            block: Digest::FIRST,
            votes: CertVotes::of(Vec::new(alloc)),
        },
        orders: SealedOrders::of(orders),
    }
}

/// A block of eight orders that list only this transaction.
pub(crate) fn block_of_one(alloc: Global, client: u32) -> Result<Block, NoMemory>
    ensures { IfOk result IsWithin }
{
    let mut orders = Vec::new(alloc);
    fill(alloc, &mut orders, 8, &[tx(client)], &[])?;
    Ok(block(alloc, orders))
}

/// Extends the chain by a block of these orders. No clause states this, which keeps the obligations of each test short.
fn apply(alloc: Global, chain: &mut ChainState, orders: Vec<SealedOrder>) -> Result<(), NoMemory>
    requires few { length orders.items ≤ 16 }
    requires short { All (λ sealed. IsShort sealed.order) orders.items }
{
    chain.apply(&block(alloc, orders))
}

/// Extends the chain by a block of eight orders. Two have 1 before 2, two have 2 before 1, and four list only 3.
fn put_pair(alloc: Global, chain: &mut ChainState) -> Result<(), NoMemory> {
    let mut orders = Vec::new(alloc);
    fill(alloc, &mut orders, 2, &[tx(1), tx(2), tx(3)], &[])?;
    fill(alloc, &mut orders, 4, &[tx(2), tx(1), tx(3)], &[])?;
    fill(alloc, &mut orders, 8, &[tx(3)], &[])?;
    apply(alloc, chain, orders)
}

/// Extends the chain by a block of eight orders. Six have 1 before 2 in their late lists, and two have 2 before 1.
fn put_late(alloc: Global, chain: &mut ChainState) -> Result<(), NoMemory> {
    let mut orders = Vec::new(alloc);
    fill(alloc, &mut orders, 6, &[], &[tx(1), tx(2)])?;
    fill(alloc, &mut orders, 8, &[], &[tx(2), tx(1)])?;
    apply(alloc, chain, orders)
}

/// Extends the chain by a block of eight orders with 4 in their fresh lists, and 1 before 2 in their late lists.
fn put_more(alloc: Global, chain: &mut ChainState) -> Result<(), NoMemory> {
    let mut orders = Vec::new(alloc);
    fill(alloc, &mut orders, 8, &[tx(4)], &[tx(1), tx(2)])?;
    apply(alloc, chain, orders)
}

fn holds(alloc: Global, case: &str) -> Result<bool, Fail> {
    let setting = Setting::new(9, 1, 3, 4)?;
    Ok(holds_at_first(alloc, setting, case)?)
}

/// Only this function owns the chain. It has a single return path, because each path drops the chain.
fn holds_at_first(alloc: Global, setting: Setting, case: &str) -> Result<bool, NoMemory> {
    let mut chain = ChainState::empty(alloc, setting);
    holds_of(alloc, &mut chain, case)
}

fn holds_of(alloc: Global, chain: &mut ChainState, case: &str) -> Result<bool, NoMemory> {
    if case == "a copy of an empty chain has no batches" {
        return copy_is_empty(chain);
    }
    put_pair(alloc, chain)?;
    match case {
        "a missing pair waits" => Ok(waits(chain)),
        "late lists give the edge" => late_lists_give(alloc, chain),
        "extending a copy does not change the chain" => copy_diverges(alloc, chain),
        "orders are drawn over a chain" => is_drawn_over(alloc, chain),
        _ => Ok(false),
    }
}

fn copy_is_empty(chain: &ChainState) -> Result<bool, NoMemory> {
    is_empty(&chain.copy()?)
}

fn copy_diverges(alloc: Global, chain: &ChainState) -> Result<bool, NoMemory> {
    diverges(alloc, &mut chain.copy()?, chain)
}

fn is_empty(chain: &ChainState) -> Result<bool, NoMemory> {
    let has_none = chain.finals()?.as_slice().is_empty();
    Ok(has_none && gives_no_batch(chain) && chain.final_count() == 0 && !chain.is_used(&tx(1)))
}

fn gives_no_batch(chain: &ChainState) -> bool {
    chain.batch_count() == 0 && chain.batch(0).is_none()
}

fn waits(chain: &ChainState) -> bool {
    gives_no_batch(chain)
        && chain.is_used(&tx(3))
        && chain.is_waiting(&tx(1))
        && chain.is_waiting(&tx(2))
        && !chain.is_waiting(&tx(3))
        && chain.final_count() == 0
}

fn late_lists_give(alloc: Global, chain: &mut ChainState) -> Result<bool, NoMemory> {
    put_late(alloc, chain)?;
    Ok(
        !chain.is_waiting(&tx(1))
            && gives_three(chain)
            && are_one_by_one(chain.finals()?.as_slice()),
    )
}

/// Whether the chain returns three batches by their places: with only 1, only 2 and only 3.
fn gives_three(chain: &ChainState) -> bool {
    chain.batch_count() == 3
        && is_of(chain.batch(0), 1)
        && is_of(chain.batch(1), 2)
        && is_of(chain.batch(2), 3)
        && chain.batch(3).is_none()
}

/// Whether these are three batches: with only 1, only 2 and only 3.
fn are_one_by_one(batches: &[TxList]) -> bool {
    batches.len() == 3
        && is_of(batches.first(), 1)
        && is_of(batches.get(1), 2)
        && is_of(batches.get(2), 3)
}

pub(crate) fn is_of(batch: Option<&TxList>, client: u32) -> bool {
    match batch {
        Some(batch) => batch.as_slice() == [tx(client)].as_slice(),
        None => false,
    }
}

/// Whether extending a copy does not change the chain.
fn diverges(alloc: Global, child: &mut ChainState, chain: &ChainState) -> Result<bool, NoMemory> {
    put_more(alloc, child)?;
    Ok(
        child.is_used(&tx(4))
            && !child.is_waiting(&tx(1))
            && !chain.is_used(&tx(4))
            && chain.is_waiting(&tx(1))
            && child.batch_count() == 4
            && is_of(child.batch(3), 4)
            && child.final_count() == 4
            && chain.final_count() == 0,
    )
}

fn is_drawn_over(alloc: Global, chain: &ChainState) -> Result<bool, NoMemory> {
    let known = [tx(2), tx(5), tx(3), tx(4), tx(1)];
    let order = make_order(alloc, 7, 2, Digest::FIRST, &known, chain)?;
    Ok(is_drawn(&order) && chain.fits(&order))
}

fn is_drawn(order: &LocalOrder) -> bool {
    order.fresh.as_slice() == [tx(5), tx(4)].as_slice()
        && order.late.as_slice() == [tx(2), tx(1)].as_slice()
}
