//! The lists that a block shows: what its replicas received and no block proposed before.
ghost use Rattle.std.specs.Prelude.{◌≡◌, false, map, IfOk, IfSome, is_some, None, Ok};
ghost use Rattle.replica_box.specs.Shown.{fresh_lists, order_replicas, shown_lists, shows_block};

use intake::ShownList;
use seq_base::{NoMemory, Tx};
use std::alloc::Global;
use wire_view::{BlockView, MessageView, OrderView, TxsView, read};

/// A block's view, that of its parent, and the fresh lists of its local orders.
#[derive(Drop)]
pub(crate) struct Shown {
    pub(crate) view: u32,
    pub(crate) parent: u32,
    pub(crate) lists: Vec<ShownList>,
}

/// What the block of a Propose or a Give shows; `None` for other bytes.
pub(crate) fn shown_by(alloc: Global, bytes: &[u8]) -> Result<Option<Shown>, NoMemory>
    ensures found { IfOk result (λ shown. is_some shown ≡ shows_block bytes.now) }
    ensures none { shows_block bytes.now ≡ false → result ≡ Ok None }
    ensures lists { IfOk result (λ shown. IfSome shown (λ s. map (λ list. list.txs.items) s.lists.items ≡ shown_lists bytes.now)) }
{
    match read(bytes) {
        Ok(MessageView::Propose(propose)) => Ok(Some(shown_of(alloc, &propose.block())?)),
        Ok(MessageView::Give(block)) => Ok(Some(shown_of(alloc, &block)?)),
        Ok(MessageView::NewView(_))
        | Ok(MessageView::Ask(_))
        | Ok(MessageView::Order(_))
        | Ok(MessageView::Vote(_))
        | Ok(MessageView::Fetch(_))
        | Err(_) => Ok(None),
    }
}

fn shown_of(alloc: Global, block: &BlockView<'_>) -> Result<Shown, NoMemory>
    ensures views { IfOk result (λ shown. (shown.view ≡ block.now.view) × (shown.parent ≡ block.now.cert.view)) }
    ensures replicas { IfOk result (λ shown. map (λ list. list.replica) shown.lists.items ≡ order_replicas block.now) }
    ensures lists { IfOk result (λ shown. map (λ list. list.txs.items) shown.lists.items ≡ fresh_lists block.now) }
{
    Ok(Shown {
        view: block.view(),
        parent: block.cert().view(),
        lists: fresh_lists(alloc, block)?,
    })
}

fn fresh_lists(alloc: Global, block: &BlockView<'_>) -> Result<Vec<ShownList>, NoMemory>
    ensures replicas { IfOk result (λ lists. map (λ list. list.replica) lists.items ≡ order_replicas block.now) }
    ensures lists { IfOk result (λ lists. map (λ list. list.txs.items) lists.items ≡ fresh_lists block.now) }
{
    let mut lists = Vec::new(alloc);
    for k in 0..block.len() {
        if let Some(order) = block.order(k) {
            lists.push(fresh_list(alloc, &order)?)?;
        }
    }
    Ok(lists)
}

fn fresh_list(alloc: Global, order: &OrderView<'_>) -> Result<ShownList, NoMemory>
    ensures replica { IfOk result (λ list. list.replica ≡ order.now.order.replica) }
    ensures list { IfOk result (λ list. list.txs.items ≡ order.now.order.fresh) }
{
    Ok(ShownList {
        replica: order.replica(),
        txs: owned(alloc, &order.fresh())?,
    })
}

fn owned(alloc: Global, view: &TxsView<'_>) -> Result<Vec<Tx>, NoMemory>
    ensures { IfOk result (λ txs. txs.items ≡ view.now) }
{
    let mut txs = Vec::new(alloc);
    for k in 0..view.len() {
        if let Some(tx) = view.get(k) {
            txs.push(tx)?;
        }
    }
    Ok(txs)
}
