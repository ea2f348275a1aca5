//! The local orders that a leader keeps for the view that it asked for, and the block that it builds from them.
ghost use Rattle.std.specs.Prelude.{◌≡◌, ◌≤◌, ◌+◌, [], length, count_by, nat_lt, IfOk, OnOk};
ghost use Rattle.node_core.specs.Order.{has_order, with_order, keeping, asked_block};
ghost use Rattle.node_core.specs.Vote.{next_block, proposing_next};

use crate::state::State;
use crate::state::certs::copy_of;
use crate::state::votes::Formed;
use seq_base::{Block, Digest, NoMemory, SealedOrder, SealedOrders};
use std::mem;

impl State {
    /// Whether an order of this replica is kept for the asked view.
    pub(crate) fn has_order(&self, replica: u32) -> bool
        ensures { result ≡ has_order self.now.orders replica }
    {
        self.orders
            .iter()
            .any(|sealed| sealed.order.replica == replica)
    }

    /// The parent of the asked orders.
    pub(crate) fn ask_block(&self) -> &Digest
        ensures { result.now ≡ self.now.ask_cert.block }
    {
        &self.ask_cert.block
    }

    /// Keeps an order for the asked view. If the kept orders are now enough for a block, returns this block, which the
    /// node then proposes, and drops its orders.
    pub(crate) fn keep_order(&mut self, sealed: SealedOrder) -> Result<Option<Block>, NoMemory>
        ensures block { IfOk result (λ block. block ≡ asked_block self.old sealed) }
        ensures kept { OnOk result (self.new ≡ keeping self.old sealed) }
    {
        insert_by_replica(&mut self.orders, sealed)?;
        if self.orders.len() != self.quorum() as usize {
            return Ok(None);
        }
        Ok(Some(self.take_asked()?))
    }

    /// Takes the block of the kept orders. None are kept then.
    fn take_asked(&mut self) -> Result<Block, NoMemory>
        ensures block { IfOk result (λ block. block ≡ record { view = self.old.asked; cert = self.old.ask_cert; orders = self.old.orders }) }
        ensures kept { OnOk result (self.new ≡ record self.old { proposed = self.old.asked; orders = [] }) }
    {
        let cert = copy_of(self.alloc, &self.ask_cert)?;
        let orders = mem::replace(&mut self.orders, Vec::new(self.alloc));
        self.proposed = self.asked;
        Ok(Block {
            view: self.asked,
            cert,
            orders: SealedOrders::of(orders),
        })
    }

    /// The block of the next view over a block that got enough votes, with the orders that the votes carried. The node
    /// asks for no orders for that view.
    pub(crate) fn next_block(&mut self, view: u32, formed: Formed) -> Result<Block, NoMemory>
        requires next { view ≡ formed.cert.view + 1 }
        requires within { view ≤ self.old.views }
        ensures block { IfOk result (λ block. block ≡ next_block formed) }
        ensures proposing { OnOk result (self.new ≡ proposing_next formed.cert self.old) }
    {
        let Formed { cert, orders } = formed;
        self.ask_cert = copy_of(self.alloc, &cert)?;
        self.asked = view;
        self.proposed = view;
        self.view = view;
        self.orders = Vec::new(self.alloc);
        Ok(Block { view, cert, orders })
    }
}

/// Inserts an order after those of smaller replicas and before those of greater ones.
pub(crate) fn insert_by_replica(
    orders: &mut Vec<SealedOrder>,
    sealed: SealedOrder,
) -> Result<(), NoMemory>
    ensures { OnOk result (orders.new.items ≡ with_order sealed orders.old.items) }
{
    let at = place_of(orders, sealed.order.replica);
    orders.insert(at, sealed)?;
    Ok(())
}

/// The number of orders of smaller replicas.
fn place_of(orders: &[SealedOrder], replica: u32) -> usize
    ensures within { result ≤ length orders.now }
    ensures value { result ≡ count_by (λ o. nat_lt o.order.replica replica) orders.now }
{
    orders
        .iter()
        .filter(|sealed| sealed.order.replica < replica)
        .count()
}
