//! A second block for the upper half of the replicas.
ghost use Rattle.std.specs.Prelude.{◌≡◌, IfOk, option_map, slice_get, slice_set};
ghost use Rattle.fault_script.specs.Sealing.{SealsBy, SealsOn};
ghost use Rattle.fault_script.specs.Twists.{Exchanges, emptied, exchanged, made_for, own_place, second_at, second_block, second_message, second_of, second_proposal, two_blocks_in, two_blocks_of, with_orders};

use crate::deeds::{holds, message_of, packet_of, seal_if_left, view_of};
use crate::reverse::resealed;
use plan_text::{Deed, DeedKind};
use seal_kit::Sealer;
use seq_base::{
    Block, LocalOrder, Message, NoMemory, Outgoing, Packet, SealedOrder, SealedOrders, Setting,
    TxList,
};
use std::alloc::Global;
use std::mem;
use wire_write::propose_statement;

/// What replaces a proposal.
#[derive(Drop)]
pub(crate) enum Second {
    /// Nothing is changed.
    Same,
    Block(Packet),
    /// The sealer is spent, so nothing is sent.
    Nothing,
}

/// A proposal and its replacement, so that it is sealed once.
#[derive(Drop)]
pub(crate) struct Made {
    pub(crate) first: Packet,
    pub(crate) second: Second,
}

/// The sends. Proposals to the upper half of the replicas are replaced.
#[tactic(auto, using(std::proofs::lemmas::List::nil_from_length))]
pub(crate) fn two_blocks<S: Sealer>(
    alloc: Global,
    deeds: &[Deed],
    setting: &Setting,
    sealer: &mut S,
    sends: Vec<Outgoing>,
) -> Result<Vec<Outgoing>, NoMemory>
    ensures value { IfOk result
        (λ out. SealsBy S.replica S.capacity S.gives S.made sealer.old sealer.new (λ s. two_blocks_in deeds.now setting.now.n s sends.items) out.items) }
    ensures sealer { SealsOn S.replica S.capacity S.gives S.made sealer.old sealer.new }
{
    let mut out = Vec::new(alloc);
    let mut made = Vec::new(alloc);
    for send in sends {
        if let Some(send) = exchanged_above(alloc, deeds, setting, sealer, &mut made, send)? {
            out.push(send)?;
        }
    }
    Ok(out)
}

/// What a send becomes, or None if the sealer is spent. Nothing changes below the upper half.
#[tactic(auto, unfolding(crate::specs::Twists::two_blocks_of))]
fn exchanged_above<S: Sealer>(
    alloc: Global,
    deeds: &[Deed],
    setting: &Setting,
    sealer: &mut S,
    made: &mut Vec<Made>,
    send: Outgoing,
) -> Result<Option<Outgoing>, NoMemory>
    ensures value { IfOk result (λ out. Exchanges S.replica S.capacity S.gives S.made sealer.old sealer.new made.old.items made.new.items
        (λ s. two_blocks_of deeds.now setting.now.n s send) out) }
    ensures sealer { SealsOn S.replica S.capacity S.gives S.made sealer.old sealer.new }
{
    if send.to < setting.n() / 2 {
        return Ok(Some(send));
    }
    if let Some(second) = made_for(made, send.bytes.as_slice()) {
        return exchanged(second, send);
    }
    let second = second_of(alloc, deeds, sealer, send.bytes.as_slice())?;
    let first = send.bytes.share()?;
    let out = exchanged(&second, send)?;
    made.push(Made { first, second })?;
    Ok(out)
}

fn exchanged(second: &Second, send: Outgoing) -> Result<Option<Outgoing>, NoMemory>
    ensures { IfOk result (λ out. out ≡ exchanged second.now send) }
{
    match second {
        Second::Same => Ok(Some(send)),
        Second::Block(bytes) => Ok(Some(Outgoing {
            to: send.to,
            bytes: bytes.share()?,
        })),
        Second::Nothing => Ok(None),
    }
}

/// What replaces these bytes, if that was decided before.
fn made_for<'a>(made: &'a [Made], bytes: &[u8]) -> Option<&'a Second>
    ensures { option_map (λ second. second.now) result ≡ made_for made.now bytes.now }
{
    for earlier in made {
        if earlier.first.as_slice() == bytes {
            return Some(&earlier.second);
        }
    }
    None
}

/// What replaces a proposal: a block in which the replica's own order has empty lists.
#[tactic(auto, unfolding(crate::specs::Twists::second_of))]
fn second_of<S: Sealer>(
    alloc: Global,
    deeds: &[Deed],
    sealer: &mut S,
    bytes: &[u8],
) -> Result<Second, NoMemory>
    ensures value { IfOk result (λ second. SealsBy S.replica S.capacity S.gives S.made sealer.old sealer.new (λ s. second_of deeds.now s bytes.now) second) }
    ensures sealer { SealsOn S.replica S.capacity S.gives S.made sealer.old sealer.new }
{
    if !holds(deeds, sealer.replica(), DeedKind::TwoBlocks, view_of(bytes)) {
        return Ok(Second::Same);
    }
    let message = message_of(alloc, bytes)?;
    second_message(alloc, sealer, message)
}

fn second_message<S: Sealer>(
    alloc: Global,
    sealer: &mut S,
    message: Option<Message>,
) -> Result<Second, NoMemory>
    ensures value { IfOk result (λ second. SealsBy S.replica S.capacity S.gives S.made sealer.old sealer.new (λ s. second_message s message) second) }
    ensures sealer { SealsOn S.replica S.capacity S.gives S.made sealer.old sealer.new }
{
    match message {
        Some(Message::Propose { replica, block, .. }) => {
            second_block(alloc, sealer, replica, block)
        }
        Some(
            Message::NewView { .. }
            | Message::Ask { .. }
            | Message::Order(_)
            | Message::Vote { .. }
            | Message::Fetch { .. }
            | Message::Give { .. },
        )
        | None => Ok(Second::Same),
    }
}

/// Nothing is changed if the replica's own order is not in the block.
fn second_block<S: Sealer>(
    alloc: Global,
    sealer: &mut S,
    replica: u32,
    block: Block,
) -> Result<Second, NoMemory>
    ensures value { IfOk result (λ second. SealsBy S.replica S.capacity S.gives S.made sealer.old sealer.new
        (λ s. second_block s replica block (own_place s.replica block.orders)) second) }
    ensures sealer { SealsOn S.replica S.capacity S.gives S.made sealer.old sealer.new }
{
    match own_place(block.orders.as_slice(), sealer.replica()) {
        Some(at) => second_at(alloc, sealer, replica, block, at),
        None => Ok(Second::Same),
    }
}

fn second_at<S: Sealer>(
    alloc: Global,
    sealer: &mut S,
    replica: u32,
    block: Block,
    at: usize,
) -> Result<Second, NoMemory>
    ensures value { IfOk result
        (λ second. SealsBy S.replica S.capacity S.gives S.made sealer.old sealer.new (λ s. second_at s replica block at (slice_get block.orders at)) second) }
    ensures sealer { SealsOn S.replica S.capacity S.gives S.made sealer.old sealer.new }
{
    let emptied = match block.orders.as_slice().get(at) {
        Some(own) => emptied(alloc, &own.order),
        None => return Ok(Second::Same),
    };
    match second_proposal(alloc, sealer, replica, block, at, emptied)? {
        Some(bytes) => Ok(Second::Block(bytes)),
        None => Ok(Second::Nothing),
    }
}

/// The place of the replica's own order, if it has one.
fn own_place(orders: &[SealedOrder], own: u32) -> Option<usize>
    ensures { result ≡ own_place own orders.now }
{
    orders.iter().position(|sealed| sealed.order.replica == own)
}

/// The order with empty lists.
fn emptied(alloc: Global, order: &LocalOrder) -> LocalOrder
    ensures { result ≡ emptied order.now }
{
    LocalOrder {
        replica: order.replica,
        view: order.view,
        parent: order.parent,
        fresh: TxList::of(Vec::new(alloc)),
        late: TxList::of(Vec::new(alloc)),
    }
}

/// The replica's own order is sealed anew, and then the proposal.
fn second_proposal<S: Sealer>(
    alloc: Global,
    sealer: &mut S,
    replica: u32,
    block: Block,
    at: usize,
    own: LocalOrder,
) -> Result<Option<Packet>, NoMemory>
    ensures value { IfOk result
        (λ bytes. SealsBy S.replica S.capacity S.gives S.made sealer.old sealer.new (λ s. second_proposal s replica block at own) bytes) }
    ensures sealer { SealsOn S.replica S.capacity S.gives S.made sealer.old sealer.new }
{
    let Some(own) = resealed(alloc, sealer, own)? else {
        return Ok(None);
    };
    let block = with_order(alloc, block, at, own);
    let statement = propose_statement(alloc, replica, &block)?;
    let Some(seal) = seal_if_left(sealer, statement.as_slice())? else {
        return Ok(None);
    };
    let message = Message::Propose {
        replica,
        block,
        seal,
    };
    Ok(Some(packet_of(alloc, message)?))
}

/// The block with another order at an existing place.
fn with_order(alloc: Global, mut block: Block, at: usize, order: SealedOrder) -> Block
    ensures { result ≡ with_orders block (slice_set block.orders at order) }
{
    let none = SealedOrders::of(Vec::new(alloc));
    let mut orders = mem::replace(&mut block.orders, none).into_vec();
    if at < orders.len() {
        orders[at] = order;
    }
    block.orders = SealedOrders::of(orders);
    block
}
