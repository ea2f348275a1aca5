//! Local orders whose lists are reversed.
ghost use Rattle.std.specs.Prelude.{◌≡◌, IfOk, reverse};
ghost use Rattle.seq_base.specs.Spelling.{order_spelling};
ghost use Rattle.fault_script.specs.Sealing.{SealsBy, SealsOn, sealed};
ghost use Rattle.fault_script.specs.Twists.{resealed, reversed, reverse_message, reverse_of, reverse_vote};

use crate::deeds::{holds, message_of, seal_if_left, view_of};
use crate::sends::in_place;
use plan_text::{Deed, DeedKind};
use seal_kit::Sealer;
use seq_base::{LocalOrder, Message, NoMemory, Outgoing, SealedOrder, TxList, Vote};
use std::alloc::Global;
use wire_write::order_bytes;

/// What a send becomes, or None if the sealer is spent.
#[tactic(auto, unfolding(crate::specs::Twists::reverse_of))]
pub(crate) fn reverse<S: Sealer>(
    alloc: Global,
    deeds: &[Deed],
    sealer: &mut S,
    send: Outgoing,
) -> Result<Option<Outgoing>, NoMemory>
    ensures value { IfOk result (λ out. SealsBy S.replica S.capacity S.gives S.made sealer.old sealer.new (λ s. reverse_of deeds.now s send) out) }
    ensures sealer { SealsOn S.replica S.capacity S.gives S.made sealer.old sealer.new }
{
    let view = view_of(send.bytes.as_slice());
    if !holds(deeds, sealer.replica(), DeedKind::Reverse, view) {
        return Ok(Some(send));
    }
    let message = message_of(alloc, send.bytes.as_slice())?;
    reverse_message(alloc, sealer, send, message)
}

fn reverse_message<S: Sealer>(
    alloc: Global,
    sealer: &mut S,
    send: Outgoing,
    message: Option<Message>,
) -> Result<Option<Outgoing>, NoMemory>
    ensures value { IfOk result (λ out. SealsBy S.replica S.capacity S.gives S.made sealer.old sealer.new (λ s. reverse_message s send message) out) }
    ensures sealer { SealsOn S.replica S.capacity S.gives S.made sealer.old sealer.new }
{
    match message {
        Some(Message::Order(sealed)) => {
            let Some(sealed) = resealed(alloc, sealer, reversed(sealed.into_order()))? else {
                return Ok(None);
            };
            Ok(Some(in_place(alloc, send, Message::Order(sealed))?))
        }
        Some(Message::Vote { vote, order }) => reverse_vote(alloc, sealer, send, vote, order),
        Some(
            Message::NewView { .. }
            | Message::Ask { .. }
            | Message::Propose { .. }
            | Message::Fetch { .. }
            | Message::Give { .. },
        )
        | None => Ok(Some(send)),
    }
}

/// A vote with its order reversed, if it carries one.
fn reverse_vote<S: Sealer>(
    alloc: Global,
    sealer: &mut S,
    send: Outgoing,
    vote: Vote,
    order: Option<SealedOrder>,
) -> Result<Option<Outgoing>, NoMemory>
    ensures value { IfOk result (λ out. SealsBy S.replica S.capacity S.gives S.made sealer.old sealer.new (λ s. reverse_vote s send vote order) out) }
    ensures sealer { SealsOn S.replica S.capacity S.gives S.made sealer.old sealer.new }
{
    let Some(sealed) = order else {
        return Ok(Some(send));
    };
    let Some(sealed) = resealed(alloc, sealer, reversed(sealed.into_order()))? else {
        return Ok(None);
    };
    let order = Some(sealed);
    Ok(Some(in_place(alloc, send, Message::Vote { vote, order })?))
}

/// The local order with both lists reversed.
fn reversed(order: LocalOrder) -> LocalOrder
    ensures { result ≡ reversed order }
{
    LocalOrder {
        replica: order.replica,
        view: order.view,
        parent: order.parent,
        fresh: reversed_list(order.fresh),
        late: reversed_list(order.late),
    }
}

fn reversed_list(list: TxList) -> TxList
    ensures { result ≡ reverse list }
{
    let mut txs = list.into_vec();
    txs.reverse();
    TxList::of(txs)
}

/// A local order, sealed anew.
pub(crate) fn resealed<S: Sealer>(
    alloc: Global,
    sealer: &mut S,
    order: LocalOrder,
) -> Result<Option<SealedOrder>, NoMemory>
    ensures value { IfOk result
        (λ out. SealsBy S.replica S.capacity S.gives S.made sealer.old sealer.new (λ s. sealed s (order_spelling order) (λ seal. resealed order seal)) out) }
    ensures sealer { SealsOn S.replica S.capacity S.gives S.made sealer.old sealer.new }
{
    match seal_if_left(sealer, order_bytes(alloc, &order)?.as_slice())? {
        Some(seal) => Ok(Some(SealedOrder { order, seal })),
        None => Ok(None),
    }
}
