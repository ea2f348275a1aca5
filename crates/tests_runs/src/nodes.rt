//! Single nodes. A node halts when it is out of memory, and it predicts the turns that change nothing.
use node_core::{Event, Node, NodeFault, Reason};
use seal_kit::{Height, SealFault, SealMaker, Sealer, TagMaker};
use seq_base::{Bytes, Packet, Seal, Setting, Tx, TxList};
use std::alloc::Global;
use std::test::Fail;

/// A sealer that is always out of memory.
#[derive(Drop)]
pub(crate) struct NeverSeals;

impl Sealer for NeverSeals {
    ghost use Rattle.std.specs.Prelude.{[]};

    ghost made = { λ _. 0 };

    ghost capacity = { λ _. 30 };

    ghost replica = { λ _. 0 };

    ghost gives = { λ _ number bytes. [] };

    fn seal(&mut self, _: &[u8]) -> Result<Seal, SealFault> {
        Err(SealFault::NoMemory)
    }

    fn made(&self) -> u32 {
        0
    }

    fn capacity(&self) -> u32 {
        30
    }

    fn replica(&self) -> u32 {
        0
    }
}

/// Why a node without memory refuses two ticks.
fn refused(alloc: Global) -> Result<[Option<NodeFault>; 2], Fail> {
    let setting = Setting::new(5, 1, 1, 1)?;
    let checker = TagMaker::new(alloc).make(1, Height::H5, 5)?.checker;
    let mut node = Node::new(alloc, setting, 6, NeverSeals)?;
    let tick = Event::Tick { floor: 0 };
    let first = node.turn(&checker, &tick).err();
    let second = node.turn(&checker, &tick).err();
    Ok([first, second])
}

#[test]
fn running_out_of_memory_halts_a_node(rt: HostRuntime) -> Result<(), Fail> {
    let wanted = [Some(NodeFault::NoMemory), Some(NodeFault::Halted)];
    assert_eq!(rt; refused(rt.alloc())?, wanted);
    Ok(())
}

/// The reason that a new node predicts for the turn on an event; None if the event changes the node.
fn foreseen(alloc: Global, event: &Event) -> Result<Option<Reason>, Fail> {
    let setting = Setting::new(5, 1, 1, 1)?;
    let checker = TagMaker::new(alloc).make(1, Height::H5, 5)?.checker;
    let node = Node::new(alloc, setting, 6, NeverSeals)?;
    let turned = node.idle_turn(&checker, event)?;
    Ok(turned.map(|turned| turned.reason))
}

fn arrived(alloc: Global, txs: &[Tx]) -> Result<Event, Fail> {
    Ok(Event::Arrived(TxList::of(txs.to_vec(alloc)?)))
}

#[test]
fn garbage_changes_nothing(rt: HostRuntime) -> Result<(), Fail> {
    let bytes = Packet::of(Bytes::of([9].to_vec(rt.alloc())?))?;
    let reason = foreseen(rt.alloc(), &Event::Deliver { from: 1, bytes })?;
    assert!(rt; matches!(reason, Some(Reason::BadWire(_))));
    Ok(())
}

#[test]
fn an_arrival_changes_a_node_and_an_empty_one_does_not(rt: HostRuntime) -> Result<(), Fail> {
    let tx = Tx {
        client: 1,
        number: 1,
        payload: 0,
    };
    let none = arrived(rt.alloc(), &[])?;
    let one = arrived(rt.alloc(), &[tx])?;
    assert!(rt; matches!(foreseen(rt.alloc(), &none)?, Some(Reason::Done)));
    assert!(rt; matches!(foreseen(rt.alloc(), &one)?, None));
    Ok(())
}

#[test]
fn a_tick_changes_a_node_before_its_last_view(rt: HostRuntime) -> Result<(), Fail> {
    let first = Event::Tick { floor: 0 };
    let last = Event::Tick { floor: 6 };
    assert!(rt; matches!(foreseen(rt.alloc(), &first)?, None));
    assert!(rt; matches!(foreseen(rt.alloc(), &last)?, Some(Reason::ViewLimit)));
    Ok(())
}
