//! Five replicas in one process with keys of two levels, and the messages between them.
use crate::replicas::{opened_with, publics};
use node_core::Event;
use replica_box::Replica;
use seal_kit::Height;
use seq_base::{NoMemory, Outgoing, Packet};
use std::alloc::Global;
use std::collections::VecDeque;
use std::test::Fail;

/// A message that is sent and not delivered yet.
#[derive(Drop)]
pub(crate) struct Message {
    pub(crate) from: u32,
    pub(crate) to: u32,
    pub(crate) bytes: Packet,
}

impl Message {
    /// The event of its delivery.
    pub(crate) fn event(&self) -> Result<Event, NoMemory> {
        Ok(Event::Deliver {
            from: self.from,
            bytes: self.bytes.share()?,
        })
    }
}

#[derive(Drop)]
pub(crate) struct Cluster {
    pub(crate) replicas: Vec<Replica>,
    /// The log of replica 0, without its header.
    pub(crate) log: Vec<u8>,
    /// Messages that are not delivered yet, in the order of sending.
    pub(crate) queue: VecDeque<Message>,
    /// Messages that were held back.
    pub(crate) held: Vec<Message>,
}

/// Five new replicas.
pub(crate) fn new_cluster(alloc: Global) -> Result<Cluster, Fail> {
    let keys = publics(alloc, Height::H5H5)?;
    let mut replicas = Vec::new(alloc);
    for me in 0..5u8 {
        let (replica, _) = opened_with(alloc, Height::H5H5, keys.as_slice(), me, me, &[])??;
        replicas.push(replica)?;
    }
    Ok(Cluster {
        replicas,
        log: Vec::new(alloc),
        queue: VecDeque::new(alloc),
        held: Vec::new(alloc),
    })
}

fn push(queue: &mut VecDeque<Message>, from: u32, out: &Outgoing) -> Result<(), NoMemory> {
    let message = Message {
        from,
        to: out.to,
        bytes: out.bytes.share()?,
    };
    match queue.push_back(message) {
        Ok(()) => Ok(()),
        Err(_) => Err(NoMemory),
    }
}

/// Prepares an event, appends its record to the log of replica 0, acts on it, and queues the messages of the turn.
fn turn(
    replica: &mut Replica,
    log: &mut Vec<u8>,
    queue: &mut VecDeque<Message>,
    me: u32,
    event: Event,
) -> Result<(), Fail> {
    replica.prepare(event)?;
    if me == 0 {
        log.extend_from_slice(replica.record(0).unwrap_or(&[]))?;
    }
    replica.act()?;
    for out in replica.sends() {
        push(queue, me, out)?;
    }
    Ok(())
}

impl Cluster {
    /// The turn of a replica on an event.
    pub(crate) fn turn(&mut self, to: u32, event: Event) -> Result<(), Fail> {
        match self.replicas.get_mut(to as usize) {
            Some(replica) => turn(replica, &mut self.log, &mut self.queue, to, event),
            None => Ok(()),
        }
    }

    /// A tick of each replica.
    pub(crate) fn tick(&mut self, floor: u32) -> Result<(), Fail> {
        for me in 0..5 {
            self.turn(me, Event::Tick { floor })?;
        }
        Ok(())
    }

    /// Delivers all messages in the order of sending, except those to one replica, which it holds back.
    pub(crate) fn deliver_all(&mut self, held: u32) -> Result<(), Fail> {
        for _ in 0..1000 {
            let Some(message) = self.queue.pop_front() else {
                return Ok(());
            };
            if message.to == held {
                self.held.push(message)?;
            } else {
                self.turn(message.to, message.event()?)?;
            }
        }
        Ok(())
    }
}
