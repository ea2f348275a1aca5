//! What the workers are informed of before a round: everything that was sent to their mailboxes.

ghost use Rattle.std.specs.Prelude.{◌≡◌, ◌<◌, ◌∷◌, ◌++◌, length, get_or, map, slice_set, All};
ghost use Rattle.std.specs.List.{AllZip};
ghost use Rattle.mailbox.specs.Boxes.{IsSenderOf, IsReceiverOf, Opened};
ghost use Rattle.thread_run.specs.News.{heard_of, informed};
ghost use Rattle.thread_run.specs.Workers.{Belongs, Ready, Working};

use crate::replica::Worker;
use crate::world::World;
use mailbox::{Mailbox, SendPass, TakePass};
use seal_kit::Sealer;

/// Informs the pass of the mailbox at a place of everything that was sent to it with these passes.
fn hear_sends(boxes: &[Mailbox], at: usize, take: &mut TakePass, sends: &mut [SendPass])
    requires place { at < length boxes.now }
    requires receiver { (d : Opened) → IsReceiverOf (get_or boxes.now at d) take.old }
    requires senders { AllZip IsSenderOf boxes.now sends.old }
    ensures same { sends.new ≡ sends.old }
    ensures heard { take.new ≡ heard_of at take.old sends.old }
{
    boxes[at].hear(take, &mut sends[at]);
}

/// Informs a worker of everything that another has sent to its mailbox.
fn hear_one<S: Sealer>(world: &World, receiver: &mut Worker<S>, sender: &mut Worker<S>)
    requires receiver { Belongs world.now.logs.items world.now.boxes.items receiver.old }
    requires sender { Ready world.now.logs.items world.now.boxes.items sender.old }
    ensures same { sender.new ≡ sender.old }
    ensures heard { receiver.new ≡ record receiver.old { take = heard_of receiver.old.at receiver.old.take sender.old.sends } }
{
    let at = receiver.at as usize;
    hear_sends(
        world.boxes.as_slice(),
        at,
        &mut receiver.take,
        sender.sends.as_mut_slice(),
    )
}

/// Informs a worker of everything that it has sent to its own mailbox.
fn hear_own<S: Sealer>(world: &World, worker: &mut Worker<S>)
    requires worker { Belongs world.now.logs.items world.now.boxes.items worker.old }
    ensures heard { worker.new ≡ record worker.old { take = heard_of worker.old.at worker.old.take worker.old.sends } }
{
    let at = worker.at as usize;
    hear_sends(
        world.boxes.as_slice(),
        at,
        &mut worker.take,
        worker.sends.as_mut_slice(),
    )
}

/// Informs a worker of everything that each of these workers has sent to its mailbox.
fn hear_each<S: Sealer>(world: &World, receiver: &mut Worker<S>, senders: &mut [Worker<S>])
    requires receiver { Belongs world.now.logs.items world.now.boxes.items receiver.old }
    requires senders { All (Ready world.now.logs.items world.now.boxes.items) senders.old }
    ensures same { senders.new ≡ senders.old }
    ensures heard { receiver.new ≡ informed senders.old receiver.old }
{
    for k in 0..senders.len() {
        hear_one(world, receiver, &mut senders[k]);
    }
}

/// Informs a worker of everything that the workers before it, itself and the workers after it have sent to its mailbox.
fn hear_among<S: Sealer>(
    world: &World,
    prefix: &mut [Worker<S>],
    worker: &mut Worker<S>,
    back: &mut [Worker<S>],
)
    requires worker { Belongs world.now.logs.items world.now.boxes.items worker.old }
    requires prefix { All (Ready world.now.logs.items world.now.boxes.items) prefix.old }
    requires back { All (Ready world.now.logs.items world.now.boxes.items) back.old }
    ensures prefix { prefix.new ≡ prefix.old }
    ensures back { back.new ≡ back.old }
    ensures heard { worker.new ≡ informed (prefix.old ++ worker.old ∷ back.old) worker.old }
{
    hear_each(world, worker, prefix);
    hear_own(world, worker);
    hear_each(world, worker, back);
}

/// Informs the worker at a place of everything that was sent to its mailbox.
fn hear_at<S: Sealer>(world: &World, workers: &mut [Worker<S>], at: usize)
    requires ready { All (Ready world.now.logs.items world.now.boxes.items) workers.old }
    requires place { at < length workers.old }
    ensures heard { (d : Working S) → workers.new ≡ slice_set workers.old at (informed workers.old (get_or workers.old at d)) }
{
    let (prefix, rest) = workers.split_at_mut(at);
    let (own, back) = rest.split_at_mut(1);
    hear_among(world, prefix, &mut own[0], back);
}

/// Informs each worker of everything that was sent to its mailbox. Allocates nothing.
pub(crate) fn hear_all<S: Sealer>(world: &World, workers: &mut [Worker<S>])
    requires ready { All (Ready world.now.logs.items world.now.boxes.items) workers.old }
    ensures heard { workers.new ≡ map (informed workers.old) workers.old }
{
    for at in 0..workers.len() {
        hear_at(world, workers, at);
    }
}
