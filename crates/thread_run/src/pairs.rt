//! The driver's comparison of each mailbox with each sender, between rounds.

ghost use Rattle.std.specs.Prelude.{◌≡◌, ◌<◌, true, false, length, get_or, All};
ghost use Rattle.std.specs.List.{AllZip};
ghost use Rattle.mailbox.specs.Boxes.{IsSenderOf, IsReceiverOf, Opened};
ghost use Rattle.thread_run.specs.Pairs.{AllCompared, Answers, AnswersAll, AnswersAt, AnswersRow, Compared};
ghost use Rattle.thread_run.specs.Workers.{Belongs, Ready};

use crate::replica::Worker;
use crate::world::World;
use mailbox::{Mailbox, SendPass, TakePass};
use seal_kit::Sealer;
use std::sync::Wait;

/// Whether everything that was sent to the mailbox at a place, with the passes of one sender, was received.
fn compare<R: Wait>(
    rt: &R,
    boxes: &[Mailbox],
    at: usize,
    take: &mut TakePass,
    sends: &mut [SendPass],
) -> bool
    requires place { at < length boxes.now }
    requires receiver { (d : Opened) → IsReceiverOf (get_or boxes.now at d) take.old }
    requires senders { AllZip IsSenderOf boxes.now sends.old }
    ensures same { (take.new ≡ take.old) × (sends.new ≡ sends.old) }
    ensures compared { Compared result at take.old.taken sends.old }
{
    boxes[at].all_taken(rt, take, &mut sends[at])
}

/// Whether the worker `receiver` received everything that the worker `sender` sent to it.
fn pair_is_whole<S: Sealer, R: Wait>(
    rt: &R,
    world: &World,
    receiver: &mut Worker<S>,
    sender: &mut Worker<S>,
) -> bool
    requires receiver { Belongs world.now.logs.items world.now.boxes.items receiver.old }
    requires sender { Belongs world.now.logs.items world.now.boxes.items sender.old }
    ensures same { (receiver.new ≡ receiver.old) × (sender.new ≡ sender.old) }
    ensures answers { Answers result receiver.old sender.old }
{
    let at = receiver.at as usize;
    compare(
        rt,
        world.boxes.as_slice(),
        at,
        &mut receiver.take,
        sender.sends.as_mut_slice(),
    )
}

/// The same for a worker and itself.
fn own_is_whole<S: Sealer, R: Wait>(rt: &R, world: &World, worker: &mut Worker<S>) -> bool
    requires { Belongs world.now.logs.items world.now.boxes.items worker.old }
    ensures same { worker.new ≡ worker.old }
    ensures answers { Answers result worker.old worker.old }
{
    let at = worker.at as usize;
    compare(
        rt,
        world.boxes.as_slice(),
        at,
        &mut worker.take,
        worker.sends.as_mut_slice(),
    )
}

/// The same for any two workers, where either the first or the second is the receiver.
fn either_is_whole<S: Sealer, R: Wait>(
    rt: &R,
    world: &World,
    one: &mut Worker<S>,
    other: &mut Worker<S>,
    one_takes: bool,
) -> bool
    requires one { Ready world.now.logs.items world.now.boxes.items one.old }
    requires other { Ready world.now.logs.items world.now.boxes.items other.old }
    ensures same { (one.new ≡ one.old) × (other.new ≡ other.old) }
    ensures first { one_takes ≡ true → Answers result one.old other.old }
    ensures second { one_takes ≡ false → Answers result other.old one.old }
{
    if one_takes {
        pair_is_whole(rt, world, one, other)
    } else {
        pair_is_whole(rt, world, other, one)
    }
}

/// The same for the workers at two places, the first before the second.
fn two_in_order<S: Sealer, R: Wait>(
    rt: &R,
    world: &World,
    workers: &mut [Worker<S>],
    low: usize,
    high: usize,
    low_takes: bool,
) -> bool
    requires ready { All (Ready world.now.logs.items world.now.boxes.items) workers.old }
    requires places { (low < high) × (high < length workers.old) }
    ensures same { workers.new ≡ workers.old }
    ensures first { low_takes ≡ true → AnswersAt workers.old low high result }
    ensures second { low_takes ≡ false → AnswersAt workers.old high low result }
{
    let (prefix, back) = workers.split_at_mut(high);
    either_is_whole(rt, world, &mut prefix[low], &mut back[0], low_takes)
}

/// Whether the worker at one place received everything that the worker at another sent to it.
fn two_at<S: Sealer, R: Wait>(
    rt: &R,
    world: &World,
    workers: &mut [Worker<S>],
    receiver: usize,
    sender: usize,
) -> bool
    requires ready { All (Ready world.now.logs.items world.now.boxes.items) workers.old }
    requires places { (receiver < length workers.old) × (sender < length workers.old) }
    ensures same { workers.new ≡ workers.old }
    ensures answers { AnswersAt workers.old receiver sender result }
{
    if receiver == sender {
        own_is_whole(rt, world, &mut workers[receiver])
    } else if receiver < sender {
        two_in_order(rt, world, workers, receiver, sender, true)
    } else {
        two_in_order(rt, world, workers, sender, receiver, false)
    }
}

/// Whether the worker at a place received everything that each worker sent to it. Every sender is compared, also after
/// one whose comparison is false.
fn took_all<S: Sealer, R: Wait>(
    rt: &R,
    world: &World,
    workers: &mut [Worker<S>],
    receiver: usize,
) -> bool
    requires ready { All (Ready world.now.logs.items world.now.boxes.items) workers.old }
    requires place { receiver < length workers.old }
    ensures same { workers.new ≡ workers.old }
    ensures answers { AnswersRow workers.old receiver result }
{
    let mut whole = true;
    for sender in 0..workers.len() {
        let one = two_at(rt, world, workers, receiver, sender);
        whole = whole && one;
    }
    whole
}

/// Whether each worker received everything that each worker sent to it. Every pair is compared, also after one whose
/// comparison is false.
fn ask_all<S: Sealer, R: Wait>(rt: &R, world: &World, workers: &mut [Worker<S>]) -> bool
    requires { All (Ready world.now.logs.items world.now.boxes.items) workers.old }
    ensures same { workers.new ≡ workers.old }
    ensures answers { AnswersAll workers.old result }
{
    let mut whole = true;
    for receiver in 0..workers.len() {
        let one = took_all(rt, world, workers, receiver);
        whole = whole && one;
    }
    whole
}

/// Whether every worker received everything that was sent to its mailbox. Afterwards every mailbox was compared with
/// every sender.
#[tactic(auto, using(crate::proofs::Comparisons::all_compared))]
pub(crate) fn all_whole<S: Sealer, R: Wait>(
    rt: &R,
    world: &World,
    workers: &mut [Worker<S>],
) -> bool
    requires { All (Ready world.now.logs.items world.now.boxes.items) workers.old }
    ensures same { workers.new ≡ workers.old }
    ensures compared { AllCompared result workers.old }
{
    ask_all(rt, world, workers)
}
