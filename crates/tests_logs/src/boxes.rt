//! A mailbox, its receiver and two senders.
ghost use Rattle.std.specs.Prelude.{◌≡◌, ◌<◌, [], true, None, vec_len, slice_get, Some, IfSome};
ghost use Rattle.mailbox.specs.Boxes.{IsSenderOf, IsReceiverOf, of, receiver_in, sender_in};

use mailbox::{
    Envelope, Mailbox, SendPass, TakePass, a_mailbox_with_a_message_is_not_empty,
    an_empty_mailbox_keeps_nothing_back,
};
use seq_base::{Bytes, Packet};
use std::alloc::Global;
use std::sync::Wait;
use std::test::Fail;
use std::thread::{Threads, join};

// Sends each byte as its own message. None: memory ran out.
fn send_all<R: Wait>(
    rt: &R,
    alloc: Global,
    mailbox: &Mailbox,
    mut pass: SendPass,
    messages: &[u8],
) -> Option<SendPass>
    requires { IsSenderOf mailbox.now pass }
    ensures { IfSome result (λ pass. IsSenderOf mailbox.now pass) }
{
    for message in messages {
        let bytes = [*message].to_vec(alloc).ok()?;
        let packet = Packet::of(Bytes::of(bytes)).ok()?;
        mailbox.send(rt, &mut pass, packet).ok()?;
    }
    Some(pass)
}

// The two passes in a list.
fn both(passes: Vec<SendPass>) -> (SendPass, SendPass)
    requires { 1 < vec_len passes }
    ensures first { slice_get passes.items 0 ≡ Some result.0 }
    ensures second { slice_get passes.items 1 ≡ Some result.1 }
{
    let mut passes = passes;
    let second = passes.remove(1);
    let first = passes.remove(0);
    (first, second)
}

// Appends the bytes of a message to those of its sender. False: memory ran out.
fn sort(envelope: &Envelope, of_first: &mut Vec<u8>, of_second: &mut Vec<u8>) -> bool {
    let bytes = envelope.bytes.as_slice();
    if envelope.from == 0 {
        of_first.extend_from_slice(bytes).is_ok()
    } else {
        of_second.extend_from_slice(bytes).is_ok()
    }
}

// Receives three messages and sorts them by their senders. False: there are fewer, or memory ran out.
fn take_three<R: Wait>(
    rt: &R,
    mailbox: &Mailbox,
    receiver: &mut TakePass,
    of_first: &mut Vec<u8>,
    of_second: &mut Vec<u8>,
) -> bool
    requires { IsReceiverOf mailbox.now receiver.old }
    ensures { IsReceiverOf mailbox.now receiver.new }
{
    for _ in 0..3 {
        match mailbox.take(rt, receiver) {
            Some(envelope) => {
                if !sort(&envelope, of_first, of_second) {
                    return false;
                }
            }
            None => return false,
        }
    }
    true
}

// Both senders send concurrently: the first x and y, the second z.
fn send_concurrently<R: Threads + Wait + Sync>(
    rt: &R,
    alloc: Global,
    mailbox: &Mailbox,
    first: SendPass,
    second: SendPass,
) -> Option<(SendPass, SendPass)>
    requires first { IsSenderOf mailbox.now first }
    requires second { IsSenderOf mailbox.now second }
    ensures { IfSome result (λ r. IsSenderOf mailbox.now r.0 × IsSenderOf mailbox.now r.1) }
{
    let (first, second) = join(
        rt,
        || send_all(rt, alloc, mailbox, first, b"xy"),
        || send_all(rt, alloc, mailbox, second, b"z"),
    );
    Some((first?, second?))
}

// For each sender, whether all its messages were received.
fn all_taken_of_both<R: Wait>(
    rt: &R,
    mailbox: &Mailbox,
    receiver: &mut TakePass,
    first: &mut SendPass,
    second: &mut SendPass,
) -> (bool, bool)
    requires receiver { IsReceiverOf mailbox.now receiver.old }
    requires first { IsSenderOf mailbox.now first.old }
    requires second { IsSenderOf mailbox.now second.old }
    ensures { (receiver.new ≡ receiver.old) × (first.new ≡ first.old) × (second.new ≡ second.old) }
{
    let of_first = mailbox.all_taken(rt, receiver, first);
    let of_second = mailbox.all_taken(rt, receiver, second);
    (of_first, of_second)
}

// Informs the receiver of what the sender has sent, and receives once. None is returned only if all its messages were
// received before.
fn take_what_is_left<R: Wait>(
    rt: &R,
    mailbox: &Mailbox,
    receiver: &mut TakePass,
    sender: &mut SendPass,
) -> Option<Envelope>
    requires receiver { IsReceiverOf mailbox.now receiver.old }
    requires sender { IsSenderOf mailbox.now sender.old }
    ensures passes { IsReceiverOf mailbox.now receiver.new × IsSenderOf mailbox.now sender.new }
    ensures left { result ≡ None → of sender.old.from receiver.old.taken ≡ sender.old.sent }
{
    an_empty_mailbox_keeps_nothing_back();
    mailbox.hear(receiver, sender);
    let envelope = mailbox.take(rt, receiver);
    mailbox.all_taken(rt, receiver, sender);
    envelope
}

// Whether the mailbox is empty.
fn takes_nothing<R: Wait>(rt: &R, mailbox: &Mailbox, receiver: &mut TakePass) -> bool
    requires { IsReceiverOf mailbox.now receiver.old }
    ensures { IsReceiverOf mailbox.now receiver.new }
{
    mailbox.take(rt, receiver).is_none()
}

// Whether the next three messages are x and y of the first sender, in this order, and z of the second.
fn takes_three<R: Wait>(rt: &R, alloc: Global, mailbox: &Mailbox, receiver: &mut TakePass) -> bool
    requires { IsReceiverOf mailbox.now receiver.old }
    ensures { IsReceiverOf mailbox.now receiver.new }
{
    let mut of_first = Vec::new(alloc);
    let mut of_second = Vec::new(alloc);
    let are_taken = take_three(rt, mailbox, receiver, &mut of_first, &mut of_second);
    are_taken && of_first.as_slice() == b"xy".as_slice() && of_second.as_slice() == b"z".as_slice()
}

// Whether the receiver gets all messages of both senders, and `all_taken` is true only afterwards.
fn takes_all<R: Wait>(
    rt: &R,
    alloc: Global,
    mailbox: &Mailbox,
    receiver: &mut TakePass,
    first: &mut SendPass,
    second: &mut SendPass,
) -> bool
    requires receiver { IsReceiverOf mailbox.now receiver.old }
    requires first { IsSenderOf mailbox.now first.old }
    requires second { IsSenderOf mailbox.now second.old }
{
    let before = all_taken_of_both(rt, mailbox, receiver, first, second);
    let are_theirs = takes_three(rt, alloc, mailbox, receiver);
    let is_empty = takes_nothing(rt, mailbox, receiver);
    let after = all_taken_of_both(rt, mailbox, receiver, first, second);
    before == (false, false) && are_theirs && is_empty && after == (true, true)
}

// Whether the mailbox is empty at first, and the receiver gets all messages after both have sent.
fn come_in_order<R: Threads + Wait + Sync>(rt: &R, alloc: Global) -> Option<bool> {
    let (mailbox, passes, mut receiver) = Mailbox::start(alloc, 2).ok()?;
    let (first, second) = both(passes);
    let is_empty = takes_nothing(rt, &mailbox, &mut receiver);
    let (mut first, mut second) = send_concurrently(rt, alloc, &mailbox, first, second)?;
    let takes_all = takes_all(rt, alloc, &mailbox, &mut receiver, &mut first, &mut second);
    Some(is_empty && takes_all)
}

#[test]
fn messages_come_in_order_of_each_sender(rt: HostRuntime) -> Result<(), Fail> {
    assert!(rt; come_in_order(&rt, rt.alloc()).ok_or("memory")?);
    Ok(())
}

fn packet(alloc: Global, byte: u8) -> Option<Packet> {
    Packet::of(Bytes::of([byte].to_vec(alloc).ok()?)).ok()
}

fn is_z(envelope: &Envelope) -> bool {
    envelope.bytes.as_slice() == b"z".as_slice()
}

// Sends z. Whether it is the only message in the mailbox. None: memory ran out.
fn leaves_one<R: Wait>(
    rt: &R,
    alloc: Global,
    mailbox: &Mailbox,
    receiver: &mut TakePass,
    sender: &mut SendPass,
) -> Option<bool>
    requires receiver { IsReceiverOf mailbox.now receiver.old }
    requires sender { IsSenderOf mailbox.now sender.old }
{
    let is_sent = mailbox.send(rt, sender, packet(alloc, b'z')?).is_ok();
    let left = take_what_is_left(rt, mailbox, receiver, sender);
    let is_left = left.is_some_and(|envelope| is_z(&envelope));
    let is_empty = take_what_is_left(rt, mailbox, receiver, sender).is_none();
    Some(is_sent && is_left && is_empty)
}

// Sends the first message of all and informs the receiver of it. The receiver gets it. None: memory ran out.
fn first_is_taken<R: Wait>(
    rt: &R,
    alloc: Global,
    mailbox: &Mailbox,
    receiver: &mut TakePass,
    sender: &mut SendPass,
) -> Option<bool>
    requires receiver { receiver.old ≡ receiver_in mailbox.now [] }
    requires sender { (sender.old ≡ sender_in mailbox.now.name 0) × (0 < mailbox.now.senders) }
    ensures receiver { IsReceiverOf mailbox.now receiver.new }
    ensures taken { IfSome result (λ is_taken. is_taken ≡ true) }
{
    a_mailbox_with_a_message_is_not_empty();
    mailbox.send(rt, sender, packet(alloc, b'x')?).ok()?;
    mailbox.hear(receiver, sender);
    Some(mailbox.take(rt, receiver).is_some())
}

// Whether the first message of one sender is received, and then that of the other.
fn is_heard<R: Wait>(rt: &R, alloc: Global) -> Option<bool> {
    let (mailbox, passes, mut receiver) = Mailbox::start(alloc, 2).ok()?;
    let (mut first, mut second) = both(passes);
    let is_taken = first_is_taken(rt, alloc, &mailbox, &mut receiver, &mut first);
    let leaves_one = leaves_one(rt, alloc, &mailbox, &mut receiver, &mut second);
    Some(is_taken == Some(true) && leaves_one == Some(true))
}

#[test]
fn what_was_heard_of_is_taken(rt: HostRuntime) -> Result<(), Fail> {
    assert!(rt; is_heard(&rt, rt.alloc()).ok_or("memory")?);
    Ok(())
}
