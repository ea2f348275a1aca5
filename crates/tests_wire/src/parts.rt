//! Messages made of given parts: a statement and its seal, a block or its digest.
use crate::samples::sample;
use seq_base::{Bytes, Cert, Message, NoMemory, SealedOrder, Vote};
use std::alloc::Global;
use std::test::Fail;
use wire_view::read;
use wire_write::{
    ask_statement, cert_bytes, fetch_message, give_message, lone_vote_message, new_view_statement,
    order_bytes, propose_statement, sealed_message, vote_bytes, vote_message,
};

/// The bytes of a message, made of its parts.
fn made_of_parts(alloc: Global, message: &Message) -> Result<Bytes, NoMemory> {
    match message {
        Message::NewView {
            replica,
            view,
            cert,
            seal,
        } => {
            let statement = new_view_statement(alloc, *replica, *view, cert)?;
            sealed_message(alloc, statement.as_slice(), seal)
        }
        Message::Ask {
            replica,
            view,
            cert,
            seal,
        } => {
            let statement = ask_statement(alloc, *replica, *view, cert)?;
            sealed_message(alloc, statement.as_slice(), seal)
        }
        Message::Order(sealed) => {
            let statement = order_bytes(alloc, &sealed.order)?;
            sealed_message(alloc, statement.as_slice(), &sealed.seal)
        }
        Message::Propose {
            replica,
            block,
            seal,
        } => {
            let statement = propose_statement(alloc, *replica, block)?;
            sealed_message(alloc, statement.as_slice(), seal)
        }
        Message::Vote { vote, order } => vote_of_parts(alloc, vote, order),
        Message::Fetch { block } => fetch_message(alloc, block),
        Message::Give { block } => give_message(alloc, block),
    }
}

fn vote_of_parts(
    alloc: Global,
    vote: &Vote,
    order: &Option<SealedOrder>,
) -> Result<Bytes, NoMemory> {
    let statement = vote_bytes(vote.replica, vote.view, &vote.block);
    match order {
        None => lone_vote_message(alloc, &statement, &vote.seal),
        Some(sealed) => {
            let order = order_bytes(alloc, &sealed.order)?;
            vote_message(
                alloc,
                &statement,
                &vote.seal,
                order.as_slice(),
                &sealed.seal,
            )
        }
    }
}

/// Whether bytes are a message that is the same when it is made of its parts.
fn is_made_of_parts(alloc: Global, bytes: &[u8]) -> Result<bool, Fail> {
    match read(bytes) {
        Ok(view) => {
            let message = view.own(alloc)?;
            Ok(made_of_parts(alloc, &message)?.as_slice() == bytes)
        }
        Err(_) => Ok(false),
    }
}

/// A vote of replica 2 for the block of zeros in view 3, with an empty seal and no order.
fn lone_vote() -> [u8; 42] {
    let mut bytes = [0; 42];
    bytes[0] = 2;
    bytes[1] = 5;
    bytes[2] = 2;
    bytes[6] = 3;
    bytes
}

#[test]
fn each_kind_is_made_of_its_parts(rt: HostRuntime) -> Result<(), Fail> {
    for kind in 1..8 {
        let bytes = sample(rt.alloc(), kind)?;
        assert!(rt; is_made_of_parts(rt.alloc(), &bytes)?, "kind {kind}");
    }
    assert!(rt; is_made_of_parts(rt.alloc(), &lone_vote())?);
    Ok(())
}

/// The certificate of the first block has view 0, the digest of zeros and no votes.
#[test]
fn first_certificate_is_of_zeros(rt: HostRuntime) -> Result<(), Fail> {
    let bytes = cert_bytes(rt.alloc(), &Cert::first(rt.alloc()))?;
    assert!(rt; bytes.as_slice() == [0; 37].as_slice());
    Ok(())
}
