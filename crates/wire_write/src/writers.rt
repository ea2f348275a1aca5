ghost use Rattle.std.specs.Prelude.{◌≡◌, ◌++◌, ◌∷◌, [], IfOk, OnOk};
ghost use Rattle.seq_base.specs.Spelling.{cert_spelling, vote_spelling, block_spelling, message_spelling, seal_spelling};

use crate::fields::{put_digest, put_seal};
use crate::parts::{put_block, put_carried, put_cert, put_sealed_order};
use crate::statements::{put_call, put_proposal, vote_bytes};
use seq_base::kinds::{ASK, FETCH, GIVE, NEW_VIEW, VERSION};
use seq_base::{Block, Bytes, Cert, Message, NoMemory, Vote};
use std::alloc::Global;

/// The bytes of a message, in the wire form of version 2.
pub fn write_message(alloc: Global, message: &Message) -> Result<Bytes, NoMemory>
    ensures { IfOk result (λ bytes. bytes ≡ message_spelling message.now) }
{
    let mut out = Vec::new(alloc);
    out.push(VERSION)?;
    put_message(&mut out, message)?;
    Ok(Bytes::of(out))
}

/// A message, after its version.
fn put_message(out: &mut Vec<u8>, message: &Message) -> Result<(), NoMemory>
    requires { out.old.items ≡ VERSION ∷ [] }
    ensures { OnOk result (out.new.items ≡ message_spelling message.now) }
{
    match message {
        Message::NewView {
            replica,
            view,
            cert,
            seal,
        } => {
            put_call(out, NEW_VIEW, *replica, *view, cert)?;
            put_seal(out, seal)
        }
        Message::Ask {
            replica,
            view,
            cert,
            seal,
        } => {
            put_call(out, ASK, *replica, *view, cert)?;
            put_seal(out, seal)
        }
        Message::Order(sealed) => put_sealed_order(out, sealed),
        Message::Propose {
            replica,
            block,
            seal,
        } => {
            put_proposal(out, *replica, block)?;
            put_seal(out, seal)
        }
        Message::Vote { vote, order } => {
            put_vote(out, vote)?;
            put_carried(out, order)
        }
        Message::Fetch { block } => {
            out.push(FETCH)?;
            put_digest(out, block)
        }
        Message::Give { block } => {
            out.push(GIVE)?;
            put_block(out, block)
        }
    }
}

/// A vote's statement and its seal.
fn put_vote(out: &mut Vec<u8>, vote: &Vote) -> Result<(), NoMemory>
    ensures { OnOk result (out.new.items ≡ out.old.items ++ vote_spelling vote.now.replica vote.now.view vote.now.block ++ seal_spelling vote.now.seal) }
{
    out.extend_from_slice(&vote_bytes(vote.replica, vote.view, &vote.block))?;
    put_seal(out, &vote.seal)
}

/// The bytes of a block, whose digest is the block's digest.
pub fn write_block(alloc: Global, block: &Block) -> Result<Bytes, NoMemory>
    ensures { IfOk result (λ bytes. bytes ≡ block_spelling block.now) }
{
    let mut out = Vec::new(alloc);
    put_block(&mut out, block)?;
    Ok(Bytes::of(out))
}

/// The bytes of a certificate.
pub fn cert_bytes(alloc: Global, cert: &Cert) -> Result<Bytes, NoMemory>
    ensures { IfOk result (λ bytes. bytes ≡ cert_spelling cert.now) }
{
    let mut out = Vec::new(alloc);
    put_cert(&mut out, cert)?;
    Ok(Bytes::of(out))
}
