//! The statements that replicas seal, each with its kind first.
ghost use Rattle.std.specs.Prelude.{◌≡◌, ◌++◌, IfOk, OnOk};
ghost use Rattle.seq_base.specs.Spelling.{call_spelling, order_spelling, propose_spelling, vote_spelling};

use crate::fields::{put_u8, put_u32};
use crate::parts::{put_block, put_cert, put_order};
use seq_base::kinds::{ASK, NEW_VIEW, PROPOSE, VOTE};
use seq_base::{Block, Bytes, Cert, Digest, LocalOrder, NoMemory};
use std::alloc::Global;

/// The statement of a replica that calls for a view and shows its highest certificate.
pub fn new_view_statement(
    alloc: Global,
    replica: u32,
    view: u32,
    cert: &Cert,
) -> Result<Bytes, NoMemory>
    ensures { IfOk result (λ bytes. bytes ≡ call_spelling NEW_VIEW replica view cert.now) }
{
    let mut out = Vec::new(alloc);
    put_call(&mut out, NEW_VIEW, replica, view, cert)?;
    Ok(Bytes::of(out))
}

/// The statement of the leader of a view that asks for local orders over a certified block.
pub fn ask_statement(alloc: Global, replica: u32, view: u32, cert: &Cert) -> Result<Bytes, NoMemory>
    ensures { IfOk result (λ bytes. bytes ≡ call_spelling ASK replica view cert.now) }
{
    let mut out = Vec::new(alloc);
    put_call(&mut out, ASK, replica, view, cert)?;
    Ok(Bytes::of(out))
}

/// The statement of a local order, which its replica seals.
pub fn order_bytes(alloc: Global, order: &LocalOrder) -> Result<Bytes, NoMemory>
    ensures { IfOk result (λ bytes. bytes ≡ order_spelling order.now) }
{
    let mut out = Vec::new(alloc);
    put_order(&mut out, order)?;
    Ok(Bytes::of(out))
}

/// The statement of the leader of a view that proposes a block.
pub fn propose_statement(alloc: Global, replica: u32, block: &Block) -> Result<Bytes, NoMemory>
    ensures { IfOk result (λ bytes. bytes ≡ propose_spelling replica block.now) }
{
    let mut out = Vec::new(alloc);
    put_proposal(&mut out, replica, block)?;
    Ok(Bytes::of(out))
}

/// The statement of a vote, which its replica seals. A vote inside a certificate has the same statement, with the
/// certificate's view and block. Takes no memory.
pub fn vote_bytes(replica: u32, view: u32, block: &Digest) -> [u8; 38]
    ensures { result ≡ vote_spelling replica view block.now }
{
    let mut bytes = [0; 38];
    bytes[0] = VOTE;
    bytes[1] = (replica % 256) as u8;
    bytes[2..6].copy_from_slice(&view.to_be_bytes());
    bytes[6..].copy_from_slice(&block.0);
    bytes
}

/// The statement of a message that names a view and a certificate.
pub(crate) fn put_call(
    out: &mut Vec<u8>,
    kind: u8,
    replica: u32,
    view: u32,
    cert: &Cert,
) -> Result<(), NoMemory>
    ensures { OnOk result (out.new.items ≡ out.old.items ++ call_spelling kind replica view cert.now) }
{
    out.push(kind)?;
    put_u8(out, replica)?;
    put_u32(out, view)?;
    put_cert(out, cert)
}

pub(crate) fn put_proposal(out: &mut Vec<u8>, replica: u32, block: &Block) -> Result<(), NoMemory>
    ensures { OnOk result (out.new.items ≡ out.old.items ++ propose_spelling replica block.now) }
{
    out.push(PROPOSE)?;
    put_u8(out, replica)?;
    put_block(out, block)
}
