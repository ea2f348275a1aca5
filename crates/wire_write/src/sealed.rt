//! Messages assembled from existing parts: a statement with its seal, and a block or its digest.
ghost use Rattle.std.specs.Prelude.{◌≡◌, ◌++◌, ◌∷◌, [], IfOk};
ghost use Rattle.seq_base.specs.Spelling.{block_spelling, seal_spelling};

use crate::fields::{put_digest, put_seal};
use crate::parts::put_block;
use seq_base::kinds::{FETCH, GIVE, VERSION};
use seq_base::{Block, Bytes, Digest, NoMemory, Seal};
use std::alloc::Global;

/// A statement with its seal, as it is sent.
pub fn sealed_message(alloc: Global, statement: &[u8], seal: &Seal) -> Result<Bytes, NoMemory>
    ensures { IfOk result (λ bytes. bytes ≡ VERSION ∷ statement.now ++ seal_spelling seal.now) }
{
    Ok(Bytes::of(sealed(alloc, statement, seal)?))
}

fn sealed(alloc: Global, statement: &[u8], seal: &Seal) -> Result<Vec<u8>, NoMemory>
    ensures { IfOk result (λ bytes. bytes.items ≡ VERSION ∷ statement.now ++ seal_spelling seal.now) }
{
    let room = statement.len().saturating_add(seal.as_slice().len());
    let mut bytes = Vec::with_capacity(alloc, room.saturating_add(4))?;
    bytes.push(VERSION)?;
    bytes.extend_from_slice(statement)?;
    put_seal(&mut bytes, seal)?;
    Ok(bytes)
}

/// A vote with its seal that carries no order.
pub fn lone_vote_message(alloc: Global, statement: &[u8], seal: &Seal) -> Result<Bytes, NoMemory>
    ensures { IfOk result (λ bytes. bytes ≡ VERSION ∷ statement.now ++ seal_spelling seal.now ++ 0 ∷ []) }
{
    let mut bytes = sealed(alloc, statement, seal)?;
    bytes.push(0)?;
    Ok(Bytes::of(bytes))
}

/// A vote with its seal that carries an order with its own seal.
pub fn vote_message(
    alloc: Global,
    statement: &[u8],
    seal: &Seal,
    order: &[u8],
    order_seal: &Seal,
) -> Result<Bytes, NoMemory>
    ensures { IfOk result (λ bytes. bytes
        ≡ VERSION ∷ statement.now ++ seal_spelling seal.now ++ 1 ∷ (order.now ++ seal_spelling order_seal.now)) }
{
    let mut bytes = sealed(alloc, statement, seal)?;
    bytes.push(1)?;
    bytes.extend_from_slice(order)?;
    put_seal(&mut bytes, order_seal)?;
    Ok(Bytes::of(bytes))
}

/// Asks for a block.
pub fn fetch_message(alloc: Global, block: &Digest) -> Result<Bytes, NoMemory>
    ensures { IfOk result (λ bytes. bytes ≡ VERSION ∷ FETCH ∷ block.now.0) }
{
    let mut out = Vec::new(alloc);
    out.push(VERSION)?;
    out.push(FETCH)?;
    put_digest(&mut out, block)?;
    Ok(Bytes::of(out))
}

/// Gives a block.
pub fn give_message(alloc: Global, block: &Block) -> Result<Bytes, NoMemory>
    ensures { IfOk result (λ bytes. bytes ≡ VERSION ∷ GIVE ∷ block_spelling block.now) }
{
    let mut out = Vec::new(alloc);
    out.push(VERSION)?;
    out.push(GIVE)?;
    put_block(&mut out, block)?;
    Ok(Bytes::of(out))
}
