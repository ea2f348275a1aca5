//! Writes the record of an event.
ghost use Rattle.std.specs.Prelude.{◌≡◌, ◌↔◌, ◌<◌, ◌^◌, ◌++◌, ◌∷◌, IsTrue, IfOk, OnOk, length, All};
ghost use Rattle.std.specs.Int.{w8, w32, to_be_bytes};
ghost use Rattle.std.specs.List.{flat_map, AllByRecursion};
ghost use Rattle.seq_base.specs.Spelling.{tx_spelling};
ghost use Rattle.seq_base.specs.Tx.{FitsTx};
ghost use Rattle.durable_node.specs.Check.{next_digest};
ghost use Rattle.durable_node.specs.Log.{CanBeKept, IsNarrow, IsShort, body_of, framed, record_of};

use crate::check::{first_bytes, next_digest, size_check};
use node_core::Event;
use seq_base::{NoMemory, Tx};
use std::alloc::Global;

const ARRIVED: u8 = 1;

const DELIVER: u8 = 2;

const TICK: u8 = 3;

/// How many bytes a record has in addition to its body.
const FRAME_BYTES: usize = 20;

/// Whether the record of an event has room in its fields: its body has less than 2^32 bytes, and its sender is below
/// 256. The events that a run of this program gives its nodes have room.
#[tactic(auto, using(crate::proofs::Txs::txs_size), unfolding(crate::specs::Log::body_of))]
pub fn is_short(event: &Event) -> bool
    ensures { IsTrue result ↔ IsShort event.now }
{
    match event {
        Event::Arrived(list) => list.as_slice().len() < 1 << 28,
        Event::Deliver { from, bytes } => *from < 256 && bytes.as_slice().len() < (1 << 32) - 2,
        Event::Tick { .. } => true,
    }
}

/// The record of an event, and the running digest after it.
pub struct Record {
    pub bytes: Vec<u8>,
    pub digest: [u8; 32],
}

/// The record of an event, after the running digest of the log that it is for: the length of its body, a check of that,
/// the body, and its check.
#[tactic(auto, using(crate::proofs::Records::can_be))]
pub fn record_of(alloc: Global, digest: &[u8; 32], event: &Event) -> Result<Record, NoMemory>
    requires { IsShort event.now }
    ensures record { IfOk result (λ made. made.bytes.items ≡ record_of digest.now event.now) }
    ensures digest { IfOk result (λ made. made.digest ≡ next_digest digest.now (body_of event.now)) }
    ensures can { OnOk result (CanBeKept event.now) }
{
    let body = body_of(alloc, event)?;
    framed(alloc, digest, body.as_slice())
}

#[tactic(auto, unfolding(crate::specs::Log::framed))]
fn framed(alloc: Global, digest: &[u8; 32], body: &[u8]) -> Result<Record, NoMemory>
    ensures record { IfOk result (λ made. made.bytes.items ≡ framed digest.now body.now) }
    ensures digest { IfOk result (λ made. made.digest ≡ next_digest digest.now body.now) }
{
    let mut bytes = Vec::with_capacity(alloc, FRAME_BYTES + body.len())?;
    put_count(&mut bytes, body.len())?;
    let check = size_check(digest, bytes.as_slice());
    bytes.extend_from_slice(&check)?;
    bytes.extend_from_slice(body)?;
    let digest = next_digest(digest, body);
    bytes.extend_from_slice(&first_bytes(&digest))?;
    Ok(Record { bytes, digest })
}

#[tactic(auto, unfolding(crate::specs::Log::body_of))]
fn body_of(alloc: Global, event: &Event) -> Result<Vec<u8>, NoMemory>
    requires { IsShort event.now }
    ensures body { IfOk result (λ bytes. bytes.items ≡ body_of event.now) }
    ensures narrow { OnOk result (IsNarrow event.now) }
{
    match event {
        Event::Arrived(list) => arrived(alloc, list.as_slice()),
        Event::Deliver { from, bytes } => delivered(alloc, *from, bytes.as_slice()),
        Event::Tick { floor } => tick(alloc, *floor),
    }
}

fn arrived(alloc: Global, txs: &[Tx]) -> Result<Vec<u8>, NoMemory>
    ensures body { IfOk result (λ bytes. bytes.items ≡ 1 ∷ to_be_bytes w32 (length txs.now) ++ flat_map tx_spelling txs.now) }
    ensures narrow { OnOk result (AllByRecursion FitsTx txs.now) }
{
    let mut out = Vec::new(alloc);
    out.push(ARRIVED)?;
    put_count(&mut out, txs.len())?;
    for tx in txs {
        put_tx(&mut out, tx)?;
    }
    Ok(out)
}

fn delivered(alloc: Global, from: u32, bytes: &[u8]) -> Result<Vec<u8>, NoMemory>
    requires { from < 256 }
    ensures body { IfOk result (λ out. out.items ≡ 2 ∷ to_be_bytes w8 from ++ bytes.now) }
    ensures narrow { OnOk result (All (λ b. b < 256) bytes.now) }
{
    let mut out = Vec::new(alloc);
    out.push(DELIVER)?;
    out.push(from as u8)?;
    out.extend_from_slice(bytes)?;
    Ok(out)
}

fn tick(alloc: Global, floor: u32) -> Result<Vec<u8>, NoMemory>
    ensures body { IfOk result (λ bytes. bytes.items ≡ 3 ∷ to_be_bytes w32 floor) }
    ensures narrow { OnOk result (floor < 2 ^ 32) }
{
    let mut out = Vec::new(alloc);
    out.push(TICK)?;
    put_u32(&mut out, floor)?;
    Ok(out)
}

fn put_tx(out: &mut Vec<u8>, tx: &Tx) -> Result<(), NoMemory>
    ensures text { OnOk result (out.new.items ≡ out.old.items ++ tx_spelling tx.now) }
    ensures fits { OnOk result (FitsTx tx.now) }
{
    put_u32(out, tx.client)?;
    put_u32(out, tx.number)?;
    out.extend_from_slice(&tx.payload.to_be_bytes())?;
    Ok(())
}

fn put_u32(out: &mut Vec<u8>, number: u32) -> Result<(), NoMemory>
    ensures { OnOk result (out.new.items ≡ out.old.items ++ to_be_bytes w32 number) }
{
    out.extend_from_slice(&number.to_be_bytes())?;
    Ok(())
}

/// A count in four bytes. One of 2^32 or more wraps.
fn put_count(out: &mut Vec<u8>, count: usize) -> Result<(), NoMemory>
    ensures { OnOk result (out.new.items ≡ out.old.items ++ to_be_bytes w32 count) }
{
    out.push((count / 16_777_216 % 256) as u8)?;
    out.push((count / 65_536 % 256) as u8)?;
    out.push((count / 256 % 256) as u8)?;
    out.push((count % 256) as u8)?;
    Ok(())
}
