//! Writers of the parts of messages. Each appends to the output.
ghost use Rattle.std.specs.Prelude.{◌≡◌, ◌++◌, OnOk};
ghost use Rattle.seq_base.specs.Spelling.{txs_spelling, cert_spelling, cert_vote_spelling, order_spelling, sealed_order_spelling, block_spelling, carried_spelling};

use crate::fields::{put_digest, put_seal, put_tx, put_u8, put_u8_count, put_u16_count, put_u32};
use seq_base::kinds::ORDER;
use seq_base::{Block, Cert, CertVote, LocalOrder, NoMemory, SealedOrder, TxList};

fn put_txs(out: &mut Vec<u8>, txs: &TxList) -> Result<(), NoMemory>
    ensures { OnOk result (out.new.items ≡ out.old.items ++ txs_spelling txs.now) }
{
    let txs = txs.as_slice();
    put_u16_count(out, txs.len())?;
    for tx in txs {
        put_tx(out, tx)?;
    }
    Ok(())
}

pub(crate) fn put_order(out: &mut Vec<u8>, order: &LocalOrder) -> Result<(), NoMemory>
    ensures { OnOk result (out.new.items ≡ out.old.items ++ order_spelling order.now) }
{
    out.push(ORDER)?;
    put_u8(out, order.replica)?;
    put_u32(out, order.view)?;
    put_digest(out, &order.parent)?;
    put_txs(out, &order.fresh)?;
    put_txs(out, &order.late)
}

pub(crate) fn put_sealed_order(out: &mut Vec<u8>, sealed: &SealedOrder) -> Result<(), NoMemory>
    ensures { OnOk result (out.new.items ≡ out.old.items ++ sealed_order_spelling sealed.now) }
{
    put_order(out, &sealed.order)?;
    put_seal(out, &sealed.seal)
}

fn put_cert_vote(out: &mut Vec<u8>, vote: &CertVote) -> Result<(), NoMemory>
    ensures { OnOk result (out.new.items ≡ out.old.items ++ cert_vote_spelling vote.now) }
{
    put_u8(out, vote.replica)?;
    put_seal(out, &vote.seal)
}

pub(crate) fn put_cert(out: &mut Vec<u8>, cert: &Cert) -> Result<(), NoMemory>
    ensures { OnOk result (out.new.items ≡ out.old.items ++ cert_spelling cert.now) }
{
    put_u32(out, cert.view)?;
    put_digest(out, &cert.block)?;
    let votes = cert.votes.as_slice();
    put_u8_count(out, votes.len())?;
    for vote in votes {
        put_cert_vote(out, vote)?;
    }
    Ok(())
}

pub(crate) fn put_block(out: &mut Vec<u8>, block: &Block) -> Result<(), NoMemory>
    ensures { OnOk result (out.new.items ≡ out.old.items ++ block_spelling block.now) }
{
    put_u32(out, block.view)?;
    put_cert(out, &block.cert)?;
    let orders = block.orders.as_slice();
    put_u8_count(out, orders.len())?;
    for order in orders {
        put_sealed_order(out, order)?;
    }
    Ok(())
}

/// The order that a vote carries, after its count of 0 or 1.
pub(crate) fn put_carried(out: &mut Vec<u8>, order: &Option<SealedOrder>) -> Result<(), NoMemory>
    ensures { OnOk result (out.new.items ≡ out.old.items ++ carried_spelling order.now) }
{
    match order {
        None => {
            out.push(0)?;
            Ok(())
        }
        Some(order) => {
            out.push(1)?;
            put_sealed_order(out, order)
        }
    }
}
