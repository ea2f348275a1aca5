//! The largest blocks, built from the format alone. They are read, walked part by part, and written again.
use crate::messages::is_written_again;
use crate::samples::check_cases;
use std::alloc::{AllocError, Global};
use std::fmt::Write;
use std::test::Fail;
use wire_view::{BlockView, MessageView, OrderView, TxsView, read};

/// A Give of a block in view 2 with the votes and orders of `count` replicas.
fn large_bytes(alloc: Global, count: u8) -> Result<Vec<u8>, AllocError> {
    let mut bytes = Vec::from_slice(alloc, &[2, 7, 0, 0, 0, 2, 0, 0, 0, 1])?;
    bytes.extend_from_slice(&[7; 32])?;
    bytes.push(count)?;
    for replica in 0..count {
        bytes.push(replica)?;
        put_seal(&mut bytes, 1)?;
    }
    bytes.push(count)?;
    for replica in 0..count {
        put_order(&mut bytes, replica)?;
    }
    Ok(bytes)
}

/// A sealed order with full lists.
fn put_order(bytes: &mut Vec<u8>, replica: u8) -> Result<(), AllocError> {
    bytes.extend_from_slice(&[3, replica, 0, 0, 0, 2])?;
    bytes.extend_from_slice(&[7; 32])?;
    put_numbered(bytes, 128)?;
    put_numbered(bytes, 256)?;
    put_seal(bytes, 2)
}

/// A seal of the maximum length.
fn put_seal(bytes: &mut Vec<u8>, byte: u8) -> Result<(), AllocError> {
    bytes.extend_from_slice(&4916u16.to_be_bytes())?;
    bytes.extend_from_slice(&[byte; 4916])
}

/// `count` transactions of client 1, numbered from 0.
fn put_numbered(bytes: &mut Vec<u8>, count: u16) -> Result<(), AllocError> {
    bytes.extend_from_slice(&count.to_be_bytes())?;
    for number in 0..count {
        bytes.extend_from_slice(&[0, 0, 0, 1])?;
        bytes.extend_from_slice(&u32::from(number).to_be_bytes())?;
        bytes.extend_from_slice(&[0; 8])?;
    }
    Ok(())
}

fn are_numbered(txs: &TxsView<'_>) -> bool {
    for k in 0..txs.len() {
        match txs.get(k) {
            Some(tx) if tx.number == k => {}
            _ => return false,
        }
    }
    true
}

fn is_large(order: &OrderView<'_>) -> bool {
    order.seal().len() == 4916
        && order.statement().len() == 6186
        && are_numbered(&order.fresh())
        && are_numbered(&order.late())
}

/// Walks every part of the block. Returns the number of replicas with a whole vote and a whole order in it.
fn walk(block: &BlockView<'_>) -> u32 {
    let mut whole = 0u32;
    for k in 0..block.len() {
        match (block.cert().vote(k), block.order(k)) {
            (Some((_, seal)), Some(order)) if seal.len() == 4916 && is_large(&order) => {
                whole = whole.saturating_add(1);
            }
            _ => {}
        }
    }
    whole
}

/// The number of replicas with whole parts in a block of `count`; 0 if it is not written as it was read.
fn walked(alloc: Global, count: u8) -> Result<u32, Fail> {
    let bytes = large_bytes(alloc, count)?;
    match read(&bytes) {
        Ok(MessageView::Give(block)) if is_written_again(alloc, &bytes)? => Ok(walk(&block)),
        _ => Ok(0),
    }
}

/// The number of replicas in a block, and of those with whole parts.
const LARGE: &str = "\
large|5|5
large|10|10
large|15|15
";

#[test]
fn large_blocks_are_walked_in_place(rt: HostRuntime) -> Result<(), Fail> {
    check_cases(rt.alloc(), LARGE)
}

pub(crate) fn write_large(answer: &mut String, alloc: Global, count: u8) -> Result<(), Fail> {
    let whole = walked(alloc, count)?;
    Ok(write!(answer, "{whole}")?)
}
