//! Whole messages and their parts. They are copied out of their views and written again.
use crate::samples::{check_cases, sample};
use seq_base::{Digest, Message, Seal, Tx, Vote};
use std::alloc::Global;
use std::test::Fail;
use wire_view::{BlockView, MessageView, OrderView, read, read_tx};
use wire_write::{cert_bytes, digest, order_bytes, vote_bytes, write_block, write_message};

/// The digest of the sample's block, computed by an independent program.
const DIGEST: &str = "e2b7d72d44f3033b5f2584a43b0424399a8f3dd996610c0a49613bb81346c460";

const BLOCK: Digest = Digest([0x11; 32]);

/// The statement of a vote of replica 2 for the block 11 .. 11 in view 3, followed by an empty seal and no order.
const BARE_VOTE: &str =
    "020502000000031111111111111111111111111111111111111111111111111111111111111111000000";

/// Whether bytes are a message that is written as it was read.
pub(crate) fn is_written_again(alloc: Global, bytes: &[u8]) -> Result<bool, Fail> {
    match read(bytes) {
        Ok(view) => is_written_as(alloc, &view.own(alloc)?, bytes),
        Err(_) => Ok(false),
    }
}

fn is_written_as(alloc: Global, message: &Message, bytes: &[u8]) -> Result<bool, Fail> {
    Ok(write_message(alloc, message)?.as_slice() == bytes)
}

/// Each kind of message is read and written again. A bare vote, its statement, and the parts of the sample's block are
/// written.
const WRITTEN: &str = "\
again|1|yes
again|2|yes
again|3|yes
again|4|yes
again|5|yes
again|6|yes
again|7|yes
bare vote||yes
bare statement||yes
parts||yes
";

#[test]
fn messages_and_parts_are_written_as_they_are_read(rt: HostRuntime) -> Result<(), Fail> {
    check_cases(rt.alloc(), WRITTEN)
}

pub(crate) fn write_is_written(
    answer: &mut String,
    alloc: Global,
    asked: &str,
    kind: u32,
) -> Result<(), Fail> {
    let is_written = is_written(alloc, asked, kind)?;
    Ok(answer.push_str(if is_written { "yes" } else { "no" })?)
}

fn is_written(alloc: Global, asked: &str, kind: u32) -> Result<bool, Fail> {
    match asked {
        "again" => kind_is_written_again(alloc, kind),
        "bare vote" => bare_vote_is_written(alloc),
        "bare statement" => bare_vote_is_stated(alloc),
        "parts" => block_is_written_part_by_part(alloc),
        _ => Ok(false),
    }
}

fn kind_is_written_again(alloc: Global, kind: u32) -> Result<bool, Fail> {
    let bytes = sample(alloc, kind)?;
    is_written_again(alloc, &bytes)
}

/// Whether a bare vote is written as expected.
fn bare_vote_is_written(alloc: Global) -> Result<bool, Fail> {
    let vote = Vote {
        replica: 2,
        view: 3,
        block: BLOCK,
        seal: Seal::of(Vec::new(alloc)),
    };
    let bytes = write_message(alloc, &Message::Vote { vote, order: None })?;
    Ok(hex::encode(alloc, bytes.as_slice())?.as_str() == BARE_VOTE)
}

/// Whether the statement of a bare vote is the sealed part, which follows the version byte.
fn bare_vote_is_stated(alloc: Global) -> Result<bool, Fail> {
    let statement = hex::encode(alloc, vote_bytes(2, 3, &BLOCK).as_slice())?;
    match BARE_VOTE.strip_prefix("02") {
        Some(rest) => Ok(rest.starts_with(statement.as_str())),
        None => Ok(false),
    }
}

fn block_is_written(alloc: Global, view: &BlockView<'_>) -> Result<bool, Fail> {
    let block = view.own(alloc)?;
    Ok(write_block(alloc, &block)?.as_slice() == view.bytes())
}

fn has_digest(alloc: Global, view: &BlockView<'_>) -> Result<bool, Fail> {
    let taken = hex::encode(alloc, digest(view.bytes()).0.as_slice())?;
    Ok(taken.as_str() == DIGEST)
}

fn cert_is_written(alloc: Global, view: &BlockView<'_>, part: Option<&[u8]>) -> Result<bool, Fail> {
    let cert = view.cert().own(alloc)?;
    Ok(part == Some(cert_bytes(alloc, &cert)?.as_slice()))
}

fn order_is_written(alloc: Global, view: &OrderView<'_>) -> Result<bool, Fail> {
    let sealed = view.own(alloc)?;
    let is_sealed = sealed.seal.as_slice() == view.seal();
    Ok(is_sealed && order_bytes(alloc, &sealed.order)?.as_slice() == view.statement())
}

/// Whether the sample's block, its certificate and its first order are copied out and written as they were.
fn block_is_written_part_by_part(alloc: Global) -> Result<bool, Fail> {
    let bytes = sample(alloc, 7)?;
    are_written(alloc, &bytes)
}

fn are_written(alloc: Global, bytes: &[u8]) -> Result<bool, Fail> {
    let Ok(MessageView::Give(view)) = read(bytes) else {
        return Ok(false);
    };
    let Some(first) = view.order(0) else {
        return Ok(false);
    };
    Ok(
        block_is_written(alloc, &view)?
            && has_digest(alloc, &view)?
            && cert_is_written(alloc, &view, bytes.get(6..106))?
            && order_is_written(alloc, &first)?,
    )
}

#[test]
fn a_transaction_is_read_from_the_prefix(rt: HostRuntime) -> Result<(), Fail> {
    let bytes = [1, 2, 3, 4, 0, 0, 0, 5, 0, 0, 0, 0, 0, 0, 1, 6, 255];
    let tx = Tx {
        client: 0x0102_0304,
        number: 5,
        payload: 262,
    };
    assert!(rt; read_tx(&bytes) == tx);
    Ok(())
}
