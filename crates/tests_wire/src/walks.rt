//! Views of messages, walked part by part.
use crate::samples::{check_cases, sample};
use std::alloc::Global;
use std::fmt::Write;
use std::test::Fail;
use wire_view::{
    BlockView, CallView, CertView, MessageView, OrderView, ProposeView, TxsView, VoteView, read,
};

/// The answer for a sample has its statement and its seal, followed by its parts. Bytes are written as their length,
/// the first and the last byte.
const VIEWS: &str = "\
view|1|106:1..53 53:7..59: 2 16909061 statement 106:1..53 seal 53:7..59 cert 16909060 32:32..63 3: 0 1:170..170 2 0 5 53:1..53 -
view|2|106:2..53 0: 0 16909061 statement 106:2..53 seal 0 cert 16909060 32:32..63 3: 0 1:170..170 2 0 5 53:1..53 -
view|3|90:3..9 53:128..180: order 1 16909061 32:34..34 fresh 2: 168496141.2.72623859790382856 4.5.6 - late 1: 7.8.9 - - statement 90:3..9 seal 53:128..180
view|4|296:4..0 2:221..238: 1 statement 296:4..0 seal 2:221..238 block 16909061 2 bytes 294:1..0 cert 16909060 32:32..63 3: 0 1:170..170 2 0 5 53:1..53 - order 1 16909061 32:34..34 fresh 2: 168496141.2.72623859790382856 4.5.6 - late 1: 7.8.9 - - statement 90:3..9 seal 53:128..180 order 3 16909061 32:34..34 fresh 0 none: - - - late 0 none: - - - statement 42:3..0 seal 0 -
view|5|38:5..17 1:238..238: 2 16909060 32:17..17 statement 38:5..17 seal 1:238..238 order 1 16909061 32:34..34 fresh 2: 168496141.2.72623859790382856 4.5.6 - late 1: 7.8.9 - - statement 90:3..9 seal 53:128..180
view|6|- -: 32:0..31
view|7|- -: block 16909061 2 bytes 294:1..0 cert 16909060 32:32..63 3: 0 1:170..170 2 0 5 53:1..53 - order 1 16909061 32:34..34 fresh 2: 168496141.2.72623859790382856 4.5.6 - late 1: 7.8.9 - - statement 90:3..9 seal 53:128..180 order 3 16909061 32:34..34 fresh 0 none: - - - late 0 none: - - - statement 42:3..0 seal 0 -
";

#[test]
fn messages_show_their_parts(rt: HostRuntime) -> Result<(), Fail> {
    check_cases(rt.alloc(), VIEWS)
}

pub(crate) fn write_view(answer: &mut String, alloc: Global, kind: u32) -> Result<(), Fail> {
    let bytes = sample(alloc, kind)?;
    write_message(answer, &bytes)
}

fn write_message(answer: &mut String, bytes: &[u8]) -> Result<(), Fail> {
    match read(bytes) {
        Ok(view) => {
            write_whole(answer, &view)?;
            write_parts(answer, &view)
        }
        Err(_) => Ok(answer.push_str("no message")?),
    }
}

fn write_whole(answer: &mut String, view: &MessageView<'_>) -> Result<(), Fail> {
    match (view.statement(), view.seal()) {
        (Some(statement), Some(seal)) => {
            write_piece(answer, statement)?;
            answer.push(' ')?;
            write_piece(answer, seal)?;
            Ok(answer.push(':')?)
        }
        (None, None) => Ok(answer.push_str("- -:")?),
        _ => Ok(answer.push_str("one of both:")?),
    }
}

fn write_parts(answer: &mut String, view: &MessageView<'_>) -> Result<(), Fail> {
    match view {
        MessageView::NewView(call) | MessageView::Ask(call) => write_call(answer, call),
        MessageView::Order(order) => write_order(answer, order),
        MessageView::Propose(proposal) => write_proposal(answer, proposal),
        MessageView::Vote(vote) => write_vote(answer, vote),
        MessageView::Fetch(digest) => {
            answer.push(' ')?;
            write_piece(answer, &digest.0)
        }
        MessageView::Give(block) => write_block(answer, block),
    }
}

fn write_call(answer: &mut String, call: &CallView<'_>) -> Result<(), Fail> {
    let (replica, view) = (call.replica(), call.view());
    write!(answer, " {replica} {view}")?;
    write_sealed(answer, call.statement(), call.seal())?;
    write_cert(answer, &call.cert())
}

fn write_proposal(answer: &mut String, proposal: &ProposeView<'_>) -> Result<(), Fail> {
    let replica = proposal.replica();
    write!(answer, " {replica}")?;
    write_sealed(answer, proposal.statement(), proposal.seal())?;
    write_block(answer, &proposal.block())
}

fn write_vote(answer: &mut String, vote: &VoteView<'_>) -> Result<(), Fail> {
    let (replica, view) = (vote.replica(), vote.view());
    write!(answer, " {replica} {view} ")?;
    write_piece(answer, &vote.block().0)?;
    write_sealed(answer, vote.statement(), vote.seal())?;
    write_order_if_any(answer, vote.order())
}

/// The length of bytes, and the first and the last byte.
fn write_piece(answer: &mut String, bytes: &[u8]) -> Result<(), Fail> {
    let size = bytes.len();
    match (bytes.first(), bytes.last()) {
        (Some(first), Some(last)) => write!(answer, "{size}:{first}..{last}")?,
        _ => write!(answer, "{size}")?,
    }
    Ok(())
}

fn write_sealed(answer: &mut String, statement: &[u8], seal: &[u8]) -> Result<(), Fail> {
    answer.push_str(" statement ")?;
    write_piece(answer, statement)?;
    answer.push_str(" seal ")?;
    write_piece(answer, seal)
}

fn write_count(answer: &mut String, count: u32, is_none: bool) -> Result<(), Fail> {
    let none = if is_none { " none" } else { "" };
    write!(answer, " {count}{none}")?;
    Ok(())
}

fn write_cert(answer: &mut String, cert: &CertView<'_>) -> Result<(), Fail> {
    let view = cert.view();
    write!(answer, " cert {view} ")?;
    write_piece(answer, &cert.block().0)?;
    write_count(answer, cert.len(), cert.is_empty())?;
    answer.push(':')?;
    for k in 0..4 {
        write_cert_vote(answer, cert.vote(k))?;
    }
    Ok(())
}

fn write_cert_vote(answer: &mut String, vote: Option<(u32, &[u8])>) -> Result<(), Fail> {
    match vote {
        Some((replica, seal)) => {
            write!(answer, " {replica} ")?;
            write_piece(answer, seal)
        }
        None => Ok(answer.push_str(" -")?),
    }
}

fn write_txs(answer: &mut String, txs: &TxsView<'_>) -> Result<(), Fail> {
    write_count(answer, txs.len(), txs.is_empty())?;
    answer.push(':')?;
    for k in 0..3 {
        match txs.get(k) {
            Some(tx) => write!(answer, " {tx}")?,
            None => answer.push_str(" -")?,
        }
    }
    Ok(())
}

fn write_order_if_any(answer: &mut String, order: Option<OrderView<'_>>) -> Result<(), Fail> {
    match order {
        Some(order) => write_order(answer, &order),
        None => Ok(answer.push_str(" -")?),
    }
}

fn write_order(answer: &mut String, order: &OrderView<'_>) -> Result<(), Fail> {
    let (replica, view) = (order.replica(), order.view());
    write!(answer, " order {replica} {view} ")?;
    write_piece(answer, &order.parent().0)?;
    answer.push_str(" fresh")?;
    write_txs(answer, &order.fresh())?;
    answer.push_str(" late")?;
    write_txs(answer, &order.late())?;
    write_sealed(answer, order.statement(), order.seal())
}

fn write_block(answer: &mut String, block: &BlockView<'_>) -> Result<(), Fail> {
    let view = block.view();
    write!(answer, " block {view}")?;
    write_count(answer, block.len(), block.is_empty())?;
    answer.push_str(" bytes ")?;
    write_piece(answer, block.bytes())?;
    write_cert(answer, &block.cert())?;
    for k in 0..3 {
        write_order_if_any(answer, block.order(k))?;
    }
    Ok(())
}
