//! What an entry delivers, if it may.
ghost use Rattle.std.specs.Prelude.{◌≡◌, Some, IfOk, IfSome};
ghost use Rattle.wire_view.specs.declared.messages.MessageView.TheVariants.{Vote};
ghost use Rattle.block_store.specs.Store.{block_digest};
ghost use Rattle.node_core.specs.Delivered.{message_in};
ghost use Rattle.audit_core.specs.Bringing.{MayTake, carried_on, carried_from, cert_from, block_from};

use crate::carried::Carried;
use crate::entries::is_done;
use crate::valid::{may_take_block, may_take_cert, may_take_vote};
use chain_store::StoredBlocks;
use node_core::Entry;
use seal_kit::Checker;
use seq_base::{Digest, NoMemory};
use std::alloc::Global;
use wire_view::{BlockView, CertView, MessageView, VoteView};
use wire_write::digest;

/// What an entry with this message delivers; None if rule 2 forbids it.
pub(crate) fn carried_on<C: Checker>(
    alloc: Global,
    blocks: &StoredBlocks,
    checker: &C,
    entry: &Entry,
    message: &Option<MessageView<'_>>,
) -> Result<Option<Carried>, NoMemory>
    requires { message.now ≡ message_in entry.now.event }
    ensures carried { IfOk result (λ found. found ≡ carried_on (C.meaning checker.now) blocks.now entry.now) }
    ensures taken { IfOk result (λ found. IfSome found (MayTake blocks.now.blocks)) }
{
    if !is_done(entry.turned.reason) {
        return Ok(Some(Carried::Nothing));
    }
    match message {
        None => Ok(Some(Carried::Nothing)),
        Some(message) => carried_from(alloc, blocks, checker, message),
    }
}

/// What a message delivers.
fn carried_from<C: Checker>(
    alloc: Global,
    blocks: &StoredBlocks,
    checker: &C,
    message: &MessageView<'_>,
) -> Result<Option<Carried>, NoMemory>
    ensures carried { IfOk result (λ found. found ≡ carried_from (C.meaning checker.now) blocks.now (Some message.now)) }
    ensures taken { IfOk result (λ found. IfSome found (MayTake blocks.now.blocks)) }
{
    match message {
        MessageView::NewView(call) => Ok(carried_cert(blocks, checker, &call.cert())),
        MessageView::Ask(call) => Ok(carried_cert(blocks, checker, &call.cert())),
        MessageView::Order(_) => Ok(Some(Carried::Nothing)),
        MessageView::Propose(proposed) => {
            carried_block(alloc, blocks, checker, &proposed.block(), true)
        }
        MessageView::Vote(vote) => Ok(carried_vote(blocks, checker, vote)),
        MessageView::Fetch(_) => Ok(Some(Carried::Nothing)),
        MessageView::Give(block) => carried_block(alloc, blocks, checker, block, false),
    }
}

fn carried_cert<C: Checker>(
    blocks: &StoredBlocks,
    checker: &C,
    cert: &CertView<'_>,
) -> Option<Carried>
    ensures { result ≡ cert_from (C.meaning checker.now) blocks.now cert.now }
{
    if may_take_cert(blocks, checker, cert) {
        Some(Carried::Cert {
            view: cert.view(),
            block: cert.block(),
        })
    } else {
        None
    }
}

/// A vote of a replica.
#[tactic(auto, using(crate::proofs::Rest::few_replicas))]
fn carried_vote<C: Checker>(
    blocks: &StoredBlocks,
    checker: &C,
    vote: &VoteView<'_>,
) -> Option<Carried>
    ensures carried { result ≡ carried_from (C.meaning checker.now) blocks.now (Some (Vote vote.now)) }
    ensures taken { IfSome result (MayTake blocks.now.blocks) }
{
    if vote.replica() >= blocks.setting().n() || !may_take_vote(blocks, checker, vote) {
        return None;
    }
    Some(Carried::Vote {
        replica: vote.replica(),
        view: vote.view(),
        block: vote.block(),
    })
}

/// A block under its digest, which is computed once.
fn carried_block<C: Checker>(
    alloc: Global,
    blocks: &StoredBlocks,
    checker: &C,
    view: &BlockView<'_>,
    is_proposed: bool,
) -> Result<Option<Carried>, NoMemory>
    ensures carried { IfOk result (λ found. found ≡ block_from (C.meaning checker.now) blocks.now view.now is_proposed) }
    ensures taken { IfOk result (λ found. IfSome found (MayTake blocks.now.blocks)) }
{
    let block = view.own(alloc)?;
    let digest = name_of(view);
    if !may_take_block(blocks, checker, view, &block)? {
        return Ok(None);
    }
    if blocks.store().clashes(&digest, &block) {
        return Ok(None);
    }
    Ok(Some(Carried::Block {
        digest,
        block,
        is_proposed,
    }))
}

/// The digest of a block that is read in place.
#[tactic(auto, unfolding(block_store::specs::Store::block_digest))]
fn name_of(block: &BlockView<'_>) -> Digest
    ensures { result ≡ block_digest block.now }
{
    digest(block.bytes())
}
