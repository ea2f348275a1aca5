//! Whether certificates, votes and blocks are good, given the stored blocks.
ghost use Rattle.std.specs.Prelude.{◌≡◌, IfOk};
ghost use Rattle.std.specs.List.{list_all};
ghost use Rattle.hotstuff_core.specs.Rules.{view_at};
ghost use Rattle.audit_core.specs.Valid.{has_view, cert_on, ballot_on, is_placed_on, order_on, shaped_on, valid_on};

use chain_store::StoredBlocks;
use quorum_cert::cert_ok;
use seal_kit::Checker;
use seq_base::{Block, Digest, NoMemory};
use wire_view::{BlockView, CertView, OrderView, VoteView};

/// Whether a certificate is good and names a stored block with that block's view.
pub(crate) fn may_take_cert<C: Checker>(
    blocks: &StoredBlocks,
    checker: &C,
    cert: &CertView<'_>,
) -> bool
    ensures { result ≡ cert_on (C.meaning checker.now) blocks.now cert.now }
{
    is_stored_at(blocks, &cert.block(), cert.view()) && cert_ok(blocks.setting(), cert, checker)
}

/// Whether a vote is for a stored block in its view, and its seal fits.
pub(crate) fn may_take_vote<C: Checker>(
    blocks: &StoredBlocks,
    checker: &C,
    vote: &VoteView<'_>,
) -> bool
    ensures { result ≡ ballot_on (C.meaning checker.now) blocks.now vote.now }
{
    is_stored_at(blocks, &vote.block(), vote.view())
        && checker.fits(vote.replica(), vote.statement(), vote.seal())
}

/// Whether a block, which was copied out of its view, is valid after the stored blocks.
pub(crate) fn may_take_block<C: Checker>(
    blocks: &StoredBlocks,
    checker: &C,
    view: &BlockView<'_>,
    block: &Block,
) -> Result<bool, NoMemory>
    requires { block.now ≡ view.now }
    ensures { IfOk result (λ valid. valid ≡ valid_on (C.meaning checker.now) blocks.now view.now) }
{
    if !is_shaped(blocks, checker, view) {
        return Ok(false);
    }
    blocks.orders_fit(&block.cert.block, block.orders.as_slice())
}

/// Whether its certificate is good and of a lower view, it has the required count of orders, and their seals fit.
fn is_shaped<C: Checker>(blocks: &StoredBlocks, checker: &C, view: &BlockView<'_>) -> bool
    ensures { result ≡ shaped_on (C.meaning checker.now) blocks.now view.now }
{
    let cert = view.cert();
    cert.view() < view.view()
        && view.len() == blocks.setting().quorum()
        && may_take_cert(blocks, checker, &cert)
        && are_sealed(blocks, checker, view)
}

/// The view of a stored block, or 0.
pub(crate) fn view_at(blocks: &StoredBlocks, block: &Digest) -> u32
    ensures { result ≡ view_at blocks.now.blocks block.now }
{
    blocks.store().view_of(block).unwrap_or(0)
}

fn is_stored_at(blocks: &StoredBlocks, digest: &Digest, view: u32) -> bool
    ensures { result ≡ has_view blocks.now.blocks digest.now view }
{
    match blocks.store().view_of(digest) {
        Some(stored) => stored == view,
        None => false,
    }
}

/// Whether each order is for the block's view and parent, and its seal fits for a replica below n.
fn are_sealed<C: Checker>(blocks: &StoredBlocks, checker: &C, view: &BlockView<'_>) -> bool
    ensures { result ≡ list_all (order_on (C.meaning checker.now) blocks.now view.now) view.now.orders }
{
    for k in 0..view.len() {
        match view.order(k) {
            None => return true,
            Some(order) => {
                if !is_sealed(blocks, checker, view, &order) {
                    return false;
                }
            }
        }
    }
    true
}

fn is_sealed<C: Checker>(
    blocks: &StoredBlocks,
    checker: &C,
    view: &BlockView<'_>,
    order: &OrderView<'_>,
) -> bool
    ensures { result ≡ order_on (C.meaning checker.now) blocks.now view.now order.now }
{
    is_placed(blocks, view, order) && checker.fits(order.replica(), order.statement(), order.seal())
}

fn is_placed(blocks: &StoredBlocks, view: &BlockView<'_>, order: &OrderView<'_>) -> bool
    ensures { result ≡ is_placed_on blocks.now view.now order.now.order }
{
    order.view() == view.view()
        && order.parent() == view.cert().block()
        && order.replica() < blocks.setting().n()
}
