ghost use Rattle.std.specs.Prelude.{◌≡◌, ◌<◌, ◌&&◌, false, IfOk};
ghost use Rattle.std.specs.List.{list_all};
ghost use Rattle.node_core.specs.Rows.{is_bad, is_stored_elsewhere, is_fit, is_placed, is_sealed};

use crate::state::State;
use quorum_cert::cert_ok;
use seal_kit::Checker;
use seq_base::{Block, Digest, LocalOrder, NoMemory};
use wire_view::{BlockView, CertView, OrderView};

/// Whether a certificate is bad for a view: it is not valid, or its view is not earlier, or its block is stored with a
/// view other than the certificate's.
pub(crate) fn is_bad<C: Checker>(state: &State, checker: &C, cert: &CertView<'_>, view: u32) -> bool
    ensures value { result ≡ is_bad (C.meaning checker.now) state.now cert.now view }
    ensures earlier { result ≡ false → cert.now.view < view }
{
    cert.view() >= view
        || is_stored_elsewhere(state, &cert.block(), cert.view())
        || !cert_ok(state.setting(), cert, checker)
}

/// Whether a block is stored with a view other than this one.
pub(crate) fn is_stored_elsewhere(state: &State, block: &Digest, view: u32) -> bool
    ensures { result ≡ is_stored_elsewhere state.now block.now view }
{
    match state.view_of(block) {
        Some(stored) => stored != view,
        None => false,
    }
}

/// Whether a block is fit: it has exactly as many orders as a quorum has replicas. Each of them is for the block's view
/// and parent and of a replica of the setting, its lists fit the parent's chain, and its seal fits. The block is given
/// twice: as a view of its bytes, and owned.
pub(crate) fn is_fit<C: Checker>(
    state: &State,
    checker: &C,
    view: &BlockView<'_>,
    block: &Block,
) -> Result<bool, NoMemory>
    requires { block.now ≡ view.now }
    ensures { IfOk result (λ fit. fit ≡ is_fit (C.meaning checker.now) state.now block.now) }
{
    if view.len() != state.quorum() || !are_placed(state, block) {
        return Ok(false);
    }
    if !state.orders_fit(&block.cert.block, block.orders.as_slice())? {
        return Ok(false);
    }
    Ok(are_sealed(checker, view))
}

/// Whether each order of a block is for the block's view and parent, and of a replica of the setting.
fn are_placed(state: &State, block: &Block) -> bool
    ensures { result ≡ list_all (λ sealed. is_placed state.now block.now sealed.order) block.now.orders }
{
    block
        .orders
        .as_slice()
        .iter()
        .all(|sealed| is_placed(state, block, &sealed.order))
}

fn is_placed(state: &State, block: &Block, order: &LocalOrder) -> bool
    ensures { result ≡ is_placed state.now block.now order.now }
{
    order.view == block.view && order.parent == block.cert.block && order.replica < state.n()
}

/// Whether the seal of each order of a block fits.
fn are_sealed<C: Checker>(checker: &C, block: &BlockView<'_>) -> bool
    ensures { result ≡ list_all (is_sealed (C.meaning checker.now)) block.now.orders }
{
    for k in 0..block.len() {
        match block.order(k) {
            None => return true,
            Some(order) => {
                if !is_sealed(checker, &order) {
                    return false;
                }
            }
        }
    }
    true
}

fn is_sealed<C: Checker>(checker: &C, order: &OrderView<'_>) -> bool
    ensures { result ≡ is_sealed (C.meaning checker.now) order.now }
{
    checker.fits(order.replica(), order.statement(), order.seal())
}
