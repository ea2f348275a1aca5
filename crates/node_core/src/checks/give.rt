ghost use Rattle.std.specs.Prelude.{◌≡◌, ◌<◌, ◌≤◌, true, false, IfOk};
ghost use Rattle.block_store.specs.Store.{block_digest, is_stored, clashes};
ghost use Rattle.node_core.specs.Give.{give_reason, given_reason};

use crate::Reason;
use crate::checks::shared::{is_bad, is_fit};
use crate::state::State;
use seal_kit::Checker;
use seq_base::{Block, Digest, NoMemory};
use wire_view::BlockView;

/// The first test of a Give that holds, of those before the block itself is tested.
pub(crate) fn give_reason<C: Checker>(state: &State, checker: &C, block: &BlockView<'_>) -> Reason
    ensures value { result ≡ give_reason (C.meaning checker.now) state.now block.now }
    ensures earlier { result ≡ Reason.Done → block.now.cert.view < block.now.view }
    ensures view { result ≡ Reason.Done → block.now.view ≤ state.now.views }
    ensures parent { result ≡ Reason.Done → is_stored state.now.store block.now.cert.block ≡ true }
{
    let view = block.view();
    if !state.has_view(view) {
        return Reason::ViewLimit;
    }
    let cert = block.cert();
    if is_bad(state, checker, &cert, view) {
        return Reason::BadCert;
    }
    if !state.stores(&cert.block()) {
        return Reason::Orphan;
    }
    Reason::Done
}

/// The first that holds of the tests after those of [`give_reason`]: they test the owned block.
pub(crate) fn given_block_reason<C: Checker>(
    state: &State,
    checker: &C,
    view: &BlockView<'_>,
    block: &Block,
    digest: &Digest,
) -> Result<Reason, NoMemory>
    requires same { block.now ≡ view.now }
    requires own { digest.now ≡ block_digest block.now }
    ensures value { IfOk result (λ reason. reason ≡ given_reason (C.meaning checker.now) state.now block.now) }
    ensures alone { IfOk result (λ reason. reason ≡ Reason.Done → clashes state.now.store digest.now block.now ≡ false) }
    ensures fresh { IfOk result (λ reason. reason ≡ Reason.Done → is_stored state.now.store digest.now ≡ false) }
{
    if !is_fit(state, checker, view, block)? {
        return Ok(Reason::Misfit);
    }
    if state.clashes(digest, block) {
        return Ok(Reason::Clash);
    }
    if state.stores(digest) {
        return Ok(Reason::Repeat);
    }
    Ok(Reason::Done)
}
