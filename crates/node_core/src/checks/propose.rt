ghost use Rattle.std.specs.Prelude.{◌≡◌, ◌<◌, ◌≤◌, true, false, IfOk};
ghost use Rattle.block_store.specs.Store.{block_digest, is_stored, clashes};
ghost use Rattle.node_core.specs.Propose.{propose_reason, proposed_reason};

use crate::Reason;
use crate::checks::shared::{is_bad, is_fit};
use crate::state::State;
use seal_kit::Checker;
use seq_base::{Block, Digest, NoMemory};
use wire_view::{BlockView, ProposeView};

/// The first test of a Propose that holds, of those before the block itself is tested.
pub(crate) fn propose_reason<C: Checker>(
    state: &State,
    checker: &C,
    from: u32,
    propose: &ProposeView<'_>,
) -> Reason
    ensures value { result ≡ propose_reason (C.meaning checker.now) state.now from propose.now }
    ensures earlier { result ≡ Reason.Done → propose.now.block.cert.view < propose.now.block.view }
    ensures view { result ≡ Reason.Done → propose.now.block.view ≤ state.now.views }
    ensures parent { result ≡ Reason.Done → is_stored state.now.store propose.now.block.cert.block ≡ true }
{
    let block = propose.block();
    let view = block.view();
    if propose.replica() != from {
        return Reason::Foreign;
    }
    if !state.has_view(view) {
        return Reason::ViewLimit;
    }
    if from != state.leader(view) {
        return Reason::NotLeader;
    }
    if view < state.view() || view <= state.high_view() {
        return Reason::OldView;
    }
    if !checker.fits(from, propose.statement(), propose.seal()) {
        return Reason::BadSeal;
    }
    let cert = block.cert();
    if is_bad(state, checker, &cert, view) {
        return Reason::BadCert;
    }
    if !state.stores(&cert.block()) {
        return Reason::Orphan;
    }
    Reason::Done
}

/// The first that holds of the tests after those of [`propose_reason`]: they test the owned block.
pub(crate) fn proposed_block_reason<C: Checker>(
    state: &State,
    checker: &C,
    view: &BlockView<'_>,
    block: &Block,
    digest: &Digest,
) -> Result<Reason, NoMemory>
    requires same { block.now ≡ view.now }
    requires own { digest.now ≡ block_digest block.now }
    ensures value { IfOk result (λ reason. reason ≡ proposed_reason (C.meaning checker.now) state.now block.now) }
    ensures alone { IfOk result (λ reason. reason ≡ Reason.Done → clashes state.now.store digest.now block.now ≡ false) }
    ensures later { IfOk result (λ reason. reason ≡ Reason.Done → state.now.safety.voted < block.now.view) }
{
    if !is_fit(state, checker, view, block)? {
        return Ok(Reason::Misfit);
    }
    if state.clashes(digest, block) {
        return Ok(Reason::Clash);
    }
    if !state.is_safe(block) {
        return Ok(Reason::Unsafe);
    }
    if block.view <= state.voted() {
        return Ok(Reason::Repeat);
    }
    Ok(Reason::Done)
}
