ghost use Rattle.std.specs.Prelude.{◌≡◌, ◌≤◌, ◌<◌, false, is_some, IfOk, OnErr, IsTrue, option_map};
ghost use Rattle.node_core.specs.Vote.{vote_is_sealed, carries_fitly, vote_reason, carried_misfits, voted_reason, has_voted};

use crate::Reason;
use crate::checks::shared::is_stored_elsewhere;
use crate::state::State;
use seal_kit::Checker;
use seq_base::{NoMemory, SealedOrder};
use wire_view::VoteView;

/// The first test of a Vote that holds, of those before its order's lists are tested.
pub(crate) fn vote_reason<C: Checker>(
    state: &State,
    checker: &C,
    from: u32,
    vote: &VoteView<'_>,
) -> Reason
    ensures value { result ≡ vote_reason (C.meaning checker.now) state.now from vote.now }
    ensures view { result ≡ Reason.Done → vote.now.vote.view ≤ state.now.views }
    ensures own { result ≡ Reason.Done → vote.now.vote.replica ≡ from }
    ensures higher { result ≡ Reason.Done → state.now.high.view < vote.now.vote.view }
{
    let view = vote.view();
    if vote.replica() != from {
        return Reason::Foreign;
    }
    if !state.has_view(view) {
        return Reason::ViewLimit;
    }
    if state.leader(view + 1) != state.me() {
        return Reason::NotLeader;
    }
    if view + 1 < state.view() || view <= state.high_view() || view + 1 <= state.asked() {
        return Reason::OldView;
    }
    if !is_sealed(checker, from, vote) {
        return Reason::BadSeal;
    }
    if !state.stores(&vote.block()) {
        return Reason::Orphan;
    }
    if is_stored_elsewhere(state, &vote.block(), view) || !carries_fitly(state, from, vote) {
        return Reason::Misfit;
    }
    Reason::Done
}

/// Whether the seal of a vote fits, and that of the order that it carries.
fn is_sealed<C: Checker>(checker: &C, from: u32, vote: &VoteView<'_>) -> bool
    ensures { result ≡ vote_is_sealed (C.meaning checker.now) from vote.now }
{
    if !checker.fits(from, vote.statement(), vote.seal()) {
        return false;
    }
    match vote.order() {
        Some(order) => checker.fits(from, order.statement(), order.seal()),
        None => true,
    }
}

/// Whether a vote carries an order for the next view over its block where there is a next view, and none else.
fn carries_fitly(state: &State, from: u32, vote: &VoteView<'_>) -> bool
    ensures { result ≡ carries_fitly state.now from vote.now.vote vote.now.order }
{
    match vote.order() {
        Some(order) => {
            vote.view() < state.views()
                && order.replica() == from
                && order.view() == vote.view() + 1
                && order.parent() == vote.block()
        }
        None => vote.view() == state.views(),
    }
}

/// The first that holds of the tests after those of [`vote_reason`]: they test the lists of the owned order that the vote
/// carries.
pub(crate) fn owned_vote_reason(
    state: &State,
    from: u32,
    vote: &VoteView<'_>,
    order: Option<&SealedOrder>,
) -> Result<Reason, NoMemory>
    requires { option_map (λ sealed. sealed.now) order ≡ vote.now.order }
    ensures value { IfOk result (λ reason. reason ≡ voted_reason state.now from vote.now.vote vote.now.order) }
    ensures fresh { IfOk result (λ reason. reason ≡ Reason.Done → has_voted state.now.boxes vote.now.vote.view vote.now.vote.block from ≡ false) }
    ensures memory { OnErr result (IsTrue (is_some vote.now.order)) }
{
    if carried_misfits(state, vote, order)? {
        return Ok(Reason::Misfit);
    }
    if state.has_vote(vote.view(), &vote.block(), from) {
        return Ok(Reason::Repeat);
    }
    Ok(Reason::Done)
}

/// Whether a carried order does not fit the chain of the block.
fn carried_misfits(
    state: &State,
    vote: &VoteView<'_>,
    order: Option<&SealedOrder>,
) -> Result<bool, NoMemory>
    requires { option_map (λ sealed. sealed.now) order ≡ vote.now.order }
    ensures value { IfOk result (λ misfits. misfits ≡ carried_misfits state.now vote.now.vote vote.now.order) }
    ensures memory { OnErr result (IsTrue (is_some vote.now.order)) }
{
    match order {
        Some(sealed) => Ok(!state.order_fits(&vote.block(), &sealed.order)?),
        None => Ok(false),
    }
}
