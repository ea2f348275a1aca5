ghost use Rattle.std.specs.Prelude.{◌≡◌, ◌≢◌, IfOk};
ghost use Rattle.node_core.specs.Order.{order_reason, kept_order_reason};

use crate::Reason;
use crate::state::State;
use seal_kit::Checker;
use seq_base::{LocalOrder, NoMemory};
use wire_view::OrderView;

/// The first test of an Order that holds, of those that read it in place.
pub(crate) fn order_reason<C: Checker>(
    state: &State,
    checker: &C,
    from: u32,
    order: &OrderView<'_>,
) -> Reason
    ensures value { result ≡ order_reason (C.meaning checker.now) state.now from order.now }
    ensures fresh { result ≡ Reason.Done → state.now.asked ≢ state.now.proposed }
{
    let view = order.view();
    if order.replica() != from {
        return Reason::Foreign;
    }
    if !state.has_view(view) {
        return Reason::ViewLimit;
    }
    if state.leader(view) != state.me() {
        return Reason::NotLeader;
    }
    if view != state.asked() || view < state.view() || view == state.proposed() {
        return Reason::OldView;
    }
    if !checker.fits(from, order.statement(), order.seal()) {
        return Reason::BadSeal;
    }
    if order.parent() != *state.ask_block() {
        return Reason::Misfit;
    }
    Reason::Done
}

/// The first that holds of the tests after those of [`order_reason`]: they test the lists of the owned order.
pub(crate) fn owned_order_reason(
    state: &State,
    from: u32,
    order: &LocalOrder,
) -> Result<Reason, NoMemory>
    ensures { IfOk result (λ reason. reason ≡ kept_order_reason state.now from order.now) }
{
    if !state.order_fits(state.ask_block(), order)? {
        return Ok(Reason::Misfit);
    }
    if state.has_order(from) {
        return Ok(Reason::Repeat);
    }
    Ok(Reason::Done)
}
