ghost use Rattle.std.specs.Prelude.{◌≡◌, ◌<◌, ◌≤◌};
ghost use Rattle.node_core.specs.NewView.{new_view_reason};

use crate::Reason;
use crate::checks::shared::is_bad;
use crate::state::State;
use seal_kit::Checker;
use wire_view::CallView;

/// The first test of a NewView that holds.
pub(crate) fn new_view_reason<C: Checker>(
    state: &State,
    checker: &C,
    from: u32,
    call: &CallView<'_>,
) -> Reason
    ensures value { result ≡ new_view_reason (C.meaning checker.now) state.now from call.now }
    ensures earlier { result ≡ Reason.Done → call.now.cert.view < call.now.view }
    ensures view { result ≡ Reason.Done → call.now.view ≤ state.now.views }
{
    let view = call.view();
    if call.replica() != from {
        return Reason::Foreign;
    }
    if !state.has_view(view) {
        return Reason::ViewLimit;
    }
    if state.leader(view) != state.me() {
        return Reason::NotLeader;
    }
    if view < state.view() || view <= state.high_view() || view <= state.asked() {
        return Reason::OldView;
    }
    if !checker.fits(from, call.statement(), call.seal()) {
        return Reason::BadSeal;
    }
    let cert = call.cert();
    if is_bad(state, checker, &cert, view) {
        return Reason::BadCert;
    }
    if !state.stores(&cert.block()) {
        return Reason::Orphan;
    }
    if state.has_gathered(view, from) {
        return Reason::Repeat;
    }
    Reason::Done
}
