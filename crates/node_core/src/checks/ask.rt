ghost use Rattle.std.specs.Prelude.{◌≡◌, ◌<◌, ◌≤◌};
ghost use Rattle.node_core.specs.Ask.{ask_reason};

use crate::Reason;
use crate::checks::shared::is_bad;
use crate::state::State;
use seal_kit::Checker;
use wire_view::CallView;

/// The first test of an Ask that holds.
pub(crate) fn ask_reason<C: Checker>(
    state: &State,
    checker: &C,
    from: u32,
    call: &CallView<'_>,
) -> Reason
    ensures value { result ≡ ask_reason (C.meaning checker.now) state.now from call.now }
    ensures earlier { result ≡ Reason.Done → call.now.cert.view < call.now.view }
    ensures view { result ≡ Reason.Done → call.now.view ≤ state.now.views }
    ensures later { result ≡ Reason.Done → state.now.ordered < call.now.view }
{
    let view = call.view();
    if call.replica() != from {
        return Reason::Foreign;
    }
    if !state.has_view(view) {
        return Reason::ViewLimit;
    }
    if from != state.leader(view) {
        return Reason::NotLeader;
    }
    if view < state.view() || view <= state.high_view() {
        return Reason::OldView;
    }
    if !checker.fits(from, call.statement(), call.seal()) {
        return Reason::BadSeal;
    }
    let cert = call.cert();
    if is_bad(state, checker, &cert, view) {
        return Reason::BadCert;
    }
    if !state.stores(&cert.block()) {
        return Reason::Orphan;
    }
    if view <= state.ordered() {
        return Reason::Repeat;
    }
    Reason::Done
}
