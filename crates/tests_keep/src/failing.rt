//! A durable node whose keeper fails.
ghost use Rattle.std.specs.Prelude.{◌≡◌, false, IfOk};

use crate::journal::checker;
use crate::stopped::started;
use durable_node::{DurableNode, KeptFault, MemKeeper};
use node_core::Event;
use seal_kit::{TagChecker, TagSealer};
use std::alloc::Global;
use std::test::Fail;

/// A keeper whose seventh call fails, which is the sync of the second tick: three calls open it and write the header,
/// and each turn appends and syncs. A crash leaves `spared` of the bytes that are not durable.
fn failing(alloc: Global, spared: u64) -> Result<MemKeeper, Fail>
    ensures { IfOk result (λ keeper. keeper.begun ≡ false) }
{
    let calls = vec![in alloc; 7u64]?;
    Ok(MemKeeper::new(alloc, calls, vec![in alloc; spared]?))
}

/// Why the node refuses a tick; None if it does not.
fn refused(
    kept: &mut DurableNode<TagSealer, MemKeeper>,
    checker: &TagChecker,
) -> Option<KeptFault> {
    kept.turn(checker, &Event::Tick { floor: 0 }).err()
}

/// Whether the first of three ticks is logged, the second fails, and the third finds the node closed.
fn logs_one(kept: &mut DurableNode<TagSealer, MemKeeper>, checker: &TagChecker) -> bool {
    refused(kept, checker) == None
        && refused(kept, checker) == Some(KeptFault::Keep)
        && refused(kept, checker) == Some(KeptFault::Closed)
}

/// The keeper after three such ticks and a crash.
fn crashed(alloc: Global, spared: u64) -> Result<MemKeeper, Fail>
    ensures { IfOk result (λ keeper. keeper.begun ≡ false) }
{
    let checker = checker(alloc)?;
    let mut kept = started(alloc, failing(alloc, spared)?)?;
    if !logs_one(&mut kept, &checker) {
        return Err(Fail::new("not the first tick alone is kept"));
    }
    Ok(kept.crash())
}

/// The record of the tick, after the header: the length of its body, the checksum of the length, the body and its checksum.
/// Another program computed the checksums.
const TICK: [u8; 25] = [
    0, 0, 0, 5, 193, 40, 205, 248, 71, 103, 222, 224, 3, 0, 0, 0, 0, 206, 179, 236, 23, 188, 221,
    117, 27,
];

/// Whether the first tick's record follows the header, and the keeper was opened twice.
fn holds_first(keeper: &MemKeeper) -> bool {
    let records = keeper.bytes().get(76..).unwrap_or(&[]);
    records.starts_with(&TICK) && keeper.openings() == 2
}

/// The view of the reopened replica, and the size of its log.
fn reopened(alloc: Global, keeper: MemKeeper) -> Result<(u32, usize), Fail>
    requires { keeper.begun ≡ false }
{
    let kept = started(alloc, keeper)?;
    let view = kept.node().view();
    let keeper = kept.crash();
    if !holds_first(&keeper) {
        return Err(Fail::new("the first is lost"));
    }
    Ok((view, keeper.bytes().len()))
}

/// The size of the log after a crash that leaves `spared` of the bytes that are not durable; then the view of the
/// reopened replica, and the size of its log.
fn left(alloc: Global, spared: u64) -> Result<(usize, u32, usize), Fail> {
    let keeper = crashed(alloc, spared)?;
    let crashed = keeper.bytes().len();
    let (view, size) = reopened(alloc, keeper)?;
    Ok((crashed, view, size))
}

/// The second tick is not logged, and the third is not tried. The crash may leave a part of the second record, which is
/// discarded on recovery, or the whole record, which is then replayed.
#[test]
fn a_tick_that_is_not_logged_is_not_acted_on(rt: HostRuntime) -> Result<(), Fail> {
    let alloc = rt.alloc();
    assert!(rt; left(alloc, 14)? == (115, 1, 101));
    assert!(rt; left(alloc, 25)? == (126, 2, 126));
    assert!(rt; left(alloc, 0)? == (101, 1, 101));
    Ok(())
}
