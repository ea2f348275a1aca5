//! Whole runs over keepers. A run with restarts equals the run without them, and a run whose keeper fails has no
//! result.
ghost use Rattle.std.specs.Prelude.{◌≡◌, [], false, length, All, IfOk};
ghost use Rattle.restart_run.specs.New.{IsNew};
ghost use Rattle.plan_text.specs.Rules.{KeepsRules};
ghost use Rattle.replay_run.specs.Kept.{meant};

use durable_node::{Keeper, MemKeeper, SteadyKeeper};
use plan_text::{Plan, read_plan};
use replay_run::play;
use restart_run::{PlayFault, play_kept, play_restarting};
use run_record::RunRecord;
use seal_kit::{SealMaker, TagMaker};
use seq_base::Bytes;
use std::alloc::Global;
use std::fmt::Write;
use std::test::Fail;
use trace_form::{Keys, write_trace};

/// Five replicas, one of which may be faulty, with γ = 1. Each receives the same two transactions.
const FIVE: &str = "n = 5\nf = 1\np = 1\nq = 1\nseed = 7\nheight = 5\nviews = 6\nturns = 100\n\
    arrival = [{ replica = 0, turn = 0, txs = [\"1.1.0\", \"2.1.0\"] }, \
    { replica = 1, turn = 0, txs = [\"1.1.0\", \"2.1.0\"] }, { replica = 2, turn = 0, txs = [\"1.1.0\", \"2.1.0\"] }, \
    { replica = 3, turn = 0, txs = [\"1.1.0\", \"2.1.0\"] }, { replica = 4, turn = 0, txs = [\"1.1.0\", \"2.1.0\"] }]\n";

/// Links and replicas without faults: the run has 49 turns.
const CALM: &str = "ticks = 1\n";

/// The leader of the first view proposes two blocks: the run has 79 turns, in which replica 2 fetches a block.
const TWO_BLOCKS: &str =
    "ticks = 2\nfaulty = [1]\ndeed = [{ replica = 1, view = 1, deed = \"two_blocks\" }]\n";

fn faults_of(name: &str) -> &'static str {
    match name {
        "calm" => CALM,
        "two_blocks" => TWO_BLOCKS,
        _ => "no such faults\n",
    }
}

/// The plan with these faults and restarts.
pub(crate) fn plan_of(alloc: Global, faults: &str, restarts: &str) -> Result<Plan, Fail>
    ensures rules { IfOk result KeepsRules }
    ensures five { IfOk result (λ plan. plan.setting.n ≡ 5) }
{
    let faults = faults_of(faults);
    let text = format!(in alloc; "{FIVE}{faults}restart = [{restarts}]\n")?;
    let plan = read_plan(alloc, text.as_bytes())?;
    if plan.setting.n() != 5 {
        return Err(Fail::new("not five replicas"));
    }
    Ok(plan)
}

/// The bytes of a run's trace, which has its journals, its heads and its batches.
pub(crate) fn trace_of(alloc: Global, plan: &Plan, run: &RunRecord) -> Result<Bytes, Fail> {
    let keys = Keys::Seed(plan.seed);
    Ok(write_trace(alloc, run, &keys, plan.height, plan.views)?)
}

/// The trace of the run without restarts.
pub(crate) fn played(alloc: Global, plan: &Plan) -> Result<Bytes, Fail>
    requires rules { KeepsRules plan.now }
{
    let kit = TagMaker::new(alloc).make(plan.seed, plan.height, plan.setting.n())?;
    let run = play(alloc, plan, kit.sealers, &kit.checker)?;
    trace_of(alloc, plan, &run)
}

/// The run over these keepers.
fn kept<K: Keeper>(
    alloc: Global,
    plan: &Plan,
    keepers: Vec<K>,
) -> Result<Result<(RunRecord, Vec<K>), PlayFault<K>>, Fail>
    requires rules { KeepsRules plan.now }
    requires five { plan.now.setting.n ≡ 5 }
    requires count { length keepers.items ≡ 5 }
    requires new { All (IsNew (meant K.Keeper) K.begun) keepers.items }
{
    let maker = TagMaker::new(alloc);
    let kit = maker.make(plan.seed, plan.height, plan.setting.n())?;
    Ok(play_kept(alloc, plan, &maker, kit.sealers, &kit.checker, keepers))
}

/// Five keepers that never fail.
pub(crate) fn steady(alloc: Global) -> Result<Vec<SteadyKeeper>, Fail>
    ensures count { IfOk result (λ keepers. length keepers.items ≡ 5) }
    ensures new { IfOk result (λ keepers. All (λ k. k ≡ record { bytes = []; durable_size = 0; openings = 0; begun = false }) keepers.items) }
{
    let mut keepers = Vec::new(alloc);
    for _replica in 0..5u32 {
        keepers.push(SteadyKeeper::new(alloc))?;
    }
    Ok(keepers)
}

/// Whether the run over keepers that never fail equals the one without restarts, and how many times each keeper was
/// opened.
fn compared(alloc: Global, plan: &Plan) -> Result<String, Fail>
    requires rules { KeepsRules plan.now }
    requires five { plan.now.setting.n ≡ 5 }
{
    match kept(alloc, plan, steady(alloc)?)? {
        Ok((run, keepers)) => comparison_of(alloc, plan, &run, &keepers),
        Err(_) => Err(Fail::new("no run")),
    }
}

fn comparison_of(
    alloc: Global,
    plan: &Plan,
    run: &RunRecord,
    keepers: &[SteadyKeeper],
) -> Result<String, Fail>
    requires { KeepsRules plan.now }
{
    let is_same = trace_of(alloc, plan, run)? == played(alloc, plan)?;
    let mut text = String::from_str(alloc, if is_same { "the same," } else { "another," })?;
    write_openings(&mut text, keepers)?;
    Ok(text)
}

fn write_openings(text: &mut String, keepers: &[SteadyKeeper]) -> Result<(), Fail> {
    for keeper in keepers {
        let openings = keeper.openings();
        write!(text, " {openings}")?;
    }
    Ok(())
}

/// Five keepers. The keeper of one replica fails at a call.
fn failing(alloc: Global, at: u32, call: u64) -> Result<Vec<MemKeeper>, Fail>
    ensures count { IfOk result (λ keepers. length keepers.items ≡ 5) }
    ensures new { IfOk result (λ keepers. All (λ k. (k.bytes ≡ []) × (k.begun ≡ false) × (k.openings ≡ 0)) keepers.items) }
{
    let mut keepers = Vec::new(alloc);
    for replica in 0..5u32 {
        let mut calls = Vec::new(alloc);
        if replica == at {
            calls.push(call)?;
        }
        keepers.push(MemKeeper::new(alloc, calls, Vec::new(alloc)))?;
    }
    Ok(keepers)
}

/// The outcome if the keeper of a replica fails at a call: whose keeper is returned, how many times it was opened, and
/// how many bytes it holds; or `a run`.
fn stopped(alloc: Global, plan: &Plan, replica: u32, call: u64) -> Result<String, Fail>
    requires rules { KeepsRules plan.now }
    requires five { plan.now.setting.n ≡ 5 }
{
    match kept(alloc, plan, failing(alloc, replica, call)?)? {
        Ok(_) => Ok(String::from_str(alloc, "a run")?),
        Err(PlayFault::NoMemory) => Err(Fail::new("no memory")),
        Err(PlayFault::Keep { replica, keeper }) => returned(alloc, replica, &keeper),
    }
}

fn returned(alloc: Global, replica: u32, keeper: &MemKeeper) -> Result<String, Fail> {
    let openings = keeper.openings();
    let size = keeper.bytes().len();
    Ok(format!(in alloc; "{replica}: {openings} {size}")?)
}

/// The replica whose keeper fails, and the call; None if no keeper fails.
fn call_of(failing: &str) -> Option<(u32, u64)> {
    let (replica, call) = failing.split_once(' ')?;
    Some((replica.parse().ok()?, call.parse().ok()?))
}

fn outcome(alloc: Global, faults: &str, restarts: &str, failing: &str) -> Result<String, Fail> {
    let plan = plan_of(alloc, faults, restarts)?;
    match call_of(failing) {
        Some((replica, call)) => stopped(alloc, &plan, replica, call),
        None => compared(alloc, &plan),
    }
}

/// A case with the actual outcome instead of the expected one.
fn actual_case(alloc: Global, case: &str) -> Result<String, Fail> {
    let (faults, rest) = case.split_once('|').unwrap_or((case, ""));
    let (restarts, rest) = rest.split_once('|').unwrap_or((rest, ""));
    let (failing, _) = rest.split_once('|').unwrap_or((rest, ""));
    let outcome = outcome(alloc, faults, restarts, failing)?;
    Ok(format!(in alloc; "{faults}|{restarts}|{failing}|{outcome}")?)
}

/// The cases with another outcome than expected, each with its outcome. A case is a line with bars between its parts:
/// the faults, the restarts, the replica whose keeper fails with the number of the call, and the expected outcome.
fn mismatches(alloc: Global, cases: &str) -> Result<String, Fail> {
    let mut mismatches = String::new(alloc);
    for case in cases.lines() {
        let actual = actual_case(alloc, case)?;
        if actual.as_str() != case {
            mismatches.push_str(actual.as_str())?;
            mismatches.push('\n')?;
        }
    }
    Ok(mismatches)
}

/// Restarts that do not change the run, and how many times each keeper is opened. The plans have no restart; two of
/// one replica; one before anything arrived; two at the same turn; one after the last turn and one after the end; and
/// one of a replica that has just asked for a block, with one of the replica that was asked.
const RESTARTS: &str = "\
calm|||the same, 1 1 1 1 1
calm|{ replica = 2, turn = 20 }, { replica = 2, turn = 33 }||the same, 1 1 3 1 1
calm|{ replica = 2, turn = 0 }||the same, 1 1 2 1 1
calm|{ replica = 3, turn = 20 }, { replica = 0, turn = 20 }||the same, 2 1 1 2 1
calm|{ replica = 4, turn = 50 }, { replica = 2, turn = 49 }||the same, 1 1 2 1 1
two_blocks|{ replica = 2, turn = 27 }, { replica = 0, turn = 27 }||the same, 2 0 2 1 1
";

#[test]
fn restarts_change_nothing(rt: HostRuntime) -> Result<(), Fail> {
    assert_eq!(rt; mismatches(rt.alloc(), RESTARTS)?.as_str(), "");
    Ok(())
}

/// The log of replica 2 has 76 bytes of header, 57 of an arrival and 25 of a tick. The first turn delivers nothing to
/// it. A keeper fails when it is opened; when the header, the arrival or the tick is appended or synced; when it is
/// reopened; and after that. In the last two cases nothing fails: there is no call with such a number, and no keeper
/// of a faulty replica is called.
const FAILING: &str = "\
calm||2 1|2: 0 0
calm||4 1|4: 0 0
calm||2 2|2: 1 0
calm||2 3|2: 1 0
calm||2 4|2: 1 76
calm||2 5|2: 1 133
calm||2 6|2: 1 133
calm||2 7|2: 1 158
calm|{ replica = 2, turn = 1 }|2 8|2: 1 158
calm|{ replica = 2, turn = 1 }|2 9|2: 2 158
calm|{ replica = 2, turn = 1 }|2 1000|a run
two_blocks|{ replica = 2, turn = 1 }|1 1|a run
";

#[test]
fn a_failing_keeper_is_returned(rt: HostRuntime) -> Result<(), Fail> {
    assert_eq!(rt; mismatches(rt.alloc(), FAILING)?.as_str(), "");
    Ok(())
}

/// The trace of a run that makes its own keepers.
fn restarting(alloc: Global, plan: &Plan) -> Result<Bytes, Fail>
    requires rules { KeepsRules plan.now }
{
    let maker = TagMaker::new(alloc);
    let kit = maker.make(plan.seed, plan.height, plan.setting.n())?;
    let run = play_restarting(alloc, plan, &maker, kit.sealers, &kit.checker)?;
    trace_of(alloc, plan, &run)
}

fn makes_its_own(alloc: Global) -> Result<bool, Fail> {
    let plan = plan_of(alloc, "calm", "{ replica = 2, turn = 20 }")?;
    Ok(restarting(alloc, &plan)? == played(alloc, &plan)?)
}

#[test]
fn a_run_makes_its_own_keepers(rt: HostRuntime) -> Result<(), Fail> {
    assert!(rt; makes_its_own(rt.alloc())?);
    Ok(())
}
