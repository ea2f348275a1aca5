//! Which replicas crash and recover.
ghost use Rattle.std.specs.Prelude.{◌≢◌, ◌++◌, ◌∷◌, [], IfOk, All};
ghost use Rattle.std.specs.List.{AllPairs};
ghost use Rattle.toml.specs.View.{view};
ghost use Rattle.plan_text.specs.Marks.{MarksOnce, two_cmp};
ghost use Rattle.plan_text.specs.Reads.{ReadsTo, ReadsAs};
ghost use Rattle.plan_text.specs.Sections.{section_of};
ghost use Rattle.plan_text.specs.Restarts.{moment_of, restart_in, restarts_at, IsRestart};

use crate::fields::Fields;
use crate::head::MAX_TURNS;
use crate::{FaultKind, PlanError, Restart};
use count_set::ReplicaSet;
use seq_base::Setting;
use std::alloc::Global;
use std::collections::BTreeSet;
use toml::Value;

/// The restarts read so far: the replica and the turn.
type Moments = BTreeSet<(u32, u32)>;

/// Restarts of honest replicas, each once at a turn.
#[tactic(auto, unfolding(crate::specs::Restarts::restarts_at), using(crate::proofs::Marked::once_none))]
pub(crate) fn read_restarts(
    alloc: Global,
    document: &Fields<'_>,
    setting: &Setting,
    faulty: &ReplicaSet,
) -> Result<Vec<Restart>, PlanError>
    ensures exact { ReadsAs (λ restarts. restarts.items) result (restarts_at setting.now faulty.now (section_of document.now)) }
    ensures rules { IfOk result (λ restarts. All (IsRestart setting.now.n faulty.now) restarts.items) }
    ensures differ { IfOk result (λ restarts. AllPairs (λ a b. moment_of a ≢ moment_of b) restarts.items) }
{
    let values = document.array_if_any(alloc, "restart")?;
    let mut restarts = Vec::new(alloc);
    let mut moments = BTreeSet::new(alloc);
    for value in values {
        let restart = read_restart(alloc, value, setting, faulty, &restarts, &mut moments)?;
        restarts.push(restart)?;
    }
    Ok(restarts)
}

/// The next restart after the earlier ones.
#[tactic(auto, unfolding(crate::specs::Restarts::restart_in))]
fn read_restart(
    alloc: Global,
    value: &Value,
    setting: &Setting,
    faulty: &ReplicaSet,
    earlier: &[Restart],
    moments: &mut Moments,
) -> Result<Restart, PlanError>
    requires { MarksOnce two_cmp moment_of moments.old earlier.now }
    ensures exact { ReadsTo result (restart_in setting.now.n faulty.now earlier.now (view value.now)) }
    ensures marks { IfOk result (λ restart. MarksOnce two_cmp moment_of moments.new (earlier.now ++ restart ∷ [])) }
    ensures rules { IfOk result (IsRestart setting.now.n faulty.now) }
{
    let fields = Fields::of_element(alloc, value, "restart", earlier.len())?;
    fields.known(alloc, &["replica", "turn"])?;
    let replica = fields.number(alloc, "replica", 0, setting.n() - 1)?;
    if faulty.has(replica) {
        return Err(fields.fault(alloc, FaultKind::Range, "replica"));
    }
    let turn = fields.number(alloc, "turn", 0, MAX_TURNS)?;
    if !moments.insert((replica, turn))? {
        return Err(fields.fault(alloc, FaultKind::Double, "turn"));
    }
    Ok(Restart { replica, turn })
}
