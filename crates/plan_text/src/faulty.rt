//! Which replicas are faulty.
ghost use Rattle.std.specs.Prelude.{◌<◌, ◌≤◌, [], IfOk, All, length, map};
ghost use Rattle.std.specs.List.Sorted.{IsStrictlyIncreasing};
ghost use Rattle.toml.specs.View.{view};
ghost use Rattle.plan_text.specs.Reads.{ReadsTo};
ghost use Rattle.plan_text.specs.Sections.{section_of};
ghost use Rattle.plan_text.specs.Faulty.{faulty_at, member_in, members_in};

use crate::fields::{Fields, element_fault};
use crate::values::number_of;
use crate::{FaultKind, PlanError};
use count_set::ReplicaSet;
use seq_base::Setting;
use std::alloc::Global;
use toml::Value;

/// Distinct replicas, at most f.
#[tactic(auto, unfolding(crate::specs::Faulty::faulty_at))]
pub(crate) fn read_faulty(
    alloc: Global,
    document: &Fields<'_>,
    setting: &Setting,
) -> Result<ReplicaSet, PlanError>
    ensures exact { ReadsTo result (faulty_at setting.now (section_of document.now)) }
    ensures few { IfOk result (λ faulty. length faulty ≤ setting.now.f) }
    ensures below { IfOk result (λ faulty. All (λ r. r < setting.now.n) faulty) }
    ensures rise { IfOk result IsStrictlyIncreasing }
{
    let values = document.array_if_any(alloc, "faulty")?;
    let faulty = read_members(alloc, values, setting)?;
    if faulty.size() > setting.f() {
        return Err(document.fault(alloc, FaultKind::Range, "faulty"));
    }
    Ok(faulty)
}

fn read_members(alloc: Global, values: &[Value], setting: &Setting) -> Result<ReplicaSet, PlanError>
    ensures exact { ReadsTo result (members_in setting.now.n [] (map view values.now)) }
    ensures below { IfOk result (λ faulty. All (λ r. r < setting.now.n) faulty) }
{
    let mut faulty = ReplicaSet::empty();
    for value in values {
        let replica = read_member(alloc, value, setting, &faulty)?;
        let _is_new = faulty.add(replica);
    }
    Ok(faulty)
}

/// The next faulty replica, which is not among those before it. The size of that set is its position.
fn read_member(
    alloc: Global,
    value: &Value,
    setting: &Setting,
    earlier: &ReplicaSet,
) -> Result<u32, PlanError>
    ensures exact { ReadsTo result (member_in setting.now.n earlier.now (view value.now)) }
    ensures below { IfOk result (λ replica. (replica < setting.now.n) × (replica < 32)) }
{
    let at = earlier.size() as usize;
    let replica = match number_of(value, 0, setting.n() - 1) {
        Ok(replica) => replica,
        Err(kind) => return Err(element_fault(alloc, kind, "faulty", at)),
    };
    if earlier.has(replica) {
        return Err(element_fault(alloc, FaultKind::Double, "faulty", at));
    }
    Ok(replica)
}
