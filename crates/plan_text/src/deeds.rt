//! What faulty replicas do to their sends.
ghost use Rattle.std.specs.Prelude.{◌≡◌, ◌≢◌, ◌++◌, ◌∷◌, [], IfOk, All};
ghost use Rattle.std.specs.List.{AllPairs};
ghost use Rattle.toml.specs.View.{view};
ghost use Rattle.plan_text.specs.Marks.{MarksOnce, three_cmp};
ghost use Rattle.plan_text.specs.Reads.{ReadsTo, ReadsAs};
ghost use Rattle.plan_text.specs.Sections.{section_of};
ghost use Rattle.plan_text.specs.Deeds.{deed_in, deed_kind_of, deeds_at, occasion_of, rank_of, IsDeed};

use crate::fields::Fields;
use crate::{Deed, DeedKind, FaultKind, PlanError};
use count_set::ReplicaSet;
use std::alloc::Global;
use std::collections::BTreeSet;
use toml::Value;

/// The deeds read so far: the replica, the view and the index of the deed.
type Occasions = BTreeSet<(u32, u32, u32)>;

/// Each deed at most once for a replica and a view.
#[tactic(auto, unfolding(crate::specs::Deeds::deeds_at), using(crate::proofs::Marked::once_none))]
pub(crate) fn read_deeds(
    alloc: Global,
    document: &Fields<'_>,
    faulty: &ReplicaSet,
    views: u32,
) -> Result<Vec<Deed>, PlanError>
    ensures exact { ReadsAs (λ deeds. deeds.items) result (deeds_at faulty.now views (section_of document.now)) }
    ensures rules { IfOk result (λ deeds. All (IsDeed faulty.now views) deeds.items) }
    ensures differ { IfOk result (λ deeds. AllPairs (λ a b. occasion_of a ≢ occasion_of b) deeds.items) }
{
    let values = document.array_if_any(alloc, "deed")?;
    let mut deeds = Vec::new(alloc);
    let mut occasions = BTreeSet::new(alloc);
    for value in values {
        let deed = read_deed(alloc, value, faulty, views, &deeds, &mut occasions)?;
        deeds.push(deed)?;
    }
    Ok(deeds)
}

/// The next deed after the earlier ones.
#[tactic(auto, unfolding(crate::specs::Deeds::deed_in))]
fn read_deed(
    alloc: Global,
    value: &Value,
    faulty: &ReplicaSet,
    views: u32,
    earlier: &[Deed],
    occasions: &mut Occasions,
) -> Result<Deed, PlanError>
    requires { MarksOnce three_cmp occasion_of occasions.old earlier.now }
    ensures exact { ReadsTo result (deed_in faulty.now views earlier.now (view value.now)) }
    ensures marks { IfOk result (λ deed. MarksOnce three_cmp occasion_of occasions.new (earlier.now ++ deed ∷ [])) }
    ensures rules { IfOk result (IsDeed faulty.now views) }
{
    let fields = Fields::of_element(alloc, value, "deed", earlier.len())?;
    fields.known(alloc, &["replica", "view", "deed"])?;
    let replica = fields.number(alloc, "replica", 0, u32::MAX)?;
    if !faulty.has(replica) {
        return Err(fields.fault(alloc, FaultKind::Range, "replica"));
    }
    let view = fields.number(alloc, "view", 0, views)?;
    let word = fields.word(alloc, "deed")?;
    let kind = read_kind(alloc, &fields, word)?;
    if !occasions.insert((replica, view, rank_of(kind)))? {
        return Err(fields.fault(alloc, FaultKind::Double, "deed"));
    }
    Ok(Deed {
        replica,
        view,
        kind,
    })
}

fn read_kind(alloc: Global, fields: &Fields<'_>, word: &str) -> Result<DeedKind, PlanError>
    ensures { ReadsTo result (deed_kind_of word.now (section_of fields.now)) }
{
    match word {
        "silent" => Ok(DeedKind::Silent),
        "reverse" => Ok(DeedKind::Reverse),
        "two_blocks" => Ok(DeedKind::TwoBlocks),
        "stale" => Ok(DeedKind::Stale),
        "noise" => Ok(DeedKind::Noise),
        "forge" => Ok(DeedKind::Forge),
        _ => Err(fields.fault(alloc, FaultKind::Range, "deed")),
    }
}

/// The index of the deed among the six, counted from 0.
fn rank_of(kind: DeedKind) -> u32
    ensures { result ≡ rank_of kind }
{
    kind as u32
}
