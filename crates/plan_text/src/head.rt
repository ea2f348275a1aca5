//! The keys of one value each, in the order in which they are read.
ghost use Rattle.std.specs.Prelude.{◌≡◌, ◌<◌, ◌≤◌, ◌*◌, ◌^◌, IfOk};
ghost use Rattle.seal_kit.specs.Seals.{capacity_of};
ghost use Rattle.toml.specs.View.{view};
ghost use Rattle.plan_text.specs.Reads.{ReadsTo};
ghost use Rattle.plan_text.specs.Sections.{section_of};
ghost use Rattle.plan_text.specs.Head.{head_at, height_at, height_of, levels_at, seed_at, setting_at, summary_at, summary_in, ticks_at, turns_at, views_at};

use crate::fault::text_fault;
use crate::fields::Fields;
use crate::values::{number_of, seed_of, word_of};
use crate::{FaultKind, PlanError};
use seal_kit::Height;
use seq_base::Setting;
use std::alloc::Global;

/// The maximum numbers of views, ticks and turns of a run, and of pairs of replicas over all views.
const MAX_VIEWS: u32 = 4_000;

const MAX_TICKS: u32 = 1_000;

pub(crate) const MAX_TURNS: u32 = 200_000;

const MAX_PAIRS: u32 = 65_536;

/// A replica makes at most one seal of each of the five sealed kinds in a view.
const SEALS_OF_A_VIEW: u32 = 5;

/// The setting, the sealers and the bounds of a run.
#[derive(Drop)]
pub(crate) struct Head {
    pub(crate) setting: Setting,
    pub(crate) seed: u64,
    pub(crate) height: Height,
    pub(crate) views: u32,
    pub(crate) ticks: u32,
    pub(crate) turns: u32,
}

#[tactic(auto, unfolding(crate::specs::Head::head_at))]
pub(crate) fn read_head(alloc: Global, document: &Fields<'_>) -> Result<Head, PlanError>
    ensures exact { ReadsTo result (head_at (section_of document.now)) }
    ensures small_seed { IfOk result (λ head. head.seed < 2 ^ 63) }
    ensures views { IfOk result (λ head. (1 ≤ head.views) × (head.views ≤ 4000)) }
    ensures seals_suffice { IfOk result (λ head. 5 * head.views ≤ capacity_of head.height) }
    ensures few_pairs { IfOk result (λ head. head.setting.n * head.setting.n * head.views ≤ 65536) }
    ensures few_ticks { IfOk result (λ head. head.ticks ≤ 1000) }
    ensures few_turns { IfOk result (λ head. head.turns ≤ 200000) }
{
    let setting = read_setting(alloc, document)?;
    let seed = read_seed(alloc, document)?;
    let height = read_height(alloc, document)?;
    let views = read_views(alloc, document, &setting, height)?;
    let ticks = read_ticks(alloc, document)?;
    let turns = read_turns(alloc, document)?;
    Ok(Head {
        setting,
        seed,
        height,
        views,
        ticks,
        turns,
    })
}

fn read_setting(alloc: Global, document: &Fields<'_>) -> Result<Setting, PlanError>
    ensures { ReadsTo result (setting_at (section_of document.now)) }
{
    let n = document.number(alloc, "n", 0, u32::MAX)?;
    let f = document.number(alloc, "f", 0, u32::MAX)?;
    let p = document.number(alloc, "p", 0, u32::MAX)?;
    let q = document.number(alloc, "q", 0, u32::MAX)?;
    match Setting::new(n, f, p, q) {
        Ok(setting) => Ok(setting),
        Err(fault) => Err(text_fault(alloc, FaultKind::Setting(fault))),
    }
}

fn read_seed(alloc: Global, document: &Fields<'_>) -> Result<u64, PlanError>
    ensures exact { ReadsTo result (seed_at (section_of document.now)) }
    ensures small { IfOk result (λ seed. seed < 2 ^ 63) }
{
    match document.get("seed") {
        Some(value) => document.named(alloc, "seed", seed_of(value)),
        None => Err(document.fault(alloc, FaultKind::Missing, "seed")),
    }
}

/// The height of a single tree, or of the lower trees of two-level HSS.
fn read_height(alloc: Global, document: &Fields<'_>) -> Result<Height, PlanError>
    ensures { ReadsTo result (height_at (section_of document.now)) }
{
    let height = document.number(alloc, "height", 5, 10)?;
    if height != 5 && height != 10 {
        return Err(document.fault(alloc, FaultKind::Range, "height"));
    }
    let levels = read_levels(alloc, document)?;
    Ok(height_of(height, levels))
}

/// One level where the key is absent.
fn read_levels(alloc: Global, document: &Fields<'_>) -> Result<u32, PlanError>
    ensures { ReadsTo result (levels_at (section_of document.now)) }
{
    match document.get("levels") {
        Some(value) => document.named(alloc, "levels", number_of(value, 1, 2)),
        None => Ok(1),
    }
}

fn height_of(height: u32, levels: u32) -> Height
    ensures { result ≡ height_of height levels }
{
    match (height, levels) {
        (5, 1) => Height::H5,
        (_, 1) => Height::H10,
        (5, _) => Height::H5H5,
        _ => Height::H5H10,
    }
}

/// The seals must suffice for all views, and the pairs of replicas over all views are bounded.
fn read_views(
    alloc: Global,
    document: &Fields<'_>,
    setting: &Setting,
    height: Height,
) -> Result<u32, PlanError>
    ensures exact { ReadsTo result (views_at setting.now height (section_of document.now)) }
    ensures range { IfOk result (λ views. (1 ≤ views) × (views ≤ 4000)) }
    ensures seals_suffice { IfOk result (λ views. 5 * views ≤ capacity_of height) }
    ensures few_pairs { IfOk result (λ views. setting.now.n * setting.now.n * views ≤ 65536) }
{
    let views = document.number(alloc, "views", 1, MAX_VIEWS)?;
    if SEALS_OF_A_VIEW * views > height.capacity()
        || setting.n() * setting.n() * views > MAX_PAIRS
    {
        return Err(document.fault(alloc, FaultKind::Range, "views"));
    }
    Ok(views)
}

fn read_ticks(alloc: Global, document: &Fields<'_>) -> Result<u32, PlanError>
    ensures exact { ReadsTo result (ticks_at (section_of document.now)) }
    ensures few { IfOk result (λ ticks. ticks ≤ 1000) }
{
    document.number(alloc, "ticks", 0, MAX_TICKS)
}

fn read_turns(alloc: Global, document: &Fields<'_>) -> Result<u32, PlanError>
    ensures exact { ReadsTo result (turns_at (section_of document.now)) }
    ensures few { IfOk result (λ turns. turns ≤ 200000) }
{
    document.number(alloc, "turns", 0, MAX_TURNS)
}

/// Whether the batches are left out: they are printed where the key is absent.
#[tactic(auto, unfolding(crate::specs::Head::summary_at))]
pub(crate) fn read_summary(alloc: Global, document: &Fields<'_>) -> Result<bool, PlanError>
    ensures { ReadsTo result (summary_at (section_of document.now)) }
{
    match document.get("print") {
        Some(value) => document.named(alloc, "print", is_summary(value)),
        None => Ok(false),
    }
}

fn is_summary(value: &toml::Value) -> Result<bool, FaultKind>
    ensures { result ≡ summary_in (view value.now) }
{
    match word_of(value)? {
        "batches" => Ok(false),
        "summary" => Ok(true),
        _ => Err(FaultKind::Range),
    }
}
