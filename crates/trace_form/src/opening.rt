//! The fields before the arrival lists: the setting, the span of the run, its counts, and its faulty replicas.
ghost use Rattle.std.specs.Prelude.{◌≡◌, ◌≤◌, ◌<◌, ◌*◌, ℕ, List, [], IfOk};
ghost use Rattle.seq_base.specs.Setting.{IsValid};
ghost use Rattle.trace_form.specs.Gives.{Gives};
ghost use Rattle.trace_form.specs.Seen.{IsAboveAll};
ghost use Rattle.trace_form.specs.Reading.{each_at};
ghost use Rattle.trace_form.specs.declared.keys.Form.TheVariants.{Seeded};
ghost use Rattle.trace_form.specs.Opening.{setting_at, height_at, seals_at, keyed_at, span_at, has_seals, is_bounded, member_at, faulty_at, opening_at};

use crate::fault::Stop;
use crate::fields::{read_byte, read_u16, read_u32, read_u64};
use crate::keys::{Form, Keys, read_form, read_keys};
use count_set::ReplicaSet;
use seal_kit::Height;
use seq_base::Setting;
use std::alloc::Global;

/// The maximum number of views of a plan's run, and of pairs of replicas over all views.
const MAX_VIEWS: u32 = 4_000;

const MAX_PAIRS: u32 = 65_536;

/// A replica makes at most one seal of each of the five sealed kinds in a view.
const SEALS_OF_A_VIEW: u64 = 5;

/// How many views a run may have, and how its seals are checked.
#[derive(Drop)]
pub struct Span {
    pub views: u32,
    pub keys: Keys,
    pub height: Height,
}

/// What a trace records before its arrival lists.
#[derive(Drop)]
pub struct Opening {
    pub setting: Setting,
    pub span: Span,
    pub turns: u32,
    pub ticks: u32,
    pub faulty: ReplicaSet,
}

#[tactic(auto, unfolding(crate::specs::Opening::opening_at))]
pub(crate) fn read_opening(alloc: Global, bytes: &[u8]) -> Result<(Opening, &[u8]), Stop>
    ensures gives { Gives (λ x. (x.0, x.1.now)) result (opening_at bytes.now) }
    ensures valid { IfOk result (λ x. IsValid x.0.setting) }
{
    let (form, rest) = read_form(bytes)?;
    let (setting, rest) = match read_setting(rest) {
        Ok(read) => read,
        Err(stop) => return Err(stop),
    };
    let (span, rest) = read_span(alloc, form, setting.n(), rest)?;
    let (turns, rest) = read_u32(rest)?;
    let (ticks, rest) = read_u32(rest)?;
    let (faulty, rest) = match read_faulty(&setting, rest) {
        Ok(read) => read,
        Err(stop) => return Err(stop),
    };
    let opening = Opening {
        setting,
        span,
        turns,
        ticks,
        faulty,
    };
    Ok((opening, rest))
}

#[tactic(auto, unfolding(crate::specs::Opening::setting_at, crate::specs::Opening::numbers_at))]
fn read_setting(bytes: &[u8]) -> Result<(Setting, &[u8]), Stop>
    ensures { Gives (λ x. (x.0, x.1.now)) result (setting_at bytes.now) }
{
    let (n, rest) = read_byte(bytes)?;
    let (f, rest) = read_byte(rest)?;
    let (p, rest) = read_u16(rest)?;
    let (q, rest) = read_u16(rest)?;
    match Setting::new(n, f, p, q) {
        Ok(setting) => Ok((setting, rest)),
        Err(_) => Err(Stop::Left(bytes.len())),
    }
}

fn read_span(alloc: Global, form: Form, n: u32, bytes: &[u8]) -> Result<(Span, &[u8]), Stop>
    requires { n ≤ 16 }
    ensures { Gives (λ x. (x.0, x.1.now)) result (span_at form n bytes.now) }
{
    match form {
        Form::Seeded => read_seeded(n, bytes),
        Form::Keyed => read_keyed(alloc, n, bytes),
    }
}

/// The views, the seed and the height.
#[tactic(auto, unfolding(crate::specs::Opening::any_seeded_at))]
fn read_seeded(n: u32, bytes: &[u8]) -> Result<(Span, &[u8]), Stop>
    requires { n ≤ 16 }
    ensures { Gives (λ x. (x.0, x.1.now)) result (span_at Seeded n bytes.now) }
{
    let (views, rest) = read_u32(bytes)?;
    let (seed, rest) = read_u64(rest)?;
    let (height, rest) = read_height(rest)?;
    if !has_seals(views, height) || !is_bounded(n, views) {
        return Err(Stop::Left(bytes.len()));
    }
    let span = Span {
        views,
        keys: Keys::Seed(seed),
        height,
    };
    Ok((span, rest))
}

/// The views, the height, and one public key for each of n replicas.
#[tactic(auto, unfolding(crate::specs::Opening::keyed_at))]
fn read_keyed(alloc: Global, n: u32, bytes: &[u8]) -> Result<(Span, &[u8]), Stop>
    ensures { Gives (λ x. (x.0, x.1.now)) result (keyed_at n bytes.now) }
{
    let ((views, height), rest) = read_seals(bytes)?;
    if !has_seals(views, height) {
        return Err(Stop::Left(bytes.len()));
    }
    let (keys, rest) = read_keys(alloc, n, rest)?;
    let span = Span {
        views,
        keys: Keys::Public(keys),
        height,
    };
    Ok((span, rest))
}

#[tactic(auto, unfolding(crate::specs::Opening::seals_at))]
fn read_seals(bytes: &[u8]) -> Result<((u32, Height), &[u8]), Stop>
    ensures { Gives (λ x. (x.0, x.1.now)) result (seals_at bytes.now) }
{
    let (views, rest) = read_u32(bytes)?;
    let (height, rest) = read_height(rest)?;
    Ok(((views, height), rest))
}

/// Whether there is a view, and a sealer of this height makes enough seals for all views.
fn has_seals(views: u32, height: Height) -> bool
    ensures { result ≡ has_seals views height }
{
    let seals = SEALS_OF_A_VIEW * u64::from(views);
    views >= 1 && seals <= u64::from(height.capacity())
}

/// Whether the views of n replicas keep the bounds of plans.
fn is_bounded(n: u32, views: u32) -> bool
    requires { n ≤ 16 }
    ensures { result ≡ is_bounded n views }
{
    views <= MAX_VIEWS && n * n * views <= MAX_PAIRS
}

#[tactic(auto, unfolding(crate::specs::Opening::height_at))]
fn read_height(bytes: &[u8]) -> Result<(Height, &[u8]), Stop>
    ensures { Gives (λ x. (x.0, x.1.now)) result (height_at bytes.now) }
{
    let (code, rest) = read_byte(bytes)?;
    let height = match code {
        1 => Height::H5,
        2 => Height::H10,
        3 => Height::H5H5,
        4 => Height::H5H10,
        _ => return Err(Stop::Left(bytes.len())),
    };
    Ok((height, rest))
}

/// At most f replicas in ascending order, preceded by their count.
#[tactic(auto, unfolding(crate::specs::Opening::faulty_at))]
fn read_faulty<'a>(setting: &Setting, bytes: &'a [u8]) -> Result<(ReplicaSet, &'a [u8]), Stop>
    ensures { Gives (λ x. (x.0, x.1.now)) result (faulty_at setting.now bytes.now) }
{
    let (count, rest) = read_byte(bytes)?;
    if count > setting.f() {
        return Err(Stop::Left(bytes.len()));
    }
    read_members(setting.n(), count, rest)
}

#[tactic(auto, using(crate::proofs::Steps::each_goes_on, crate::proofs::Steps::each_blames, crate::proofs::Steps::each_ends))]
fn read_members(n: u32, count: u32, bytes: &[u8]) -> Result<(ReplicaSet, &[u8]), Stop>
    requires { n ≤ 16 }
    ensures { Gives (λ x. (x.0, x.1.now)) result (each_at (member_at n) count [] bytes.now) }
{
    let mut faulty = ReplicaSet::empty();
    let mut least = 0;
    let mut rest = bytes;
    for _at in 0..count {
        let (replica, following) = read_member(n, least, rest)?;
        let _is_new = faulty.add(replica);
        least = replica + 1;
        rest = following;
    }
    Ok((faulty, rest))
}

/// A replica below n that is at least `least`, and so above those before it.
#[tactic(auto, unfolding(crate::specs::Opening::member_at))]
fn read_member(n: u32, least: u32, bytes: &[u8]) -> Result<(u32, &[u8]), Stop>
    ensures gives { (before : List ℕ) → IsAboveAll least before → Gives (λ x. (x.0, x.1.now)) result (member_at n before bytes.now) }
    ensures replica { IfOk result (λ x. x.0 < n) }
    ensures above { IfOk result (λ x. least ≤ x.0) }
{
    let (replica, rest) = read_byte(bytes)?;
    if replica < least || replica >= n {
        return Err(Stop::Left(bytes.len()));
    }
    Ok((replica, rest))
}
