//! Restarts are performed: a restarted replica is a new node, rebuilt from its log. The record of a run can't show
//! this, since it equals the record of the run without restarts. So the sealers that are made for restarts run out of
//! memory after some seals, and the test checks which numbers of seals let the run finish.
ghost use Rattle.std.specs.Prelude.{◌≡◌, ◌<◌, ◌≤◌, ℕ, IfOk, length, map, All};
ghost use Rattle.plan_text.specs.Rules.{KeepsRules};

use crate::runs::{plan_of, played, steady, trace_of};
use node_core::Entry;
use plan_text::Plan;
use replay_run::play;
use restart_run::{PlayFault, play_kept};
use seal_kit::{
    Height, Kit, SealFault, SealGrower, SealMaker, Sealer, TagChecker, TagMaker, TagSealer,
};
use seq_base::{NoMemory, Seal};
use std::alloc::Global;
use std::marker::Model;
use std::test::Fail;

/// A sealer that runs out of memory after `left` seals.
#[derive(Drop)]
struct TiringSealer {
    inner: TagSealer,
    left: u32,
}

impl Model for TiringSealer {
    ghost use Rattle.seal_kit.specs.Seals.{Counter};

    ghost Value = { Counter };

    ghost view = { λ s. s.inner };
}

impl Sealer for TiringSealer {
    ghost use Rattle.seal_kit.specs.Tags.{tag};

    ghost made = { λ s. s.made };

    ghost capacity = { λ s. s.capacity };

    ghost replica = { λ s. s.replica };

    ghost gives = { λ s number bytes. tag s.replica bytes };

    fn seal(&mut self, bytes: &[u8]) -> Result<Seal, SealFault> {
        if self.left == 0 && self.inner.made() < self.inner.capacity() {
            return Err(SealFault::NoMemory);
        }
        self.left = self.left.saturating_sub(1);
        self.inner.seal(bytes)
    }

    fn made(&self) -> u32 {
        self.inner.made()
    }

    fn capacity(&self) -> u32 {
        self.inner.capacity()
    }

    fn replica(&self) -> u32 {
        self.inner.replica()
    }
}

/// Makes tag sealers. The sealer of a restarted replica runs out of memory after `seals` seals.
#[derive(Drop)]
struct TiringMaker {
    alloc: Global,
    inner: TagMaker,
    seals: u32,
}

fn tiring(alloc: Global, sealers: Vec<TagSealer>) -> Result<Vec<TiringSealer>, NoMemory>
    ensures { IfOk result (λ tiring. tiring.items ≡ sealers.items) }
{
    let mut tiring = Vec::new(alloc);
    for inner in sealers {
        tiring.push(TiringSealer {
            inner,
            left: u32::MAX,
        })?;
    }
    Ok(tiring)
}

impl SealMaker for TiringMaker {
    type S = TiringSealer;

    type C = TagChecker;

    ghost use Rattle.seal_kit.specs.Tags.{tag, tag_fits};

    ghost fits = { λ _ seed height n replica bytes seal. tag_fits n replica bytes seal };

    ghost gives = { λ _ seed height n replica number bytes. tag replica bytes };

    fn make(
        &self,
        seed: u64,
        height: Height,
        n: u32,
    ) -> Result<Kit<TiringSealer, TagChecker>, NoMemory> {
        let Kit { sealers, checker } = self.inner.make(seed, height, n)?;
        Ok(Kit {
            sealers: tiring(self.alloc, sealers)?,
            checker,
        })
    }
}

impl SealGrower for TiringMaker {
    fn make_one(
        &self,
        seed: u64,
        height: Height,
        n: u32,
        replica: u32,
    ) -> Result<TiringSealer, NoMemory> {
        Ok(TiringSealer {
            inner: self.inner.make_one(seed, height, n, replica)?,
            left: self.seals,
        })
    }
}

/// Whether a run equals the one without restarts, if the sealer of each restart runs out of memory after `seals` seals;
/// false if there is no run.
fn ends(alloc: Global, plan: &Plan, seals: u32) -> Result<bool, Fail>
    requires rules { KeepsRules plan.now }
    requires five { plan.now.setting.n ≡ 5 }
{
    let maker = TiringMaker {
        alloc,
        inner: TagMaker::new(alloc),
        seals,
    };
    let kit = maker.make(plan.seed, plan.height, plan.setting.n())?;
    match play_kept(
        alloc,
        plan,
        &maker,
        kit.sealers,
        &kit.checker,
        steady(alloc)?,
    ) {
        Ok((run, _)) => Ok(trace_of(alloc, plan, &run)? == played(alloc, plan)?),
        Err(PlayFault::NoMemory) => Ok(false),
        Err(PlayFault::Keep { .. }) => Err(Fail::new("a keeper failed")),
    }
}

/// The number of statements that these turns seal.
fn seals_in(entries: &[Entry]) -> usize {
    let mut count = 0usize;
    for entry in entries {
        count = count.saturating_add(entry.turned.sealed.as_slice().len());
    }
    count
}

/// The number of statements that replica 2 seals in the run.
fn seals_of(alloc: Global, plan: &Plan) -> Result<u32, Fail>
    requires rules { KeepsRules plan.now }
{
    let kit = TagMaker::new(alloc).make(plan.seed, plan.height, plan.setting.n())?;
    let run = play(alloc, plan, kit.sealers, &kit.checker)?;
    match run.journals.as_slice().get(2) {
        Some(journal) => match u32::try_from(seals_in(journal.entries.as_slice())) {
            Ok(seals) => Ok(seals),
            Err(_) => Err(Fail::new("too many seals")),
        },
        None => Err(Fail::new("no replica 2")),
    }
}

/// The first limit with a wrong result. A limit below the number of replica 2's seals has to end the run early, and a
/// limit of that number has to let it finish.
fn first_wrong(alloc: Global, plan: &Plan) -> Result<Option<u32>, Fail>
    requires rules { KeepsRules plan.now }
    requires five { plan.now.setting.n ≡ 5 }
{
    let all = seals_of(alloc, plan)?;
    for seals in 0..=all {
        if ends(alloc, plan, seals)? != (seals == all) {
            return Ok(Some(seals));
        }
    }
    Ok(None)
}

fn wrong_at(alloc: Global, restarts: &str) -> Result<Option<u32>, Fail> {
    let plan = plan_of(alloc, "calm", restarts)?;
    first_wrong(alloc, &plan)
}

/// After a restart the replica repeats all turns of its log with a new sealer, and uses the same sealer afterwards.
/// Replica 2 seals before turn 20 and after it.
#[test]
fn a_restarted_replica_is_rebuilt_from_its_log(rt: HostRuntime) -> Result<(), Fail> {
    assert_eq!(rt; wrong_at(rt.alloc(), "{ replica = 2, turn = 20 }")?, None);
    Ok(())
}
