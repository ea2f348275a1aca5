//! The keepers of a run's replicas.

ghost use Rattle.std.specs.Prelude.{◌≡◌, ◌<◌, List, [], Err, true, IfErr, OnOk, All};
ghost use Rattle.replay_run.specs.Kept.{HasKept, HasKeptOne, HasLogged, IsKeepFault, IsLogFault, keys_of, meant, step_fault};
ghost use Rattle.replay_run.specs.Open.{IsOpen};

use durable_node::{Keeper, KeptFault, is_short, keep_event};
use node_core::Event;
use plan_text::Plan;
use seq_base::NoMemory;
use std::alloc::Global;
use std::error::Error;
use std::fmt;
use std::marker::Model;

/// Why a run stops before its end.
#[derive(Clone, Copy, Debug, PartialEq, Eq)]
pub enum StepFault {
    /// The keeper of this replica failed: its count of faults increased.
    Keep { replica: u32 },
    NoMemory,
}

impl fmt::Display for StepFault {
    ghost use Rattle.std.specs.Prelude.{Some};
    ghost use Rattle.replay_run.specs.FaultWords.{fault_words};

    ghost output = { λ fault. Some (fault_words fault) };

    fn fmt<W: fmt::Write>(&self, f: &mut fmt::Formatter<W>) -> fmt::Result {
        match self {
            StepFault::Keep { replica } => write!(f, "the keeper of replica {replica} failed"),
            StepFault::NoMemory => write!(f, "no memory"),
        }
    }
}

impl Error for StepFault {}

impl From<NoMemory> for StepFault {
    ghost use Rattle.std.specs.Prelude.{◌≡◌};
    ghost use Rattle.replay_run.specs.declared.keepers.StepFault.TheVariants as fault;

    ghost from_gives = { λ _ e. e ≡ fault.NoMemory };

    fn from(_: NoMemory) -> Self {
        StepFault::NoMemory
    }
}

/// A replica's keeper.
#[derive(Drop)]
pub struct Keeping<K: Keeper> {
    pub keeper: K,
    /// The running digest of the log, if events are logged.
    pub digest: [u8; 32],
    /// Whether each event of the replica is logged before its turn.
    pub on: bool,
}

/// The keepers of the replicas of a run, each in its replica's place. Without a keeper, nothing is logged.
#[derive(Drop)]
pub struct Keepers<K: Keeper> {
    pub alloc: Global,
    pub keepers: Vec<Keeping<K>>,
}

impl<K: Keeper> Model for Keepers<K> {
    ghost use Rattle.std.specs.Prelude.{List, All};
    ghost use Rattle.replay_run.specs.Open.{IsOpen};
    ghost use Rattle.replay_run.specs.declared.keepers.Keeping.{Keeping};

    ghost Value = { List (Keeping K) };

    ghost view = { λ a. a.keepers.items };

    ghost invariant = { λ a. All (IsOpen K.begun) a.keepers.items };
}

impl<K: Keeper> Keepers<K> {
    /// Keepers that log no replica.
    pub(crate) fn none(alloc: Global) -> Keepers<K>
        ensures { result ≡ [] }
    {
        Keepers {
            alloc,
            keepers: Vec::new(alloc),
        }
    }

    /// Logs the event of the replica at a place, if that replica is logged.
    pub(crate) fn keep(&mut self, at: u32, event: &Event) -> Result<(), StepFault>
        ensures kept { OnOk result (HasKept (meant K.Keeper) event.now at self.old self.new) }
        ensures fault { IfErr result (IsKeepFault (meant K.Keeper) at self.old self.new) }
    {
        let place = at as usize;
        if place >= self.keepers.len() {
            return Ok(());
        }
        keep_one(self.alloc, &mut self.keepers[place], at, event)
    }
}

fn keep_one<K: Keeper>(
    alloc: Global,
    keeping: &mut Keeping<K>,
    at: u32,
    event: &Event,
) -> Result<(), StepFault>
    requires open { IsOpen K.begun keeping.old }
    ensures open { IsOpen K.begun keeping.new }
    ensures kept { OnOk result (HasKeptOne (meant K.Keeper) event.now keeping.old keeping.new) }
    ensures fault { IfErr result (IsLogFault at (K.faults keeping.old.keeper) (K.faults keeping.new.keeper)) }
{
    if keeping.on {
        log_event(alloc, &mut keeping.keeper, &mut keeping.digest, at, event)
    } else {
        Ok(())
    }
}

/// Appends the event to the log of the replica at a place. An event that does not fit into the fields of its record is
/// refused as out of memory.
fn log_event<K: Keeper>(
    alloc: Global,
    keeper: &mut K,
    digest: &mut [u8; 32],
    at: u32,
    event: &Event,
) -> Result<(), StepFault>
    requires begun { K.begun keeper.old ≡ true }
    ensures begun { K.begun keeper.new ≡ true }
    ensures kept { OnOk result (HasLogged (meant K.Keeper) event.now digest.old keeper.old digest.new keeper.new) }
    ensures fault { IfErr result (IsLogFault at (K.faults keeper.old) (K.faults keeper.new)) }
{
    if !is_short(event) {
        return Err(StepFault::NoMemory);
    }
    match keep_event(alloc, keeper, digest, event) {
        Ok(()) => Ok(()),
        Err(fault) => Err(fault_of(at, fault)),
    }
}

/// The bytes that stand in the logs of a plan's replicas instead of the digest of all public keys: the seed that the
/// keys are drawn from, and zeros.
#[tactic(auto, unfolding(crate::specs::Kept::keys_of))]
pub fn keys_of(plan: &Plan) -> [u8; 32]
    ensures { result ≡ keys_of plan.now }
{
    let mut keys = [0u8; 32];
    keys[..8].copy_from_slice(&plan.seed.to_be_bytes());
    keys
}

/// Why the run stops where the replica at a place was not opened, or its event was not logged. A corrupt log and the
/// log of another node do not occur, because the log is the run's own. A closed node does not occur either, because
/// none was closed.
pub fn fault_of(at: u32, fault: KeptFault) -> StepFault
    ensures { result ≡ step_fault at fault }
{
    match fault {
        KeptFault::Keep => StepFault::Keep { replica: at },
        KeptFault::NoHeader => StepFault::NoMemory,
        KeptFault::OtherLog => StepFault::NoMemory,
        KeptFault::BadLog { .. } => StepFault::NoMemory,
        KeptFault::Closed => StepFault::NoMemory,
        KeptFault::NoMemory => StepFault::NoMemory,
    }
}
