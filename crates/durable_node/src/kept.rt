ghost use Rattle.std.specs.Prelude.{◌≡◌, ◌≤◌, ◌<◌, ◌+◌, ◌-◌, ◌*◌, ◌^◌, ◌++◌, ◌↔◌, ℕ, List, Err, true, false, IsTrue, IfOk, IfErr, OnOk, OnErr, length};
ghost use Rattle.node_core.specs.Readable.{IsReadable};
ghost use Rattle.node_core.specs.Runs.{opening_state};
ghost use Rattle.node_core.specs.State.{State};
ghost use Rattle.node_core.specs.Turn.{turn_of};
ghost use Rattle.durable_node.specs.Keeping.{Grew, Stays};
ghost use Rattle.node_core.specs.declared.event.Event.{Event};
ghost use Rattle.node_core.specs.Rows.{Check};
ghost use Rattle.node_core.specs.Reported.{Gives};
ghost use Rattle.durable_node.specs.Incarnations.{HasTried, IsLeft, Lifetime, Lived, answered, begun_with, tried};
ghost use Rattle.durable_node.specs.Check.{header_digest, next_digest};
ghost use Rattle.durable_node.specs.Header.{HasHeader, IsBadIn, header_of, height_number, records_in};
ghost use Rattle.durable_node.specs.Log.{CanBeKept, IsBadAt, IsWholePrefix, IsShort, body_of, record_of};
ghost use Rattle.durable_node.specs.Node.{IsDeviceFault, IsHeldBack, IsOpened, IsRefusal, IsUnopened, Kept};

use crate::opening::opened;
use crate::writing::{Record, record_of};
use crate::{KeepFault, Keeper};
use node_core::{Event, Node, Turned};
use seal_kit::{Checker, Height, Sealer};
use seq_base::{NoMemory, Setting};
use std::alloc::Global;
use std::marker::Model;

/// Why a node with a log did not start, or did not act.
#[derive(Clone, Copy, Debug, PartialEq, Eq)]
pub enum KeptFault {
    /// The keeper failed. Its count of faults increased in that call.
    Keep,
    /// The log does not start with a header.
    NoHeader,
    /// The log starts with the header of another owner: another setting, other views, another replica, other keys, or keys
    /// of another height.
    OtherLog,
    /// At this byte of the log, counted from its first, is a corrupt record: it is not torn, and it is no event's after the
    /// records before it.
    BadLog { at: u64 },
    /// An earlier turn of this node was refused.
    Closed,
    NoMemory,
}

impl From<NoMemory> for KeptFault {
    ghost use Rattle.std.specs.Prelude.{◌≡◌};
    ghost use Rattle.durable_node.specs.declared.kept.KeptFault.TheVariants as fault;

    ghost from_gives = { λ _ e. e ≡ fault.NoMemory };

    fn from(_: NoMemory) -> Self {
        KeptFault::NoMemory
    }
}

impl From<KeepFault> for KeptFault {
    ghost use Rattle.std.specs.Prelude.{◌≡◌};
    ghost use Rattle.durable_node.specs.Node.{fault_of};

    ghost from_gives = { λ f e. e ≡ fault_of f };

    fn from(fault: KeepFault) -> Self {
        match fault {
            KeepFault::Failed => KeptFault::Keep,
            KeepFault::NoMemory => KeptFault::NoMemory,
        }
    }
}

/// A node that logs each event before it acts on it. After a refused turn it acts no more: it has to be crashed, and
/// started again from its keeper.
pub struct DurableNode<S: Sealer, K: Keeper> {
    alloc: Global,
    node: Node<S>,
    keeper: K,
    digest: [u8; 32],
    closed: bool,
}

impl<S: Sealer, K: Keeper> Drop for DurableNode<S, K> {
    fn drop(self) {
        let DurableNode {
            alloc: _,
            node: _,
            keeper: _,
            digest: _,
            closed: _,
        } = self;
    }
}

impl<S: Sealer, K: Keeper> Model for DurableNode<S, K> {
    ghost use Rattle.std.specs.Prelude.{◌≡◌, true};
    ghost use Rattle.durable_node.specs.Node.{Kept};

    ghost Value = { Kept S K };

    ghost view = { λ a. record { node = a.node; keeper = a.keeper; digest = a.digest; closed = a.closed } };

    ghost invariant = { λ a. K.begun a.keeper ≡ true };
}

impl<S: Sealer, K: Keeper> DurableNode<S, K> {
    /// A node in the state to which its turns on the logged events lead. The log is new, or its own: of this setting,
    /// these views, the sealer's replica, this height and these keys, 32 bytes that name the public keys of all replicas.
    /// A torn last record is discarded. The sealer is a new one that gives the same seals as the one before. A refusal returns the
    /// keeper.
    pub fn start<C: Checker>(
        alloc: Global,
        setting: Setting,
        views: u32,
        height: Height,
        keys: &[u8; 32],
        sealer: S,
        checker: &C,
        keeper: K,
    ) -> Result<DurableNode<S, K>, (K, KeptFault)>
        requires replica { S.replica sealer < setting.n }
        requires room { 5 * views ≤ S.capacity sealer }
        requires fresh { S.made sealer ≡ 0 }
        requires idle { K.begun keeper ≡ false }
        requires countable { K.openings keeper < 2 ^ 64 - 1 }
        ensures opened { IfOk result
            (λ kept. IsOpened (C.meaning checker.now) (S.gives sealer) setting views (S.replica sealer) (height_number height) (S.capacity sealer)
            keys.now (K.bytes keeper) (K.bytes kept.keeper) kept.digest kept.node.state) }
        // Its lifetime starts with the events whose records are whole.
        ensures lived { IfOk result (λ kept. (events : List Event) (end : ℕ)
            → IsWholePrefix (header_digest (header_of setting views (S.replica sealer) (height_number height) keys.now))
            (records_in (K.bytes keeper)) events end
            → Lived K.bytes K.durable_size (C.meaning checker.now) (S.gives sealer)
            (opening_state setting views (S.replica sealer) (S.capacity sealer))
            (header_of setting views (S.replica sealer) (height_number height) keys.now) kept (begun_with events)) }
        ensures gives { IfOk result (λ kept. S.gives kept.node.sealer ≡ S.gives sealer) }
        ensures replica { IfOk result (λ kept. S.replica kept.node.sealer ≡ S.replica sealer) }
        ensures durable_size { IfOk result (λ kept. K.durable_size kept.keeper ≡ length (K.bytes kept.keeper)) }
        ensures openings { IfOk result (λ kept. K.openings kept.keeper ≡ K.openings keeper + 1) }
        ensures open { IfOk result (λ kept. kept.closed ≡ false) }
        ensures running { IfOk result (λ kept. kept.node.halted ≡ false) }
        ensures later { IfOk result (λ kept. K.faults keeper ≤ K.faults kept.keeper) }
        // The log of another owner is always refused, and its own never for that reason.
        ensures own { IfErr result (λ e. IsRefusal (header_of setting views (S.replica sealer) (height_number height) keys.now) (K.bytes keeper) e.1) }
        // A log with a corrupt record is always refused, and no other for that reason.
        ensures good { (at : ℕ) → IsBadAt (header_digest (header_of setting views (S.replica sealer) (height_number height) keys.now))
            (records_in (K.bytes keeper)) at → OnOk result ⊥ }
        ensures bad { IfErr result (λ e. (at : ℕ) → e.1 ≡ KeptFault.BadLog at
            → IsBadIn (header_of setting views (S.replica sealer) (height_number height) keys.now) (K.bytes keeper) at × (K.bytes e.0 ≡ K.bytes keeper)) }
        ensures cause { IfErr result (λ e. e.1 ≡ KeptFault.Keep → K.faults keeper < K.faults e.0) }
        ensures unclosed { IfErr result (λ e. e.1 ≡ KeptFault.Closed → ⊥) }
        ensures refused { IfErr result (λ e. IsHeldBack (header_of setting views (S.replica sealer) (height_number height) keys.now)
            (K.bytes keeper) (K.bytes e.0) (K.durable_size keeper) (K.durable_size e.0)) }
        ensures idle { IfErr result (λ e. K.begun e.0 ≡ false) }
        ensures unopened { IfErr result (λ e. IsUnopened (header_of setting views (S.replica sealer) (height_number height) keys.now)
            (K.bytes keeper) (K.openings keeper) (K.openings e.0)) }
        ensures not_fewer { IfErr result (λ e. K.faults keeper ≤ K.faults e.0) }
    {
        let mut keeper = keeper;
        match opened(
            alloc,
            setting,
            views,
            height,
            keys,
            sealer,
            checker,
            &mut keeper,
        ) {
            Ok(opened) => {
                let (node, digest) = opened;
                Ok(DurableNode {
                    alloc,
                    node,
                    keeper,
                    digest,
                    closed: false,
                })
            }
            Err(fault) => Err((keeper, fault)),
        }
    }

    /// Logs the event, and then makes the node's turn on it.
    #[tactic(auto, using(crate::proofs::Grown::grew_nothing, crate::proofs::Lifetimes::tried_on))]
    pub fn turn<C: Checker>(&mut self, checker: &C, event: &Event) -> Result<Turned, KeptFault>
        requires { IsShort event.now }
        ensures ok { IfOk result (λ t. turn_of (C.meaning checker.now) (S.gives self.old.node.sealer) self.old.node.state event.now
            ≡ record { reported = t; state = self.new.node.state }) }
        ensures readable { OnOk result (IsReadable event.now) }
        ensures kept { OnOk result (K.bytes self.new.keeper ≡ K.bytes self.old.keeper ++ record_of self.old.digest event.now) }
        ensures digest { OnOk result (self.new.digest ≡ next_digest self.old.digest (body_of event.now)) }
        ensures durable_size { OnOk result (K.durable_size self.new.keeper ≡ length (K.bytes self.new.keeper)) }
        ensures refused { OnErr result (Grew (record_of self.old.digest event.now) (K.bytes self.old.keeper) (K.bytes self.new.keeper)) }
        ensures keeps { K.durable_size self.old.keeper ≤ K.durable_size self.new.keeper }
        // If the keeper failed, the node has not acted on the event.
        ensures unkept { result ≡ Err KeptFault.Keep → self.new.node ≡ self.old.node }
        ensures lived { (opening : State) (header : List ℕ) (lifetime : Lifetime)
            → Lived K.bytes K.durable_size (C.meaning checker.now) (S.gives self.old.node.sealer) opening header self.old lifetime
            → IfOk result (λ t. Lived K.bytes K.durable_size (C.meaning checker.now) (S.gives self.old.node.sealer) opening header self.new
            (answered lifetime event.now t)) }
        ensures tried { (fits : Check) (gives : Gives) (opening : State) (header : List ℕ) (lifetime : Lifetime) → self.old.closed ≡ false
            → Lived K.bytes K.durable_size fits gives opening header self.old lifetime
            → OnErr result (Lived K.bytes K.durable_size fits gives opening header self.new (tried lifetime event.now)) }
        ensures openings { K.openings self.new.keeper ≡ K.openings self.old.keeper }
        ensures gives { S.gives self.new.node.sealer ≡ S.gives self.old.node.sealer }
        ensures replica { S.replica self.new.node.sealer ≡ S.replica self.old.node.sealer }
        ensures closed { (result ≡ Err KeptFault.Closed) ↔ IsTrue self.old.closed }
        ensures unchanged { IsTrue self.old.closed → self.new ≡ self.old }
        ensures shut { OnErr result (self.new.closed ≡ true) }
        ensures running { OnOk result (self.new.closed ≡ false) }
        ensures cause { result ≡ Err KeptFault.Keep → K.faults self.old.keeper < K.faults self.new.keeper }
        ensures later { K.faults self.old.keeper ≤ K.faults self.new.keeper }
        ensures no_log { (at : ℕ) → result ≡ Err (KeptFault.BadLog at) → ⊥ }
        ensures own { (result ≡ Err KeptFault.NoHeader → ⊥) × (result ≡ Err KeptFault.OtherLog → ⊥) }
    {
        if self.closed {
            return Err(KeptFault::Closed);
        }
        match keep_and_turn(
            self.alloc,
            &mut self.node,
            &mut self.keeper,
            &mut self.digest,
            checker,
            event,
        ) {
            Ok(turned) => Ok(turned),
            Err(fault) => {
                self.closed = true;
                Err(fault)
            }
        }
    }

    pub fn node(&self) -> &Node<S>
        ensures { result.now ≡ self.now.node }
    {
        &self.node
    }

    /// The replica crashes. What stays are the events that its lifetime logged, and at most the one of the refused turn.
    pub fn crash(self) -> K
        ensures bytes { Stays (K.durable_size self.keeper) (K.bytes self.keeper) (K.bytes result) }
        ensures idle { K.begun result ≡ false }
        ensures openings { K.openings result ≡ K.openings self.keeper }
        ensures durable_size { K.durable_size self.keeper ≤ K.durable_size result }
        ensures later { K.faults self.keeper ≤ K.faults result }
        ensures own { (fits : Check) (gives : Gives) (opening : State) (header : List ℕ) (lifetime : Lifetime)
            → Lived K.bytes K.durable_size fits gives opening header self lifetime
            → HasHeader header (K.bytes result) }
        ensures left { (fits : Check) (gives : Gives) (opening : State) (header : List ℕ) (lifetime : Lifetime)
            → Lived K.bytes K.durable_size fits gives opening header self lifetime
            → (events : List Event) (end : ℕ) → IsWholePrefix (header_digest header) (records_in (K.bytes result)) events end → IsLeft lifetime events }
    {
        let DurableNode {
            alloc: _,
            node: _,
            mut keeper,
            digest: _,
            closed: _,
        } = self;
        keeper.stop();
        keeper
    }
}

/// Logs the event, and then makes the node's turn on it.
#[tactic(auto, using(crate::proofs::Grown::grew_all, crate::proofs::Grown::grew_nothing))]
fn keep_and_turn<S: Sealer, C: Checker, K: Keeper>(
    alloc: Global,
    node: &mut Node<S>,
    keeper: &mut K,
    digest: &mut [u8; 32],
    checker: &C,
    event: &Event,
) -> Result<Turned, KeptFault>
    requires short { IsShort event.now }
    requires begun { K.begun keeper.old ≡ true }
    // The turn that was made, and the log with its event, all durable.
    ensures ok { IfOk result (λ t. turn_of (C.meaning checker.now) (S.gives node.old.sealer) node.old.state event.now
        ≡ record { reported = t; state = node.new.state }) }
    ensures readable { OnOk result (IsReadable event.now) }
    ensures kept { OnOk result (K.bytes keeper.new ≡ K.bytes keeper.old ++ record_of digest.old event.now) }
    ensures digest { OnOk result (digest.new ≡ next_digest digest.old (body_of event.now)) }
    ensures durable_size { OnOk result (K.durable_size keeper.new ≡ length (K.bytes keeper.new)) }
    // How far a refused call got in the log. Durable bytes stay durable.
    ensures refused { OnErr result (Grew (record_of digest.old event.now) (K.bytes keeper.old) (K.bytes keeper.new)) }
    ensures can { OnOk result (CanBeKept event.now) }
    ensures tried { OnErr result (HasTried digest.old event.now (K.bytes keeper.old) (K.bytes keeper.new)) }
    ensures keeps { K.durable_size keeper.old ≤ K.durable_size keeper.new }
    // Where the keeper failed, the node is as before. The keeper stays open, and the sealer stays that of the replica.
    ensures unkept { result ≡ Err KeptFault.Keep → node.new ≡ node.old }
    ensures openings { K.openings keeper.new ≡ K.openings keeper.old }
    ensures begun { K.begun keeper.new ≡ true }
    ensures gives { S.gives node.new.sealer ≡ S.gives node.old.sealer }
    ensures replica { S.replica node.new.sealer ≡ S.replica node.old.sealer }
    // Why it fails: the keeper failed and its count of faults rose, or memory ran out.
    ensures cause { result ≡ Err KeptFault.Keep → K.faults keeper.old < K.faults keeper.new }
    ensures later { K.faults keeper.old ≤ K.faults keeper.new }
    ensures unclosed { result ≡ Err KeptFault.Closed → ⊥ }
    ensures no_log { (at : ℕ) → result ≡ Err (KeptFault.BadLog at) → ⊥ }
    ensures device { IfErr result IsDeviceFault }
{
    keep_event(alloc, keeper, digest, event)?;
    act(node, checker, event)
}

/// Appends the event's record in one call, and makes it durable in one more. The running digest is that of the log, and
/// moves on over the record. It is for a driver that holds a node and its keeper separately, and logs each event before
/// the node acts on it. The fault is Keep or NoMemory.
#[tactic(auto, using(crate::proofs::Grown::grew_all, crate::proofs::Grown::grew_nothing))]
pub fn keep_event<K: Keeper>(
    alloc: Global,
    keeper: &mut K,
    digest: &mut [u8; 32],
    event: &Event,
) -> Result<(), KeptFault>
    requires short { IsShort event.now }
    requires begun { K.begun keeper.old ≡ true }
    // The log with the event, all durable.
    ensures kept { OnOk result (K.bytes keeper.new ≡ K.bytes keeper.old ++ record_of digest.old event.now) }
    ensures digest { OnOk result (digest.new ≡ next_digest digest.old (body_of event.now)) }
    ensures durable_size { OnOk result (K.durable_size keeper.new ≡ length (K.bytes keeper.new)) }
    ensures can { OnOk result (CanBeKept event.now) }
    // How far a refused call got in the log. Durable bytes stay durable, and the keeper stays open.
    ensures refused { OnErr result (Grew (record_of digest.old event.now) (K.bytes keeper.old) (K.bytes keeper.new)) }
    ensures tried { OnErr result (HasTried digest.old event.now (K.bytes keeper.old) (K.bytes keeper.new)) }
    ensures keeps { K.durable_size keeper.old ≤ K.durable_size keeper.new }
    ensures openings { K.openings keeper.new ≡ K.openings keeper.old }
    ensures begun { K.begun keeper.new ≡ true }
    // Why it fails: the keeper failed and its count of faults rose, or memory ran out.
    ensures cause { result ≡ Err KeptFault.Keep → K.faults keeper.old < K.faults keeper.new }
    ensures later { K.faults keeper.old ≤ K.faults keeper.new }
    ensures unclosed { result ≡ Err KeptFault.Closed → ⊥ }
    ensures no_log { (at : ℕ) → result ≡ Err (KeptFault.BadLog at) → ⊥ }
    ensures device { IfErr result IsDeviceFault }
    // The running digest moves on with Ok alone.
    ensures stays { OnErr result (digest.new ≡ digest.old) }
{
    let Record {
        bytes,
        digest: following,
    } = record_of(alloc, digest, event)?;
    keep(keeper, bytes.as_slice())?;
    *digest = following;
    Ok(())
}

/// The node's turn. A node halts when it is out of memory.
fn act<S: Sealer, C: Checker>(
    node: &mut Node<S>,
    checker: &C,
    event: &Event,
) -> Result<Turned, KeptFault>
    ensures ok { IfOk result (λ t. turn_of (C.meaning checker.now) (S.gives node.old.sealer) node.old.state event.now
        ≡ record { reported = t; state = node.new.state }) }
    ensures readable { OnOk result (IsReadable event.now) }
    ensures gives { S.gives node.new.sealer ≡ S.gives node.old.sealer }
    ensures replica { S.replica node.new.sealer ≡ S.replica node.old.sealer }
    ensures memory { IfErr result (λ f. f ≡ KeptFault.NoMemory) }
{
    match node.turn(checker, event) {
        Ok(turned) => Ok(turned),
        Err(_) => Err(KeptFault::NoMemory),
    }
}

/// Appends the bytes, and makes them durable.
#[tactic(auto, using(crate::proofs::Grown::grew_all, crate::proofs::Grown::grew_nothing))]
pub(crate) fn keep<K: Keeper>(keeper: &mut K, bytes: &[u8]) -> Result<(), KeptFault>
    requires begun { K.begun keeper.old ≡ true }
    // The bytes with these after them, all durable.
    ensures kept { OnOk result (K.bytes keeper.new ≡ K.bytes keeper.old ++ bytes.now) }
    ensures durable_size { OnOk result (K.durable_size keeper.new ≡ length (K.bytes keeper.new)) }
    // How far a refused call got. Durable bytes stay durable, and the keeper stays open.
    ensures refused { OnErr result (Grew bytes.now (K.bytes keeper.old) (K.bytes keeper.new)) }
    ensures keeps { K.durable_size keeper.old ≤ K.durable_size keeper.new }
    ensures openings { K.openings keeper.new ≡ K.openings keeper.old }
    ensures begun { K.begun keeper.new ≡ true }
    // Why it fails: the keeper failed and its count of faults rose, or memory ran out.
    ensures cause { result ≡ Err KeptFault.Keep → K.faults keeper.old < K.faults keeper.new }
    ensures later { K.faults keeper.old ≤ K.faults keeper.new }
    ensures unclosed { result ≡ Err KeptFault.Closed → ⊥ }
    ensures no_log { (at : ℕ) → result ≡ Err (KeptFault.BadLog at) → ⊥ }
    ensures device { IfErr result IsDeviceFault }
{
    keeper.append(bytes)?;
    keeper.sync()?;
    Ok(())
}
