//! Opens a node from the log that its keeper holds.
ghost use Rattle.std.specs.Prelude.{◌≡◌, ◌≤◌, ◌<◌, ◌+◌, ◌-◌, ◌*◌, ◌^◌, ◌++◌, ℕ, List, [], Err, true, false, IfErr, IfOk, OnOk, OnErr, length, take};
ghost use Rattle.node_core.specs.declared.event.Event.{Event};
ghost use Rattle.node_core.specs.Runs.{opening_state, state_after};
ghost use Rattle.durable_node.specs.Check.{header_digest};
ghost use Rattle.durable_node.specs.Header.{IsBadIn, IsIntact, IsOwn, header_of, height_number, records_in};
ghost use Rattle.durable_node.specs.Log.{IsWholePrefix, digest_after};
ghost use Rattle.durable_node.specs.Node.{IsDeviceFault, IsHeldBack, IsOpened, IsRecordsFault, IsRefusal, IsUnopened};

use crate::check::header_digest;
use crate::header::{HEADER_BYTES, check_owner, header_of, records_in};
use crate::kept::keep;
use crate::reading::{LogFault, Logged, read_log};
use crate::{Keeper, KeptFault};
use node_core::{Event, Node};
use seal_kit::{Checker, Height, Sealer};
use seq_base::{NoMemory, Setting};
use std::alloc::Global;

/// How many bytes one read asks for.
const PIECE: usize = 4096;

/// The node in the state to which its turns on the logged events lead, with a new sealer, and the running digest of its
/// log. The log is its own, or new: see [`DurableNode::start`]. The keeper is opened last, so that no refusal leaves it open. This is for a driver that
/// holds a node and its keeper separately.
#[tactic(auto, using(crate::proofs::Owners::unopened_same, crate::proofs::Owners::device_refuses))]
pub fn opened<S: Sealer, C: Checker, K: Keeper>(
    alloc: Global,
    setting: Setting,
    views: u32,
    height: Height,
    keys: &[u8; 32],
    sealer: S,
    checker: &C,
    keeper: &mut K,
) -> Result<(Node<S>, [u8; 32]), KeptFault>
    requires replica { S.replica sealer < setting.n }
    requires room { 5 * views ≤ S.capacity sealer }
    requires fresh { S.made sealer ≡ 0 }
    requires idle { K.begun keeper.old ≡ false }
    requires countable { K.openings keeper.old < 2 ^ 64 - 1 }
    ensures opened { IfOk result
        (λ o. IsOpened (C.meaning checker.now) (S.gives sealer) setting views (S.replica sealer) (height_number height) (S.capacity sealer)
        keys.now (K.bytes keeper.old) (K.bytes keeper.new) o.1 o.0.state) }
    ensures gives { IfOk result (λ o. S.gives o.0.sealer ≡ S.gives sealer) }
    ensures replica { IfOk result (λ o. S.replica o.0.sealer ≡ S.replica sealer) }
    ensures running { IfOk result (λ o. o.0.halted ≡ false) }
    ensures durable_size { OnOk result (K.durable_size keeper.new ≡ length (K.bytes keeper.new)) }
    ensures openings { OnOk result (K.openings keeper.new ≡ K.openings keeper.old + 1) }
    ensures begun { OnOk result (K.begun keeper.new ≡ true) }
    ensures idle { OnErr result (K.begun keeper.new ≡ false) }
    ensures unopened { OnErr result (IsUnopened (header_of setting views (S.replica sealer) (height_number height) keys.now)
        (K.bytes keeper.old) (K.openings keeper.old) (K.openings keeper.new)) }
    ensures cause { result ≡ Err KeptFault.Keep → K.faults keeper.old < K.faults keeper.new }
    ensures later { K.faults keeper.old ≤ K.faults keeper.new }
    // The log of another owner is always refused, and its own never for that reason.
    ensures own { IfErr result (IsRefusal (header_of setting views (S.replica sealer) (height_number height) keys.now) (K.bytes keeper.old)) }
    ensures bad { (at : ℕ) → result ≡ Err (KeptFault.BadLog at)
        → IsBadIn (header_of setting views (S.replica sealer) (height_number height) keys.now) (K.bytes keeper.old) at
        × (K.bytes keeper.new ≡ K.bytes keeper.old) }
    ensures refused { OnErr result (IsHeldBack (header_of setting views (S.replica sealer) (height_number height) keys.now)
        (K.bytes keeper.old) (K.bytes keeper.new) (K.durable_size keeper.old) (K.durable_size keeper.new)) }
    ensures unclosed { result ≡ Err KeptFault.Closed → ⊥ }
{
    let header = header_of(alloc, setting, views, sealer.replica(), height, keys)?;
    let log = read_all(alloc, keeper)?;
    let logged = own_records(alloc, log.as_slice(), header.as_slice())?;
    let node = replayed(
        alloc,
        setting,
        views,
        sealer,
        checker,
        logged.events.as_slice(),
    )?;
    begin_after(keeper, header.as_slice(), log.len(), logged.size)?;
    let digest = logged.digest;
    Ok((node, digest))
}

/// Opens the keeper of an empty log. The log then has this replica's header and no events, all durable. Returns its
/// running digest. This is for a driver that holds a node and its keeper separately.
pub fn new_log<K: Keeper>(
    alloc: Global,
    setting: Setting,
    views: u32,
    replica: u32,
    height: Height,
    keys: &[u8; 32],
    keeper: &mut K,
) -> Result<[u8; 32], KeptFault>
    requires empty { K.bytes keeper.old ≡ [] }
    requires idle { K.begun keeper.old ≡ false }
    requires countable { K.openings keeper.old < 2 ^ 64 - 1 }
    // The log with its header, and its running digest. All of it is durable, and the keeper is open.
    ensures kept { OnOk result (K.bytes keeper.new ≡ header_of setting views replica (height_number height) keys.now) }
    ensures digest { IfOk result (λ digest. digest ≡ header_digest (header_of setting views replica (height_number height) keys.now)) }
    ensures durable_size { OnOk result (K.durable_size keeper.new ≡ length (K.bytes keeper.new)) }
    ensures openings { OnOk result (K.openings keeper.new ≡ K.openings keeper.old + 1) }
    ensures begun { OnOk result (K.begun keeper.new ≡ true) }
    // A refused call leaves the keeper closed: it failed and its count of faults rose, or memory ran out.
    ensures idle { OnErr result (K.begun keeper.new ≡ false) }
    ensures cause { result ≡ Err KeptFault.Keep → K.faults keeper.old < K.faults keeper.new }
    ensures later { K.faults keeper.old ≤ K.faults keeper.new }
    ensures device { IfErr result IsDeviceFault }
{
    let header = header_of(alloc, setting, views, replica, height, keys)?;
    write_header(keeper, header.as_slice())?;
    Ok(header_digest(header.as_slice()))
}

/// The events of an own log, and the length of their records in bytes.
fn own_records(alloc: Global, log: &[u8], header: &[u8]) -> Result<Logged, KeptFault>
    requires { length header.now ≡ 76 }
    ensures own { OnOk result (IsOwn header.now log.now) }
    ensures prefix { IfOk result (λ l. IsWholePrefix (header_digest header.now) (records_in log.now) l.events.items l.size) }
    ensures digest { IfOk result (λ l. l.digest ≡ digest_after (header_digest header.now) l.events.items) }
    ensures within { IfOk result (λ l. l.size ≤ length (records_in log.now)) }
    ensures refused { IfErr result (IsRefusal header.now log.now) }
    // Memory runs out only over an own log without a corrupt record.
    ensures good { result ≡ Err KeptFault.NoMemory → IsIntact header.now log.now }
    ensures unkept { result ≡ Err KeptFault.Keep → ⊥ }
{
    check_owner(log, header)?;
    whole_records(alloc, &header_digest(header), records_in(log))
}

/// The events of the records, and their length in bytes. A corrupt record is reported by its place in the log.
fn whole_records(alloc: Global, start: &[u8; 32], records: &[u8]) -> Result<Logged, KeptFault>
    ensures prefix { IfOk result (λ l. IsWholePrefix start.now records.now l.events.items l.size) }
    ensures digest { IfOk result (λ l. l.digest ≡ digest_after start.now l.events.items) }
    ensures within { IfOk result (λ l. l.size ≤ length records.now) }
    ensures refused { IfErr result (IsRecordsFault start.now records.now) }
{
    match read_log(alloc, start, records) {
        Ok(logged) => Ok(logged),
        Err(LogFault::Bad { at }) => Err(KeptFault::BadLog {
            at: at as u64 + HEADER_BYTES as u64,
        }),
        Err(LogFault::NoMemory) => Err(KeptFault::NoMemory),
    }
}

/// Opens the keeper after the header and the whole records of this size. If the header was torn, with a new header.
fn begin_after<K: Keeper>(
    keeper: &mut K,
    header: &[u8],
    size: usize,
    whole: usize,
) -> Result<(), KeptFault>
    // The header is that of the log, and the whole records lie within it.
    requires sized { length header.now ≡ 76 }
    requires own { IsOwn header.now (K.bytes keeper.old) }
    requires size { size ≡ length (K.bytes keeper.old) }
    requires within { whole ≤ length (records_in (K.bytes keeper.old)) }
    // The keeper is closed, and can count one opening more.
    requires idle { K.begun keeper.old ≡ false }
    requires countable { K.openings keeper.old < 2 ^ 64 - 1 }
    // The header and the whole records are left, all durable, and the keeper is open.
    ensures kept { OnOk result (K.bytes keeper.new ≡ header.now ++ take whole (records_in (K.bytes keeper.old))) }
    ensures durable_size { OnOk result (K.durable_size keeper.new ≡ length (K.bytes keeper.new)) }
    ensures openings { OnOk result (K.openings keeper.new ≡ K.openings keeper.old + 1) }
    ensures begun { OnOk result (K.begun keeper.new ≡ true) }
    // A refused call leaves the keeper closed. The whole records stay, or a torn header is still torn, or whole.
    ensures idle { OnErr result (K.begun keeper.new ≡ false) }
    ensures unopened { OnErr result (IsUnopened header.now (K.bytes keeper.old) (K.openings keeper.old) (K.openings keeper.new)) }
    ensures refused { (events : List Event) → IsWholePrefix (header_digest header.now) (records_in (K.bytes keeper.old)) events whole
        → OnErr result (IsHeldBack header.now (K.bytes keeper.old) (K.bytes keeper.new) (K.durable_size keeper.old) (K.durable_size keeper.new)) }
    // Why it fails: the keeper failed and its count of faults rose, or memory ran out.
    ensures cause { result ≡ Err KeptFault.Keep → K.faults keeper.old < K.faults keeper.new }
    ensures later { K.faults keeper.old ≤ K.faults keeper.new }
    ensures device { IfErr result IsDeviceFault }
{
    if size < HEADER_BYTES {
        write_header(keeper, header)
    } else {
        keeper.begin((HEADER_BYTES + whole) as u64)?;
        Ok(())
    }
}

/// Opens the keeper without bytes, writes the header, and makes it durable. If that fails, the keeper is stopped again.
fn write_header<K: Keeper>(keeper: &mut K, header: &[u8]) -> Result<(), KeptFault>
    requires idle { K.begun keeper.old ≡ false }
    requires countable { K.openings keeper.old < 2 ^ 64 - 1 }
    // The log is the header, all durable, and the keeper is open.
    ensures kept { OnOk result (K.bytes keeper.new ≡ header.now) }
    ensures durable_size { OnOk result (K.durable_size keeper.new ≡ length (K.bytes keeper.new)) }
    ensures openings { OnOk result (K.openings keeper.new ≡ K.openings keeper.old + 1) }
    ensures begun { OnOk result (K.begun keeper.new ≡ true) }
    // A refused call leaves the keeper closed, after one opening at most. A prefix of the header is still one.
    ensures idle { OnErr result (K.begun keeper.new ≡ false) }
    ensures once { OnErr result ((K.openings keeper.old ≤ K.openings keeper.new) × (K.openings keeper.new ≤ K.openings keeper.old + 1)) }
    ensures torn { K.bytes keeper.old ≡ take (length (K.bytes keeper.old)) header.now
        → OnErr result (K.bytes keeper.new ≡ take (length (K.bytes keeper.new)) header.now) }
    // Why it fails: the keeper failed and its count of faults rose, or memory ran out.
    ensures cause { result ≡ Err KeptFault.Keep → K.faults keeper.old < K.faults keeper.new }
    ensures later { K.faults keeper.old ≤ K.faults keeper.new }
    ensures device { IfErr result IsDeviceFault }
{
    keeper.begin(0)?;
    match keep(keeper, header) {
        Ok(()) => Ok(()),
        Err(fault) => {
            keeper.stop();
            Err(fault)
        }
    }
}

/// A new node after its turns on these events, in their order. The output of the turns is dropped.
pub fn replayed<S: Sealer, C: Checker>(
    alloc: Global,
    setting: Setting,
    views: u32,
    sealer: S,
    checker: &C,
    events: &[Event],
) -> Result<Node<S>, NoMemory>
    requires replica { S.replica sealer < setting.n }
    requires room { 5 * views ≤ S.capacity sealer }
    requires fresh { S.made sealer ≡ 0 }
    ensures state { IfOk result (λ node. node.state
        ≡ state_after (C.meaning checker.now) (S.gives sealer) (opening_state setting views (S.replica sealer) (S.capacity sealer)) events.now) }
    ensures gives { IfOk result (λ node. S.gives node.sealer ≡ S.gives sealer) }
    ensures replica { IfOk result (λ node. S.replica node.sealer ≡ S.replica sealer) }
    ensures running { IfOk result (λ node. node.halted ≡ false) }
{
    let mut node = Node::new(alloc, setting, views, sealer)?;
    for event in events {
        match node.turn(checker, event) {
            Ok(_) => {}
            Err(_) => return Err(NoMemory),
        }
    }
    Ok(node)
}

/// All bytes of a keeper.
fn read_all<K: Keeper>(alloc: Global, keeper: &mut K) -> Result<Vec<u8>, KeptFault>
    ensures all { IfOk result (λ log. log.items ≡ K.bytes keeper.old) }
    ensures bytes { K.bytes keeper.new ≡ K.bytes keeper.old }
    ensures durable_size { K.durable_size keeper.new ≡ K.durable_size keeper.old }
    ensures openings { K.openings keeper.new ≡ K.openings keeper.old }
    ensures begun { K.begun keeper.new ≡ K.begun keeper.old }
    ensures later { K.faults keeper.old ≤ K.faults keeper.new }
    ensures cause { result ≡ Err KeptFault.Keep → K.faults keeper.old < K.faults keeper.new }
    ensures device { IfErr result IsDeviceFault }
{
    let mut log = Vec::new(alloc);
    let mut piece = [0u8; PIECE];
    for _ in 0..u64::MAX {
        let count = keeper.read(log.len() as u64, &mut piece)?;
        if count == 0 {
            return Ok(log);
        }
        put(&mut log, &piece[..count])?;
    }
    Err(KeptFault::NoMemory)
}

fn put(log: &mut Vec<u8>, piece: &[u8]) -> Result<(), NoMemory>
    ensures { OnOk result (log.new.items ≡ log.old.items ++ piece.now) }
{
    log.extend_from_slice(piece)?;
    Ok(())
}
