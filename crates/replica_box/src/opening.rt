//! Opens a replica from its secret and the bytes of its log.
ghost use Rattle.std.specs.Prelude.{Err, ◌≡◌, ◌≢◌, ◌≤◌, ◌<◌, ◌*◌, ◌+◌, ◌↔◌, ℕ, List, Some, false, IsTrue, IfOk, OnOk, IfErr, length, slice_get};
ghost use Rattle.hss_seal.specs.Any.{any_capacity, any_gives, any_made, any_publics_fit, any_replica, any_sealer};
ghost use Rattle.node_core.specs.Runs.{opening_state, state_after};
ghost use Rattle.durable_node.specs.Check.{header_digest};
ghost use Rattle.durable_node.specs.Header.{AreNarrow, IsOwn, height_number, records_in};
ghost use Rattle.durable_node.specs.Log.{IsWholePrefix, digest_after};
ghost use Rattle.replica_box.specs.Opening.{CanOpen, HasOpened, IsDigestOf, IsCause, IsLogCause, IsRecordsCause, key_of_secret, own_header};
ghost use Rattle.seal_kit.specs.Seals.{capacity_of};

use crate::OpenFault;
use crate::keyed_checker::KeyedChecker;
use crate::learning::learn_events;
use crate::owner::owner_keys;
use crate::seal_cache::CachingChecker;
use durable_node::{
    HEADER_BYTES, KeptFault, LogFault, Logged, check_owner, header_digest, header_of, read_log,
    records_in, replayed,
};
use hss_seal::AnySealer;
use node_core::{Event, Node};
use seal_kit::Height;
use seq_base::{NoMemory, Setting};
use std::alloc::Global;

/// The role of a replica in a run.
pub struct Role {
    pub setting: Setting,
    /// The last view of the run.
    pub views: u32,
    /// The replica's number.
    pub me: u32,
    /// The height of the keys of all replicas.
    pub height: Height,
}

impl Drop for Role {
    fn drop(self) {
        let Role {
            setting: _,
            views: _,
            me: _,
            height: _,
        } = self;
    }
}

/// A node in the state that the log leads to, with its checker, the header of the log, how many bytes of the log are used, and
/// the running digest after them.
pub(crate) struct Opened {
    pub(crate) node: Node<AnySealer>,
    pub(crate) checker: CachingChecker,
    pub(crate) header: Vec<u8>,
    pub(crate) used: usize,
    pub(crate) digest: [u8; 32],
}

/// The node in the state that the log leads to.
pub(crate) fn open_node(
    alloc: Global,
    role: &Role,
    id: &[u8; 16],
    seed: &[u8; 32],
    publics: &[[u8; 60]],
    log: &[u8],
) -> Result<Opened, OpenFault>
    // The secret is that of the replica, and the state, the running digest and the header are those that the log gives.
    ensures can { OnOk result (CanOpen role.now.setting.n role.now.views role.now.me id.now seed.now role.now.height publics.now) }
    ensures opened { IfOk result
        (λ o. HasOpened (any_publics_fit role.now.height publics.now) (any_gives (any_sealer id.now seed.now role.now.height role.now.me))
        (opening_state role.now.setting role.now.views role.now.me (capacity_of role.now.height)) o.header.items log.now o.used o.node.state) }
    ensures digest { IfOk result (λ o. IsDigestOf o.header.items log.now o.digest) }
    ensures header { IfOk result (λ o. o.header.items ≡ own_header role.now.setting role.now.views role.now.me role.now.height publics.now) }
    ensures narrow { OnOk result (AreNarrow role.now.setting role.now.views role.now.me (height_number role.now.height)) }
    // By which seals it goes on: those that it accepts, and those that it gives.
    ensures fits { IfOk result (λ o. o.checker ≡ record { height = role.now.height; publics = publics.now }) }
    ensures gives { IfOk result (λ o. any_gives o.node.sealer ≡ any_gives (any_sealer id.now seed.now role.now.height role.now.me)) }
    // The used part lies within the log, and the node is not halted.
    ensures within { IfOk result (λ o. o.used ≤ length log.now) }
    ensures running { IfOk result (λ o. o.node.halted ≡ false) }
    // Why it is refused.
    ensures cause { IfErr result (λ fault. IsCause fault role.now.setting role.now.views role.now.me id.now seed.now role.now.height publics.now log.now) }
{
    let sealer = own_sealer(alloc, role, id, seed, publics)?;
    let header = log_header(alloc, role, publics)?;
    let logged = own_records(alloc, log, header.as_slice())?;
    let events = logged.events.as_slice();
    let checker = checker_over(alloc, role.height, publics, events)?;
    let node = replayed(alloc, role.setting, role.views, sealer, &checker, events)?;
    let digest = logged.digest;
    Ok(Opened {
        node,
        checker,
        header,
        used: used_bytes(log, logged.size),
        digest,
    })
}

/// The checker by the public keys, with an empty cache. It has learned the heads of the seals in the events of the log, on
/// which the turns come next.
fn checker_over(
    alloc: Global,
    height: Height,
    publics: &[[u8; 60]],
    events: &[Event],
) -> Result<CachingChecker, NoMemory>
    ensures { IfOk result (λ checker. checker ≡ record { height = height; publics = publics.now }) }
{
    let checker = learned_checker(alloc, height, publics, events)?;
    CachingChecker::new(alloc, checker, publics.len())
}

/// The checker by the public keys, after it has learned from events.
fn learned_checker(
    alloc: Global,
    height: Height,
    publics: &[[u8; 60]],
    events: &[Event],
) -> Result<KeyedChecker, NoMemory>
    ensures { IfOk result (λ checker. checker ≡ record { height = height; publics = publics.now }) }
{
    let mut checker = KeyedChecker::new(alloc, height, publics)?;
    learn_events(&mut checker, events);
    Ok(checker)
}

/// The sealer that grows from the secret, if its public key is the one at the replica's number.
fn own_sealer(
    alloc: Global,
    role: &Role,
    id: &[u8; 16],
    seed: &[u8; 32],
    publics: &[[u8; 60]],
) -> Result<AnySealer, OpenFault>
    ensures sealer { IfOk result (λ sealer. sealer ≡ any_sealer id.now seed.now role.now.height role.now.me) }
    ensures replica { IfOk result (λ sealer. any_replica sealer ≡ role.now.me) }
    ensures fresh { IfOk result (λ sealer. any_made sealer ≡ 0) }
    ensures room { IfOk result (λ sealer. any_capacity sealer ≡ capacity_of role.now.height) }
    ensures can { OnOk result (CanOpen role.now.setting.n role.now.views role.now.me id.now seed.now role.now.height publics.now) }
    ensures cause { IfErr result
        (λ fault. (log : List ℕ) → IsCause fault role.now.setting role.now.views role.now.me id.now seed.now role.now.height publics.now log) }
{
    if role.setting.n() <= role.me {
        return Err(OpenFault::Number);
    }
    if u64::from(role.height.capacity()) < 5 * u64::from(role.views) {
        return Err(OpenFault::Views);
    }
    if publics.len() != role.setting.n() as usize {
        return Err(OpenFault::Count);
    }
    let sealer = AnySealer::from_bytes(alloc, id, seed, role.height, role.me)?;
    refuse_secret(&sealer, role, id, seed, publics)?;
    Ok(sealer)
}

/// Refuses a secret whose public key is not the one at the replica's number.
fn refuse_secret(
    sealer: &AnySealer,
    role: &Role,
    id: &[u8; 16],
    seed: &[u8; 32],
    publics: &[[u8; 60]],
) -> Result<(), OpenFault>
    requires { sealer.now ≡ any_sealer id.now seed.now role.now.height role.now.me }
    ensures own { OnOk result (slice_get publics.now role.now.me ≡ Some (key_of_secret id.now seed.now role.now.height)) }
    ensures cause { IfErr result
        (λ fault. (fault ≡ OpenFault.Secret) × (slice_get publics.now role.now.me ≢ Some (key_of_secret id.now seed.now role.now.height))) }
{
    if is_at(publics, role.me, &public_of(sealer)) {
        Ok(())
    } else {
        Err(OpenFault::Secret)
    }
}

/// The public key of the secret that the sealer grew from.
fn public_of(sealer: &AnySealer) -> [u8; 60]
    ensures { (id seed : List ℕ) (height : Height) (me : ℕ) → sealer.now ≡ any_sealer id seed height me → result ≡ key_of_secret id seed height }
{
    sealer.public()
}

/// Whether a public key is that of a replica.
fn is_at(publics: &[[u8; 60]], replica: u32, key: &[u8; 60]) -> bool
    ensures { IsTrue result ↔ (slice_get publics.now replica ≡ Some key.now) }
{
    match publics.get(replica as usize) {
        Some(public) => is_same(public, key),
        None => false,
    }
}

fn is_same(one: &[u8; 60], other: &[u8; 60]) -> bool
    ensures { IsTrue result ↔ (one.now ≡ other.now) }
{
    one.as_slice() == other.as_slice()
}

/// The header of the replica's log.
fn log_header(alloc: Global, role: &Role, publics: &[[u8; 60]]) -> Result<Vec<u8>, NoMemory>
    ensures header { IfOk result (λ header. header.items ≡ own_header role.now.setting role.now.views role.now.me role.now.height publics.now) }
    ensures narrow { OnOk result (AreNarrow role.now.setting role.now.views role.now.me (height_number role.now.height)) }
{
    let keys = owner_keys(role.height, publics);
    header_of(alloc, role.setting, role.views, role.me, role.height, &keys)
}

/// The events of a log that has this header, or is new, and how many bytes their records have.
fn own_records(alloc: Global, log: &[u8], header: &[u8]) -> Result<Logged, OpenFault>
    requires { length header.now ≡ 76 }
    ensures own { OnOk result (IsOwn header.now log.now) }
    ensures prefix { IfOk result (λ l. IsWholePrefix (header_digest header.now) (records_in log.now) l.events.items l.size) }
    ensures digest { IfOk result (λ l. l.digest ≡ digest_after (header_digest header.now) l.events.items) }
    ensures within { IfOk result (λ l. l.size ≤ length (records_in log.now)) }
    ensures cause { IfErr result (λ fault. IsLogCause fault header.now log.now) }
{
    refuse_others(log, header)?;
    whole_records(alloc, &header_digest(header), records_in(log))
}

/// Refuses a log that is not the replica's own.
fn refuse_others(log: &[u8], header: &[u8]) -> Result<(), OpenFault>
    requires { length header.now ≡ 76 }
    ensures own { OnOk result (IsOwn header.now log.now) }
    ensures cause { IfErr result (λ fault. IsLogCause fault header.now log.now) }
    ensures known { result ≢ Err OpenFault.NoMemory }
{
    match check_owner(log, header) {
        Ok(()) => Ok(()),
        Err(KeptFault::OtherLog) => Err(OpenFault::OtherLog),
        // There is no other fault.
        Err(_) => Err(OpenFault::NoHeader),
    }
}

/// The events of the whole records, and how many bytes these have. A corrupt record is reported by its place in the log.
fn whole_records(alloc: Global, start: &[u8; 32], records: &[u8]) -> Result<Logged, OpenFault>
    ensures prefix { IfOk result (λ l. IsWholePrefix start.now records.now l.events.items l.size) }
    ensures digest { IfOk result (λ l. l.digest ≡ digest_after start.now l.events.items) }
    ensures within { IfOk result (λ l. l.size ≤ length records.now) }
    ensures cause { IfErr result (λ fault. IsRecordsCause fault start.now records.now) }
{
    match read_log(alloc, start, records) {
        Ok(logged) => Ok(logged),
        Err(LogFault::Bad { at }) => Err(OpenFault::Corrupt {
            at: HEADER_BYTES + at,
        }),
        Err(LogFault::NoMemory) => Err(OpenFault::NoMemory),
    }
}

/// The length of the used part of a log whose whole records have this size; 0 where the log is shorter than a header.
fn used_bytes(log: &[u8], size: usize) -> usize
    requires { size ≤ length (records_in log.now) }
    ensures torn { length log.now < 76 → result ≡ 0 }
    ensures whole { 76 ≤ length log.now → result ≡ 76 + size }
    ensures within { result ≤ length log.now }
{
    if log.len() < HEADER_BYTES {
        0
    } else {
        HEADER_BYTES + size
    }
}
