//! Reads a log back.
ghost use Rattle.std.specs.Prelude.{◌≡◌, ◌≤◌, ◌<◌, ◌*◌, ◌↔◌, ◌++◌, ◌∷◌, [], ℕ, None, Err, IfOk, IfSome, IfNone, OnOk, IsTrue, length, drop, take};
ghost use Rattle.std.specs.Int.{w32, from_be_bytes};
ghost use Rattle.wire_view.specs.Reading.{txs_in};
ghost use Rattle.durable_node.specs.Check.{check_of, next_digest};
ghost use Rattle.durable_node.specs.Log.{HasSize, IsBadAt, IsBodyOf, IsCut, IsWholePrefix, IsNext, NoneBad, arrived_in, body_at, body_of, delivered_in, digest_after, event_in, size_at, tick_in};

use crate::check::{CHECK_BYTES, first_bytes, next_digest, size_check};
use crate::corrupt::first_corrupt;
use node_core::Event;
use seq_base::{Bytes, NoMemory, Packet, Tx, TxList};
use std::alloc::Global;
use wire_view::read_tx;

/// How many bytes of a record precede its body: the length of the body, and the check of that.
const HEAD_BYTES: usize = 4 + CHECK_BYTES;

/// How many bytes a transaction has.
pub(crate) const TX_BYTES: usize = 16;

/// The events of a log, the length of their records in bytes, and the running digest after them.
pub struct Logged {
    pub events: Vec<Event>,
    pub size: usize,
    pub digest: [u8; 32],
}

impl Drop for Logged {
    fn drop(self) {
        let Logged {
            events: _,
            size: _,
            digest: _,
        } = self;
    }
}

/// Why a log could not be read.
#[derive(Clone, Copy, Debug, PartialEq, Eq)]
pub enum LogFault {
    /// At this place is a corrupt record: it is not torn, and it is no event's after the records before it.
    Bad { at: usize },
    NoMemory,
}

impl From<NoMemory> for LogFault {
    ghost use Rattle.std.specs.Prelude.{◌≡◌};
    ghost use Rattle.durable_node.specs.declared.reading.LogFault.TheVariants as fault;

    ghost from_gives = { λ _ e. e ≡ fault.NoMemory };

    fn from(_: NoMemory) -> Self {
        LogFault::NoMemory
    }
}

/// The longest prefix of whole records, after this running digest. Memory runs out only where no record is corrupt: the
/// first corrupt one is reported also where the records before it find no memory.
pub fn read_log(alloc: Global, start: &[u8; 32], log: &[u8]) -> Result<Logged, LogFault>
    ensures prefix { IfOk result (λ l. IsWholePrefix start.now log.now l.events.items l.size) }
    ensures digest { IfOk result (λ l. l.digest ≡ digest_after start.now l.events.items) }
    ensures bad { (at : ℕ) → result ≡ Err (LogFault.Bad at) → IsBadAt start.now log.now at }
    ensures good { result ≡ Err LogFault.NoMemory → NoneBad start.now log.now }
    ensures within { IfOk result (λ l. l.size ≤ length log.now) }
{
    match read_records(alloc, start, log) {
        Ok(logged) => Ok(logged),
        Err(LogFault::Bad { at }) => Err(LogFault::Bad { at }),
        Err(LogFault::NoMemory) => Err(why_unread(start, log)),
    }
}

/// Why a log is not read where memory runs out.
fn why_unread(start: &[u8; 32], log: &[u8]) -> LogFault
    ensures bad { (at : ℕ) → result ≡ LogFault.Bad at → IsBadAt start.now log.now at }
    ensures good { result ≡ LogFault.NoMemory → NoneBad start.now log.now }
{
    match first_corrupt(start, log) {
        Some(at) => LogFault::Bad { at },
        None => LogFault::NoMemory,
    }
}

#[tactic(auto, using(crate::proofs::Logs::none_read, crate::proofs::Logs::one_read, crate::proofs::Logs::all_read, crate::proofs::Logs::bad_read))]
fn read_records(alloc: Global, start: &[u8; 32], log: &[u8]) -> Result<Logged, LogFault>
    ensures prefix { IfOk result (λ l. IsWholePrefix start.now log.now l.events.items l.size) }
    ensures digest { IfOk result (λ l. l.digest ≡ digest_after start.now l.events.items) }
    ensures bad { (at : ℕ) → result ≡ Err (LogFault.Bad at) → IsBadAt start.now log.now at }
    ensures within { IfOk result (λ l. l.size ≤ length log.now) }
{
    let mut events = Vec::new(alloc);
    let mut digest = *start;
    let mut rest = log;
    while !is_cut(&digest, rest) {
        let Some(event) = next_event(alloc, &mut digest, rest)? else {
            return Err(LogFault::Bad {
                at: log.len() - rest.len(),
            });
        };
        push_event(&mut events, event)?;
        let (_, more) = rest.split_at(record_size(rest));
        rest = more;
    }
    Ok(Logged {
        events,
        size: log.len() - rest.len(),
        digest,
    })
}

/// The event of the first record. The running digest moves on over it.
fn next_event(alloc: Global, digest: &mut [u8; 32], rest: &[u8]) -> Result<Option<Event>, NoMemory>
    requires { IsCut digest.old rest.now → ⊥ }
    ensures next { IfOk result (λ event. IsNext digest.old rest.now event) }
    ensures moved { IfOk result (λ event. IfSome event (λ e. digest.new ≡ next_digest digest.old (body_of e))) }
{
    match next_body(digest, rest) {
        Some(body) => read_body(alloc, body),
        None => Ok(None),
    }
}

/// The body of the first record, if both its checks match. The running digest moves on over it.
pub(crate) fn next_body<'a>(digest: &mut [u8; 32], rest: &'a [u8]) -> Option<&'a [u8]>
    requires { IsCut digest.old rest.now → ⊥ }
    ensures checked { IfSome result (λ body. IsBodyOf digest.old rest.now body.now digest.new) }
    ensures unchecked { IfNone result (IsNext digest.old rest.now None) }
{
    if !has_size(digest, rest) {
        return None;
    }
    let (_, more) = rest.split_at(HEAD_BYTES);
    let (body, after) = more.split_at(read_u32(rest) as usize);
    let following = next_digest(digest, body);
    if !has_check(after, &following) {
        return None;
    }
    *digest = following;
    Some(body)
}

fn push_event(events: &mut Vec<Event>, event: Event) -> Result<(), NoMemory>
    ensures { OnOk result (events.new.items ≡ events.old.items ++ event ∷ []) }
{
    events.push(event)?;
    Ok(())
}

/// Whether the bytes end within a record.
pub(crate) fn is_cut(digest: &[u8; 32], rest: &[u8]) -> bool
    ensures { IsTrue result ↔ IsCut digest.now rest.now }
{
    rest.len() < HEAD_BYTES || rest.len() < record_size(rest) && has_size(digest, rest)
}

/// The length of the first record in bytes.
pub(crate) fn record_size(rest: &[u8]) -> usize
    requires { 4 ≤ length rest.now }
    ensures { result ≡ size_at rest.now }
{
    HEAD_BYTES + read_u32(rest) as usize + CHECK_BYTES
}

/// Whether the check of a record's length matches.
fn has_size(digest: &[u8; 32], rest: &[u8]) -> bool
    requires { 12 ≤ length rest.now }
    ensures { IsTrue result ↔ HasSize digest.now rest.now }
{
    let (size, after) = rest.split_at(4);
    let (check, _) = after.split_at(CHECK_BYTES);
    check == size_check(digest, size).as_slice()
}

/// Whether bytes start with the first bytes of a digest.
fn has_check(bytes: &[u8], digest: &[u8; 32]) -> bool
    requires { 8 ≤ length bytes.now }
    ensures { IsTrue result ↔ (take 8 bytes.now ≡ take 8 digest.now) }
{
    let (check, _) = bytes.split_at(CHECK_BYTES);
    check == first_bytes(digest).as_slice()
}

#[tactic(auto, unfolding(crate::specs::Log::event_in))]
fn read_body(alloc: Global, body: &[u8]) -> Result<Option<Event>, NoMemory>
    ensures { IfOk result (λ event. event ≡ event_in body.now) }
{
    match body {
        [1, rest @ ..] => read_arrived(alloc, rest),
        [2, rest @ ..] => read_delivered(alloc, rest),
        [3, rest @ ..] => Ok(read_tick(rest)),
        _ => Ok(None),
    }
}

fn read_arrived(alloc: Global, rest: &[u8]) -> Result<Option<Event>, NoMemory>
    ensures { IfOk result (λ event. event ≡ arrived_in rest.now) }
{
    if rest.len() < 4 {
        return Ok(None);
    }
    let count = read_u32(rest) as usize;
    let (_, bytes) = rest.split_at(4);
    if bytes.len() != TX_BYTES * count {
        return Ok(None);
    }
    let txs = read_txs(alloc, count, bytes)?;
    Ok(Some(Event::Arrived(TxList::of(txs))))
}

fn read_delivered(alloc: Global, rest: &[u8]) -> Result<Option<Event>, NoMemory>
    ensures { IfOk result (λ event. event ≡ delivered_in rest.now) }
{
    match rest {
        [] => Ok(None),
        [from, bytes @ ..] => Ok(Some(Event::Deliver {
            from: u32::from(*from),
            bytes: Packet::of(Bytes::of(bytes.to_vec(alloc)?))?,
        })),
    }
}

fn read_tick(rest: &[u8]) -> Option<Event>
    ensures { result ≡ tick_in rest.now }
{
    if rest.len() != 4 {
        return None;
    }
    Some(Event::Tick {
        floor: read_u32(rest),
    })
}

/// `count` transactions, one after another.
fn read_txs(alloc: Global, count: usize, bytes: &[u8]) -> Result<Vec<Tx>, NoMemory>
    requires { length bytes.now ≡ 16 * count }
    ensures { IfOk result (λ txs. txs.items ≡ txs_in count bytes.now) }
{
    let mut txs = Vec::new(alloc);
    let mut left = count;
    let mut rest = bytes;
    while left > 0 {
        let (_, more) = rest.split_at(TX_BYTES);
        txs.push(read_tx(rest))?;
        left -= 1;
        rest = more;
    }
    Ok(txs)
}

pub(crate) fn read_u32(bytes: &[u8]) -> u32
    requires { 4 ≤ length bytes.now }
    ensures { result ≡ from_be_bytes w32 (take 4 bytes.now) }
{
    let prefix = &bytes[..4];
    u32::from_be_bytes([prefix[0], prefix[1], prefix[2], prefix[3]])
}
