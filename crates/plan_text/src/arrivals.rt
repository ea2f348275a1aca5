//! What the replicas receive in addition to the clients' transactions.
ghost use Rattle.std.specs.Prelude.{◌≡◌, ◌^◌, ◌-◌, ◌<◌, ◌≤◌, ◌++◌, ◌∷◌, [], ℕ, List, IfOk, OnOk, All, codes, length, map, min, nat_lt, sum_by, true};
ghost use Rattle.std.specs.BTreeSet.{Updates};
ghost use Rattle.toml.specs.View.{view};
ghost use Rattle.plan_text.specs.declared.plan.Arrival.{Arrival};
ghost use Rattle.plan_text.specs.Arrivals.{arrival_in, arrivals_at, fresh_or_met, overflows, receipt_cmp, received, tx_after, total_received, HasReceived, HasReceivedMore, IsArrival};
ghost use Rattle.plan_text.specs.Fields.{refused};
ghost use Rattle.plan_text.specs.Reads.{ReadsTo, ReadsAs, read_each};
ghost use Rattle.plan_text.specs.Sections.{section_of};
ghost use Rattle.plan_text.specs.Values.{tx_in};

use crate::clients::is_client;
use crate::fields::Fields;
use crate::head::MAX_TURNS;
use crate::values::tx_of;
use crate::{Arrival, Client, FaultKind, PlanError};
use seq_base::{NoMemory, Setting, Tx, TxList};
use std::alloc::Global;
use std::collections::BTreeSet;
use toml::Value;

/// The maximum number of transactions of a replica, including those of the clients.
const MAX_RECEIVED: u64 = 65_536;

/// Which replica has received which transaction so far.
type Receipts = BTreeSet<(u32, Tx)>;

/// Each transaction reaches a replica once, and none is a client's.
#[tactic(auto, unfolding(crate::specs::Arrivals::arrivals_at))]
pub(crate) fn read_arrivals(
    alloc: Global,
    document: &Fields<'_>,
    setting: &Setting,
    clients: &[Client],
) -> Result<Vec<Arrival>, PlanError>
    ensures exact { ReadsAs (λ arrivals. arrivals.items) result (arrivals_at setting.now clients.now (section_of document.now)) }
    ensures rules { IfOk result (λ arrivals. All (IsArrival setting.now.n) arrivals.items) }
{
    let values = document.array_if_any(alloc, "arrival")?;
    let mut arrivals = Vec::new(alloc);
    let mut met = BTreeSet::new(alloc);
    for value in values {
        let arrival = read_arrival(alloc, value, setting, clients, &arrivals, &mut met)?;
        arrivals.push(arrival)?;
    }
    Ok(arrivals)
}

/// The next arrival after the earlier ones.
#[tactic(auto, unfolding(crate::specs::Arrivals::arrival_in))]
fn read_arrival(
    alloc: Global,
    value: &Value,
    setting: &Setting,
    clients: &[Client],
    earlier: &[Arrival],
    met: &mut Receipts,
) -> Result<Arrival, PlanError>
    requires { HasReceived met.old earlier.now }
    ensures exact { ReadsTo result (arrival_in setting.now.n clients.now earlier.now (view value.now)) }
    ensures met { IfOk result (λ arrival. HasReceived met.new (earlier.now ++ arrival ∷ [])) }
    ensures rules { IfOk result (IsArrival setting.now.n) }
{
    let fields = Fields::of_element(alloc, value, "arrival", earlier.len())?;
    fields.known(alloc, &["replica", "turn", "txs"])?;
    let replica = fields.number(alloc, "replica", 0, setting.n() - 1)?;
    let turn = fields.number(alloc, "turn", 0, MAX_TURNS)?;
    let values = fields.array(alloc, "txs")?;
    let txs = read_txs(alloc, &fields, values, clients, replica, met)?;
    Ok(Arrival {
        replica,
        turn,
        txs: TxList::of(txs),
    })
}

/// The transactions of one arrival. The set has the receipts of the arrivals before it.
fn read_txs(
    alloc: Global,
    fields: &Fields<'_>,
    values: &[Value],
    clients: &[Client],
    replica: u32,
    met: &mut Receipts,
) -> Result<Vec<Tx>, PlanError>
    ensures exact { (earlier : List Arrival) → HasReceived met.old earlier
        → ReadsAs (λ txs. txs.items) result (read_each (tx_after clients.now (received replica earlier) (section_of fields.now)) [] (map view values.now)) }
    ensures met { (earlier : List Arrival) → HasReceived met.old earlier
        → IfOk result (λ txs. HasReceivedMore met.new earlier replica txs.items) }
{
    let mut txs = Vec::with_capacity(alloc, values.len())?;
    for value in values {
        match read_tx(value, clients, replica, met)? {
            Ok(tx) => txs.push(tx)?,
            Err(kind) => return Err(fields.element_fault(alloc, kind, "txs", txs.len())),
        }
    }
    Ok(txs)
}

/// A transaction that the replica has not received and that is no client's, or its fault.
fn read_tx(
    value: &Value,
    clients: &[Client],
    replica: u32,
    met: &mut Receipts,
) -> Result<Result<Tx, FaultKind>, NoMemory>
    ensures exact { IfOk result (λ read. read ≡ fresh_or_met clients.now met.old replica (tx_in (view value.now))) }
    ensures met { IfOk result (λ read. IfOk read (λ tx. Updates receipt_cmp met.old met.new (replica, tx) true)) }
{
    let tx = match tx_of(value) {
        Ok(tx) => tx,
        Err(kind) => return Ok(Err(kind)),
    };
    if is_client(clients, tx.client) {
        return Ok(Err(FaultKind::Double));
    }
    if !met.insert((replica, tx))? {
        return Ok(Err(FaultKind::Double));
    }
    Ok(Ok(tx))
}

/// Refuses arrivals by which some replica would receive more than a log holds.
pub(crate) fn check_received(
    alloc: Global,
    document: &Fields<'_>,
    setting: &Setting,
    clients: &[Client],
    arrivals: &[Arrival],
) -> Result<(), PlanError>
    ensures exact { ReadsTo result (refused (overflows setting.now clients.now arrivals.now) FaultKind.Range (codes "arrival") (section_of document.now)) }
    ensures few { OnOk result ((r : ℕ) → r < setting.now.n → total_received clients.now arrivals.now r ≤ 65536) }
{
    if some_overflows(setting, clients, arrivals) {
        return Err(document.fault(alloc, FaultKind::Range, "arrival"));
    }
    Ok(())
}

/// Whether some replica would receive more than a log holds.
fn some_overflows(setting: &Setting, clients: &[Client], arrivals: &[Arrival]) -> bool
    ensures { result ≡ overflows setting.now clients.now arrivals.now }
{
    (0..setting.n()).any(|replica| receives_too_much(clients, arrivals, replica))
}

fn receives_too_much(clients: &[Client], arrivals: &[Arrival], replica: u32) -> bool
    ensures { result ≡ nat_lt 65536 (total_received clients.now arrivals.now replica) }
{
    sent_by(clients).saturating_add(count_of(arrivals, replica)) > MAX_RECEIVED
}

/// The number of transactions that the clients send.
fn sent_by(clients: &[Client]) -> u64
    ensures { result ≡ min (sum_by (λ client. client.count) clients.now) (2 ^ 64 - 1) }
{
    let mut count: u64 = 0;
    for client in clients {
        count = count.saturating_add(u64::from(client.count));
    }
    count
}

/// The number of transactions that a replica receives by the arrivals.
fn count_of(arrivals: &[Arrival], replica: u32) -> u64
    ensures { result ≡ min (length (received replica arrivals.now)) (2 ^ 64 - 1) }
{
    let mut count: u64 = 0;
    for arrival in arrivals {
        if arrival.replica == replica {
            count = count.saturating_add(arrival.txs.as_slice().len() as u64);
        }
    }
    count
}
