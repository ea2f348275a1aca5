//! What the record of a run shows of its replicas.

ghost use Rattle.std.specs.Prelude.{◌≡◌, map, IfOk, All};
ghost use Rattle.run_record.specs.Done.{due_of};
ghost use Rattle.replica_seat.specs.Seats.{AreReadable, meaning, replica_of};
ghost use Rattle.replica_seat.specs.Showing.{batches_of, head_of, journal_of};

use crate::seat::Seat;
use node_core::Entries;
use plan_text::Plan;
use run_record::{BatchLists, Head, Heads, Journal, Journals, due};
use seal_kit::Sealer;
use seq_base::{NoMemory, TxList, TxLists};
use std::alloc::Global;

/// What arrives at each replica.
pub fn arrivals_of<S: Sealer>(alloc: Global, seats: &[Seat<S>]) -> Result<TxLists, NoMemory>
    ensures { IfOk result (λ lists. lists ≡ map (λ seat. seat.feed.txs) seats.now) }
{
    let mut lists = Vec::new(alloc);
    for seat in seats {
        lists.push(seat.feed.txs(alloc)?)?;
    }
    Ok(TxLists::of(lists))
}

/// The due transactions, over the whole arrival lists.
pub fn due_among<S: Sealer>(
    alloc: Global,
    plan: &Plan,
    seats: &[Seat<S>],
) -> Result<TxList, NoMemory>
    ensures { IfOk result (λ due. due ≡ due_of plan.now.setting.n plan.now.faulty (map (λ seat. seat.feed.txs) seats.now)) }
{
    let arrivals = arrivals_of(alloc, seats)?;
    due(alloc, &plan.setting, &plan.faulty, arrivals.as_slice())
}

/// The head of each replica: where it stands.
pub fn heads_of<S: Sealer>(alloc: Global, seats: &[Seat<S>]) -> Result<Heads, NoMemory>
    ensures { IfOk result (λ heads. heads ≡ map (λ seat. head_of (replica_of (meaning S.replica S.gives) seat)) seats.now) }
{
    let mut heads = Vec::new(alloc);
    for seat in seats {
        heads.push(Head {
            view: seat.node.view(),
            commit: seat.node.commit_view(),
        })?;
    }
    Ok(Heads::of(heads))
}

/// The batches that are final for each replica.
pub fn batches_of<S: Sealer>(alloc: Global, seats: &[Seat<S>]) -> Result<BatchLists, NoMemory>
    ensures { IfOk result (λ batches. batches ≡ map (λ seat. batches_of (replica_of (meaning S.replica S.gives) seat)) seats.now) }
{
    let mut batches = Vec::new(alloc);
    for seat in seats {
        batches.push(seat.node.finals()?)?;
    }
    Ok(BatchLists::of(batches))
}

/// The journal of each replica: every event with the output of its turn.
pub fn journals_of<S: Sealer>(alloc: Global, seats: Vec<Seat<S>>) -> Result<Journals, NoMemory>
    ensures shown { IfOk result (λ journals. journals ≡ map (λ seat. journal_of (replica_of (meaning S.replica S.gives) seat)) seats.items) }
    ensures readable { IfOk result (λ journals. All (λ journal. AreReadable journal.entries) journals) }
{
    let mut journals = Vec::new(alloc);
    for seat in seats {
        let Seat { journal, .. } = seat;
        journals.push(Journal {
            entries: Entries::of(journal),
        })?;
    }
    Ok(Journals::of(journals))
}
