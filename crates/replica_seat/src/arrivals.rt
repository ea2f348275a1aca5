//! What arrives at a replica, and after how many turns.

ghost use Rattle.std.specs.Prelude.{◌≡◌, ◌≤◌, ◌++◌, IfOk, OnOk, length, slice_get};
ghost use Rattle.std.specs.List.{flat_map, range_with_len};
ghost use Rattle.std.specs.Option.{option_to_list};
ghost use Rattle.replica_seat.specs.Feed.{after_giving, arrivals_at, arrivals_for, arrived, at_turn, clients_for, count_by_now, feed_of, feed_without_clients, place_among, round_of, rounds_of, timed, txs_of};
ghost use Rattle.replica_seat.specs.Places.{at_places, with_place};

use plan_text::{Arrival, Client, Plan};
use seq_base::{NoMemory, Tx, TxList};
use std::alloc::Global;
use std::collections::BTreeSet;
use std::marker::Model;

/// A transaction, and the count of turns after which it arrives.
#[derive(Clone, Copy)]
pub struct TimedTx {
    pub turn: u32,
    pub tx: Tx,
}

/// The whole arrival list of one replica, in its order, and how much of it was given to the node.
pub struct Feed {
    list: Vec<TimedTx>,
    given: usize,
}

impl Drop for Feed {
    fn drop(self) {
        let Feed { list: _, given: _ } = self;
    }
}

impl Model for Feed {
    ghost use Rattle.std.specs.Prelude.{◌≤◌, drop, length};
    ghost use Rattle.replica_seat.specs.Feed.{Fed, txs_of};

    ghost Value = { Fed };

    ghost view = { λ feed. record { txs = txs_of feed.list.items; left = drop feed.given feed.list.items } };

    ghost invariant = { λ feed. feed.given ≤ length feed.list.items };
}

impl Feed {
    /// First the transactions of clients, in rounds. The round of each replica starts with another client. Then the
    /// replica's own arrivals, in ascending order of turns; those of the same turn keep the plan's order.
    #[tactic(auto, unfolding(crate::specs::Feed::feed_of))]
    pub fn of(alloc: Global, plan: &Plan, replica: u32) -> Result<Feed, NoMemory>
        ensures { IfOk result (λ feed. feed ≡ feed_of plan.now replica) }
    {
        let mut list = Vec::new(alloc);
        add_clients(&mut list, plan.clients.as_slice(), replica)?;
        add_arrivals(alloc, &mut list, plan.arrivals.as_slice(), replica)?;
        Ok(Feed { list, given: 0 })
    }

    /// The replica's arrivals without what clients submit.
    pub fn of_arrivals(alloc: Global, arrivals: &[Arrival], replica: u32) -> Result<Feed, NoMemory>
        ensures { IfOk result (λ feed. feed ≡ feed_without_clients arrivals.now replica) }
    {
        let mut list = Vec::new(alloc);
        add_arrivals(alloc, &mut list, arrivals, replica)?;
        Ok(Feed { list, given: 0 })
    }

    /// All transactions, whether given or not.
    pub fn txs(&self, alloc: Global) -> Result<TxList, NoMemory>
        ensures { IfOk result (λ txs. txs ≡ self.now.txs) }
    {
        txs_of(alloc, self.list.as_slice())
    }

    /// Gives what arrived by a count of turns and was not given yet.
    pub fn take_until(&mut self, alloc: Global, turns: u32) -> Result<TxList, NoMemory>
        ensures arrived { IfOk result (λ txs. txs ≡ arrived turns self.old) }
        ensures left { OnOk result (self.new ≡ after_giving turns self.old) }
    {
        let left = &self.list[self.given..];
        let count = count_by_now(left, turns);
        let txs = txs_of(alloc, &left[..count])?;
        self.given += count;
        Ok(txs)
    }
}

/// How many of these arrive by a count of turns.
fn count_by_now(left: &[TimedTx], turns: u32) -> usize
    ensures counted { result ≡ count_by_now turns left.now }
    ensures within { result ≤ length left.now }
{
    for (count, timed) in left.iter().enumerate() {
        if timed.turn > turns {
            return count;
        }
    }
    left.len()
}

fn txs_of(alloc: Global, list: &[TimedTx]) -> Result<TxList, NoMemory>
    ensures { IfOk result (λ txs. txs ≡ txs_of list.now) }
{
    let mut txs = Vec::with_capacity(alloc, list.len())?;
    for timed in list {
        txs.push(timed.tx)?;
    }
    Ok(TxList::of(txs))
}

#[tactic(auto, unfolding(crate::specs::Feed::clients_for))]
fn add_clients(list: &mut Vec<TimedTx>, clients: &[Client], first: u32) -> Result<(), NoMemory>
    ensures { OnOk result (list.new.items ≡ list.old.items ++ at_turn 0 (clients_for clients.now first)) }
{
    let (before, from) = clients.split_at(place_of(first, clients.len()));
    add_rounds(list, from, before, rounds_of(clients))
}

/// The maximum number of transactions of a client.
fn rounds_of(clients: &[Client]) -> u32
    ensures { result ≡ rounds_of clients.now }
{
    let mut most = 0;
    for client in clients {
        most = client.count.max(most);
    }
    most
}

/// Which of `count` clients comes first at a replica.
fn place_of(replica: u32, count: usize) -> usize
    ensures place { result ≡ place_among replica count }
    ensures within { result ≤ count }
{
    if count == 0 {
        0
    } else {
        replica as usize % count
    }
}

/// `rounds` rounds, each over these clients and then over those.
#[tactic(auto, using(crate::proofs::Rounds::rounds_more))]
fn add_rounds(
    list: &mut Vec<TimedTx>,
    from: &[Client],
    before: &[Client],
    rounds: u32,
) -> Result<(), NoMemory>
    ensures { OnOk result (list.new.items ≡ list.old.items ++ at_turn 0 (flat_map (round_of (from.now ++ before.now)) (range_with_len 1 rounds))) }
{
    for round in 0..rounds {
        add_round(list, from, round + 1)?;
        add_round(list, before, round + 1)?;
    }
    Ok(())
}

/// One transaction of each of these clients that has one for this round.
fn add_round(list: &mut Vec<TimedTx>, clients: &[Client], round: u32) -> Result<(), NoMemory>
    ensures { OnOk result (list.new.items ≡ list.old.items ++ at_turn 0 (round_of clients.now round)) }
{
    for client in clients {
        if round <= client.count {
            let tx = Tx {
                client: client.id,
                number: round,
                payload: 0,
            };
            list.push(TimedTx { turn: 0, tx })?;
        }
    }
    Ok(())
}

#[tactic(auto, unfolding(crate::specs::Feed::arrivals_for))]
fn add_arrivals(
    alloc: Global,
    list: &mut Vec<TimedTx>,
    arrivals: &[Arrival],
    replica: u32,
) -> Result<(), NoMemory>
    ensures { OnOk result (list.new.items ≡ list.old.items ++ arrivals_for arrivals.now replica) }
{
    let mut places = places_of(alloc, arrivals, replica)?;
    while let Some((_, place)) = places.pop_first() {
        add_arrival(list, arrivals, place)?;
    }
    Ok(())
}

/// The arrival at a place, if there is one.
#[tactic(auto, using(crate::proofs::PlacedArrivals::timed_read, crate::proofs::PlacedArrivals::timed_past))]
fn add_arrival(list: &mut Vec<TimedTx>, arrivals: &[Arrival], place: usize) -> Result<(), NoMemory>
    ensures { OnOk result (list.new.items ≡ list.old.items ++ timed (option_to_list (slice_get arrivals.now place))) }
{
    if place >= arrivals.len() {
        return Ok(());
    }
    let arrival = &arrivals[place];
    add_timed(list, arrival.turn, arrival.txs.as_slice())
}

/// These transactions, arriving at a turn.
fn add_timed(list: &mut Vec<TimedTx>, turn: u32, txs: &[Tx]) -> Result<(), NoMemory>
    ensures { OnOk result (list.new.items ≡ list.old.items ++ at_turn turn txs.now) }
{
    for tx in txs {
        list.push(TimedTx { turn, tx: *tx })?;
    }
    Ok(())
}

/// The places of a replica's arrivals, in ascending order of turns, then of places in the plan.
fn places_of(
    alloc: Global,
    arrivals: &[Arrival],
    replica: u32,
) -> Result<BTreeSet<(u32, usize)>, NoMemory>
    ensures { IfOk result (λ places. at_places arrivals.now places.keys ≡ arrivals_at arrivals.now replica) }
{
    let mut places = BTreeSet::new(alloc);
    for (place, arrival) in arrivals.iter().enumerate() {
        put_place(&mut places, arrival, replica, place)?;
    }
    Ok(places)
}

/// The place of an arrival, if it is the replica's.
fn put_place(
    places: &mut BTreeSet<(u32, usize)>,
    arrival: &Arrival,
    replica: u32,
    place: usize,
) -> Result<(), NoMemory>
    ensures { OnOk result (places.new.keys ≡ with_place places.old.keys arrival.now replica place) }
{
    if arrival.replica == replica {
        places.insert((arrival.turn, place))?;
    }
    Ok(())
}
