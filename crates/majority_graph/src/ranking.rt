ghost use Rattle.std.specs.Prelude.{◌≡◌, ◌<◌, ◌≤◌, IfOk, length, map, take};
ghost use Rattle.majority_graph.specs.Graph.{IsGraph, edge_at, graph_of, kept_of, wanted_of};

use crate::ranks::{Ranked, rank_all};
use crate::weighing::{edge_of, rows_of};
use crate::{Edge, Proposal};
use seq_base::{NoMemory, Setting, Tx, TxList};
use std::alloc::Global;
use std::marker::Model;

/// Transactions looked up once in each list. Contracts see the graph that the lists give to them. A pair of it is
/// weighed when it is asked for.
pub struct Ranking {
    threshold: u32,
    /// The number of lists.
    lists: usize,
    ranked: Vec<Ranked>,
}

impl Drop for Ranking {
    fn drop(self) {
        let Ranking {
            threshold: _,
            lists: _,
            ranked: _,
        } = self;
    }
}

impl Model for Ranking {
    ghost use Rattle.std.specs.Prelude.{◌≡◌, ◌≤◌, All, length, map};
    ghost use Rattle.majority_graph.specs.Graph.{Graph};
    ghost use Rattle.majority_graph.specs.Ranks.{ranked_edge};

    ghost Value = { Graph };

    ghost view = { λ r. record {
      vertices = map (λ x. x.tx) r.ranked.items;
      edges = map (λ from. map (ranked_edge r.threshold from) r.ranked.items) r.ranked.items;
    } };

    ghost invariant = { λ r. (length r.ranked.items ≤ 2048) × All (λ one. length one.places.items ≡ r.lists) r.ranked.items };
}

impl Ranking {
    /// Looks up each transaction in each list. Lists of 2^32 transactions or more give `NoMemory`.
    pub fn of(
        alloc: Global,
        setting: &Setting,
        txs: &[Tx],
        lists: &[TxList],
    ) -> Result<Ranking, NoMemory>
        requires { length txs.now ≤ 2048 }
        ensures { IfOk result (λ ranking. ranking ≡ graph_of setting.now lists.now txs.now) }
    {
        let ranked = rank_all(alloc, txs, lists)?;
        Ok(Ranking {
            threshold: setting.threshold(),
            lists: lists.len(),
            ranked,
        })
    }

    /// The number of transactions.
    pub fn len(&self) -> u32
        ensures value { result ≡ length self.now.vertices }
        ensures few { result ≤ 2048 }
    {
        self.ranked.len() as u32
    }

    /// Keeps the wanted transactions alone, as they were looked up. Takes no memory.
    pub fn keep(&mut self, wanted: &[bool])
        requires { length wanted.now ≡ length self.old.vertices }
        ensures { self.new ≡ kept_of wanted.now self.old }
    {
        let count = gather(&mut self.ranked, wanted);
        self.ranked.truncate(count);
    }

    /// Weighs each pair.
    pub fn weigh(&self, alloc: Global) -> Result<Proposal, NoMemory>
        requires { IsGraph self.now }
        ensures { IfOk result (λ proposal. proposal ≡ self.now) }
    {
        let rows = rows_of(alloc, self.threshold, self.lists, &self.ranked)?;
        let vertices = txs_of(alloc, &self.ranked)?;
        Ok(Proposal::of(alloc, TxList::of(vertices), rows))
    }

    /// The edge that the lists give to a pair. Takes no memory.
    pub fn edge(&self, u: u32, v: u32) -> Edge
        requires from { u < length self.now.vertices }
        requires to { v < length self.now.vertices }
        ensures { result ≡ edge_at self.now u v }
    {
        edge_of(
            self.threshold,
            &self.ranked[u as usize],
            &self.ranked[v as usize],
        )
    }
}

/// Moves the wanted ones to the start, in their order, and returns how many they are.
fn gather(ranked: &mut [Ranked], wanted: &[bool]) -> usize
    requires { length wanted.now ≡ length ranked.old }
    ensures few { result ≤ length ranked.new }
    ensures prefix { take result ranked.new ≡ wanted_of wanted.now ranked.old }
{
    let mut count = 0;
    for at in 0..wanted.len() {
        if wanted[at] {
            ranked.swap(count, at);
            count += 1;
        }
    }
    count
}

fn txs_of(alloc: Global, ranked: &[Ranked]) -> Result<Vec<Tx>, NoMemory>
    ensures { IfOk result (λ txs. txs.items ≡ map (λ r. r.tx) ranked.now) }
{
    let mut txs = Vec::with_capacity(alloc, ranked.len())?;
    for one in ranked {
        txs.push(one.tx)?;
    }
    Ok(txs)
}
