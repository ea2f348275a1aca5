ghost use Rattle.std.specs.Prelude.{◌≡◌, [], ◌++◌, not, length, map, false, slice_get, option_map, IfOk, IsTrue, OnOk, OnErr};
ghost use Rattle.seq_base.specs.declared.tx.Tx.{Tx};
ghost use Rattle.std.specs.List.{list_all};
ghost use Rattle.seq_base.specs.Limits.{IsWithin};
ghost use Rattle.chain_state.specs.Lists.{lists_of};
ghost use Rattle.chain_state.specs.Places.{steps_from};
ghost use Rattle.chain_state.specs.Proposals.{joined};
ghost use Rattle.chain_state.specs.Shown.{shown};
ghost use Rattle.chain_state.specs.Standings.{applied, at_most_usize, batch_count, finals, final_count, fits, is_used, is_waiting, next_stage};
ghost use Rattle.chain_state.specs.Stepping.{placed, own_graph, steps_of, AreMade};

use crate::late::LateLists;
use crate::lists::{copied, fresh_lists, late_lists};
use crate::sets::insert_all;
use crate::standing::Standing;
use crate::stepping::{Stepped, pending_places, put_back, waiting_set};
use fair_propose::propose;
use majority_graph::Proposal;
use seq_base::{BatchList, Block, LocalOrder, NoMemory, Setting, Tx, TxList};
use std::alloc::Global;
use std::collections::HashSet;
use std::marker::Model;

/// What the blocks of a chain have proposed, updated and finalised.
pub struct ChainState {
    alloc: Global,
    setting: Setting,
    /// One for each block, in the order of the chain.
    proposals: Vec<Standing>,
    /// The indices of those that are pending.
    pending: Vec<usize>,
    /// The transactions that are in a proposal.
    used: HashSet<Tx>,
    /// Those of them that belong to a missing pair.
    waiting: HashSet<Tx>,
}

impl Drop for ChainState {
    fn drop(self) {
        let ChainState {
            alloc: _,
            setting: _,
            proposals: _,
            pending: _,
            used: _,
            waiting: _,
        } = self;
    }
}

impl Model for ChainState {
    ghost use Rattle.std.specs.Prelude.{map};
    ghost use Rattle.chain_state.specs.Standings.{Standings};
    ghost use Rattle.chain_state.specs.Shown.{shown};
    ghost use Rattle.chain_state.specs.Keeping.{KeepsStandings};

    ghost Value = { Standings };

    ghost view = { λ a. record { setting = a.setting; stages = map shown a.proposals.items } };

    ghost invariant = { λ a. KeepsStandings (map shown a.proposals.items) a.pending.items a.used.keys a.waiting.keys };
}

impl ChainState {
    /// The state of no blocks. Takes no memory.
    pub fn empty(alloc: Global, setting: Setting) -> ChainState
        ensures { result ≡ record { setting = setting; stages = [] } }
    {
        ChainState {
            alloc,
            setting,
            proposals: Vec::new(alloc),
            pending: Vec::new(alloc),
            used: HashSet::new(alloc),
            waiting: HashSet::new(alloc),
        }
    }

    /// Whether no fresh entry of the order is used and each late one waits. Takes no memory.
    pub fn fits(&self, order: &LocalOrder) -> bool
        ensures { result ≡ fits self.now order.now }
    {
        self.uses_none(order.fresh.as_slice()) && self.waits_for_all(order.late.as_slice())
    }

    /// Whether none of these is used.
    fn uses_none(&self, txs: &[Tx]) -> bool
        ensures { result ≡ list_all (λ t. not (is_used self.now t)) txs.now }
    {
        txs.iter().all(|tx| !self.is_used(tx))
    }

    /// Whether each of these waits.
    fn waits_for_all(&self, txs: &[Tx]) -> bool
        ensures { result ≡ list_all (is_waiting self.now) txs.now }
    {
        txs.iter().all(|tx| self.is_waiting(tx))
    }

    /// Whether a transaction is in a proposal of the chain. Takes no memory.
    pub fn is_used(&self, tx: &Tx) -> bool
        ensures { result ≡ is_used self.now tx.now }
    {
        self.used.contains(tx)
    }

    /// Whether a transaction belongs to a missing pair of the chain. Takes no memory.
    pub fn is_waiting(&self, tx: &Tx) -> bool
        ensures { result ≡ is_waiting self.now tx.now }
    {
        self.waiting.contains(tx)
    }

    /// Whether no transaction belongs to a missing pair of the chain. Takes no memory.
    pub(crate) fn none_waits(&self) -> bool
        ensures { IsTrue result → (t : Tx) → is_waiting self.now t ≡ false }
    {
        self.waiting.is_empty()
    }

    /// The final list: the batches of the proposals in order, up to but not including the first incomplete one.
    pub fn finals(&self) -> Result<BatchList, NoMemory>
        ensures { IfOk result (λ batches. batches ≡ finals self.now) }
    {
        let mut finals = Vec::new(self.alloc);
        for standing in &self.proposals {
            match standing {
                Standing::Closed(batches) => push_copies(self.alloc, &mut finals, batches)?,
                Standing::Pending(_) => return Ok(BatchList::of(finals)),
            }
        }
        Ok(BatchList::of(finals))
    }

    /// The number of transactions in the final list, at most the maximum of usize. Takes no memory.
    pub fn final_count(&self) -> usize
        ensures { result ≡ final_count self.now }
    {
        let mut count = 0usize;
        for standing in &self.proposals {
            match standing {
                Standing::Closed(batches) => count = count.saturating_add(entries(batches)),
                Standing::Pending(_) => return count,
            }
        }
        count
    }

    /// The number of batches in the final list, at most the maximum of usize. Takes no memory.
    pub fn batch_count(&self) -> usize
        ensures { result ≡ batch_count self.now }
    {
        let mut count = 0usize;
        for standing in &self.proposals {
            match standing {
                Standing::Closed(batches) => {
                    count = count.saturating_add(batches.as_slice().len());
                }
                Standing::Pending(_) => return count,
            }
        }
        count
    }

    /// The batch at a place of the final list, or None at or past its end. The first batch is at place 0. Takes no
    /// memory.
    pub fn batch(&self, at: usize) -> Option<&TxList>
        ensures { option_map (λ batch. batch.now) result ≡ slice_get (finals self.now) at }
    {
        let mut left = at;
        for standing in &self.proposals {
            match standing {
                Standing::Closed(batches) => {
                    let batches = batches.as_slice();
                    if left < batches.len() {
                        return Some(&batches[left]);
                    }
                    left -= batches.len();
                }
                Standing::Pending(_) => return None,
            }
        }
        None
    }

    /// A separate state of the same blocks. Common parts are shared.
    pub fn copy(&self) -> Result<ChainState, NoMemory>
        ensures { IfOk result (λ copy. copy ≡ self.now) }
    {
        Ok(ChainState {
            alloc: self.alloc,
            setting: self.setting,
            proposals: shared(self.alloc, &self.proposals)?,
            pending: Vec::from_slice(self.alloc, &self.pending)?,
            used: self.used.clone()?,
            waiting: self.waiting.clone()?,
        })
    }

    /// Applies one more block. A call that fails leaves the state unchanged.
    pub fn apply(&mut self, block: &Block) -> Result<(), NoMemory>
        requires { IsWithin block.now }
        ensures ok { OnOk result (self.new ≡ applied self.old (lists_of block.now)) }
        ensures err { OnErr result (self.new ≡ self.old) }
    {
        let made = self.made(block)?;
        self.used.reserve(made.vertices.len())?;
        self.proposals.push(made.own)?;
        // The room is reserved, so nothing below fails.
        put_back(&mut self.proposals, made.stepped);
        let _ = insert_all(&mut self.used, &made.vertices);
        self.pending = made.pending;
        self.waiting = made.waiting;
        Ok(())
    }

    /// All changes that a block makes to the state.
    fn made(&self, block: &Block) -> Result<Made, NoMemory>
        requires { IsWithin block.now }
        ensures { IfOk result (λ made. AreMade self.now (lists_of block.now) (shown made.own) made.vertices.items
            (map placed made.stepped.items) made.pending.items made.waiting.keys) }
    {
        let graph = self.proposed(block)?;
        let vertices = Vec::from_slice(self.alloc, graph.as_slice())?;
        let own = Standing::of(self.alloc, graph)?;
        let stepped = self.stepped(block)?;
        let pending = pending_places(self.alloc, &stepped, self.proposals.len(), &own)?;
        let waiting = waiting_set(self.alloc, &stepped, &own)?;
        Ok(Made {
            own,
            vertices,
            stepped,
            pending,
            waiting,
        })
    }

    /// What a block proposes.
    fn proposed(&self, block: &Block) -> Result<Proposal, NoMemory>
        requires { IsWithin block.now }
        ensures { IfOk result (λ graph. graph ≡ own_graph self.now (lists_of block.now)) }
    {
        let fresh = fresh_lists(self.alloc, block)?;
        propose(self.alloc, &self.setting, &fresh)
    }

    /// Each pending proposal after a block.
    fn stepped(&self, block: &Block) -> Result<Vec<Stepped>, NoMemory>
        ensures { IfOk result (λ stepped. map placed stepped.items ≡ steps_of self.now (lists_of block.now)) }
    {
        let late = LateLists::of(self.alloc, late_lists(self.alloc, block)?)?;
        self.stepped_by(&late)
    }

    fn stepped_by(&self, late: &LateLists) -> Result<Vec<Stepped>, NoMemory>
        ensures { IfOk result (λ stepped. map placed stepped.items ≡ steps_from (next_stage self.now.setting late.now) 0 self.now.stages) }
    {
        let mut stepped = Vec::with_capacity(self.alloc, self.pending.len() + 1)?;
        for place in &self.pending {
            let standing = self.proposals[*place].step(self.alloc, &self.setting, late)?;
            stepped.push(Stepped {
                place: *place,
                standing,
            })?;
        }
        Ok(stepped)
    }
}

/// The changes that a block makes to a state, before they are applied.
#[derive(Drop)]
struct Made {
    own: Standing,
    /// The transactions that the block proposes.
    vertices: Vec<Tx>,
    stepped: Vec<Stepped>,
    pending: Vec<usize>,
    waiting: HashSet<Tx>,
}

/// A second handle to each of the proposals.
fn shared(alloc: Global, proposals: &[Standing]) -> Result<Vec<Standing>, NoMemory>
    ensures { IfOk result (λ copies. map shown copies.items ≡ map shown proposals.now) }
{
    let mut copies = Vec::with_capacity(alloc, proposals.len())?;
    for standing in proposals {
        copies.push(standing.share()?)?;
    }
    Ok(copies)
}

/// Pushes a copy of each batch.
fn push_copies(alloc: Global, finals: &mut Vec<TxList>, batches: &BatchList) -> Result<(), NoMemory>
    ensures { OnOk result (finals.new.items ≡ finals.old.items ++ batches.now) }
{
    for batch in batches.as_slice() {
        finals.push(copied(alloc, batch)?)?;
    }
    Ok(())
}

/// The number of entries of the batches, at most the maximum of usize.
fn entries(batches: &BatchList) -> usize
    ensures { result ≡ at_most_usize (length (joined batches.now)) }
{
    let mut count = 0usize;
    for batch in batches.as_slice() {
        count = count.saturating_add(batch.as_slice().len());
    }
    count
}
