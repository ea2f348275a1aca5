//! What a node knows, apart from its sealer.
ghost use Rattle.std.specs.Prelude.{◌≡◌, ◌≤◌, ◌<◌, ◌+◌, ◌*◌, ◌^◌, ◌++◌, length, slice_get, true, false, IfOk, OnOk};
ghost use Rattle.std.specs.List.{list_all};
ghost use Rattle.seq_base.specs.Limits.{IsWithin};
ghost use Rattle.seq_base.specs.Setting.{leader_of, quorum_of};
ghost use Rattle.block_store.specs.Store.{block_digest, block_at, is_stored, clashes, view_of, with_block, shown};
ghost use Rattle.chain_state.specs.Standings.{at_most_usize, finals, is_used};
ghost use Rattle.hotstuff_core.specs.Rules.{is_safe, view_at, voted_in};
ghost use Rattle.node_core.specs.State.{fresh_known, has_view, kept_of};
ghost use Rattle.node_core.specs.Ask.{order_of_view};
ghost use Rattle.node_core.specs.Rows.{lists_fit, chain_at};
ghost use Rattle.node_core.specs.See.{ordering};

mod above;
mod calls;
mod certs;
mod orders;
mod see;
mod votes;

use calls::Call;
use chain_store::StoredBlocks;
use hotstuff_core::Safety;
use seq_base::{
    BatchList, Block, Cert, Digest, LocalOrder, NoMemory, SealedOrder, Setting, Tx, TxList,
};
use std::alloc::Global;
use std::marker::Model;
use votes::Ballot;
pub(crate) use votes::Formed;

/// All that a node knows, without its sealer.
pub(crate) struct State {
    alloc: Global,
    /// The setting and the stored blocks.
    blocks: StoredBlocks,
    /// The node's own number.
    me: u32,
    /// The last view of the run.
    views: u32,
    /// The transactions that arrived, in their order.
    prefix: Vec<Tx>,
    view: u32,
    /// The last view for which this node drew a local order.
    ordered: u32,
    /// The last view for which this node asked for local orders, or took them from votes.
    asked: u32,
    /// The certificate that it asked with.
    ask_cert: Cert,
    /// The orders kept for the asked view, with ascending replicas.
    orders: Vec<SealedOrder>,
    /// The last view in which this node proposed.
    proposed: u32,
    /// The certificate of the greatest view.
    high: Cert,
    /// The last view in which this node voted, the locked and the committed block.
    safety: Safety,
    /// The calls for views that this node leads.
    gathered: Vec<Call>,
    boxes: Vec<Ballot>,
}

impl Drop for State {
    fn drop(self) {
        let State {
            alloc: _,
            blocks: _,
            me: _,
            views: _,
            prefix: _,
            view: _,
            ordered: _,
            asked: _,
            ask_cert: _,
            orders: _,
            proposed: _,
            high: _,
            safety: _,
            gathered: _,
            boxes: _,
        } = self;
    }
}

impl Model for State {
    ghost use Rattle.std.specs.Prelude.{◌≤◌, ◌<◌, ◌*◌, ◌^◌};
    ghost use Rattle.node_core.specs.State.{Known};

    ghost Value = { Known };

    ghost view = { λ a. record {
      setting = a.blocks.setting;
      me = a.me;
      views = a.views;
      prefix = a.prefix.items;
      view = a.view;
      ordered = a.ordered;
      asked = a.asked;
      ask_cert = a.ask_cert;
      orders = a.orders.items;
      proposed = a.proposed;
      high = a.high;
      safety = a.safety;
      store = a.blocks.blocks;
      gathered = a.gathered.items;
      boxes = a.boxes.items;
    } };

    ghost invariant = { λ a. (a.me < a.blocks.setting.n) × (5 * a.views < 2 ^ 32) × (a.view ≤ a.views) };
}

impl State {
    /// A state that knows only the first block.
    pub(crate) fn new(alloc: Global, setting: Setting, views: u32, me: u32) -> State
        requires { (me < setting.n) × (5 * views < 2 ^ 32) }
        ensures { result ≡ fresh_known setting views me }
    {
        State {
            alloc,
            blocks: StoredBlocks::new(alloc, setting),
            me,
            views,
            prefix: Vec::new(alloc),
            view: 0,
            ordered: 0,
            asked: 0,
            ask_cert: Cert::first(alloc),
            orders: Vec::new(alloc),
            proposed: 0,
            high: Cert::first(alloc),
            safety: Safety::new(),
            gathered: Vec::new(alloc),
            boxes: Vec::new(alloc),
        }
    }

    pub(crate) fn setting(&self) -> &Setting
        ensures { result.now ≡ self.now.setting }
    {
        self.blocks.setting()
    }

    pub(crate) fn me(&self) -> u32
        ensures value { result ≡ self.now.me }
        ensures replica { self.now.me < self.now.setting.n }
    {
        self.me
    }

    /// The number of replicas.
    pub(crate) fn n(&self) -> u32
        ensures value { result ≡ self.now.setting.n }
        ensures few { result ≤ 16 }
        ensures replica { self.now.me < self.now.setting.n }
    {
        self.blocks.setting().n()
    }

    /// The number of replicas in a quorum.
    pub(crate) fn quorum(&self) -> u32
        ensures { result ≡ quorum_of self.now.setting }
    {
        self.blocks.setting().quorum()
    }

    pub(crate) fn views(&self) -> u32
        ensures value { result ≡ self.now.views }
        ensures few { 5 * self.now.views < 2 ^ 32 }
    {
        self.views
    }

    /// The number of transactions that arrived, at most `u32::MAX`.
    pub(crate) fn kept(&self) -> u32
        ensures { result ≡ kept_of self.now }
    {
        match u32::try_from(self.prefix.len()) {
            Ok(kept) => kept,
            Err(_) => u32::MAX,
        }
    }

    pub(crate) fn view(&self) -> u32
        ensures value { result ≡ self.now.view }
        ensures within { self.now.view ≤ self.now.views }
        ensures few { 5 * self.now.views < 2 ^ 32 }
    {
        self.view
    }

    pub(crate) fn ordered(&self) -> u32
        ensures { result ≡ self.now.ordered }
    {
        self.ordered
    }

    pub(crate) fn asked(&self) -> u32
        ensures { result ≡ self.now.asked }
    {
        self.asked
    }

    pub(crate) fn proposed(&self) -> u32
        ensures { result ≡ self.now.proposed }
    {
        self.proposed
    }

    pub(crate) fn high(&self) -> &Cert
        ensures { result.now ≡ self.now.high }
    {
        &self.high
    }

    pub(crate) fn high_view(&self) -> u32
        ensures { result ≡ self.now.high.view }
    {
        self.high.view
    }

    pub(crate) fn voted(&self) -> u32
        ensures { result ≡ self.now.safety.voted }
    {
        self.safety.voted()
    }

    /// Whether the run has this view.
    pub(crate) fn has_view(&self, view: u32) -> bool
        ensures value { result ≡ has_view self.now view }
        ensures few { 5 * self.now.views < 2 ^ 32 }
    {
        0 < view && view <= self.views
    }

    pub(crate) fn leader(&self, view: u32) -> u32
        ensures value { result ≡ leader_of self.now.setting view }
        ensures replica { result < self.now.setting.n }
    {
        self.blocks.setting().leader(view)
    }

    /// The leader of the view after one of the run.
    pub(crate) fn next_leader(&self, view: u32) -> u32
        requires { view ≤ self.now.views }
        ensures { result ≡ leader_of self.now.setting (view + 1) }
    {
        self.blocks.setting().leader(view + 1)
    }

    /// The view of a stored block.
    pub(crate) fn view_of(&self, block: &Digest) -> Option<u32>
        ensures { result ≡ view_of self.now.store block.now }
    {
        self.blocks.store().view_of(block)
    }

    pub(crate) fn stores(&self, block: &Digest) -> bool
        ensures { result ≡ is_stored self.now.store block.now }
    {
        self.blocks.store().is_stored(block)
    }

    /// A stored block other than the first.
    pub(crate) fn block(&self, block: &Digest) -> Option<&Block>
        ensures { shown result ≡ block_at self.now.store block.now }
    {
        self.blocks.store().get(block)
    }

    /// Whether a block other than this one has the digest.
    pub(crate) fn clashes(&self, digest: &Digest, block: &Block) -> bool
        ensures { result ≡ clashes self.now.store digest.now block.now }
    {
        self.blocks.store().clashes(digest, block)
    }

    /// Whether the voting rule allows a vote for a block, regardless of earlier votes.
    pub(crate) fn is_safe(&self, block: &Block) -> bool
        ensures { result ≡ is_safe self.now.store self.now.safety block.now }
    {
        self.safety.is_safe(self.blocks.store(), block)
    }

    /// The view of the committed block.
    pub(crate) fn commit_view(&self) -> u32
        ensures { result ≡ view_at self.now.store self.now.safety.committed }
    {
        self.blocks
            .store()
            .view_of(&self.safety.committed())
            .unwrap_or(0)
    }

    /// Whether an order's lists fit the chain that ends in a stored block.
    pub(crate) fn order_fits(&self, parent: &Digest, order: &LocalOrder) -> Result<bool, NoMemory>
        ensures { IfOk result (λ fit. fit ≡ lists_fit self.now parent.now order.now) }
    {
        self.blocks.order_fits(parent, order)
    }

    /// Whether the lists of all orders fit the chain that ends in a stored block.
    pub(crate) fn orders_fit(
        &self,
        parent: &Digest,
        orders: &[SealedOrder],
    ) -> Result<bool, NoMemory>
        ensures { IfOk result (λ fit. fit ≡ list_all (λ sealed. lists_fit self.now parent.now sealed.order) orders.now) }
    {
        self.blocks.orders_fit(parent, orders)
    }

    /// The node's own order for a view, drawn from what it knows, over the chain that ends in a stored block.
    pub(crate) fn draw(&self, view: u32, parent: &Digest) -> Result<LocalOrder, NoMemory>
        ensures { IfOk result (λ order. order ≡ order_of_view self.now view parent.now) }
    {
        self.blocks
            .draw(self.me, view, parent, self.prefix.as_slice())
    }

    /// The final batches of the chain that ends in the committed block.
    pub(crate) fn finals(&self) -> Result<BatchList, NoMemory>
        ensures { IfOk result (λ batches. batches ≡ finals (chain_at self.now self.now.safety.committed)) }
    {
        self.blocks.finals(&self.safety.committed())
    }

    /// The number of final batches in the chain of the committed block, at most `usize::MAX`.
    pub(crate) fn batch_count(&self) -> Result<usize, NoMemory>
        ensures { IfOk result (λ count. count ≡ at_most_usize (length (finals (chain_at self.now self.now.safety.committed)))) }
    {
        self.blocks.batch_count(&self.safety.committed())
    }

    /// The final batch at a position in the chain of the committed block.
    pub(crate) fn batch(&self, at: usize) -> Result<Option<TxList>, NoMemory>
        ensures { IfOk result (λ batch. batch ≡ slice_get (finals (chain_at self.now self.now.safety.committed)) at) }
    {
        self.blocks.batch(&self.safety.committed(), at)
    }

    /// Whether a proposal in the chain of the highest certificate's block has this transaction.
    pub(crate) fn is_proposed(&self, tx: &Tx) -> Result<bool, NoMemory>
        ensures { IfOk result (λ proposed. proposed ≡ is_used (chain_at self.now self.now.high.block) tx.now) }
    {
        self.blocks.is_used(&self.high.block, tx)
    }

    /// Stores a block whose parent is stored, and with which no other clashes.
    pub(crate) fn store_block(&mut self, block: Block, digest: &Digest) -> Result<(), NoMemory>
        requires within { IsWithin block }
        requires own { digest.now ≡ block_digest block }
        requires parent { is_stored self.old.store block.cert.block ≡ true }
        requires alone { clashes self.old.store digest.now block ≡ false }
        ensures { OnOk result (self.new ≡ record self.old { store = with_block block self.old.store }) }
    {
        self.blocks.insert(block, digest, &self.safety.committed())
    }

    /// Appends transactions to those that arrived.
    pub(crate) fn arrive(&mut self, list: &[Tx]) -> Result<(), NoMemory>
        ensures { OnOk result (self.new ≡ record self.old { prefix = self.old.prefix ++ list.now }) }
    {
        self.prefix.extend_from_slice(list)?;
        Ok(())
    }

    pub(crate) fn set_view(&mut self, view: u32)
        requires { view ≤ self.old.views }
        ensures { self.new ≡ record self.old { view = view } }
    {
        self.view = view;
    }

    /// Notes that the node draws its own order for a view.
    pub(crate) fn start_order(&mut self, view: u32)
        requires { view ≤ self.old.views }
        ensures { self.new ≡ ordering view self.old }
    {
        self.view = view;
        self.ordered = view;
    }

    /// Notes that the node votes in a view.
    pub(crate) fn vote(&mut self, view: u32)
        requires { self.old.safety.voted < view }
        ensures { self.new ≡ record self.old { safety = voted_in view self.old.safety } }
    {
        self.safety.vote(view);
    }
}
