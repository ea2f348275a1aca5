ghost use Rattle.std.specs.Prelude.{◌≡◌, ◌≢◌, ◌≤◌, [], None, Err, false, IfOk, IfErr, OnOk, OnErr, length, slice_get};
ghost use Rattle.chain_state.specs.Standings.{at_most_usize};
ghost use Rattle.hotstuff_core.specs.Rules.{view_at};
ghost use Rattle.intake.specs.Desk.{opening};
ghost use Rattle.hss_seal.specs.Any.{any_gives, any_publics_fit, any_sealer};
ghost use Rattle.node_core.specs.Above.{blocks_above, give_at};
ghost use Rattle.node_core.specs.Runs.{opening_state};
ghost use Rattle.node_core.specs.State.{kept_of};
ghost use Rattle.durable_node.specs.Header.{AreNarrow, height_number};
ghost use Rattle.replica_box.specs.Opening.{CanOpen, HasOpened, IsCause, IsDigestOf, own_header};
ghost use Rattle.replica_box.specs.Seats.{finals_at, fits_of, gives_of, proposes};
ghost use Rattle.seal_kit.specs.Seals.{capacity_of};

use crate::opening::{Opened, open_node};
use crate::prepared::Prepared;
use crate::seal_cache::CachingChecker;
use crate::{OpenFault, Role};
use hss_seal::AnySealer;
use intake::Intake;
use node_core::{Event, Node, NodeFault, Statements};
use seq_base::{Bytes, NoMemory, Outgoing, Tx, TxList};
use std::alloc::Global;
use std::collections::VecDeque;
use std::marker::Model;

/// A replica of a host that keeps the log.
pub struct Replica {
    pub(crate) alloc: Global,
    pub(crate) node: Node<AnySealer>,
    pub(crate) checker: CachingChecker,
    pub(crate) header: Vec<u8>,
    pub(crate) ready: VecDeque<Prepared>,
    /// The running digest of the log after the last event that is prepared.
    pub(crate) digest: [u8; 32],
    pub(crate) sealed: Statements,
    pub(crate) sends: Vec<Outgoing>,
    pub(crate) intake: Intake,
}

impl Drop for Replica {
    fn drop(self) {
        let Replica {
            alloc: _,
            node: _,
            checker: _,
            header: _,
            ready: _,
            digest: _,
            sealed: _,
            sends: _,
            intake: _,
        } = self;
    }
}

impl Model for Replica {
    ghost use Rattle.replica_box.specs.Seats.{Seat};

    ghost Value = { Seat };

    ghost view = { λ r. record {
      node = r.node;
      checker = r.checker;
      header = r.header.items;
      ready = r.ready.items;
      digest = r.digest;
      sealed = r.sealed;
      sends = r.sends.items;
      desk = r.intake;
    } };
}

impl Replica {
    /// Replays the log. Returns the replica, and the length of the part of the log that is used: the header and all whole
    /// records. What follows is a torn record: the host truncates it before it appends. The length is 0 where the log is new
    /// or ends within the header: then the host truncates the log, and makes [`Replica::header`] durable first.
    /// `id` and `seed` are its secret, of 48 random bytes; `publics` are all public keys. What was sent is not sent again.
    pub fn open(
        alloc: Global,
        role: &Role,
        id: &[u8; 16],
        seed: &[u8; 32],
        publics: &[[u8; 60]],
        log: &[u8],
    ) -> Result<(Replica, usize), OpenFault>
        // The secret is that of the replica, and the state, the running digest and the header are those that the log gives.
        ensures can { OnOk result (CanOpen role.now.setting.n role.now.views role.now.me id.now seed.now role.now.height publics.now) }
        ensures opened { IfOk result
            (λ o. HasOpened (any_publics_fit role.now.height publics.now) (any_gives (any_sealer id.now seed.now role.now.height role.now.me))
            (opening_state role.now.setting role.now.views role.now.me (capacity_of role.now.height)) o.0.header log.now o.1 o.0.node.state) }
        ensures digest { IfOk result (λ o. IsDigestOf o.0.header log.now o.0.digest) }
        ensures header { IfOk result (λ o. o.0.header ≡ own_header role.now.setting role.now.views role.now.me role.now.height publics.now) }
        ensures narrow { OnOk result (AreNarrow role.now.setting role.now.views role.now.me (height_number role.now.height)) }
        // By which seals it goes on: those that it accepts, and those that it gives.
        ensures fits { IfOk result (λ o. fits_of o.0 ≡ any_publics_fit role.now.height publics.now) }
        ensures gives { IfOk result (λ o. gives_of o.0 ≡ any_gives (any_sealer id.now seed.now role.now.height role.now.me)) }
        // Nothing is prepared, and nothing is left of a turn. The used part lies within the log.
        ensures idle { IfOk result (λ o. (o.0.ready ≡ []) × (o.0.sealed ≡ []) × (o.0.sends ≡ [])) }
        ensures desk { IfOk result (λ o. o.0.desk ≡ opening role.now.setting.n role.now.setting.f role.now.me) }
        ensures within { IfOk result (λ o. o.1 ≤ length log.now) }
        ensures running { IfOk result (λ o. o.0.node.halted ≡ false) }
        // Why it is refused.
        ensures cause { IfErr result (λ fault. IsCause fault role.now.setting role.now.views role.now.me id.now seed.now role.now.height publics.now log.now) }
    {
        let Opened {
            node,
            checker,
            header,
            used,
            digest,
        } = open_node(alloc, role, id, seed, publics, log)?;
        let replica = Replica {
            alloc,
            node,
            checker,
            header,
            ready: VecDeque::new(alloc),
            digest,
            sealed: Statements::of(Vec::new(alloc)),
            sends: Vec::new(alloc),
            intake: Intake::new(alloc, role.setting, role.me)?,
        };
        Ok((replica, used))
    }

    /// The first 76 bytes of the log, which name its owner.
    pub fn header(&self) -> &[u8]
        ensures { result.now ≡ self.now.header }
    {
        self.header.as_slice()
    }

    /// Whether memory ran out in a turn: only a halted node refuses a tick above the last view as halted.
    pub fn is_halted(&self) -> bool
        ensures { result ≡ self.now.node.halted }
    {
        let beyond = Event::Tick { floor: u32::MAX };
        matches!(
            self.node.idle_turn(&self.checker, &beyond),
            Err(NodeFault::Halted)
        )
    }

    /// How many batches are final.
    pub fn batch_count(&self) -> Result<usize, NoMemory>
        ensures { IfOk result (λ count. count ≡ at_most_usize (length (finals_at self.now.node.state.known))) }
    {
        self.node.batch_count()
    }

    /// The final batch at a position. What is final stays, also over crashes, where at most f replicas are faulty, nothing is
    /// forged and no two blocks collide (`host_laws`).
    pub fn batch(&self, at: usize) -> Result<Option<TxList>, NoMemory>
        ensures { IfOk result (λ batch. batch ≡ slice_get (finals_at self.now.node.state.known) at) }
    {
        self.node.batch(at)
    }

    /// How many transactions arrived at the replica; 2^32 - 1 where they are more.
    pub fn known(&self) -> u32
        ensures { result ≡ kept_of self.now.node.state.known }
    {
        self.node.kept()
    }

    /// Whether a transaction is proposed in the chain that ends in the block of the highest certificate.
    pub fn is_proposed(&self, tx: &Tx) -> Result<bool, NoMemory>
        ensures { IfOk result (λ proposed. proposed ≡ proposes self.now.node.state.known tx.now) }
    {
        self.node.is_proposed(tx)
    }

    /// How many stored blocks have a view above this one.
    pub fn give_count(&self, above: u32) -> usize
        ensures { result ≡ length (blocks_above self.now.node.state.known above) }
    {
        self.node.give_count(above)
    }

    /// The Give message of one of these blocks, in the order in which they were stored: for a replica that fell behind.
    pub fn give(&self, above: u32, at: usize) -> Result<Option<Bytes>, NoMemory>
        ensures given { IfOk result (λ give. give ≡ give_at self.now.node.state.known above at) }
        ensures refused { OnErr result (give_at self.now.node.state.known above at ≢ None) }
    {
        if self.node.give_count(above) <= at {
            return Ok(None);
        }
        self.node.give(above, at)
    }

    /// The replica's view.
    pub fn view(&self) -> u32
        ensures { result ≡ self.now.node.state.known.view }
    {
        self.node.view()
    }

    /// The view of the committed block.
    pub fn commit_view(&self) -> u32
        ensures { result ≡ view_at self.now.node.state.known.store self.now.node.state.known.safety.committed }
    {
        self.node.commit_view()
    }
}
