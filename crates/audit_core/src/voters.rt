//! The replicas whose votes for a block were delivered.
ghost use Rattle.std.specs.Prelude.{◌≡◌, ◌<◌, [], length, IfOk, OnOk};
ghost use Rattle.audit_core.specs.Bringing.{add_voter, counted};
ghost use Rattle.audit_core.specs.Sets.{voters_of};

use count_set::ReplicaSet;
use seq_base::{Digest, NoMemory};
use std::alloc::Global;
use std::collections::BTreeMap;
use std::marker::Model;

pub(crate) struct Voters {
    by_block: BTreeMap<Digest, ReplicaSet>,
}

impl Drop for Voters {
    fn drop(self) {
        let Voters { by_block: _ } = self;
    }
}

impl Model for Voters {
    ghost use Rattle.std.specs.Prelude.{ℕ, List};
    ghost use Rattle.seq_base.specs.declared.digest.Digest.{Digest};

    ghost Value = { List (Digest × List ℕ) };

    ghost view = { λ voters. voters.by_block.entries };
}

impl Voters {
    pub(crate) fn none(alloc: Global) -> Voters
        ensures { result ≡ [] }
    {
        Voters {
            by_block: BTreeMap::new(alloc),
        }
    }

    fn of(&self, block: &Digest) -> ReplicaSet
        ensures { result ≡ voters_of self.now block.now }
    {
        match self.by_block.get(block) {
            Some(voters) => *voters,
            None => ReplicaSet::empty(),
        }
    }

    /// Adds a voter for a block, unless it is there. Returns the count of the block's voters.
    pub(crate) fn count(&mut self, replica: u32, block: Digest) -> Result<u32, NoMemory>
        requires { replica < 32 }
        ensures count { IfOk result (λ count. count ≡ length (add_voter replica (voters_of self.old block))) }
        ensures voters { OnOk result (self.new ≡ counted replica block self.old) }
    {
        let voters = with_voter(self.of(&block), replica);
        self.by_block.insert(block, voters)?;
        Ok(voters.size())
    }
}

fn with_voter(voters: ReplicaSet, replica: u32) -> ReplicaSet
    requires { replica < 32 }
    ensures { result ≡ add_voter replica voters }
{
    let mut more = voters;
    if !voters.has(replica) {
        let _is_new = more.add(replica);
    }
    more
}
