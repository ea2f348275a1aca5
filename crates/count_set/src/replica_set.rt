ghost use Rattle.std.specs.Prelude.{◌≡◌, ◌<◌, ◌≤◌, [], length, filter, not, All};
ghost use Rattle.std.specs.List.Sorted.{IsStrictlyIncreasing};
ghost use Rattle.count_set.specs.Sets.{is_among, with_replica};

use std::marker::Model;

/// How many replicas a set has room for.
const MAX_MEMBERS: u32 = 32;

/// A set of replicas below 32. Contracts see it as the ascending list of its members.
#[derive(Clone, Copy)]
pub struct ReplicaSet {
    /// Bit r is set where r is a member.
    word: u32,
}

impl Model for ReplicaSet {
    ghost use Rattle.std.specs.Prelude.{ℕ, ◌<◌, ◌^◌, List};

    ghost Value = { List ℕ };

    ghost use Rattle.count_set.specs.Bits.{members_of, word_of, set_of_word, set-members_of};

    ghost view = { λ s. members_of s.word };

    ghost invariant = { λ s. s.word < 2 ^ 32 };

    ghost inverse = { λ members. set_of_word (word_of members) };

    ghost inverse_ok = { λ s small. set-members_of s.word small };
}

impl ReplicaSet {
    pub fn empty() -> ReplicaSet
        ensures { result ≡ [] }
    {
        ReplicaSet { word: 0 }
    }

    /// Returns whether the replica was new.
    pub fn add(&mut self, replica: u32) -> bool
        requires { replica < 32 }
        ensures is_new { result ≡ not (is_among self.old replica) }
        ensures members { self.new ≡ with_replica replica self.old }
    {
        let is_new = !self.has(replica);
        self.word |= 1 << replica;
        is_new
    }

    pub fn has(&self, replica: u32) -> bool
        ensures { result ≡ is_among self.now replica }
    {
        replica < MAX_MEMBERS && self.word >> replica & 1 == 1
    }

    pub fn size(&self) -> u32
        ensures value { result ≡ length self.now }
        ensures few { result ≤ 32 }
        ensures ascending { IsStrictlyIncreasing self.now }
        ensures below { All (λ r. r < 32) self.now }
    {
        self.word.count_ones()
    }

    /// The intersection.
    pub fn meet(&self, other: &ReplicaSet) -> ReplicaSet
        ensures { result ≡ filter (is_among other.now) self.now }
    {
        ReplicaSet {
            word: self.word & other.word,
        }
    }
}
