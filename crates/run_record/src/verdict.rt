/// The verdict on a record of a run.
#[derive(Clone, Copy, PartialEq, Eq)]
pub enum Verdict {
    /// Every honest replica has finalised every transaction that all honest replicas received.
    Done,
    /// The run ended before.
    Stalled,
    /// A seal of an honest replica fits a statement that it did not seal.
    Forged(ForgedAt),
    /// Two blocks have the same digest.
    Collided(CollidedAt),
}

/// The place of a forged seal: the replica whose journal it is in, the entry, the part of the delivered message, and
/// the replica whose seal it claims to be. All are numbered from 0.
#[derive(Clone, Copy, PartialEq, Eq)]
pub struct ForgedAt {
    pub receiver: u32,
    pub entry: u32,
    pub part: u32,
    pub signer: u32,
}

/// The places of two blocks with the same digest, each a receiver and an entry. The second is `None` if the block at
/// the first place has the digest of zeros, which is that of the first block.
#[derive(Clone, Copy, PartialEq, Eq)]
pub struct CollidedAt {
    pub first: (u32, u32),
    pub second: Option<(u32, u32)>,
}
