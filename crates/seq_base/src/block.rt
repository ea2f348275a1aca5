ghost use Rattle.std.specs.Prelude.{◌≡◌};
ghost use Rattle.seq_base.specs.Blocks.{first_cert};

use crate::{Digest, Items, Seal, SealedOrder};
use std::alloc::Global;

/// A replica's vote for the block of a view, sealed (HotStuff, PODC 2019).
#[derive(PartialEq, Eq, Drop)]
pub struct Vote {
    pub replica: u32,
    pub view: u32,
    /// The digest of the block.
    pub block: Digest,
    pub seal: Seal,
}

/// A vote inside a certificate, which has the view and the block.
#[derive(PartialEq, Eq, Drop)]
pub struct CertVote {
    pub replica: u32,
    pub seal: Seal,
}

/// The votes of a certificate, replicas in ascending order.
pub type CertVotes = Items<CertVote>;

/// A quorum certificate: votes of n-f different replicas for one block in one view. The certificate of the first
/// block has view 0 and no votes.
#[derive(PartialEq, Eq, Drop)]
pub struct Cert {
    pub view: u32,
    /// The digest of the block.
    pub block: Digest,
    pub votes: CertVotes,
}

impl Cert {
    /// The certificate of the first block. Takes no memory.
    pub fn first(alloc: Global) -> Cert
        ensures { result ≡ first_cert }
    {
        Cert {
            view: 0,
            block: Digest::FIRST,
            votes: CertVotes::of(Vec::new(alloc)),
        }
    }
}

/// The local orders of a block, replicas in ascending order.
pub type SealedOrders = Items<SealedOrder>;

/// A block: its view, the certificate of its parent, and n-f local orders for its view and parent. Its proposal is
/// not sent, since every replica computes it.
#[derive(PartialEq, Eq)]
pub struct Block {
    pub view: u32,
    pub cert: Cert,
    pub orders: SealedOrders,
}

impl Drop for Block {
    fn drop(self) {
        let Block {
            view: _,
            cert: _,
            orders: _,
        } = self;
    }
}
