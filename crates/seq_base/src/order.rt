ghost use Rattle.std.specs.Prelude.{◌≡◌};

use crate::{Digest, Seal, TxList};

/// What a replica received, in its order, for the block of a view over a parent: the first transactions that are in
/// no proposal of the parent's chain, and the first that still wait there for an edge.
#[derive(PartialEq, Eq, Drop)]
pub struct LocalOrder {
    pub replica: u32,
    pub view: u32,
    /// The digest of the parent.
    pub parent: Digest,
    /// At most 128, all different.
    pub fresh: TxList,
    /// At most 256, all different.
    pub late: TxList,
}

/// A local order, with its replica's seal over the order's bytes.
#[derive(PartialEq, Eq)]
pub struct SealedOrder {
    pub order: LocalOrder,
    pub seal: Seal,
}

impl Drop for SealedOrder {
    fn drop(self) {
        let SealedOrder { order: _, seal: _ } = self;
    }
}

impl SealedOrder {
    /// The order, without its seal.
    pub fn into_order(self) -> LocalOrder
        ensures { result ≡ self.order }
    {
        let SealedOrder { order, seal: _ } = self;
        order
    }
}
