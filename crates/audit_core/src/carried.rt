//! What an entry with reason Done delivers.

use seq_base::{Block, Digest};

/// It is applied once all rules of the entry are checked.
#[derive(Drop)]
pub(crate) enum Carried {
    Nothing,
    /// The certificate of a NewView or an Ask, by its view and the block that it names.
    Cert {
        view: u32,
        block: Digest,
    },
    /// The block of a Propose or a Give, under its digest.
    Block {
        digest: Digest,
        block: Block,
        is_proposed: bool,
    },
    Vote {
        replica: u32,
        view: u32,
        block: Digest,
    },
}
