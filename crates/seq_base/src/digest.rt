/// The SHA-256 digest of a block's bytes (FIPS 180-4). The digest of the first block is 32 zero bytes.
#[derive(Clone, Copy, Debug, PartialEq, Eq, PartialOrd, Ord, Hash)]
pub struct Digest(pub [u8; 32]);

impl Digest {
    /// The digest of the first block.
    pub const FIRST: Digest = Digest([0; 32]);
}
