ghost use Rattle.std.specs.Prelude.{◌≡◌, ◌+◌, ◌≤◌, ◌∷◌, ◌++◌, length, take, drop};
ghost use Rattle.lm_ots.specs.Chain.{head, chain_of, private_part, IsBlock};
ghost use Rattle.sha2.specs.Hashers.{Holds256};
ghost use Rattle.sha2.specs.Sha256.{sha256};

use sha2::{Digest, Sha256};

/// Takes a value along the chain `index` from one position to another.
pub fn chain(id: &[u8; 16], leaf: u32, index: u16, from: u8, to: u8, start: &[u8; 32]) -> [u8; 32]
    requires ascending { from ≤ to }
    requires within { to ≤ 15 }
    ensures { result ≡ chain_of id.now leaf index from to start.now }
{
    let mut block = block_of(id, leaf, index, start);
    for place in from..to {
        step_on(&mut block, place);
    }
    value_in(&block)
}

/// The private part of the chain `index`, derived from a seed.
pub(crate) fn private(id: &[u8; 16], leaf: u32, index: u16, seed: &[u8; 32]) -> [u8; 32]
    ensures { result ≡ private_part id.now leaf index seed.now }
{
    let mut block = block_of(id, leaf, index, seed);
    step_on(&mut block, 0xff);
    value_in(&block)
}

/// The input of a chain step's hash: the identifier, the leaf, the chain, a byte for the position, and a value. With
/// padding, these 55 bytes fill one block of the hash.
fn block_of(id: &[u8; 16], leaf: u32, index: u16, value: &[u8; 32]) -> [u8; 55]
    ensures { IsBlock (head id.now leaf index) value.now result }
{
    let mut block = [0u8; 55];
    put(&mut block, 0, id);
    put(&mut block, 16, &leaf.to_be_bytes());
    put(&mut block, 20, &index.to_be_bytes());
    put(&mut block, 23, value);
    block
}

/// Writes bytes at an offset of the block.
fn put(block: &mut [u8; 55], at: usize, bytes: &[u8])
    requires { at + length bytes.now ≤ 55 }
    ensures { take (at + length bytes.now) block.new ≡ take at block.old ++ bytes.now }
{
    let end = at + bytes.len();
    block[at..end].copy_from_slice(bytes);
}

/// One step at a position, done in place on the value.
fn step_on(block: &mut [u8; 55], place: u8)
    ensures head { take 22 block.new ≡ take 22 block.old }
    ensures value { drop 23 block.new ≡ sha256 (take 22 block.old ++ place ∷ drop 23 block.old) }
{
    block[22] = place;
    let value = Sha256::digest(block.as_slice());
    block[23..].copy_from_slice(&value);
}

fn value_in(block: &[u8; 55]) -> [u8; 32]
    ensures { result ≡ drop 23 block.now }
{
    let mut value = [0u8; 32];
    value.copy_from_slice(&block[23..]);
    value
}

/// A hasher that has absorbed the prefix of a hash of this kind: the identifier, the leaf or node, the kind.
pub fn begun(id: &[u8; 16], leaf: u32, kind: u16) -> Sha256
    ensures { Holds256 result (head id.now leaf kind) }
{
    let mut hasher = Sha256::new();
    hasher.update(id);
    hasher.update(leaf.to_be_bytes());
    hasher.update(kind.to_be_bytes());
    hasher
}
