ghost use Rattle.std.specs.Prelude.{◌≡◌, ◌+◌, ◌^◌, ◌<◌, ◌≤◌, ◌++◌, IfOk, length, take};
ghost use Rattle.std.specs.Int.{w32, to_be_bytes};
ghost use Rattle.lms_seal.specs.Tree.{IsTree, leaf_keys};
ghost use Rattle.lms_seal.specs.Key.{IsKey, Key, key_of, key_public, key_signature};

use crate::GrowingKey;
use crate::sign::signature_bytes;
use crate::tree::{kind_of, leaves};
use lm_ots::OtsKey;
use seal_kit::Height;
use seq_base::{NoMemory, Seal};
use std::alloc::Global;
use std::marker::Model;

/// A key, with its leaves' keys and all the nodes of its tree.
#[derive(Drop)]
pub struct LmsKey {
    id: [u8; 16],
    seed: [u8; 32],
    levels: u32,
    keys: Vec<OtsKey>,
    nodes: Vec<[u8; 32]>,
    alloc: Global,
    ghost low: { levels ≤ 10 },
    ghost are_keys: { keys.items ≡ leaf_keys id seed (2 ^ levels) },
    ghost is_tree: { IsTree id seed levels nodes.items },
}

impl Model for LmsKey {
    ghost use Rattle.lms_seal.specs.Key.{Key};

    ghost Value = { Key };

    ghost view = { λ k. record { id = k.id; seed = k.seed; levels = k.levels } };
}

impl LmsKey {
    /// Grows the tree. It has as many levels as the trees that sign messages at the height.
    pub fn new(
        alloc: Global,
        id: &[u8; 16],
        seed: &[u8; 32],
        height: Height,
    ) -> Result<LmsKey, NoMemory>
        ensures made { IfOk result (λ k. k ≡ key_of id.now seed.now height) }
        // So every signature of it fits under its public key (`signatures_fit`).
        ensures whole { IfOk result IsKey }
    {
        let growing = GrowingKey::start(alloc, id, seed, height)?;
        Ok(growing.finish())
    }

    /// The key with a tree that has grown: its leaves' keys, and its nodes, node `r` at place `r`.
    pub(crate) fn from_tree(
        alloc: Global,
        id: [u8; 16],
        seed: [u8; 32],
        levels: u32,
        keys: Vec<OtsKey>,
        nodes: Vec<[u8; 32]>,
    ) -> LmsKey
        requires low { levels ≤ 10 }
        requires are_keys { keys.items ≡ leaf_keys id seed (2 ^ levels) }
        requires is_tree { IsTree id seed levels nodes.items }
        ensures { result ≡ record { id = id; seed = seed; levels = levels } }
    {
        LmsKey {
            id,
            seed,
            levels,
            keys,
            nodes,
            alloc,
        }
    }

    /// The public key, which checks its signatures.
    pub fn public(&self) -> [u8; 56]
        ensures { result ≡ key_public self.now }
    {
        public_bytes(kind_of(self.levels), &self.id, &self.nodes[1])
    }

    /// The number of leaves.
    pub fn leaves(&self) -> u32
        ensures value { result ≡ 2 ^ self.now.levels }
        ensures low { self.now.levels ≤ 10 }
    {
        leaves(self.levels)
    }

    /// The signature of a message with a leaf. The leaf must not be used for anything else.
    #[tactic(auto, unfolding(crate::specs::Key::key_signature))]
    pub fn sign(&self, leaf: u32, message: &[u8]) -> Result<Seal, NoMemory>
        requires { leaf < 2 ^ self.now.levels }
        ensures { IfOk result (λ seal. seal ≡ key_signature self.now leaf message.now) }
    {
        let signature = self.keys[leaf as usize].sign(message);
        let bytes = signature_bytes(
            self.alloc,
            &self.id,
            &self.seed,
            self.levels,
            self.nodes.as_slice(),
            leaf,
            &signature,
        )?;
        Ok(Seal::of(bytes))
    }
}

fn public_bytes(kind: u32, id: &[u8; 16], root: &[u8; 32]) -> [u8; 56]
    ensures { result ≡ to_be_bytes w32 kind ++ to_be_bytes w32 3 ++ id.now ++ root.now }
{
    let mut buffer = [0u8; 56];
    put(&mut buffer, 0, &kind.to_be_bytes());
    put(&mut buffer, 4, &3u32.to_be_bytes());
    put(&mut buffer, 8, id);
    put(&mut buffer, 24, root);
    buffer
}

/// Writes bytes at an offset of the buffer.
fn put(buffer: &mut [u8; 56], at: usize, bytes: &[u8])
    requires { at + length bytes.now ≤ 56 }
    ensures { take (at + length bytes.now) buffer.new ≡ take at buffer.old ++ bytes.now }
{
    let end = at + bytes.len();
    buffer[at..end].copy_from_slice(bytes);
}
