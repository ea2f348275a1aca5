ghost use Rattle.std.specs.Prelude.{◌≡◌, ◌+◌, ◌*◌, ◌^◌, ◌<◌, ◌≤◌, length, true};
ghost use Rattle.lm_ots.specs.Ots.{parts_of};
ghost use Rattle.lms_seal.specs.Bytes as bytes_spec;
ghost use Rattle.lms_seal.specs.Fits as spec;

use crate::bytes::{hash_at, number_at};
use crate::tree::{kind_of, leaf_hash, leaves, parent};
use lm_ots::ots_candidate;

/// Whether a signature fits a message under a public key. The signature may be any bytes.
#[tactic(auto, unfolding(crate::specs::Fits::fits))]
pub fn lms_verify(public: &[u8; 56], message: &[u8], signature: &[u8]) -> bool
    ensures { result ≡ spec.fits public.now message.now signature.now }
{
    fits_at(5, public, message, signature) || fits_at(10, public, message, signature)
}

fn fits_at(height: u32, public: &[u8; 56], message: &[u8], signature: &[u8]) -> bool
    requires { height ≤ 10 }
    ensures { result ≡ spec.fits_at height public.now message.now signature.now }
{
    if !heads_fit(height, public, signature) {
        return false;
    }
    let mut id = [0u8; 16];
    id.copy_from_slice(&public[8..24]);
    root(height, &id, message, signature) == hash_at(public, 24)
}

/// Whether type codes and lengths are those of the height, and the leaf is one of the tree.
fn heads_fit(height: u32, public: &[u8; 56], signature: &[u8]) -> bool
    requires { height ≤ 10 }
    ensures is { result ≡ spec.heads_fit height public.now signature.now }
    ensures whole { result ≡ true → length signature.now ≡ 2188 + 32 * height }
    ensures leaf { result ≡ true → bytes_spec.number_at signature.now 0 < 2 ^ height }
{
    let kind = kind_of(height);
    number_at(public, 0) == kind
        && number_at(public, 4) == 3
        && signature.len() == 2188 + 32 * height as usize
        && number_at(signature, 4) == 3
        && number_at(signature, 2184) == kind
        && number_at(signature, 0) < leaves(height)
}

/// The root to which a signature leads.
fn root(height: u32, id: &[u8; 16], message: &[u8], signature: &[u8]) -> [u8; 32]
    requires low { height ≤ 10 }
    requires whole { length signature.now ≡ 2188 + 32 * height }
    requires leaf { bytes_spec.number_at signature.now 0 < 2 ^ height }
    ensures { result ≡ spec.root_of id.now height message.now signature.now }
{
    let leaf = number_at(signature, 0);
    let key = ots_candidate(id, leaf, message, &hash_at(signature, 8), &parts(signature));
    let node = leaves(height) + leaf;
    climbed(height, id, signature, node, leaf_hash(id, node, &key))
}

/// The parts of the one-time signature.
fn parts(signature: &[u8]) -> [[u8; 32]; 67]
    requires { 2184 ≤ length signature.now }
    ensures { result ≡ parts_of 67 (spec.part_at signature.now) }
{
    let mut parts = [[0u8; 32]; 67];
    for i in 0..67 {
        parts[i] = hash_at(signature, 40 + 32 * i);
    }
    parts
}

/// Follows the path from a leaf's node upwards.
fn climbed(height: u32, id: &[u8; 16], signature: &[u8], node: u32, leaf: [u8; 32]) -> [u8; 32]
    requires { length signature.now ≡ 2188 + 32 * height }
    ensures { result ≡ spec.climbed id.now signature.now node leaf height }
{
    let mut own = leaf;
    let mut at = node;
    for level in 0..height {
        let other = hash_at(signature, 2188 + 32 * level as usize);
        own = parent(id, at, &own, &other);
        at /= 2;
    }
    own
}
