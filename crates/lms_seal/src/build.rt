ghost use Rattle.std.specs.Prelude.{◌≡◌, ℕ, [], ◌+◌, ◌*◌, ◌^◌, ◌<◌, ◌≤◌, length, slice_index_or};
ghost use Rattle.lms_seal.specs.Tree.{inner_hash};

use crate::tree::{inner_hash, leaves};

/// Writes the nodes above the leaves. Node `r` is at place `r`.
pub(crate) fn join_nodes(id: &[u8; 16], height: u32, nodes: &mut [[u8; 32]])
    requires low { height ≤ 10 }
    requires long { length nodes.old ≡ 2 * 2 ^ height }
    ensures inners { (r : ℕ) → 1 ≤ r → r < 2 ^ height → slice_index_or nodes.new r []
        ≡ inner_hash id.now r (slice_index_or nodes.new (2 * r) []) (slice_index_or nodes.new (2 * r + 1) []) }
    ensures leaves { (r : ℕ) → 2 ^ height ≤ r → slice_index_or nodes.new r [] ≡ slice_index_or nodes.old r [] }
{
    let mut node = leaves(height);
    while node > 1 {
        node -= 1;
        let at = node as usize;
        let left = nodes[2 * at];
        let right = nodes[2 * at + 1];
        nodes[at] = inner_hash(id, node, &left, &right);
    }
}
