ghost use Rattle.std.specs.Prelude.{◌≡◌, ◌+◌, ◌^◌, ◌<◌, ◌≤◌, ◌++◌, IfOk, OnOk};
ghost use Rattle.std.specs.Int.{w32, to_be_bytes};
ghost use Rattle.std.specs.List.{concat};
ghost use Rattle.lm_ots.specs.Ots.{parts_of};
ghost use Rattle.lms_seal.specs.Tree as spec;
ghost use Rattle.lms_seal.specs.Tree.{IsTree, path_node};

use crate::tree::{kind_of, leaves, sibling};
use lm_ots::OtsSignature;
use std::alloc::{AllocError, Global};

/// The signature of a tree: the leaf, the one-time signature with the leaf's key, and the path through the nodes of the
/// tree.
pub(crate) fn signature_bytes(
    alloc: Global,
    id: &[u8; 16],
    seed: &[u8; 32],
    height: u32,
    nodes: &[[u8; 32]],
    leaf: u32,
    signature: &OtsSignature,
) -> Result<Vec<u8>, AllocError>
    requires low { height ≤ 10 }
    requires tree { IsTree id.now seed.now height nodes.now }
    requires within { leaf < 2 ^ height }
    ensures { IfOk result (λ bytes. bytes.items ≡ to_be_bytes w32 leaf ++ (to_be_bytes w32 3 ++ signature.now.random ++ concat signature.now.parts)
        ++ to_be_bytes w32 (spec.kind_of height) ++ concat (parts_of height (path_node id.now seed.now height leaf))) }
{
    let mut bytes = Vec::new(alloc);
    bytes.extend_from_slice(&leaf.to_be_bytes())?;
    bytes.extend_from_slice(&3u32.to_be_bytes())?;
    bytes.extend_from_slice(&signature.random)?;
    append_parts(&mut bytes, &signature.parts)?;
    bytes.extend_from_slice(&kind_of(height).to_be_bytes())?;
    append_path(&mut bytes, id, seed, height, nodes, leaf)?;
    Ok(bytes)
}

fn append_parts(bytes: &mut Vec<u8>, parts: &[[u8; 32]; 67]) -> Result<(), AllocError>
    ensures { OnOk result (bytes.new.items ≡ bytes.old.items ++ concat parts.now) }
{
    for i in 0..67 {
        bytes.extend_from_slice(&parts[i])?;
    }
    Ok(())
}

/// Appends the siblings on the path from a leaf to the root. The identifier and the seed are not read.
fn append_path(
    bytes: &mut Vec<u8>,
    id: &[u8; 16],
    seed: &[u8; 32],
    height: u32,
    nodes: &[[u8; 32]],
    leaf: u32,
) -> Result<(), AllocError>
    requires low { height ≤ 10 }
    requires tree { IsTree id.now seed.now height nodes.now }
    requires within { leaf < 2 ^ height }
    ensures { OnOk result (bytes.new.items ≡ bytes.old.items ++ concat (parts_of height (path_node id.now seed.now height leaf))) }
{
    let mut node = leaves(height) + leaf;
    for level in 0..height {
        let other = sibling(node);
        bytes.extend_from_slice(&nodes[other as usize])?;
        node /= 2;
    }
    Ok(())
}
