ghost use Rattle.std.specs.Prelude.{◌≡◌, ◌<◌, IfOk, length, All};
ghost use Rattle.std.specs.List.{position_or_len};
ghost use Rattle.std.specs.List.Sorted.{IsPermutation};
ghost use Rattle.line_up.specs.Line.{line_of};
ghost use Rattle.line_up.specs.Paths.{has_edge, HaveEdges, IsPath};

use majority_graph::{Edge, Proposal};
use seq_base::NoMemory;
use std::alloc::Global;

/// The members in their line: each in turn is inserted right before the first one that it has an edge to, or after
/// all.
pub fn line(alloc: Global, proposal: &Proposal, members: &[u32]) -> Result<Vec<u32>, NoMemory>
    requires inside { All (λ v. v < length proposal.now.vertices) members.now }
    requires edges { HaveEdges proposal.now members.now }
    ensures line { IfOk result (λ line. line.items ≡ line_of (has_edge proposal.now) members.now) }
    ensures each { IfOk result (λ line. IsPermutation members.now line.items) }
    ensures edges { IfOk result (λ line. IsPath proposal.now line.items) }
{
    let mut line = Vec::with_capacity(alloc, members.len())?;
    for member in members {
        let place = place_of(proposal, &line, *member);
        line.insert(place, *member)?;
    }
    Ok(line)
}

/// The position of the first entry that a vertex has an edge to, or the line's length.
fn place_of(proposal: &Proposal, line: &[u32], member: u32) -> usize
    requires from { member < length proposal.now.vertices }
    requires inside { All (λ v. v < length proposal.now.vertices) line.now }
    ensures { result ≡ position_or_len (has_edge proposal.now member) line.now }
{
    for (at, entry) in line.iter().enumerate() {
        if proposal.edge(member, *entry) == Edge::To {
            return at;
        }
    }
    line.len()
}
