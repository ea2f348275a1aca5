//! The strong components of a proposal, numbered in a topological order, in one depth-first pass.
//!
//! What a crate above may rely on: two vertices have the same number exactly where walks lead both ways, no edge
//! leads to a smaller number, and the numbers are those below the count.
//!
//! The pass keeps a path of groups of vertices. From each vertex of the path a walk leads to each vertex of its own
//! group and of the groups below. The pass follows edges backwards from the top group:
//!
//! - An edge from an unseen vertex opens a new group on top.
//! - An edge from a group below joins the groups from there on into one.
//! - Where every edge into the top group comes from a closed vertex or from the group itself, the group is a
//!   component. It is closed with the next number.
//!
//! So whatever leads into a component is closed before it. The search for edges into a vertex resumes where it
//! stopped, so each entry of the graph is looked at twice at most. The vertices of the path are also kept as a list, in
//! the order in which they were entered. The top group is the end of that list, so that closing it takes a step for
//! each of its vertices.
//!
//! The crate depends on `majority_graph`, on the definitions of `batch_laws` and, for the law that the reachability
//! table agrees, on `walks`. It must not know classes, batches as lists or texts.
#![tactic(auto)]

mod grouping;
mod laws;
mod pass;
mod place;
mod step;

pub use grouping::{Grouping, components};
pub use laws::equal_numbers_are_reached_both_ways;
