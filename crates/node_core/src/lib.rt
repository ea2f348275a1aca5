//! The node of one replica: a turn takes one event, and returns what the node sealed and sends.
//!
//! A crate above may rely on this. A turn is the one that the turn table defines for the event: the first test that
//! holds gives its reason. A turn judges the event first, and then applies it if no test held. Only [`Node::turn`] and
//! [`Node::sealer_mut`] change a node. The crate depends on the chain of blocks, their certificates and store, the voting
//! rule, seals, and the wire form. It must not know other nodes, links or plans.
#![tactic(auto)]

mod checks;
mod entry;
mod event;
mod judged;
mod node;
mod sending;
mod state;
mod statements;
mod turned;

pub use entry::{Entries, Entry};
pub use event::{Event, Reason};
pub use node::Node;
pub use turned::{NodeFault, Statements, Turned};
