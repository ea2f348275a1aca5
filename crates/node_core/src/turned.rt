ghost use Rattle.std.specs.Prelude.{◌≡◌, []};

use crate::Reason;
use seq_base::{Bytes, Items, Outgoing, Outgoings};
use std::alloc::Global;
use std::error::Error;
use std::{fmt, mem};

/// Statements that a turn sealed, in order.
pub type Statements = Items<Bytes>;

/// The result of a turn.
pub struct Turned {
    pub reason: Reason,
    /// The number of transactions that the node knows after the turn, at most `u32::MAX`.
    pub kept: u32,
    pub sealed: Statements,
    pub sends: Outgoings,
}

impl Drop for Turned {
    fn drop(self) {
        let Turned {
            reason: _,
            kept: _,
            sealed: _,
            sends: _,
        } = self;
    }
}

impl Turned {
    /// Takes the sends out. The result then has none.
    pub fn take_sends(&mut self, alloc: Global) -> Vec<Outgoing>
        ensures sends { result.items ≡ self.old.sends }
        ensures rest { self.new ≡ record self.old { sends = [] } }
    {
        mem::replace(&mut self.sends, Outgoings::of(Vec::new(alloc))).into_vec()
    }
}

/// Why a call returned no turn.
#[derive(Clone, Copy, Debug, PartialEq, Eq)]
pub enum NodeFault {
    /// Out of memory. After [`Node::turn`] the node is halted; [`Node::idle_turn`] leaves it as it was.
    NoMemory,
    /// The node is halted: an earlier [`Node::turn`] returned a fault.
    Halted,
}

impl fmt::Display for NodeFault {
    ghost use Rattle.std.specs.Prelude.{Some};
    ghost use Rattle.node_core.specs.FaultWords.{fault_words};

    ghost output = { λ fault. Some (fault_words fault) };

    fn fmt<W: fmt::Write>(&self, f: &mut fmt::Formatter<W>) -> fmt::Result {
        f.write_str(match self {
            NodeFault::NoMemory => "no memory",
            NodeFault::Halted => "the node is halted",
        })
    }
}

impl Error for NodeFault {}
