//! What the intake asks of the chain.
use hss_seal::AnySealer;
use intake::Chain;
use node_core::Node;
use seq_base::{NoMemory, Tx};
use std::marker::Model;

/// The chain that ends in the block of the highest certificate.
#[derive(Drop)]
pub(crate) struct Certified<'a> {
    pub(crate) node: &'a Node<AnySealer>,
}

impl<'a> Model for Certified<'a> {
    ghost use Rattle.node_core.specs.State.{Known};

    ghost Value = { Known };

    ghost view = { λ chain. chain.node.now.state.known };
}

impl<'a> Chain for Certified<'a> {
    ghost use Rattle.replica_box.specs.Seats.{proposes};

    ghost proposes = { proposes };

    fn is_proposed(&self, tx: &Tx) -> Result<bool, NoMemory> {
        self.node.is_proposed(tx)
    }
}
