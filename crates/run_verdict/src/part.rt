use std::marker::Model;

/// A seal, and the replica and the statement that it is for.
#[derive(Drop)]
pub(crate) struct Part<'a> {
    pub(crate) signer: u32,
    pub(crate) statement: &'a [u8],
    pub(crate) seal: &'a [u8],
}

impl<'a> Model for Part<'a> {
    ghost use Rattle.run_verdict.specs.Parts.{Part, part};

    ghost Value = { Part };

    ghost view = { λ p. part p.signer p.statement.now p.seal.now };
}
