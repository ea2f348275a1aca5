//! Copies of certificates, which a node keeps.
ghost use Rattle.std.specs.Prelude.{◌≡◌, IfOk};

use seq_base::{Cert, CertVote, CertVotes, NoMemory, Seal};
use std::alloc::Global;

/// A copy of a certificate.
pub(crate) fn copy_of(alloc: Global, cert: &Cert) -> Result<Cert, NoMemory>
    ensures { IfOk result (λ copy. copy ≡ cert.now) }
{
    let votes = copies_of(alloc, cert.votes.as_slice())?;
    Ok(Cert {
        view: cert.view,
        block: cert.block,
        votes: CertVotes::of(votes),
    })
}

fn copies_of(alloc: Global, votes: &[CertVote]) -> Result<Vec<CertVote>, NoMemory>
    ensures { IfOk result (λ copies. copies.items ≡ votes.now) }
{
    let mut copies = Vec::with_capacity(alloc, votes.len())?;
    for vote in votes {
        copies.push(copy_of_vote(alloc, vote)?)?;
    }
    Ok(copies)
}

fn copy_of_vote(alloc: Global, vote: &CertVote) -> Result<CertVote, NoMemory>
    ensures { IfOk result (λ copy. copy ≡ vote.now) }
{
    let seal = Vec::from_slice(alloc, vote.seal.as_slice())?;
    Ok(CertVote {
        replica: vote.replica,
        seal: Seal::of(seal),
    })
}
