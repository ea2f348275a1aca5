ghost use Rattle.std.specs.Prelude.{◌≡◌, ◌==◌, length, option_map, slice_get, IfOk};
ghost use Rattle.wire_view.specs.Reading.{Gives, cert_at};

use crate::WireFault;
use crate::fields::{read_digest, read_short_count, read_u32};
use crate::votes::{VotesView, read_votes};
use seq_base::{Cert, Digest, NoMemory};
use std::alloc::Global;
use std::marker::Model;

/// The maximum number of votes in a certificate.
const MAX_VOTES: u32 = 16;

/// A certificate, in place.
#[derive(Drop)]
pub struct CertView<'a> {
    view: u32,
    block: Digest,
    votes: VotesView<'a>,
}

impl<'a> Model for CertView<'a> {
    ghost use Rattle.seq_base.specs.declared.block.Cert.{Cert};

    ghost Value = { Cert };

    ghost view = { λ cert. record { view = cert.view; block = cert.block; votes = cert.votes } };
}

impl<'a> CertView<'a> {
    pub fn view(&self) -> u32
        ensures { result ≡ self.now.view }
    {
        self.view
    }

    /// The digest of the block that the votes are for.
    pub fn block(&self) -> Digest
        ensures { result ≡ self.now.block }
    {
        self.block
    }

    /// The number of votes.
    pub fn len(&self) -> u32
        ensures { result ≡ length self.now.votes }
    {
        self.votes.len()
    }

    /// Whether there are no votes, as in the first block's certificate.
    pub fn is_empty(&self) -> bool
        ensures { result ≡ (length self.now.votes == 0) }
    {
        self.votes.len() == 0
    }

    /// The replica and the seal of the vote at index `k`, from 0, or `None` at or past the end.
    pub fn vote(&self, k: u32) -> Option<(u32, &'a [u8])>
        ensures { option_map (λ v. record { replica = v.0; seal = v.1.now }) result ≡ slice_get self.now.votes k }
    {
        self.votes.get(k)
    }

    pub(crate) fn again(&self) -> CertView<'a>
        ensures { result ≡ self.now }
    {
        CertView {
            view: self.view,
            block: self.block,
            votes: self.votes.again(),
        }
    }

    /// An owned copy of the certificate.
    pub fn own(&self, alloc: Global) -> Result<Cert, NoMemory>
        ensures { IfOk result (λ cert. cert ≡ self.now) }
    {
        Ok(Cert {
            view: self.view,
            block: self.block,
            votes: self.votes.own(alloc)?,
        })
    }
}

#[tactic(auto, unfolding(crate::specs::Reading::cert_at))]
pub(crate) fn read_cert(bytes: &[u8]) -> Result<(CertView<'_>, &[u8]), WireFault>
    ensures { Gives (λ x. (x.0, x.1.now)) result (cert_at bytes.now) }
{
    let (view, rest) = read_u32(bytes)?;
    let (block, rest) = read_digest(rest)?;
    let (count, rest) = read_short_count(MAX_VOTES, rest)?;
    let (votes, rest) = read_votes(count, rest)?;
    Ok((CertView { view, block, votes }, rest))
}
