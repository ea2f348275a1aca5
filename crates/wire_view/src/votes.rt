ghost use Rattle.std.specs.Prelude.{◌≡◌, ◌≤◌, ◌<◌, length, Some, option_map, slice_get, IfOk};
ghost use Rattle.wire_view.specs.Reading.{Gives, rest_of, vote_at, votes_at};

use crate::WireFault;
use crate::fields::{prefix, read_replica, read_seal};
use seq_base::{CertVote, CertVotes, NoMemory, Seal};
use std::alloc::Global;
use std::marker::Model;

/// The votes of a certificate, in place. Their replicas are strictly ascending.
#[derive(Drop)]
pub(crate) struct VotesView<'a> {
    count: u32,
    bytes: &'a [u8],
}

impl<'a> Model for VotesView<'a> {
    ghost use Rattle.std.specs.Prelude.{List};
    ghost use Rattle.seq_base.specs.declared.block.CertVote.{CertVote};

    ghost Value = { List CertVote };

    ghost use Rattle.std.specs.Prelude.{◌≡◌, ◌≤◌, Ok, [], length};
    ghost use Rattle.wire_view.specs.Reading.{votes_at, votes_in};

    ghost view = { λ votes. votes_in votes.count votes.bytes.now };

    ghost invariant = { λ votes. (votes.count ≤ 16)
        × (length (votes_in votes.count votes.bytes.now) ≡ votes.count)
        × (votes_at votes.count 0 votes.bytes.now ≡ Ok (votes_in votes.count votes.bytes.now, [])) };
}

impl<'a> VotesView<'a> {
    pub(crate) fn len(&self) -> u32
        ensures { result ≡ length self.now }
    {
        self.count
    }

    pub(crate) fn get(&self, k: u32) -> Option<(u32, &'a [u8])>
        ensures { option_map (λ v. record { replica = v.0; seal = v.1.now }) result ≡ slice_get self.now k }
    {
        if k >= self.count {
            return None;
        }
        Some(self.at(k))
    }

    fn at(&self, k: u32) -> (u32, &'a [u8])
        requires { k < length self.now }
        ensures { slice_get self.now k ≡ Some (record { replica = result.0; seal = result.1.now }) }
    {
        let mut least = 0;
        let mut rest = self.bytes;
        for _ in 0..k {
            let Ok(((replica, _), after)) = read_vote(least, rest) else {
                unreachable!()
            };
            least = replica + 1;
            rest = after;
        }
        let Ok((vote, _)) = read_vote(least, rest) else {
            unreachable!()
        };
        vote
    }

    pub(crate) fn again(&self) -> VotesView<'a>
        ensures { result ≡ self.now }
    {
        VotesView {
            count: self.count,
            bytes: self.bytes,
        }
    }

    pub(crate) fn own(&self, alloc: Global) -> Result<CertVotes, NoMemory>
        ensures { IfOk result (λ votes. votes ≡ self.now) }
    {
        let mut votes = Vec::new(alloc);
        for k in 0..self.count {
            let (replica, seal) = self.at(k);
            let seal = Seal::of(Vec::from_slice(alloc, seal)?);
            votes.push(CertVote { replica, seal })?;
        }
        Ok(CertVotes::of(votes))
    }
}

#[tactic(auto, unfolding(crate::specs::Reading::vote_at))]
fn read_vote(least: u32, bytes: &[u8]) -> Result<((u32, &[u8]), &[u8]), WireFault>
    ensures gives { Gives (λ x. (record { replica = x.0.0; seal = x.0.1.now }, x.1.now)) result (vote_at least bytes.now) }
    ensures byte { IfOk result (λ x. x.0.0 < 256) }
{
    let (replica, rest) = read_replica(least, bytes)?;
    let (seal, rest) = read_seal(rest)?;
    Ok(((replica, seal), rest))
}

/// Skips this many votes, and returns the bytes after them.
fn skip_votes(count: u32, bytes: &[u8]) -> Result<&[u8], WireFault>
    ensures { Gives (λ x. x.now) result (rest_of (votes_at count 0 bytes.now)) }
{
    let mut least = 0;
    let mut rest = bytes;
    for _ in 0..count {
        let ((replica, _), after) = read_vote(least, rest)?;
        least = replica + 1;
        rest = after;
    }
    Ok(rest)
}

pub(crate) fn read_votes(count: u32, bytes: &[u8]) -> Result<(VotesView<'_>, &[u8]), WireFault>
    requires { count ≤ 16 }
    ensures { Gives (λ x. (x.0, x.1.now)) result (votes_at count 0 bytes.now) }
{
    let rest = skip_votes(count, bytes)?;
    let prefix = prefix(bytes, rest);
    Ok((
        VotesView {
            count,
            bytes: prefix,
        },
        rest,
    ))
}
