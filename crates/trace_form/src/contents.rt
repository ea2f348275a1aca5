//! The contents of a trace, and the record that they describe.
ghost use Rattle.std.specs.Prelude.{◌≡◌, IfOk};
ghost use Rattle.trace_form.specs.Gives.{Gives};
ghost use Rattle.trace_form.specs.Contents.{trace_of};
ghost use Rattle.trace_form.specs.Reading.{whole};
ghost use Rattle.trace_form.specs.Form.{contents_at};

use crate::account::{Accounts, read_accounts};
use crate::fault::Stop;
use crate::fields::read_lists;
use crate::opening::{Opening, read_opening};
use crate::trace::Trace;
use run_record::{BatchLists, Heads, Journals, RunRecord};
use seq_base::{NoMemory, TxLists};
use std::alloc::Global;

/// All that a trace records. The lists have one item for each replica.
pub struct Contents {
    pub opening: Opening,
    pub arrivals: TxLists,
    pub accounts: Accounts,
}

impl Drop for Contents {
    fn drop(self) {
        let Contents {
            opening: _,
            arrivals: _,
            accounts: _,
        } = self;
    }
}

/// Reads all of the bytes.
pub(crate) fn read_whole(alloc: Global, bytes: &[u8]) -> Result<Contents, Stop>
    ensures { Gives (λ x. x) result (whole (contents_at bytes.now)) }
{
    let (contents, rest) = read_contents(alloc, bytes)?;
    if !rest.is_empty() {
        return Err(Stop::Left(rest.len()));
    }
    Ok(contents)
}

#[tactic(auto, unfolding(crate::specs::Form::contents_at))]
fn read_contents(alloc: Global, bytes: &[u8]) -> Result<(Contents, &[u8]), Stop>
    ensures { Gives (λ x. (x.0, x.1.now)) result (contents_at bytes.now) }
{
    let (opening, rest) = match read_opening(alloc, bytes) {
        Ok(read) => read,
        Err(stop) => return Err(stop),
    };
    let n = opening.setting.n();
    let (arrivals, rest) = read_lists(alloc, true, n, rest)?;
    let (accounts, rest) = read_accounts(alloc, n, &opening.faulty, rest)?;
    let contents = Contents {
        opening,
        arrivals: TxLists::of(arrivals),
        accounts,
    };
    Ok((contents, rest))
}

impl Contents {
    /// The trace with these contents.
    pub(crate) fn into_trace(self, alloc: Global) -> Result<Trace, NoMemory>
        ensures { IfOk result (λ trace. trace ≡ trace_of self) }
    {
        let Contents {
            opening,
            arrivals,
            accounts,
        } = self;
        let Opening {
            setting,
            span,
            turns,
            ticks,
            faulty,
        } = opening;
        let mut journals = Vec::new(alloc);
        let mut heads = Vec::new(alloc);
        let mut batches = Vec::new(alloc);
        for account in accounts.into_vec() {
            journals.push(account.journal)?;
            heads.push(account.head)?;
            batches.push(account.batches)?;
        }
        let run = RunRecord {
            setting,
            faulty,
            arrivals,
            journals: Journals::of(journals),
            heads: Heads::of(heads),
            batches: BatchLists::of(batches),
            turns,
            ticks,
        };
        Ok(Trace {
            run,
            keys: span.keys,
            height: span.height,
            views: span.views,
        })
    }
}
