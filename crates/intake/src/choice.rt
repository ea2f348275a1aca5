//! Which waiting transactions are to arrive, within a cap.
use crate::arrive::is_known;
use crate::slot::{Keyed, UNKNOWN};
use crate::{Bound, Desk};
use seq_base::{NoMemory, Tx};
use std::alloc::Global;

/// The least transaction.
const LEAST: Tx = Tx {
    client: 0,
    number: 0,
    payload: 0,
};

/// A bound, and what else is let in. At most `cap` transactions arrive.
#[derive(Drop)]
pub(crate) struct Choice {
    order: Vec<Keyed>,
    cap: usize,
    bound: Option<Keyed>,
    // What is let in beyond the bound.
    extra: Vec<Keyed>,
}

impl Choice {
    /// The first ones by key.
    pub(crate) fn new(alloc: Global, order: Vec<Keyed>, cap: usize, first: usize) -> Choice {
        let bound = last_of(order.as_slice(), first.min(cap));
        Choice {
            order,
            cap,
            bound,
            extra: Vec::new(alloc),
        }
    }

    /// What is let in beyond the bound.
    pub(crate) fn extra(&self, alloc: Global) -> Result<Vec<Tx>, NoMemory> {
        let mut txs = Vec::new(alloc);
        for found in self.extra.as_slice() {
            txs.push(found.tx)?;
        }
        Ok(txs)
    }

    pub(crate) fn bound(&self) -> Option<Bound> {
        match self.bound {
            None => None,
            Some(last) => Some(Bound::To {
                key: last.key,
                tx: last.tx,
            }),
        }
    }

    /// Lets a waiting transaction in, where there is room, and all that wait and have a key below its low stamp are chosen
    /// already.
    pub(crate) fn let_in(&mut self, desk: &Desk, tx: &Tx) -> Result<bool, NoMemory> {
        match self.asks(desk, tx) {
            Some((found, last)) if self.has_all_upto(last) => self.add(found, last),
            _ => Ok(false),
        }
    }

    /// Lets a waiting transaction in, with all that wait and have a key below its low stamp, where there is room for them.
    pub(crate) fn let_in_with_smaller(&mut self, desk: &Desk, tx: &Tx) -> Result<bool, NoMemory> {
        match self.asks(desk, tx) {
            Some((found, last)) => self.add(found, last),
            None => Ok(false),
        }
    }

    /// A waiting transaction that is not chosen yet, and up to where all others have to be chosen with it: all below its low
    /// stamp, which has to be known.
    fn asks(&self, desk: &Desk, tx: &Tx) -> Option<(Keyed, Keyed)> {
        let (found, low) = desk.ranks_of(tx)?;
        if low == UNKNOWN || self.holds(found) {
            return None;
        }
        Some((
            found,
            Keyed {
                key: low,
                tx: LEAST,
            },
        ))
    }

    /// Adds a transaction with all up to this bound, where there is room.
    fn add(&mut self, found: Keyed, last: Keyed) -> Result<bool, NoMemory> {
        let within = self.count_upto(last).max(self.within());
        if self.cap <= within.saturating_add(self.count_beyond(last)) {
            return Ok(false);
        }
        self.extra.push(found)?;
        self.raise(last);
        Ok(true)
    }

    /// Whether a transaction is chosen already.
    pub(crate) fn holds(&self, found: Keyed) -> bool {
        self.is_within(found) || self.extra.as_slice().contains(&found)
    }

    /// Whether all up to a bound are chosen.
    fn has_all_upto(&self, last: Keyed) -> bool {
        for at in self.within()..self.count_upto(last) {
            match self.order.get(at) {
                Some(found) if self.holds(*found) => {}
                _ => return false,
            }
        }
        true
    }

    fn is_within(&self, found: Keyed) -> bool {
        match self.bound {
            None => false,
            Some(last) => is_upto(found, last),
        }
    }

    /// What the bound reaches is no longer beyond it.
    fn raise(&mut self, last: Keyed) {
        if !self.reaches(last) {
            self.bound = Some(last);
            self.extra.retain(|found| !is_upto(*found, last));
        }
    }

    fn reaches(&self, last: Keyed) -> bool {
        match self.bound {
            None => false,
            Some(bound) => last <= bound,
        }
    }

    /// How many are within the bound.
    fn within(&self) -> usize {
        match self.bound {
            None => 0,
            Some(last) => self.count_upto(last),
        }
    }

    /// How many are to arrive, at most.
    pub(crate) fn count(&self) -> usize {
        self.within().saturating_add(self.extra.len())
    }

    /// How many of those that are let in are beyond a bound.
    fn count_beyond(&self, last: Keyed) -> usize {
        let beyond = self.extra.iter().filter(|found| !is_upto(**found, last));
        beyond.count()
    }

    fn count_upto(&self, last: Keyed) -> usize {
        self.order
            .as_slice()
            .partition_point(|found| *found <= last)
    }
}

fn is_upto(found: Keyed, last: Keyed) -> bool {
    is_known(found) && found <= last
}

/// The last of the first ones.
fn last_of(order: &[Keyed], first: usize) -> Option<Keyed> {
    let count = first.min(order.len());
    if count == 0 {
        return None;
    }
    Some(order[count - 1])
}
