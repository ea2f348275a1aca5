//! Exceptions, where the chain is stuck.
ghost use Rattle.std.specs.Prelude.{◌≡◌, ◌≤◌, ◌+◌, length, IfOk};
ghost use Rattle.intake.specs.Offered.{AreWaiting, HasNamed, given_all};

use crate::chain::{Chain, keep_unproposed};
use crate::choice::Choice;
use crate::naming::receive_named;
use crate::{Desk, Intake};
use seq_base::{NoMemory, Tx};

/// After this number of blocks in a row that propose nothing, exceptions are given.
const MAX_IDLE: u32 = 20;

/// How many exceptions the lists of all replicas may have that no block proposes yet.
const GIVEN: usize = 16;

impl Intake {
    // Transactions of the last lists that wait and are not chosen. Those that are not held are received.
    pub(crate) fn exceptions<C: Chain>(
        &mut self,
        chain: &C,
        choice: &Choice,
        room: usize,
    ) -> Result<Vec<Tx>, NoMemory>
        ensures desk { HasNamed self.old self.new }
        ensures room { IfOk result (λ given. length given.items ≤ room) }
    {
        let mut given = Vec::new(self.alloc);
        if self.hints.last.idle < MAX_IDLE {
            return Ok(given);
        }
        for at in 0..self.hints.lists.len() {
            self.except(chain, choice, room, at, &mut given)?;
        }
        Ok(given)
    }

    fn except<C: Chain>(
        &mut self,
        chain: &C,
        choice: &Choice,
        room: usize,
        at: usize,
        given: &mut Vec<Tx>,
    ) -> Result<(), NoMemory>
        requires { length given.old.items ≤ room }
        ensures desk { HasNamed self.old self.new }
        ensures room { length given.new.items ≤ room }
    {
        let share = self.share(GIVEN);
        let Some(list) = self.hints.lists.get(at) else {
            return Ok(());
        };
        let Some(before) = self.hints.given.get_mut(list.replica as usize) else {
            return Ok(());
        };
        keep_unproposed(chain, before)?;
        let txs = list.txs.as_slice();
        except_all(
            &mut self.desk,
            chain,
            choice,
            room,
            share,
            txs,
            before,
            given,
        )
    }

    /// Lets exceptions arrive. Only those stay that wait in their turn, which all that were chosen do.
    pub(crate) fn give_all(&mut self, given: &mut Vec<Tx>)
        ensures waiting { AreWaiting given.new.items self.old }
        ensures desk { self.new ≡ given_all given.new.items self.old }
        ensures fewer { length given.new.items ≤ length given.old.items }
    {
        let mut kept = 0;
        for at in 0..given.len() {
            let tx = given[at];
            if self.desk.is_waiting(&tx) {
                self.desk.give(&tx);
                given[kept] = tx;
                kept += 1;
            }
        }
        given.truncate(kept);
        self.given_count = self.given_count.saturating_add(given.len() as u64);
    }
}

/// Makes transactions of a list exceptions, while its replica has fewer than its share, and there is room.
fn except_all<C: Chain>(
    desk: &mut Desk,
    chain: &C,
    choice: &Choice,
    room: usize,
    share: usize,
    txs: &[Tx],
    before: &mut Vec<Tx>,
    given: &mut Vec<Tx>,
) -> Result<(), NoMemory>
    requires { length given.old.items ≤ room }
    ensures desk { HasNamed desk.old desk.new }
    ensures room { length given.new.items ≤ room }
{
    for tx in txs {
        if before.len() >= share || room.saturating_sub(choice.count()) <= given.len() {
            return Ok(());
        }
        except_one(desk, chain, choice, tx, before, given)?;
    }
    Ok(())
}

/// Makes a transaction of a list an exception, where it waits, is not chosen and is not proposed.
fn except_one<C: Chain>(
    desk: &mut Desk,
    chain: &C,
    choice: &Choice,
    tx: &Tx,
    before: &mut Vec<Tx>,
    given: &mut Vec<Tx>,
) -> Result<(), NoMemory>
    ensures desk { HasNamed desk.old desk.new }
    ensures one { length given.new.items ≤ length given.old.items + 1 }
{
    receive_named(desk, *tx)?;
    if given.as_slice().contains(tx) || chain.is_proposed(tx)? || !is_exception(desk, choice, tx) {
        return Ok(());
    }
    before.push(*tx)?;
    given.push(*tx)?;
    Ok(())
}

fn is_exception(desk: &Desk, choice: &Choice, tx: &Tx) -> bool {
    match desk.ranks_of(tx) {
        None => false,
        Some((found, _low)) => !choice.holds(found),
    }
}
