//! A run of one replica, whose messages go to itself: its log, what is final, and what it tells of its state.
use super::bench::Bench;
use crate::acting::themis_act;
use crate::foreseeing::themis_would_change;
use crate::outcome::{themis_send, themis_sends};
use crate::preparing::{
    themis_prepare_arrived, themis_prepare_deliver, themis_prepare_tick, themis_record,
};
use crate::state::{
    themis_batch, themis_batches, themis_give, themis_gives, themis_is_proposed, themis_known,
    themis_views,
};
use crate::{AGAIN, CTx, LONG, NONE, OK, SHORT};
use std::alloc::Global;
use std::test::Fail;

const TX: CTx = CTx {
    client: 7,
    number: 1,
    payload: 70,
};

const OTHER: CTx = CTx {
    client: 8,
    number: 1,
    payload: 80,
};

/// A run, with the log of the replica and its messages.
#[derive(Drop)]
pub(crate) struct Run {
    pub(crate) bench: Bench,
    pub(crate) log: Vec<u8>,
    pub(crate) messages: Vec<Vec<u8>>,
}

/// A new replica, with the header of its log.
fn begun(alloc: Global) -> Result<Run, Fail> {
    let mut bench = Bench::new(alloc);
    if bench.open_one(&[]) != OK {
        return Err(Fail::new("not opened"));
    }
    let log = bench.header()?;
    Ok(Run {
        bench,
        log,
        messages: Vec::new(alloc),
    })
}

impl Run {
    /// The status of the turn on the event that is prepared, after its record is appended to the log.
    fn act(&mut self) -> Result<u32, Fail> {
        let Bench {
            alloc,
            handle,
            buffer,
            size,
            number,
            ..
        } = &mut self.bench;
        if themis_record(*alloc, handle, 0, buffer, size) != OK {
            return Err(Fail::new("no record"));
        }
        self.log
            .extend_from_slice(buffer.get(..*size).unwrap_or(&[]))?;
        Ok(themis_act(*alloc, handle, number))
    }

    fn arrive(&mut self) -> Result<bool, Fail> {
        let Bench { alloc, handle, .. } = &mut self.bench;
        let status = themis_prepare_arrived(*alloc, handle, &[TX]);
        Ok(status == OK && self.act()? == OK)
    }

    fn tick(&mut self) -> Result<bool, Fail> {
        let Bench { alloc, handle, .. } = &mut self.bench;
        let status = themis_prepare_tick(*alloc, handle, 0);
        Ok(status == OK && self.act()? == OK)
    }

    /// The message that the last turn sent.
    fn sent(&mut self) -> Result<Option<Vec<u8>>, Fail> {
        let Bench {
            alloc,
            handle,
            buffer,
            size,
            number,
            ..
        } = &mut self.bench;
        if themis_send(*alloc, handle, 0, number, buffer, size) == OK {
            Ok(Some(self.bench.copied()?))
        } else {
            Ok(None)
        }
    }

    fn prepare(&mut self, message: &[u8]) -> u32 {
        let Bench { alloc, handle, .. } = &mut self.bench;
        themis_prepare_deliver(*alloc, handle, 0, message)
    }

    /// Whether the turn on a message would change the replica: the status, and what it writes.
    fn foretold(&mut self, from: u32, message: &[u8]) -> (u32, u32) {
        let Bench {
            alloc,
            handle,
            number,
            ..
        } = &mut self.bench;
        *number = 9;
        let status = themis_would_change(*alloc, handle, from, message, number);
        (status, *number)
    }

    /// Delivers each message of the last turn, and those that follow it.
    fn deliver(&mut self) -> Result<bool, Fail> {
        for _ in 0..40 {
            let Some(message) = self.sent()? else {
                return Ok(true);
            };
            if self.prepare(message.as_slice()) != OK || self.act()? != OK {
                return Ok(false);
            }
            self.messages.push(message)?;
        }
        Ok(false)
    }
}

/// The run after a transaction arrived, and a tick.
pub(crate) fn played(alloc: Global) -> Result<Run, Fail> {
    let mut run = begun(alloc)?;
    if run.arrive()? && run.tick()? && run.deliver()? {
        Ok(run)
    } else {
        Err(Fail::new("not played"))
    }
}

/// The replica's view, and that of its committed block.
fn views(bench: &mut Bench) -> Option<(u32, u32)> {
    let Bench {
        alloc,
        handle,
        number,
        ..
    } = bench;
    let mut commit = 0;
    if themis_views(*alloc, handle, number, &mut commit) == OK {
        Some((*number, commit))
    } else {
        None
    }
}

/// Whether the only batch is final, and copied where the buffer has room.
fn has_batch(bench: &mut Bench) -> bool {
    let Bench {
        alloc,
        handle,
        count,
        ..
    } = bench;
    let alloc = *alloc;
    let mut txs = [OTHER];
    let one = themis_batches(alloc, handle, count) == OK && *count == 1;
    let none = themis_batch(alloc, handle, 1, &mut txs, count) == NONE;
    let short = themis_batch(alloc, handle, 0, &mut [], count) == SHORT && *count == 1;
    let kept = txs[0].client == 8;
    let copied = themis_batch(alloc, handle, 0, &mut txs, count) == OK && *count == 1;
    one && none && short && kept && copied && is_tx(&txs[0])
}

fn is_tx(tx: &CTx) -> bool {
    tx.client == 7 && tx.number == 1 && tx.payload == 70
}

/// Whether one transaction is known, and it alone is proposed.
fn knows(bench: &mut Bench) -> bool {
    let Bench {
        alloc,
        handle,
        number,
        ..
    } = bench;
    let alloc = *alloc;
    let one = themis_known(alloc, handle, number) == OK && *number == 1;
    let proposed = themis_is_proposed(alloc, handle, &TX, number) == OK && *number == 1;
    let other = themis_is_proposed(alloc, handle, &OTHER, number) == OK && *number == 0;
    one && proposed && other
}

/// Whether its blocks are given from the first on.
fn gives(bench: &mut Bench) -> bool {
    let Bench {
        alloc,
        handle,
        buffer,
        size,
        count,
        ..
    } = bench;
    let alloc = *alloc;
    let some = themis_gives(alloc, handle, 0, count) == OK && *count == 4;
    let none = themis_give(alloc, handle, 0, 4, buffer, size) == NONE;
    let short = themis_give(alloc, handle, 0, 0, &mut [], size) == SHORT && *size > 0;
    some && none && short && themis_give(alloc, handle, 0, 0, buffer, size) == OK
}

/// Whether a transaction is final at the replica, and at one that is opened over its log.
fn orders(alloc: Global) -> Result<bool, Fail> {
    let mut run = played(alloc)?;
    let bench = &mut run.bench;
    let first = has_batch(bench) && knows(bench) && gives(bench);
    let stands = views(bench);
    let again = bench.open_one(run.log.as_slice()) == OK && bench.size == run.log.len();
    Ok(
        first
            && again
            && stands == Some((4, 2))
            && views(bench) == stands
            && has_batch(bench)
            && knows(bench),
    )
}

#[test]
fn a_transaction_is_final_again_after_the_log(rt: HostRuntime) -> Result<(), Fail> {
    assert!(rt; orders(rt.alloc())?);
    Ok(())
}

/// The statuses of a new replica's turns on a block and on the vote for it, which were both prepared before; and of the vote,
/// prepared again.
fn prepared_before(alloc: Global) -> Result<[u32; 3], Fail> {
    let other = played(alloc)?;
    let mut run = begun(alloc)?;
    let (Some(block), Some(vote)) = (other.messages.get(3), other.messages.get(4)) else {
        return Err(Fail::new("no vote"));
    };
    if run.prepare(block.as_slice()) != OK || run.prepare(vote.as_slice()) != OK {
        return Err(Fail::new("not prepared"));
    }
    let first = run.act()?;
    let second = run.act()?;
    run.prepare(vote.as_slice());
    Ok([first, second, run.act()?])
}

#[test]
fn an_event_is_prepared_again_after_another_turn(rt: HostRuntime) -> Result<(), Fail> {
    assert!(rt; prepared_before(rt.alloc())? == [OK, AGAIN, OK]);
    Ok(())
}

/// Whether a new replica acts on garbage that was prepared twice, which is refused for its form, and logs nothing.
fn acts_unlogged(alloc: Global) -> Result<bool, Fail> {
    let mut run = begun(alloc)?;
    let size = run.log.len();
    let prepared = run.prepare(&[9]) == OK && run.prepare(&[9]) == OK;
    let first = run.act()? == OK && run.bench.number == 1;
    let second = run.act()? == OK && run.bench.number == 1;
    Ok(prepared && first && second && run.log.len() == size)
}

#[test]
fn events_that_change_nothing_wait_in_turn(rt: HostRuntime) -> Result<(), Fail> {
    assert!(rt; acts_unlogged(rt.alloc())?);
    Ok(())
}

/// Whether a new replica tells a block, which would change it, from the vote for it and from garbage, which would not.
fn foretells(alloc: Global) -> Result<bool, Fail> {
    let other = played(alloc)?;
    let mut run = begun(alloc)?;
    let (Some(block), Some(vote)) = (other.messages.get(3), other.messages.get(4)) else {
        return Err(Fail::new("no vote"));
    };
    Ok(
        run.foretold(0, block.as_slice()) == (OK, 1)
            && run.foretold(0, vote.as_slice()) == (OK, 0)
            && run.foretold(0, &[9]) == (OK, 0)
            && run.foretold(256, &[9]) == (LONG, 9),
    )
}

#[test]
fn a_replica_says_what_would_change_it(rt: HostRuntime) -> Result<(), Fail> {
    assert!(rt; foretells(rt.alloc())?);
    Ok(())
}

/// A sender above 255 has no room in a record.
fn long(alloc: Global) -> Result<u32, Fail> {
    let mut run = begun(alloc)?;
    let Bench { handle, .. } = &mut run.bench;
    Ok(themis_prepare_deliver(alloc, handle, 256, &[9]))
}

#[test]
fn an_event_without_room_in_a_record_is_long(rt: HostRuntime) -> Result<(), Fail> {
    assert!(rt; long(rt.alloc())? == LONG);
    Ok(())
}

/// How many messages the last turn sent.
fn sends(bench: &mut Bench) -> Option<usize> {
    let Bench {
        alloc,
        handle,
        count,
        ..
    } = bench;
    if themis_sends(*alloc, handle, count) == OK {
        Some(*count)
    } else {
        None
    }
}

/// Whether the first turn sends one message, and the second none.
fn sends_once(alloc: Global) -> Result<bool, Fail> {
    let mut run = begun(alloc)?;
    let arrived = run.arrive()? && sends(&mut run.bench) == Some(0);
    Ok(arrived && run.tick()? && sends(&mut run.bench) == Some(1))
}

#[test]
fn a_turn_sends_its_messages(rt: HostRuntime) -> Result<(), Fail> {
    assert!(rt; sends_once(rt.alloc())?);
    Ok(())
}
