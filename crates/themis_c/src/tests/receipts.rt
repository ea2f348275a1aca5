//! What a replica receives, and what of it arrives. Stamps and answers were computed by hand.
use super::bench::Bench;
use super::runs::played;
use crate::arriving::{themis_arrive, themis_arrive_proposed};
use crate::received::{themis_clock, themis_held, themis_receipts, themis_standing};
use crate::receiving::{
    themis_accepted, themis_hear, themis_hear_clock, themis_restore, themis_settle, themis_submit,
};
use crate::{BAD_NUMBER, CReceipt, CTx, NONE, OK, SHORT, VACANT};
use std::alloc::Global;
use std::test::Fail;

const NEW: u32 = 0;

const HELD: u32 = 1;

const FINAL: u32 = 2;

const BEYOND: u32 = 4;

const WAITING: u32 = 1;

const ARRIVED: u32 = 2;

const SETTLED: u32 = 3;

const fn tx(number: u32) -> CTx {
    CTx {
        client: 7,
        number,
        payload: 70,
    }
}

const fn receipt(number: u32, stamp: u64) -> CReceipt {
    CReceipt {
        tx: tx(number),
        stamp,
    }
}

impl Bench {
    fn submits(&mut self, number: u32, answer: u32) -> bool {
        let Bench {
            alloc,
            handle,
            number: taken,
            ..
        } = self;
        themis_submit(*alloc, handle, &tx(number), taken) == OK && *taken == answer
    }

    fn hears(&mut self, peer: u32, receipt: &CReceipt, status: u32, answer: u32) -> bool {
        let Bench {
            alloc,
            handle,
            number: taken,
            ..
        } = self;
        *taken = answer;
        themis_hear(*alloc, handle, peer, receipt, taken) == status && *taken == answer
    }

    fn restores(&mut self, number: u32, answer: u32) -> bool {
        let Bench {
            alloc,
            handle,
            number: taken,
            ..
        } = self;
        themis_restore(*alloc, handle, &tx(number), taken) == OK && *taken == answer
    }

    fn stands(&mut self, number: u32, standing: u32) -> bool {
        let Bench {
            alloc,
            handle,
            number: found,
            ..
        } = self;
        themis_standing(*alloc, handle, &tx(number), found) == OK && *found == standing
    }

    fn has_clock(&mut self, clock: u64) -> bool {
        let mut found = 0;
        themis_clock(self.alloc, &mut self.handle, &mut found) == OK && found == clock
    }

    fn holds(&mut self, held: usize, waiting: usize, own: u64) -> bool {
        let (mut all, mut left, mut clients) = (0, 0, 0);
        let Bench { alloc, handle, .. } = self;
        themis_held(*alloc, handle, &mut all, &mut left, &mut clients) == OK
            && all == held
            && left == waiting
            && clients == own
    }

    /// Whether the receipts after a stamp are one, of this transaction, or none.
    fn reports(&mut self, after: u64, count: usize, number: u32, stamp: u64) -> bool {
        let mut found = [receipt(0, 0); 1];
        let Bench {
            alloc,
            handle,
            count: size,
            ..
        } = self;
        themis_receipts(*alloc, handle, after, &mut found, size) == OK
            && *size == count
            && found[0].tx.number == number
            && found[0].stamp == stamp
    }

    fn arrives(&mut self, count: usize, first: u32, last: u32) -> bool {
        let mut into = [tx(0); 480];
        let Bench {
            alloc,
            handle,
            count: size,
            size: given,
            ..
        } = self;
        *given = 9;
        themis_arrive(*alloc, handle, &mut into[..479], size, given) == SHORT
            && themis_arrive(*alloc, handle, &mut into, size, given) == OK
            && *size == count
            && *given == 0
            && into[0].number == first
            && into[1].number == last
    }

    fn arrives_proposed(&mut self, count: usize, first: u32, last: u32) -> bool {
        let mut into = [tx(0); 480];
        let Bench {
            alloc,
            handle,
            count: size,
            ..
        } = self;
        themis_arrive_proposed(*alloc, handle, &mut into[..479], size) == SHORT
            && themis_arrive_proposed(*alloc, handle, &mut into, size) == OK
            && *size == count
            && into[0].number == first
            && into[1].number == last
    }
}

/// A replica that received two transactions, the second after its clock was moved on.
fn receives(alloc: Global) -> bool {
    let mut bench = Bench::new(alloc);
    let bench = &mut bench;
    bench.open_one(&[]) == OK
        && bench.submits(1, NEW)
        && bench.submits(1, HELD)
        && bench.has_clock(1)
        && themis_hear_clock(alloc, &mut bench.handle, 1, 5) == BAD_NUMBER
        && themis_hear_clock(alloc, &mut bench.handle, 0, 5) == OK
        && bench.submits(2, NEW)
        && bench.has_clock(6)
        && bench.reports(0, 1, 1, 1)
        && bench.reports(1, 1, 2, 6)
        && bench.reports(6, 0, 0, 0)
        && bench.hears(1, &receipt(3, 8), BAD_NUMBER, 9)
        && bench.hears(0, &receipt(3, 1 << 63), OK, BEYOND)
        && bench.hears(0, &receipt(2, 7), OK, HELD)
        && bench.holds(2, 2, 2)
}

/// The same replica, of whose two transactions both arrive and one becomes final.
fn lets_arrive(alloc: Global) -> bool {
    let mut bench = Bench::new(alloc);
    let bench = &mut bench;
    bench.open_one(&[]) == OK
        && bench.submits(1, NEW)
        && bench.submits(2, NEW)
        && bench.stands(1, WAITING)
        && bench.arrives(2, 1, 2)
        && bench.stands(2, ARRIVED)
        && bench.holds(2, 0, 2)
        && bench.arrives(0, 0, 0)
        && themis_settle(alloc, &mut bench.handle, &[tx(1)]) == OK
        && bench.stands(1, SETTLED)
        && bench.submits(1, FINAL)
        && bench.restores(2, HELD)
        && bench.restores(3, NEW)
        && bench.holds(2, 0, 1)
        && bench.stands(3, ARRIVED)
        && themis_accepted(alloc, &mut bench.handle, &[9]) == NONE
}

/// A replica whose session is closing. It receives (7, 2), then the block that proposes (7, 1), then (7, 3), with the stamps
/// 1, 2 and 3. What is proposed arrives, and what has a smaller stamp.
fn closes(alloc: Global) -> Result<bool, Fail> {
    let mut run = played(alloc)?;
    let bench = &mut run.bench;
    let Some(block) = run.messages.get(3) else {
        return Err(Fail::new("no block"));
    };
    Ok(
        bench.submits(2, NEW)
            && bench.arrives_proposed(0, 0, 0)
            && themis_accepted(alloc, &mut bench.handle, block.as_slice()) == OK
            && bench.submits(3, NEW)
            && bench.arrives_proposed(2, 2, 1)
            && bench.stands(1, ARRIVED)
            && bench.stands(3, WAITING)
            && bench.arrives_proposed(0, 0, 0),
    )
}

fn no_replica_receives(alloc: Global) -> bool {
    let mut bench = Bench::new(alloc);
    let mut txs = [tx(1); 480];
    let mut receipts = [receipt(1, 1)];
    let (mut clock, mut waiting, mut own) = (0, 0, 0);
    let Bench {
        handle,
        size,
        count,
        number,
        ..
    } = &mut bench;
    themis_submit(alloc, handle, &tx(1), number) == VACANT
        && themis_hear(alloc, handle, 0, &receipt(1, 1), number) == VACANT
        && themis_hear_clock(alloc, handle, 0, 1) == VACANT
        && themis_restore(alloc, handle, &tx(1), number) == VACANT
        && themis_settle(alloc, handle, &[tx(1)]) == VACANT
        && themis_accepted(alloc, handle, &[9]) == VACANT
        && themis_arrive(alloc, handle, &mut txs, count, size) == VACANT
        && themis_arrive_proposed(alloc, handle, &mut txs, count) == VACANT
        && themis_receipts(alloc, handle, 0, &mut receipts, count) == VACANT
        && themis_standing(alloc, handle, &tx(1), number) == VACANT
        && themis_clock(alloc, handle, &mut clock) == VACANT
        && themis_held(alloc, handle, count, &mut waiting, &mut own) == VACANT
}

#[test]
fn receipts_are_stamped_and_reported(rt: HostRuntime) {
    assert!(rt; receives(rt.alloc()));
}

#[test]
fn what_is_received_arrives_and_is_settled(rt: HostRuntime) {
    assert!(rt; lets_arrive(rt.alloc()));
}

#[test]
fn what_is_proposed_arrives_at_the_end_of_a_session(rt: HostRuntime) -> Result<(), Fail> {
    assert!(rt; closes(rt.alloc())?);
    Ok(())
}

#[test]
fn a_vacant_handle_receives_nothing(rt: HostRuntime) {
    assert!(rt; no_replica_receives(rt.alloc()));
}
