//! What calls copy: where there is none, where the buffer is too small, and where it is not; and what a new replica has.
use super::bench::Bench;
use crate::acting::themis_act;
use crate::opening::themis_header;
use crate::outcome::{themis_sealed, themis_send, themis_statement};
use crate::preparing::{themis_prepare_tick, themis_record};
use crate::state::{
    themis_batch, themis_batches, themis_give, themis_gives, themis_is_proposed, themis_known,
};
use crate::{CTx, NONE, OK, SHORT, UNREADY};
use std::alloc::Global;

/// Whether the statuses are those of what is there, of the same with a short buffer, and of what is not there.
fn are_copies(ok: u32, short: u32, none: u32) -> bool {
    ok == OK && short == SHORT && none == NONE
}

/// Whether the header and the record of a tick are copied.
fn copies_logs(bench: &mut Bench) -> bool {
    let Bench {
        alloc,
        handle,
        buffer,
        size,
        ..
    } = bench;
    let alloc = *alloc;
    let short = themis_header(alloc, handle, &mut buffer[..9], size) == SHORT && *size > 9;
    let prepared = themis_prepare_tick(alloc, handle, 0) == OK;
    let ok = themis_record(alloc, handle, 0, buffer, size);
    let none = themis_record(alloc, handle, 1, buffer, size);
    short
        && prepared
        && are_copies(
            ok,
            themis_record(alloc, handle, 0, &mut buffer[..9], size),
            none,
        )
}

/// Whether the turn on it is made once, and its message and its statement are copied.
fn copies_outcome(bench: &mut Bench) -> bool {
    let Bench {
        alloc,
        handle,
        buffer,
        size,
        count,
        number,
    } = bench;
    let alloc = *alloc;
    let once = themis_act(alloc, handle, number) == OK
        && themis_act(alloc, handle, number) == UNREADY;
    let ok = themis_send(alloc, handle, 0, number, buffer, size);
    let short = themis_send(alloc, handle, 0, number, &mut buffer[..9], size);
    let sent = are_copies(
        ok,
        short,
        themis_send(alloc, handle, 1, number, buffer, size),
    );
    let one = themis_sealed(alloc, handle, count) == OK && *count == 1;
    let ok = themis_statement(alloc, handle, 0, buffer, size);
    let short = themis_statement(alloc, handle, 0, &mut buffer[..9], size);
    once && sent && one && are_copies(ok, short, themis_statement(alloc, handle, 1, buffer, size))
}

fn copies(alloc: Global) -> bool {
    let mut bench = Bench::new(alloc);
    bench.open_one(&[]) == OK && copies_logs(&mut bench) && copies_outcome(&mut bench)
}

#[test]
fn what_fits_a_buffer_is_copied(rt: HostRuntime) {
    assert!(rt; copies(rt.alloc()));
}

/// Whether a replica has no batch, no transaction and no block.
fn has_nothing(bench: &mut Bench) -> bool {
    let Bench {
        alloc,
        handle,
        buffer,
        size,
        count,
        number,
    } = bench;
    let alloc = *alloc;
    let mut txs = [CTx {
        client: 7,
        number: 1,
        payload: 70,
    }];
    let tx = txs[0];
    themis_batches(alloc, handle, count) == OK
        && *count == 0
        && themis_batch(alloc, handle, 0, &mut txs, count) == NONE
        && themis_known(alloc, handle, number) == OK
        && *number == 0
        && themis_is_proposed(alloc, handle, &tx, number) == OK
        && *number == 0
        && themis_gives(alloc, handle, 0, count) == OK
        && *count == 0
        && themis_give(alloc, handle, 0, 0, buffer, size) == NONE
}

/// Whether a new replica has nothing, and says so.
fn opens_empty(alloc: Global) -> bool {
    let mut bench = Bench::new(alloc);
    bench.open_one(&[]) == OK && has_nothing(&mut bench)
}

#[test]
fn a_new_replica_has_nothing(rt: HostRuntime) {
    assert!(rt; opens_empty(rt.alloc()));
}
