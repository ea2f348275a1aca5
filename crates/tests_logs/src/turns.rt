//! A locked log over a simple list.
use locked_log::{Grows, Job, LockedLog};
use seq_base::NoMemory;
use std::alloc::Global;
use std::sync::Wait;
use std::test::Fail;

/// A list of numbers.
#[derive(Drop)]
struct Numbers {
    items: Vec<u32>,
}

impl Grows for Numbers {
    type Entry = u32;

    ghost list = { λ numbers. numbers.items.items };

    fn count(&self) -> u64 {
        self.items.len() as u64
    }
}

/// Appends two numbers under one lock.
#[derive(Drop)]
struct AppendTwo {
    one: u32,
    other: u32,
}

impl Job<Numbers> for AppendTwo {
    type Answer = bool;

    ghost can = { λ job list. Unit {0} };

    ghost does = { λ job list answer after done. Unit {0} };

    fn work(&mut self, inner: &mut Numbers) -> bool {
        if inner.items.reserve(2).is_err() {
            return false;
        }
        inner.items.push_reserved(self.one);
        inner.items.push_reserved(self.other);
        true
    }
}

/// Whether another pass sees an empty list before 7 and 8 are appended, and both numbers afterwards. The list holds
/// both at the end.
fn sees_both<R: Wait>(rt: &R, alloc: Global) -> Result<bool, NoMemory> {
    let items = Vec::new(alloc);
    let (log, mut pass) = LockedLog::start(alloc, Numbers { items }, 3)?;
    let mut other = log.split(&mut pass);
    let before = log.seen(&mut other);
    let mut job = AppendTwo { one: 7, other: 8 };
    let appended = log.with_lock(rt, &mut pass, &mut job);
    let after = log.seen(&mut other);
    log.report(&mut pass, &mut other);
    log.join(&mut pass, other);
    let numbers = log.close(pass);
    let are_left = numbers.items.as_slice() == [7, 8].as_slice();
    Ok(before == 0 && appended && after == 2 && are_left)
}

#[test]
fn another_pass_sees_what_was_appended(rt: HostRuntime) -> Result<(), Fail> {
    assert!(rt; sees_both(&rt, rt.alloc())?);
    Ok(())
}
