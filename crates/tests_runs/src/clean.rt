//! Clean plans: no replica is faulty, no link loses anything, and the same transactions arrive at all replicas at the
//! start. Each run is done after one tick and at most 10n turns.
use crate::cases::{check_cases, mismatches};
use std::alloc::Global;
use std::fmt::Write;
use std::test::Fail;

/// A plan has n, f, p and q, the number of transactions, and their order at the replicas.
const CLEAN: &str = "\
verdict ticks in_time|clean 1 0 1 1 1 same|done 1 yes
verdict ticks in_time|clean 1 0 500 999 2 turned|done 1 yes
verdict ticks in_time|clean 2 0 1 1 127 opposite|done 1 yes
verdict ticks in_time|clean 3 0 1 1 128 client|done 1 yes
verdict ticks in_time|clean 3 0 500 999 1 clients|done 1 yes
verdict ticks in_time|clean 4 0 500 999 2 both|done 1 yes
verdict ticks in_time|clean 5 0 1 1 128 same|done 1 yes
verdict ticks in_time|clean 5 0 500 999 1 turned|done 1 yes
verdict ticks in_time|clean 5 1 892 991 2 opposite|done 1 yes
verdict ticks in_time|clean 6 0 1 1 127 client|done 1 yes
verdict ticks in_time|clean 6 1 1 1 128 clients|done 1 yes
verdict ticks in_time|clean 6 1 831 997 1 both|done 1 yes
verdict ticks in_time|clean 7 0 1 1 127 same|done 1 yes
verdict ticks in_time|clean 7 1 1 1 128 turned|done 1 yes
verdict ticks in_time|clean 7 1 785 999 1 opposite|done 1 yes
verdict ticks in_time|clean 8 0 500 999 2 client|done 1 yes
verdict ticks in_time|clean 8 1 1 1 127 clients|done 1 yes
verdict ticks in_time|clean 8 1 748 997 128 both|done 1 yes
verdict ticks in_time|clean 9 0 500 999 2 same|done 1 yes
verdict ticks in_time|clean 9 2 1 1 127 turned|done 1 yes
verdict ticks in_time|clean 10 0 1 1 128 opposite|done 1 yes
verdict ticks in_time|clean 10 0 500 999 1 client|done 1 yes
verdict ticks in_time|clean 10 2 1 1 2 clients|done 1 yes
verdict ticks in_time|clean 11 0 1 1 127 both|done 1 yes
verdict ticks in_time|clean 11 0 500 999 1 same|done 1 yes
verdict ticks in_time|clean 11 2 849 983 2 turned|done 1 yes
verdict ticks in_time|clean 12 0 1 1 127 opposite|done 1 yes
verdict ticks in_time|clean 12 0 500 999 128 client|done 1 yes
verdict ticks in_time|clean 12 2 831 997 1 clients|done 1 yes
verdict ticks in_time|clean 13 0 1 1 2 both|done 1 yes
verdict ticks in_time|clean 13 3 1 1 128 same|done 1 yes
verdict ticks in_time|clean 13 3 951 989 1 turned|done 1 yes
verdict ticks in_time|clean 14 0 1 1 2 opposite|done 1 yes
verdict ticks in_time|clean 14 3 1 1 127 client|done 1 yes
verdict ticks in_time|clean 14 3 924 995 128 clients|done 1 yes
verdict ticks in_time|clean 15 0 500 999 1 both|done 1 yes
verdict ticks in_time|clean 15 3 1 1 127 same|done 1 yes
verdict ticks in_time|clean 15 3 892 991 128 turned|done 1 yes
verdict ticks in_time|clean 16 0 500 999 1 opposite|done 1 yes
verdict ticks in_time|clean 16 3 1 1 2 client|done 1 yes
";

#[test]
fn clean_runs_are_done_within_ten_turns_for_each_replica(rt: HostRuntime) -> Result<(), Fail> {
    let mismatches = mismatches(rt.alloc(), CLEAN)?;
    assert_eq!(rt; (mismatches.as_str(), CLEAN.lines().count()), ("", 40));
    Ok(())
}

/// One client's transactions. The answers for each replica are its view, the view of its commit, the number of its
/// batches with one transaction, and the number of all its batches.
const ONE_CLIENT: &str = "\
verdict ticks turns each|digests nine_clean client_128|done 1 90 5/1 128/128 5/1 128/128 5/1 128/128 5/1 128/128 5/1 128/128 5/1 128/128 5/1 128/128 5/1 128/128 5/1 128/128
verdict ticks turns each|digests nine_clean client_129|done 1 108 6/2 129/129 6/2 129/129 6/2 129/129 6/2 129/129 6/2 129/129 6/2 129/129 6/2 129/129 6/2 129/129 6/2 129/129
";

#[test]
fn a_block_proposes_128_transactions_and_the_next_one_the_129th(
    rt: HostRuntime,
) -> Result<(), Fail> {
    check_cases(rt.alloc(), ONE_CLIENT)
}

/// The number of the transaction at a place of a replica's list. All lists have the same order, or each list is
/// rotated by one more place than the one before, or every second list is reversed.
fn number_at(order: &str, replica: u8, count: u8, place: u8) -> u16 {
    match order {
        "turned" | "both" => (u16::from(place) + u16::from(replica)) % u16::from(count.max(1)),
        "opposite" if replica % 2 == 1 => u16::from(count.saturating_sub(place).saturating_sub(1)),
        _ => u16::from(place),
    }
}

/// The arrivals of one replica.
fn push_arrival(text: &mut String, order: &str, replica: u8, count: u8) -> Result<(), Fail> {
    write!(text, "[[arrival]]\nreplica = {replica}\nturn = 0\ntxs = [")?;
    for place in 0..count {
        let number = number_at(order, replica, count, place);
        write!(text, "\"2.{number}.0\", ")?;
    }
    Ok(text.push_str("]\n")?)
}

fn push_client(text: &mut String, id: u8, count: u8) -> Result<(), Fail> {
    if count > 0 {
        write!(text, "[[client]]\nid = {id}\ncount = {count}\n")?;
    }
    Ok(())
}

/// The number of transactions from each of two clients, and the number of those that arrive as the plan lists them.
fn shares(order: &str, count: u8) -> (u8, u8, u8) {
    match order {
        "client" => (count, 0, 0),
        "clients" => (count - count / 2, count / 2, 0),
        "both" => (count / 2, 0, count - count / 2),
        _ => (0, 0, count),
    }
}

/// The keys that are the same in all plans: all except n, f, p and q.
const KEYS: &str = "seed = 3\nheight = 5\nviews = 6\nticks = 1\nturns = 256\n";

fn number(word: Option<&str>) -> u8 {
    word.and_then(|word| word.parse().ok()).unwrap_or(0)
}

fn push_setting(text: &mut String, line: &str) -> Result<(), Fail> {
    let mut words = line.split(' ');
    for key in ["n", "f", "p", "q"] {
        let value = words.next().unwrap_or("");
        write!(text, "{key} = {value}\n")?;
    }
    Ok(())
}

fn push_txs(text: &mut String, order: &str, n: u8, count: u8) -> Result<(), Fail> {
    let (one, other, own) = shares(order, count);
    push_client(text, 1, one)?;
    push_client(text, 3, other)?;
    if own > 0 {
        for replica in 0..n {
            push_arrival(text, order, replica, own)?;
        }
    }
    Ok(())
}

/// The plan of a line.
pub(crate) fn plan_of(alloc: Global, line: &str) -> Result<String, Fail> {
    let mut words = line.split(' ');
    let n = number(words.next());
    let count = number(words.nth(3));
    let order = words.next().unwrap_or("");
    let mut text = String::from_str(alloc, KEYS)?;
    push_setting(&mut text, line)?;
    push_txs(&mut text, order, n, count)?;
    Ok(text)
}
