//! Lists in which transactions are looked up: equal clients, transactions in only one list, an empty list, a
//! transaction twice in a list, and unsorted lookups.
use crate::cases::check_cases;
use crate::graphs::{sign_of, tx};
use majority_graph::Ranking;
use plan_text::read_order_text;
use seq_base::{Setting, TxList};
use std::alloc::Global;
use std::test::Fail;

/// The text, in which slashes replace the ends of lines. Transactions of the same client are ordered by number and
/// payload.
const TEXTS: &str = "\
order text|equal clients|threshold=2 solid=3 quorum=4/tx 1.1.0 solid 3 kept/tx 1.1.7 solid 3 kept/tx 1.2.0 solid 3 kept/tx 1.10.0 solid 4 kept/batch 1 1.1.7/batch 2 1.1.0 1.2.0 1.10.0/ none
line text|equal clients|threshold=2 solid=3 quorum=4/tx 1.1.0 solid 3 kept/tx 1.1.7 solid 3 kept/tx 1.2.0 solid 3 kept/tx 1.10.0 solid 4 kept/batch 1 1.1.7/line 1 1.1.7/batch 2 1.1.0 1.2.0 1.10.0/line 2 1.10.0 1.1.0 1.2.0/ none
order text|each alone|threshold=2 solid=3 quorum=4/tx 2.1.0 blank 1/tx 3.1.0 blank 1/tx 7.1.0 solid 3 kept/tx 9.1.0 blank 1/batch 1 7.1.0/ none
";

/// `ranked` has a bar for each transaction of the clients 3, 2, 1 and 3, followed by a sign for the edge to each of
/// them. `doubles` has the edges for two equal lists, in which client 1's transaction is before and after client 2's.
const RANKED: &str = "\
ranked|tie||.<<.|>.<>|>>.>|.<<.
ranked|nothing||....|....|....|....
doubles|||.>|<.
";

#[test]
fn transactions_are_found_in_each_list(rt: HostRuntime) -> Result<(), Fail> {
    check_cases(rt.alloc(), TEXTS)
}

#[test]
fn the_first_place_in_a_list_counts_in_any_order(rt: HostRuntime) -> Result<(), Fail> {
    check_cases(rt.alloc(), RANKED)
}

pub(crate) fn write_ranked(answer: &mut String, alloc: Global, text: &str) -> Result<(), Fail> {
    let text = read_order_text(alloc, text.as_bytes())?;
    let txs = [tx(3), tx(2), tx(1), tx(3)];
    let ranking = Ranking::of(alloc, &text.setting, &txs, text.lists.as_slice())?;
    write_edges(answer, &ranking)
}

fn write_edges(answer: &mut String, ranking: &Ranking) -> Result<(), Fail> {
    for u in 0..ranking.len() {
        answer.push('|')?;
        for v in 0..ranking.len() {
            answer.push(sign_of(ranking.edge(u, v)))?;
        }
    }
    Ok(())
}

pub(crate) fn write_doubles(answer: &mut String, alloc: Global) -> Result<(), Fail> {
    let lists = doubled(alloc)?;
    let setting = Setting::new(5, 1, 1, 1)?;
    let ranking = Ranking::of(alloc, &setting, &[tx(1), tx(2)], &lists)?;
    write_edges(answer, &ranking)
}

/// Two lists with client 1's transaction, client 2's, and client 1's again.
fn doubled(alloc: Global) -> Result<Vec<TxList>, Fail> {
    let one = double(alloc)?;
    let other = double(alloc)?;
    Ok(vec![in alloc; one, other]?)
}

fn double(alloc: Global) -> Result<TxList, Fail> {
    Ok(TxList::of(vec![in alloc; tx(1), tx(2), tx(1)]?))
}
