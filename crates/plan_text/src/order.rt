//! Order texts: a setting and its local orders.
ghost use Rattle.std.specs.Prelude.{◌≡◌, ◌≤◌, IfOk, IfSome, OnSome, All, [], length};
ghost use Rattle.std.specs.Option.{option_map, option_and_then};
ghost use Rattle.seq_base.specs.Lists.{AreDistinct, AreFresh};
ghost use Rattle.seq_base.specs.Setting.{parameters, quorum_of};
ghost use Rattle.plan_text.specs.Reads.{ReadsTo, ReadsAs};
ghost use Rattle.plan_text.specs.Head.{setting_of, settled};
ghost use Rattle.plan_text.specs.OrderReading.{are_distinct, lists_after, next_tx, number_of_text, numbers_of, order_in, parameters_in, read_orders, setting_in, txs_in, words_in};

use crate::fault::text_fault;
use crate::lines::{first_word, line_fault, split_at_byte, take_line};
use crate::{FaultKind, PlanError};
use seq_base::{NoMemory, Setting, Tx, TxList, TxLists, parse_u32};
use std::alloc::Global;

/// The maximum number of transactions of a line, which is that of a fresh list.
const MAX_TXS: usize = 128;

/// A setting and its local orders.
pub struct OrderText {
    pub setting: Setting,
    pub lists: TxLists,
}

impl Drop for OrderText {
    fn drop(self) {
        let OrderText {
            setting: _,
            lists: _,
        } = self;
    }
}

/// Reads a line `setting n f p q` and n-f lines `order` with 0 to 128 transactions each. Returns the first fault by
/// line.
#[tactic(auto, unfolding(crate::specs::OrderReading::read_orders))]
pub fn read_order_text(alloc: Global, bytes: &[u8]) -> Result<OrderText, PlanError>
    ensures exact { ReadsTo result (read_orders bytes.now) }
    ensures fresh { IfOk result (λ text. AreFresh text.lists) }
    ensures quorum { IfOk result (λ text. length text.lists ≡ quorum_of text.setting) }
    ensures distinct { IfOk result (λ text. All AreDistinct text.lists) }
{
    let (line, rest) = take_line(alloc, bytes, 1)?;
    let setting = read_setting(alloc, line)?;
    let lists = read_lists(alloc, setting.quorum(), rest)?;
    Ok(OrderText {
        setting,
        lists: TxLists::of(lists),
    })
}

fn read_setting(alloc: Global, line: &[u8]) -> Result<Setting, PlanError>
    ensures { ReadsTo result (setting_in line.now) }
{
    match setting_numbers(line) {
        Some((n, f, p, q)) => settled(alloc, n, f, p, q),
        None => Err(line_fault(alloc, FaultKind::Line, 1)),
    }
}

/// The setting of four numbers, or the first of its parts that is refused.
fn settled(alloc: Global, n: u32, f: u32, p: u32, q: u32) -> Result<Setting, PlanError>
    ensures { ReadsTo result (settled (setting_of (parameters n f p q))) }
{
    match Setting::new(n, f, p, q) {
        Ok(setting) => Ok(setting),
        Err(fault) => Err(text_fault(alloc, FaultKind::Setting(fault))),
    }
}

/// The four numbers of a line `setting n f p q`.
fn setting_numbers(line: &[u8]) -> Option<(u32, u32, u32, u32)>
    ensures { option_map (λ s. parameters s.0 s.1 s.2 s.3) result ≡ parameters_in (words_in line.now) }
{
    let (n, f, p, q) = setting_words(line)?;
    Some((number_of(n)?, number_of(f)?, number_of(p)?, number_of(q)?))
}

/// The four words after the word `setting`, on a line that has no other.
fn setting_words(line: &[u8]) -> Option<(&[u8], &[u8], &[u8], &[u8])>
    ensures { option_and_then (λ w. numbers_of w.0.now w.1.now w.2.now w.3.now) result ≡ parameters_in (words_in line.now) }
{
    let (word, rest) = split_at_byte(line, b' ')?;
    let (n, rest) = split_at_byte(rest, b' ')?;
    let (f, rest) = split_at_byte(rest, b' ')?;
    let (p, q) = split_at_byte(rest, b' ')?;
    if split_at_byte(q, b' ').is_some() {
        return None;
    }
    if word != b"setting".as_slice() {
        return None;
    }
    Some((n, f, p, q))
}

fn number_of(text: &[u8]) -> Option<u32>
    ensures { result ≡ number_of_text text.now }
{
    match parse_u32(text) {
        Some(number) => Some(number),
        None => None,
    }
}

/// The given number of lines of local orders, from the second line on, and nothing after them.
fn read_lists(alloc: Global, quorum: u32, text: &[u8]) -> Result<Vec<TxList>, PlanError>
    requires { quorum ≤ 16 }
    ensures exact { ReadsAs (λ lists. lists.items) result (lists_after quorum 2 [] text.now) }
    ensures fresh { IfOk result (λ lists. AreFresh lists.items) }
    ensures quorum { IfOk result (λ lists. length lists.items ≡ quorum) }
    ensures distinct { IfOk result (λ lists. All AreDistinct lists.items) }
{
    let mut lists = Vec::with_capacity(alloc, quorum as usize)?;
    let mut rest = text;
    for number in 2..quorum + 2 {
        let (line, following) = take_line(alloc, rest, number)?;
        lists.push(read_order(alloc, line, number)?)?;
        rest = following;
    }
    if !rest.is_empty() {
        return Err(line_fault(alloc, FaultKind::Line, quorum + 2));
    }
    Ok(lists)
}

#[tactic(auto, using(crate::proofs::Distinct::distinct_reported))]
fn read_order(alloc: Global, line: &[u8], number: u32) -> Result<TxList, PlanError>
    ensures exact { ReadsTo result (order_in number line.now) }
    ensures short { IfOk result (λ list. length list ≤ 128) }
    ensures distinct { IfOk result AreDistinct }
{
    let Some(txs) = order_txs(alloc, line)? else {
        return Err(line_fault(alloc, FaultKind::Line, number));
    };
    if !is_distinct(&txs) {
        return Err(line_fault(alloc, FaultKind::Double, number));
    }
    Ok(TxList::of(txs))
}

/// The transactions of a line `order`, each after one space, or None where the line is malformed.
fn order_txs(alloc: Global, line: &[u8]) -> Result<Option<Vec<Tx>>, NoMemory>
    ensures exact { IfOk result (λ found. option_map (λ txs. txs.items) found ≡ txs_in (words_in line.now)) }
    ensures short { IfOk result (λ found. IfSome found (λ txs. length txs.items ≤ 128)) }
{
    let (word, mut following) = first_word(line);
    if word != b"order".as_slice() {
        return Ok(None);
    }
    let mut txs = Vec::new(alloc);
    while let Some(words) = following {
        let (word, rest) = first_word(words);
        let Some(tx) = tx_of_word(txs.len(), word) else {
            return Ok(None);
        };
        txs.push(tx)?;
        following = rest;
    }
    Ok(Some(txs))
}

/// The transaction of a word that comes after `count` others of its line.
fn tx_of_word(count: usize, word: &[u8]) -> Option<Tx>
    ensures exact { result ≡ next_tx count word.now }
    ensures short { OnSome result (count ≤ 127) }
{
    if count >= MAX_TXS {
        return None;
    }
    match Tx::parse(word) {
        Some(tx) => Some(tx),
        None => None,
    }
}

/// Whether no transaction occurs twice.
fn is_distinct(txs: &[Tx]) -> bool
    ensures { result ≡ are_distinct txs.now }
{
    let mut rest = txs;
    while let Some((first, following)) = rest.split_first() {
        if following.contains(first) {
            return false;
        }
        rest = following;
    }
    true
}
