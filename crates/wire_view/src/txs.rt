ghost use Rattle.std.specs.Prelude.{◌≡◌, ◌≤◌, ◌<◌, ◌*◌, ◌==◌, length, drop, slice_get, IfOk, IsOk, IsTrue};
ghost use Rattle.seq_base.specs.Lists.{holds};
ghost use Rattle.wire_view.specs.Reading.{Gives, tx_in, txs_in, repeats, txs_at};
ghost use Rattle.wire_view.specs.Slots.{slot_of, AreTaken};

use crate::WireFault;
use crate::fields::{read_long_count, read_piece};
use seq_base::{NoMemory, Tx, TxList};
use std::alloc::Global;
use std::marker::Model;

/// The number of bytes of a transaction.
const TX_BYTES: usize = 16;

/// The number of slots for the transactions of a list.
const SLOTS: usize = 1024;

/// A list of distinct transactions, in place.
#[derive(Drop)]
pub struct TxsView<'a> {
    count: u32,
    bytes: &'a [u8],
}

impl<'a> Model for TxsView<'a> {
    ghost use Rattle.std.specs.Prelude.{List};
    ghost use Rattle.seq_base.specs.declared.tx.Tx.{Tx};

    ghost Value = { List Tx };

    ghost use Rattle.std.specs.Prelude.{◌≡◌, ◌*◌, length};
    ghost use Rattle.wire_view.specs.Reading.{txs_in};

    ghost view = { λ txs. txs_in txs.count txs.bytes.now };

    ghost invariant = { λ txs. (length txs.bytes.now ≡ 16 * txs.count) × (length (txs_in txs.count txs.bytes.now) ≡ txs.count) };
}

impl<'a> TxsView<'a> {
    fn of(count: u32, bytes: &'a [u8]) -> TxsView<'a>
        requires { length bytes.now ≡ 16 * count }
        ensures value { result ≡ txs_in count bytes.now }
        ensures count { length result ≡ count }
    {
        TxsView { count, bytes }
    }

    /// The number of transactions in the list.
    pub fn len(&self) -> u32
        ensures { result ≡ length self.now }
    {
        self.count
    }

    /// Whether the list is empty.
    pub fn is_empty(&self) -> bool
        ensures { result ≡ (length self.now == 0) }
    {
        self.count == 0
    }

    /// The transaction at index `k`, from 0.
    pub fn get(&self, k: u32) -> Option<Tx>
        ensures { result ≡ slice_get self.now k }
    {
        if k >= self.count {
            return None;
        }
        Some(self.at(k))
    }

    fn at(&self, k: u32) -> Tx
        requires { k < length self.now }
        ensures { slice_get self.now k ≡ Some result }
    {
        let (_, rest) = self.bytes.split_at(k as usize * TX_BYTES);
        read_tx(rest)
    }

    /// Another view of the same list.
    pub(crate) fn again(&self) -> TxsView<'a>
        ensures { result ≡ self.now }
    {
        TxsView {
            count: self.count,
            bytes: self.bytes,
        }
    }

    /// Whether the list has a transaction twice. Each transaction marks its slot as taken, and is compared with others
    /// only if the slot is taken already: most are compared with no other.
    fn repeats(&self) -> bool
        ensures { result ≡ repeats self.now }
    {
        let mut taken = [false; SLOTS];
        let mut k = self.count;
        while k > 0 {
            let tx = self.at(k - 1);
            if self.stands_from(k, &taken, &tx) {
                return true;
            }
            taken[slot_of(&tx)] = true;
            k -= 1;
        }
        false
    }

    /// Whether a transaction is at this index or after it. The slots of all of these are taken.
    fn stands_from(&self, start: u32, taken: &[bool; 1024], tx: &Tx) -> bool
        requires { AreTaken taken.now (drop start self.now) }
        ensures { result ≡ holds tx.now (drop start self.now) }
    {
        taken[slot_of(tx)] && self.holds_from(start, tx)
    }

    /// Whether a transaction is at this index or after it.
    fn holds_from(&self, start: u32, tx: &Tx) -> bool
        ensures { result ≡ holds tx.now (drop start self.now) }
    {
        for k in start..self.count {
            if self.at(k) == *tx {
                return true;
            }
        }
        false
    }

    /// An owned copy of the transactions.
    pub(crate) fn own(&self, alloc: Global) -> Result<TxList, NoMemory>
        ensures { IfOk result (λ txs. txs ≡ self.now) }
    {
        let mut txs = Vec::with_capacity(alloc, self.count as usize)?;
        for k in 0..self.count {
            txs.push(self.at(k))?;
        }
        Ok(TxList::of(txs))
    }
}

/// The slot of a transaction. Transactions of the same client with consecutive numbers have different slots.
fn slot_of(tx: &Tx) -> usize
    ensures { result ≡ slot_of tx.now }
{
    (tx.number as usize + 37 * tx.client as usize) % SLOTS
}

/// The transaction whose bytes are the first 16.
pub fn read_tx(bytes: &[u8]) -> Tx
    requires { 16 ≤ length bytes.now }
    ensures { result ≡ tx_in bytes.now }
{
    let client = &bytes[..4];
    let number = &bytes[4..8];
    let payload = &bytes[8..16];
    Tx {
        client: u32::from_be_bytes([client[0], client[1], client[2], client[3]]),
        number: u32::from_be_bytes([number[0], number[1], number[2], number[3]]),
        payload: u64::from_be_bytes([
            payload[0], payload[1], payload[2], payload[3], payload[4], payload[5], payload[6],
            payload[7],
        ]),
    }
}

/// A list of at most `most` transactions. If `checked`, the list was read before, and is not searched for repeats
/// again.
#[tactic(auto, unfolding(crate::specs::Reading::txs_at))]
pub(crate) fn read_txs(
    most: u32,
    checked: bool,
    bytes: &[u8],
) -> Result<(TxsView<'_>, &[u8]), WireFault>
    requires limit { most ≤ 256 }
    requires before { IsTrue checked → IsOk (txs_at most bytes.now) }
    ensures gives { Gives (λ x. (x.0, x.1.now)) result (txs_at most bytes.now) }
    ensures limit { IfOk result (λ x. length x.0 ≤ most) }
{
    let (count, rest) = read_long_count(most, bytes)?;
    let (prefix, rest) = read_piece(16 * count, rest)?;
    let txs = TxsView::of(count, prefix);
    if !checked && txs.repeats() {
        return Err(WireFault::Shape);
    }
    Ok((txs, rest))
}
