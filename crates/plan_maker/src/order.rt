//! The order in which a replica of a generated plan receives the transactions.
ghost use Rattle.std.specs.Prelude.{◌≡◌, ◌-◌, IfOk, length, map};
ghost use Rattle.std.specs.List.{range_with_len};
ghost use Rattle.plan_maker.specs.Order.{exchanged, made_order, made_seed, made_tx};

use rand_chacha::ChaCha8Rng;
use rand_core::SeedableRng;
use rand_core::utils::NextWord;
use seq_base::{NoMemory, Tx};
use std::alloc::Global;

/// The number of clients, which send the transactions in turn.
const CLIENTS: u32 = 4;

/// The transactions in ascending order of their numbers, after one pass over the neighbouring pairs, which are
/// swapped where a random word says so.
pub(crate) fn order_of(
    alloc: Global,
    seed: u64,
    replica: u8,
    count: u32,
) -> Result<Vec<Tx>, NoMemory>
    ensures { IfOk result (λ txs. txs.items ≡ made_order seed replica count) }
{
    let mut txs = first_txs(alloc, count)?;
    exchange(stream_seed(seed, replica), &mut txs);
    Ok(txs)
}

/// The transactions in ascending order of their numbers.
fn first_txs(alloc: Global, count: u32) -> Result<Vec<Tx>, NoMemory>
    ensures { IfOk result (λ txs. txs.items ≡ map made_tx (range_with_len 0 count)) }
{
    let mut txs = Vec::with_capacity(alloc, count as usize)?;
    for k in 0..count {
        txs.push(tx_of(k))?;
    }
    Ok(txs)
}

fn tx_of(k: u32) -> Tx
    ensures { result ≡ made_tx k }
{
    Tx {
        client: 1 + k % CLIENTS,
        number: 1 + k / CLIENTS,
        payload: u64::from(k),
    }
}

/// The seed of a replica's random words: the plan's seed, the replica, and zeros.
fn stream_seed(seed: u64, replica: u8) -> [u8; 32]
    ensures { result ≡ made_seed seed replica }
{
    let [a, b, c, d, e, f, g, h] = seed.to_be_bytes();
    [
        a, b, c, d, e, f, g, h, replica, 0, 0, 0, 0, 0, 0, 0, 0, 0, 0, 0, 0, 0, 0, 0, 0, 0, 0, 0,
        0, 0, 0, 0,
    ]
}

/// Goes over the neighbouring pairs, first to last, and swaps one where the next word is a multiple of four.
fn exchange(seed: [u8; 32], txs: &mut [Tx])
    ensures { txs.new ≡ exchanged seed (length txs.old - 1) txs.old }
{
    let mut words = ChaCha8Rng::from_seed(seed);
    for place in 0..txs.len().saturating_sub(1) {
        if words.next_word() % 4 == 0 {
            txs.swap(place, place + 1);
        }
    }
}
