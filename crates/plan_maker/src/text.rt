//! The text of a generated plan.
ghost use Rattle.std.specs.Prelude.{◌≡◌, ◌++◌, IfOk, OnOk, string_bytes};
ghost use Rattle.plan_maker.specs.Text.{made_plan, head_text, arrival_text, txs_text};

use crate::order::order_of;
use seq_base::{Bytes, NoMemory, Tx};
use std::alloc::{AllocError, Global};
use std::fmt::Write;

/// The number of replicas of a generated plan.
const REPLICAS: u8 = 5;

/// The plan of a seed, in which each of five replicas receives `count` transactions, all at the start. A plan can be
/// read where its seed is at most 2^63-1 and it has 1 to 8,000 transactions.
#[tactic(auto, unfolding(crate::specs::Text::made_plan))]
pub fn make_plan(alloc: Global, seed: u64, count: u32) -> Result<Bytes, NoMemory>
    ensures { IfOk result (λ text. text ≡ made_plan seed count) }
{
    let mut text = String::new(alloc);
    write_head(&mut text, seed)?;
    for replica in 0..REPLICAS {
        let txs = order_of(alloc, seed, replica, count)?;
        write_arrival(&mut text, replica, &txs)?;
    }
    Ok(Bytes::of(text.into_bytes()))
}

/// The keys before the arrivals.
fn write_head(text: &mut String, seed: u64) -> Result<(), AllocError>
    ensures { OnOk result (string_bytes text.new ≡ string_bytes text.old ++ head_text seed) }
{
    write!(
        text,
        "n = 5\nf = 1\np = 1\nq = 1\nseed = {seed}\nheight = 10\nviews = 200\nticks = 4\nturns = 10000\nprint = \"summary\"\n"
    )
}

/// What a replica receives, and in which order.
fn write_arrival(text: &mut String, replica: u8, txs: &[Tx]) -> Result<(), AllocError>
    ensures { OnOk result (string_bytes text.new ≡ string_bytes text.old ++ arrival_text replica txs.now) }
{
    write!(text, "[[arrival]]\nreplica = {replica}\nturn = 0\ntxs = [")?;
    write_txs(text, txs)?;
    text.push_str("]\n")
}

/// The transactions in quotes, separated by a comma and a space.
fn write_txs(text: &mut String, txs: &[Tx]) -> Result<(), AllocError>
    ensures { OnOk result (string_bytes text.new ≡ string_bytes text.old ++ txs_text txs.now) }
{
    let Some((first, following)) = txs.split_first() else {
        return Ok(());
    };
    write!(text, "\"{first}\"")?;
    for tx in following {
        write!(text, ", \"{tx}\"")?;
    }
    Ok(())
}
