//! Intakes, by scripts of calls.
ghost use Rattle.std.specs.Prelude.{◌<◌};

use crate::blocks::Blocks;
use crate::desks::{peer, taken};
use crate::words::{Text, Words, tx};
use intake::{Arrivals, Intake, Receipt, ShownList};
use seq_base::{NoMemory, Setting, Tx};
use std::alloc::Global;
use std::test::Fail;

/// An intake, and a chain.
struct World {
    alloc: Global,
    intake: Intake,
    blocks: Blocks,
}

impl Drop for World {
    fn drop(self) {
        let World {
            alloc: _,
            intake: _,
            blocks: _,
        } = self;
    }
}

/// One call, by its letter.
fn call(world: &mut World, word: &str, words: &mut Words, text: &mut Text) -> Result<(), NoMemory> {
    match word {
        "u" => submit(world, words, text),
        "h" => hear(world, words),
        "c" => hear_clock(world, words),
        "p" => propose(world, words),
        "s" => settle(world, words),
        "R" => restore(world, words),
        "B" => accept(world, words),
        "v" => arrive(world, text),
        "w" => arrive_proposed(world, text),
        "g" => text.number(world.intake.given_count()),
        _ => sizes(world, text),
    }
}

/// A number of transactions, from one on.
fn submit(world: &mut World, words: &mut Words, text: &mut Text) -> Result<(), NoMemory> {
    let first = words.number();
    let mut count = 0u64;
    for number in first..first.saturating_add(words.number()) {
        if taken(world.intake.submit(tx(number))?) == "N " {
            count = count.saturating_add(1);
        }
    }
    text.number(count)
}

/// Receipts of a peer: a number of them from a transaction on, with ascending stamps from one on.
fn hear(world: &mut World, words: &mut Words) -> Result<(), NoMemory> {
    let from = words.number();
    let first = words.number();
    let count = words.number();
    let stamp = words.number();
    for more in 0..count {
        let receipt = Receipt {
            tx: tx(first.saturating_add(more)),
            stamp: stamp.saturating_add(more),
        };
        hear_one(world, from, receipt)?;
    }
    Ok(())
}

fn hear_one(world: &mut World, from: u64, receipt: Receipt) -> Result<(), NoMemory> {
    let from = peer(world.intake.desk(), from);
    world.intake.hear(from, receipt)?;
    Ok(())
}

fn hear_clock(world: &mut World, words: &mut Words) -> Result<(), NoMemory> {
    let from = peer(world.intake.desk(), words.number());
    world.intake.hear_clock(from, words.number());
    Ok(())
}

fn propose(world: &mut World, words: &mut Words) -> Result<(), NoMemory> {
    let first = words.number();
    for number in first..first.saturating_add(words.number()) {
        world.blocks.proposed.insert(tx(number))?;
    }
    Ok(())
}

fn settle(world: &mut World, words: &mut Words) -> Result<(), NoMemory> {
    let txs = range(world.alloc, words.number(), words.number())?;
    world.intake.settle(txs.as_slice())
}

fn restore(world: &mut World, words: &mut Words) -> Result<(), NoMemory> {
    let first = words.number();
    for number in first..first.saturating_add(words.number()) {
        world.intake.restore(tx(number))?;
    }
    Ok(())
}

fn range(alloc: Global, first: u64, count: u64) -> Result<Vec<Tx>, NoMemory> {
    let mut txs = Vec::new(alloc);
    for number in first..first.saturating_add(count) {
        txs.push(tx(number))?;
    }
    Ok(txs)
}

/// A block of a view and its parent's: for each of the first replicas, until a dot, where its list begins and how many
/// it holds.
fn accept(world: &mut World, words: &mut Words) -> Result<(), NoMemory> {
    let view = u32::try_from(words.number()).unwrap_or(0);
    let parent = u32::try_from(words.number()).unwrap_or(0);
    let mut lists = Vec::new(world.alloc);
    for replica in 0..5u32 {
        let first = words.number();
        lists.push(ShownList {
            replica,
            txs: range(world.alloc, first, words.number())?,
        })?;
    }
    world.intake.accepted(view, parent, lists)
}

fn arrive(world: &mut World, text: &mut Text) -> Result<(), NoMemory> {
    let arrivals = world.intake.arrive(&world.blocks)?;
    write_arrivals(&arrivals, text)
}

fn arrive_proposed(world: &mut World, text: &mut Text) -> Result<(), NoMemory> {
    let arrivals = world.intake.arrive_proposed(&world.blocks)?;
    write_arrivals(&arrivals, text)
}

/// The first and the last that arrived, how many, and the exceptions.
fn write_arrivals(arrivals: &Arrivals, text: &mut Text) -> Result<(), NoMemory> {
    text.mark("[ ")?;
    ends(arrivals.txs.as_slice(), text)?;
    text.number(arrivals.txs.len() as u64)?;
    text.mark("] ")?;
    if arrivals.given.is_empty() {
        return Ok(());
    }
    text.txs(arrivals.given.as_slice())
}

fn ends(txs: &[Tx], text: &mut Text) -> Result<(), NoMemory> {
    if let Some(first) = txs.first() {
        text.number(u64::from(first.number))?;
    }
    if let Some(last) = txs.last() {
        text.number(u64::from(last.number))?;
    }
    Ok(())
}

fn sizes(world: &World, text: &mut Text) -> Result<(), NoMemory> {
    text.number(world.intake.desk().clock())?;
    text.number(world.intake.desk().held_count() as u64)?;
    text.number(world.intake.named_count() as u64)
}

fn run(world: &mut World, script: &str, text: &mut Text) -> Result<(), NoMemory> {
    let mut words = Words::new(script);
    for _ in 0..script.len() {
        let Some(word) = words.word() else {
            return Ok(());
        };
        call(world, word, &mut words, text)?;
    }
    Ok(())
}

/// Replica 0 of five, of which one may be faulty.
fn world_of_five(alloc: Global) -> Result<World, Fail> {
    let Ok(setting) = Setting::new(5, 1, 1, 1) else {
        return Err(Fail::new("the setting is refused"));
    };
    if 0 < setting.n() {
        return Ok(World {
            alloc,
            intake: Intake::new(alloc, setting, 0)?,
            blocks: Blocks::new(alloc),
        });
    }
    Err(Fail::new("no replica"))
}

fn gives(alloc: Global, script: &str) -> Result<String, Fail> {
    let mut world = world_of_five(alloc)?;
    let mut text = Text::new(alloc);
    run(&mut world, script, &mut text)?;
    Ok(String::from_str(alloc, text.text.as_str())?)
}

/// Scripts, and what their runs write. What arrives was computed by an independent program.
const CASES: &[(&str, &str)] = &[
    // Few: all arrive, in the order of receipt.
    ("u 1 64 v v n", "64 [ 1 64 64 ] [ 0 ] 64 64 0 "),
    // One more is a burst.
    ("u 1 65 v n", "65 [ 0 ] 65 65 0 "),
    // A burst whose keys are not known yet: nothing arrives.
    ("u 1 200 v", "200 [ 0 ] "),
    // A burst: the first 96 by key. The peers received them the other way round.
    (
        "u 1 200 h 1 101 100 1 h 2 101 100 1 h 1 1 100 101 h 2 1 100 101 v v",
        "200 [ 1 148 96 ] [ 0 ] ",
    ),
    // As soon as blocks propose some, as many more arrive.
    (
        "u 1 300 h 1 1 300 1 h 2 1 300 1 v p 1 50 v s 1 50 v n",
        "300 [ 1 96 96 ] [ 97 146 50 ] [ 0 ] 300 250 0 ",
    ),
    // Where a block proposes fewer than 90, replicas list different ones, and 96 may wait to be proposed. Else 128 may.
    (
        "u 1 300 h 1 1 300 1 h 2 1 300 1 v B 1 0 1 89 1 89 1 89 1 89 0 0 v n",
        "300 [ 1 96 96 ] [ 97 185 89 ] 300 300 0 ",
    ),
    // What a block is expected to propose counts no longer.
    (
        "u 1 300 h 1 1 300 1 h 2 1 300 1 v B 1 0 1 90 1 90 1 90 1 90 0 0 v n",
        "300 [ 1 96 96 ] [ 97 218 122 ] 300 300 0 ",
    ),
    // Three lists are enough for that: n - 2f.
    (
        "u 1 300 h 1 1 300 1 h 2 1 300 1 v B 1 0 1 90 1 90 1 90 0 0 0 0 v n",
        "300 [ 1 96 96 ] [ 97 218 122 ] 300 300 0 ",
    ),
    // An older block changes nothing of that.
    (
        "u 1 300 h 1 1 300 1 h 2 1 300 1 v B 5 4 1 90 1 90 1 90 1 90 0 0 B 4 3 200 20 0 0 0 0 0 0 0 0 v n",
        "300 [ 1 96 96 ] [ 97 218 122 ] 300 300 0 ",
    ),
    // Nor does a second block of the same view.
    (
        "u 1 300 h 1 1 300 1 h 2 1 300 1 v B 5 4 1 90 1 90 1 90 1 90 0 0 B 5 4 200 20 0 0 0 0 0 0 0 0 v n",
        "300 [ 1 96 96 ] [ 97 218 122 ] 300 300 0 ",
    ),
    // What is named waits, also where a block proposes it, while others wait that have smaller keys than its low stamp.
    (
        "u 1 300 h 1 1 300 1 h 2 1 300 1 v p 150 20 B 1 0 150 20 150 20 0 0 0 0 0 0 v n",
        "300 [ 1 96 96 ] [ 0 ] 300 300 20 ",
    ),
    // It arrives in its turn.
    (
        "u 1 300 h 1 1 300 1 h 2 1 300 1 v p 1 96 p 150 20 B 1 0 150 20 150 20 0 0 0 0 0 0 v n",
        "300 [ 1 96 96 ] [ 97 192 96 ] 300 300 0 ",
    ),
    // Those named next by key arrive, each after the one before, and one behind a gap does not.
    (
        "u 1 300 h 1 1 300 1 h 2 1 300 1 v B 1 0 97 20 97 20 0 0 0 0 0 0 v B 2 1 118 1 118 1 0 0 0 0 0 0 v n",
        "300 [ 1 96 96 ] [ 97 116 20 ] [ 0 ] 300 300 1 ",
    ),
    // Lists of an accepted block lend: of each replica's, twelve that no block proposes.
    (
        "u 401 20 h 1 401 20 1 u 1 300 h 1 1 300 21 h 2 1 300 21 v B 1 0 401 20 0 0 0 0 0 0 0 0 v v p 401 12 v n",
        "20 300 [ 1 96 96 ] [ 401 412 12 ] [ 0 ] [ 413 420 8 ] 320 320 0 ",
    ),
    // Not what passes others by its key.
    (
        "u 1 300 h 1 1 300 1 h 2 1 300 1 v B 1 0 200 20 0 0 0 0 0 0 0 0 v v n",
        "300 [ 1 96 96 ] [ 0 ] [ 0 ] 300 300 0 ",
    ),
    // And not where the block proposes 48.
    (
        "u 401 20 h 1 401 20 1 u 1 300 h 1 1 300 21 h 2 1 300 21 v B 1 0 1 48 1 48 1 48 401 20 0 0 v n",
        "20 300 [ 1 96 96 ] [ 97 144 48 ] 320 320 0 ",
    ),
    (
        "u 401 20 h 1 401 20 1 u 1 300 h 1 1 300 21 h 2 1 300 21 v B 1 0 1 47 1 47 1 47 401 20 0 0 v n",
        "20 300 [ 1 96 96 ] [ 401 143 59 ] 320 320 0 ",
    ),
    // A stuck chain: exceptions are given after 20 blocks, two of them not received before.
    (
        "u 1 300 v B 1 0 200 3 210 3 900 2 0 0 0 0 B 2 1 200 3 210 3 900 2 0 0 0 0 B 3 2 200 3 210 3 900 2 0 0 0 0 B 4 3 200 3 210 3 900 2 0 0 0 0 B 5 4 200 3 210 3 900 2 0 0 0 0 B 6 5 200 3 210 3 900 2 0 0 0 0 B 7 6 200 3 210 3 900 2 0 0 0 0 B 8 7 200 3 210 3 900 2 0 0 0 0 B 9 8 200 3 210 3 900 2 0 0 0 0 B 10 9 200 3 210 3 900 2 0 0 0 0 B 11 10 200 3 210 3 900 2 0 0 0 0 B 12 11 200 3 210 3 900 2 0 0 0 0 B 13 12 200 3 210 3 900 2 0 0 0 0 B 14 13 200 3 210 3 900 2 0 0 0 0 B 15 14 200 3 210 3 900 2 0 0 0 0 B 16 15 200 3 210 3 900 2 0 0 0 0 B 17 16 200 3 210 3 900 2 0 0 0 0 B 18 17 200 3 210 3 900 2 0 0 0 0 B 19 18 200 3 210 3 900 2 0 0 0 0 v B 20 19 200 3 210 3 900 2 0 0 0 0 v v g n",
        "300 [ 0 ] [ 0 ] [ 0 ] [ 200 201 202 210 211 212 900 901 ] [ 0 ] 8 302 302 0 ",
    ),
    // A block that proposes something starts the count again.
    (
        "u 1 300 v B 1 0 200 3 210 3 900 2 0 0 0 0 B 2 1 200 3 210 3 900 2 0 0 0 0 B 3 2 200 3 210 3 900 2 0 0 0 0 B 4 3 200 3 210 3 900 2 0 0 0 0 B 5 4 200 3 210 3 900 2 0 0 0 0 B 6 5 200 3 210 3 900 2 0 0 0 0 B 7 6 200 3 210 3 900 2 0 0 0 0 B 8 7 200 3 210 3 900 2 0 0 0 0 B 9 8 200 3 210 3 900 2 0 0 0 0 B 10 9 200 3 210 3 900 2 0 0 0 0 B 11 10 200 3 210 3 900 2 0 0 0 0 B 12 11 200 3 210 3 900 2 0 0 0 0 B 13 12 200 3 210 3 900 2 0 0 0 0 B 14 13 200 3 210 3 900 2 0 0 0 0 B 15 14 200 3 210 3 900 2 0 0 0 0 B 16 15 200 3 210 3 900 2 0 0 0 0 B 17 16 200 3 210 3 900 2 0 0 0 0 B 18 17 200 3 210 3 900 2 0 0 0 0 B 19 18 200 3 210 3 900 2 0 0 0 0 B 20 19 300 1 300 1 300 1 0 0 0 0 B 21 20 200 3 210 3 900 2 0 0 0 0 v g n",
        "300 [ 0 ] [ 0 ] 0 300 300 1 ",
    ),
    // A block next to the last one counts as its parent's other child, and not after the last one.
    (
        "u 1 300 v B 1 0 200 3 210 3 900 2 0 0 0 0 B 2 1 200 3 210 3 900 2 0 0 0 0 B 3 2 200 3 210 3 900 2 0 0 0 0 B 4 3 200 3 210 3 900 2 0 0 0 0 B 5 4 200 3 210 3 900 2 0 0 0 0 B 6 5 200 3 210 3 900 2 0 0 0 0 B 7 6 200 3 210 3 900 2 0 0 0 0 B 8 7 200 3 210 3 900 2 0 0 0 0 B 9 8 200 3 210 3 900 2 0 0 0 0 B 10 9 200 3 210 3 900 2 0 0 0 0 B 11 10 200 3 210 3 900 2 0 0 0 0 B 12 11 200 3 210 3 900 2 0 0 0 0 B 13 12 200 3 210 3 900 2 0 0 0 0 B 14 13 200 3 210 3 900 2 0 0 0 0 B 15 14 200 3 210 3 900 2 0 0 0 0 B 16 15 200 3 210 3 900 2 0 0 0 0 B 17 16 200 3 210 3 900 2 0 0 0 0 B 18 17 200 3 210 3 900 2 0 0 0 0 B 19 18 200 3 210 3 900 2 0 0 0 0 B 20 18 200 3 210 3 900 2 0 0 0 0 v B 21 20 200 3 210 3 900 2 0 0 0 0 v v g n",
        "300 [ 0 ] [ 0 ] [ 0 ] [ 200 201 202 210 211 212 900 901 ] [ 0 ] 8 302 302 0 ",
    ),
    // Blocks whose lists may all be a faulty replica's do not count.
    (
        "u 1 300 v B 1 0 200 3 0 0 0 0 0 0 0 0 B 2 1 200 3 0 0 0 0 0 0 0 0 B 3 2 200 3 0 0 0 0 0 0 0 0 B 4 3 200 3 0 0 0 0 0 0 0 0 B 5 4 200 3 0 0 0 0 0 0 0 0 B 6 5 200 3 0 0 0 0 0 0 0 0 B 7 6 200 3 0 0 0 0 0 0 0 0 B 8 7 200 3 0 0 0 0 0 0 0 0 B 9 8 200 3 0 0 0 0 0 0 0 0 B 10 9 200 3 0 0 0 0 0 0 0 0 B 11 10 200 3 0 0 0 0 0 0 0 0 B 12 11 200 3 0 0 0 0 0 0 0 0 B 13 12 200 3 0 0 0 0 0 0 0 0 B 14 13 200 3 0 0 0 0 0 0 0 0 B 15 14 200 3 0 0 0 0 0 0 0 0 B 16 15 200 3 0 0 0 0 0 0 0 0 B 17 16 200 3 0 0 0 0 0 0 0 0 B 18 17 200 3 0 0 0 0 0 0 0 0 B 19 18 200 3 0 0 0 0 0 0 0 0 B 20 19 200 3 0 0 0 0 0 0 0 0 v g n",
        "300 [ 0 ] [ 0 ] 0 300 300 0 ",
    ),
    // The cap: no more than 480 that no block proposes. What is named needs no place among the first 96.
    (
        "u 1 900 h 1 1 900 1 h 2 1 900 1 v B 1 0 1 96 1 96 1 96 1 96 0 0 v B 2 1 97 96 97 96 97 96 97 96 0 0 v B 3 2 193 96 193 96 193 96 193 96 0 0 v B 4 3 289 96 289 96 289 96 289 96 0 0 v B 5 4 385 96 385 96 385 96 385 96 0 0 v B 6 5 481 96 481 96 481 96 481 96 0 0 v B 7 6 577 96 577 96 577 96 577 96 0 0 v n",
        "900 [ 1 96 96 ] [ 97 224 128 ] [ 225 320 96 ] [ 0 ] [ 321 384 64 ] [ 385 480 96 ] [ 0 ] [ 0 ] 900 900 192 ",
    ),
    // What is named arrives at once, where its low stamp is small.
    (
        "u 901 1 h 1 901 1 1 u 1 480 h 1 1 480 2 h 2 1 480 2 v B 1 0 1 192 1 192 1 192 0 0 0 0 v v B 2 1 193 192 193 192 193 192 901 1 901 1 v p 901 1 v n",
        "1 480 [ 1 96 96 ] [ 97 224 128 ] [ 225 320 96 ] [ 901 448 129 ] [ 449 480 32 ] 481 481 0 ",
    ),
    // But not where the cap is full, until a block proposes some.
    (
        "u 901 1 h 1 901 1 1 u 1 600 h 1 1 600 2 h 2 1 600 2 v B 1 0 1 96 1 96 1 96 0 0 0 0 v B 2 1 97 96 97 96 97 96 0 0 0 0 v B 3 2 193 96 193 96 193 96 0 0 0 0 v B 4 3 289 96 289 96 289 96 0 0 0 0 v B 5 4 385 96 385 96 385 96 0 0 0 0 v B 6 5 901 1 901 1 0 0 0 0 0 0 v n p 1 96 v n",
        "1 600 [ 1 96 96 ] [ 97 224 128 ] [ 225 320 96 ] [ 0 ] [ 321 384 64 ] [ 385 480 96 ] [ 0 ] 601 601 1 [ 901 901 1 ] 601 601 0 ",
    ),
    // A peer beyond its quota: 4,096 are held.
    ("h 1 1 4097 1 n", "4096 4096 0 "),
    // What arrived before a restart counts as not proposed.
    (
        "R 1 70 u 101 30 h 1 101 30 1 h 2 101 30 1 v n",
        "30 [ 101 126 26 ] 100 100 0 ",
    ),
    // A session that closes: what is named and proposed arrives, with what has a smaller key, and nothing else does.
    (
        "u 1 300 h 1 1 300 1 h 2 1 300 1 w p 150 20 B 1 0 150 20 150 20 0 0 0 0 0 0 w w g n",
        "300 [ 0 ] [ 1 169 169 ] [ 0 ] 0 300 300 0 ",
    ),
    // Then what is named but not proposed waits, and what is beyond the cap: 104 arrive, ten stay named.
    (
        "u 1 600 h 1 1 600 1 h 2 1 600 1 p 100 5 p 500 5 B 1 0 100 5 100 5 500 5 500 5 0 0 w B 2 1 300 5 300 5 0 0 0 0 0 0 w n",
        "600 [ 1 104 104 ] [ 0 ] 600 600 10 ",
    ),
    // Exactly as many as the cap arrive.
    (
        "u 1 480 h 1 1 480 1 h 2 1 480 1 p 480 1 B 1 0 480 1 480 1 0 0 0 0 0 0 w n",
        "480 [ 1 480 480 ] 480 480 0 ",
    ),
    // One that is beyond the cap by one waits, and one that is named after it arrives.
    (
        "u 1 481 h 1 1 481 1 h 2 1 481 1 p 100 1 p 481 1 B 1 0 481 1 481 1 100 1 100 1 0 0 w n",
        "481 [ 1 100 100 ] 481 481 1 ",
    ),
    // What is final is no longer named.
    (
        "u 1 5 B 1 0 1 2 1 2 0 0 0 0 0 0 n s 1 2 n",
        "5 5 5 2 5 3 0 ",
    ),
    // Few that wait do not arrive either.
    ("u 1 64 w v", "64 [ 0 ] [ 1 64 64 ] "),
    // A burst of 2,000.
    (
        "u 1 2000 h 1 1 2000 1 h 2 1 2000 1 v p 1 96 v n",
        "2000 [ 1 96 96 ] [ 97 192 96 ] 2000 2000 0 ",
    ),
    // What two lists hold is an exception once.
    (
        "u 1 300 v B 1 0 200 3 200 3 900 2 0 0 0 0 B 2 1 200 3 200 3 900 2 0 0 0 0 B 3 2 200 3 200 3 900 2 0 0 0 0 B 4 3 200 3 200 3 900 2 0 0 0 0 B 5 4 200 3 200 3 900 2 0 0 0 0 B 6 5 200 3 200 3 900 2 0 0 0 0 B 7 6 200 3 200 3 900 2 0 0 0 0 B 8 7 200 3 200 3 900 2 0 0 0 0 B 9 8 200 3 200 3 900 2 0 0 0 0 B 10 9 200 3 200 3 900 2 0 0 0 0 B 11 10 200 3 200 3 900 2 0 0 0 0 B 12 11 200 3 200 3 900 2 0 0 0 0 B 13 12 200 3 200 3 900 2 0 0 0 0 B 14 13 200 3 200 3 900 2 0 0 0 0 B 15 14 200 3 200 3 900 2 0 0 0 0 B 16 15 200 3 200 3 900 2 0 0 0 0 B 17 16 200 3 200 3 900 2 0 0 0 0 B 18 17 200 3 200 3 900 2 0 0 0 0 B 19 18 200 3 200 3 900 2 0 0 0 0 B 20 19 200 3 200 3 900 2 0 0 0 0 v v g n",
        "300 [ 0 ] [ 0 ] [ 200 201 202 900 901 ] [ 0 ] 5 302 302 3 ",
    ),
    // What waits behind others by its key is an exception in a stuck chain.
    (
        "u 1 300 h 1 1 300 1 h 2 1 300 1 B 1 0 200 3 210 3 220 3 0 0 0 0 B 2 1 200 3 210 3 220 3 0 0 0 0 B 3 2 200 3 210 3 220 3 0 0 0 0 B 4 3 200 3 210 3 220 3 0 0 0 0 B 5 4 200 3 210 3 220 3 0 0 0 0 B 6 5 200 3 210 3 220 3 0 0 0 0 B 7 6 200 3 210 3 220 3 0 0 0 0 B 8 7 200 3 210 3 220 3 0 0 0 0 B 9 8 200 3 210 3 220 3 0 0 0 0 B 10 9 200 3 210 3 220 3 0 0 0 0 B 11 10 200 3 210 3 220 3 0 0 0 0 B 12 11 200 3 210 3 220 3 0 0 0 0 B 13 12 200 3 210 3 220 3 0 0 0 0 B 14 13 200 3 210 3 220 3 0 0 0 0 B 15 14 200 3 210 3 220 3 0 0 0 0 B 16 15 200 3 210 3 220 3 0 0 0 0 B 17 16 200 3 210 3 220 3 0 0 0 0 B 18 17 200 3 210 3 220 3 0 0 0 0 B 19 18 200 3 210 3 220 3 0 0 0 0 B 20 19 200 3 210 3 220 3 0 0 0 0 v g n",
        "300 [ 1 96 96 ] [ 200 201 202 210 211 212 220 221 222 ] 9 300 300 0 ",
    ),
    // What is let in is no exception.
    (
        "u 401 9 h 1 401 9 1 u 1 300 h 1 1 300 10 h 2 1 300 10 B 1 0 401 3 404 3 407 3 0 0 0 0 B 2 1 401 3 404 3 407 3 0 0 0 0 B 3 2 401 3 404 3 407 3 0 0 0 0 B 4 3 401 3 404 3 407 3 0 0 0 0 B 5 4 401 3 404 3 407 3 0 0 0 0 B 6 5 401 3 404 3 407 3 0 0 0 0 B 7 6 401 3 404 3 407 3 0 0 0 0 B 8 7 401 3 404 3 407 3 0 0 0 0 B 9 8 401 3 404 3 407 3 0 0 0 0 B 10 9 401 3 404 3 407 3 0 0 0 0 B 11 10 401 3 404 3 407 3 0 0 0 0 B 12 11 401 3 404 3 407 3 0 0 0 0 B 13 12 401 3 404 3 407 3 0 0 0 0 B 14 13 401 3 404 3 407 3 0 0 0 0 B 15 14 401 3 404 3 407 3 0 0 0 0 B 16 15 401 3 404 3 407 3 0 0 0 0 B 17 16 401 3 404 3 407 3 0 0 0 0 B 18 17 401 3 404 3 407 3 0 0 0 0 B 19 18 401 3 404 3 407 3 0 0 0 0 B 20 19 401 3 404 3 407 3 0 0 0 0 v g n",
        "9 300 [ 401 96 105 ] 0 309 309 0 ",
    ),
];

#[test]
fn intakes_follow_scripts(rt: HostRuntime) -> Result<(), Fail> {
    for (script, wanted) in CASES {
        let got = gives(rt.alloc(), script)?;
        assert_eq!(rt; got.as_str(), *wanted);
    }
    Ok(())
}
