//! Desks, by scripts of calls.
ghost use Rattle.std.specs.Prelude.{◌<◌};

use crate::words::{Text, Words};
use intake::{Bound, Desk, Keyed, Receipt, Standing, Taken};
use seq_base::{NoMemory, Setting, Tx};
use std::alloc::Global;
use std::test::Fail;

pub(crate) fn taken(answer: Taken) -> &'static str {
    match answer {
        Taken::Final => "F ",
        Taken::Held => "H ",
        Taken::Full => "L ",
        Taken::Beyond => "B ",
        Taken::New => "N ",
    }
}

fn standing(answer: Standing) -> &'static str {
    match answer {
        Standing::Unknown => "U ",
        Standing::Waiting => "W ",
        Standing::Arrived => "A ",
        Standing::Final => "F ",
    }
}

/// A number below the count of replicas.
pub(crate) fn peer(desk: &Desk, number: u64) -> u32
    ensures { result < desk.now.n }
{
    u32::try_from(number).unwrap_or(0) % desk.n()
}

/// One call, by its letter.
fn call(desk: &mut Desk, word: &str, words: &mut Words, text: &mut Text) -> Result<(), NoMemory> {
    match word {
        "r" => receive(desk, words, text),
        "h" => hear(desk, words, text),
        "c" => hear_clock(desk, words),
        "s" => settle(desk, words),
        "R" => restore(desk, words, text),
        "b" => arrive(desk, words, text),
        "a" => arrive_all(desk, text),
        "g" => give(desk, words, text),
        "o" => ordered(desk, text),
        "q" => receipts(desk, words, text),
        "t" => stands(desk, words, text),
        "l" => text.number(desk.charged(desk.n() + 1)),
        _ => sizes(desk, text),
    }
}

fn receive(desk: &mut Desk, words: &mut Words, text: &mut Text) -> Result<(), NoMemory> {
    let tx = words.tx();
    let source = peer(desk, words.number());
    text.mark(taken(desk.receive(tx, source)?))
}

fn hear(desk: &mut Desk, words: &mut Words, text: &mut Text) -> Result<(), NoMemory> {
    let from = peer(desk, words.number());
    let receipt = Receipt {
        tx: words.tx(),
        stamp: words.number(),
    };
    text.mark(taken(desk.hear(from, receipt)?))
}

fn hear_clock(desk: &mut Desk, words: &mut Words) -> Result<(), NoMemory> {
    let from = peer(desk, words.number());
    desk.hear_clock(from, words.number());
    Ok(())
}

fn settle(desk: &mut Desk, words: &mut Words) -> Result<(), NoMemory> {
    desk.settle(&[words.tx()])
}

fn restore(desk: &mut Desk, words: &mut Words, text: &mut Text) -> Result<(), NoMemory> {
    text.mark(taken(desk.restore(words.tx())?))
}

/// Up to a key and a transaction, and one more.
fn arrive(desk: &mut Desk, words: &mut Words, text: &mut Text) -> Result<(), NoMemory> {
    let bound = Bound::To {
        key: words.number(),
        tx: words.tx(),
    };
    let txs = desk.arrive(bound, &[words.tx()])?;
    text.txs(txs.as_slice())
}

fn arrive_all(desk: &mut Desk, text: &mut Text) -> Result<(), NoMemory> {
    let txs = desk.arrive(Bound::All, &[])?;
    text.txs(txs.as_slice())
}

fn give(desk: &mut Desk, words: &mut Words, text: &mut Text) -> Result<(), NoMemory> {
    text.mark(if desk.give(&words.tx()) { "y " } else { "n " })
}

fn ordered(desk: &Desk, text: &mut Text) -> Result<(), NoMemory> {
    let list = desk.ordered()?;
    for found in list.as_slice() {
        text.number(found.key)?;
        text.number(u64::from(found.tx.number))?;
    }
    Ok(())
}

fn receipts(desk: &Desk, words: &mut Words, text: &mut Text) -> Result<(), NoMemory> {
    let list = desk.receipts_after(words.number(), 3)?;
    for receipt in list.as_slice() {
        text.number(u64::from(receipt.tx.number))?;
        text.number(receipt.stamp)?;
    }
    Ok(())
}

fn stands(desk: &Desk, words: &mut Words, text: &mut Text) -> Result<(), NoMemory> {
    text.mark(standing(desk.standing(&words.tx())))
}

fn sizes(desk: &Desk, text: &mut Text) -> Result<(), NoMemory> {
    text.number(desk.clock())?;
    text.number(desk.held_count() as u64)?;
    text.number(desk.waiting_count() as u64)?;
    text.number(desk.charged(desk.me()))
}

fn run(desk: &mut Desk, script: &str, text: &mut Text) -> Result<(), NoMemory> {
    let mut words = Words::new(script);
    for _ in 0..script.len() {
        let Some(word) = words.word() else {
            return Ok(());
        };
        call(desk, word, &mut words, text)?;
    }
    Ok(())
}

/// The desk of replica 0 of five, of which one may be faulty: keys are the third stamps.
fn desk_of_five(alloc: Global) -> Result<Desk, Fail> {
    let Ok(setting) = Setting::new(5, 1, 1, 1) else {
        return Err(Fail::new("the setting is refused"));
    };
    if 0 < setting.n() {
        return Ok(Desk::new(alloc, setting, 0)?);
    }
    Err(Fail::new("no replica"))
}

fn gives(alloc: Global, script: &str) -> Result<String, Fail> {
    let mut desk = desk_of_five(alloc)?;
    let mut text = Text::new(alloc);
    run(&mut desk, script, &mut text)?;
    Ok(String::from_str(alloc, text.text.as_str())?)
}

/// Scripts, and what their runs write. The keys were computed by an independent program.
const CASES: &[(&str, &str)] = &[
    // Receipts of one's own.
    ("r 1 0 r 2 0 r 1 0 n", "N N H 2 2 2 2 "),
    // A stamp is one more than the clock that two replicas have reached.
    ("c 1 9 r 1 0 c 2 7 r 2 0 n", "N N 8 2 2 2 "),
    // A clock that no honest replica reaches changes nothing.
    (
        "c 1 9223372036854775808 c 2 9223372036854775808 r 1 0 n h 1 2 9223372036854775808 n",
        "N 1 1 1 1 B 1 1 1 1 ",
    ),
    // The key is the third stamp. A liar's single stamp decides nothing.
    ("r 1 0 h 1 1 0 o h 2 1 5 o h 3 1 6 o", "N H H 5 1 H 5 1 "),
    // The first stamp of a peer stays.
    ("r 1 0 h 1 1 4 h 1 1 2 h 2 1 9 o", "N H H H 9 1 "),
    // Equal keys are ordered by transaction.
    (
        "h 1 7 3 h 1 6 3 h 2 7 3 h 2 6 3 h 3 7 3 h 3 6 3 o b 3 6 0 o",
        "N N H H H H 3 6 3 7 [ 6 ] 3 7 ",
    ),
    // What is final is not received again.
    (
        "r 1 0 r 2 0 s 1 r 1 0 h 1 1 9 R 1 t 1 t 2 t 3 n",
        "N N F F F F W U 2 1 1 1 ",
    ),
    // What arrived before a restart waits no more, and is charged to the log.
    ("R 4 r 5 0 t 4 t 5 a n l", "N N A W [ 5 ] 2 2 0 1 1 "),
    // A bound lets smaller keys arrive, in the order of receipt.
    (
        "r 3 0 r 2 0 r 1 0 h 1 3 6 h 2 3 7 h 1 2 4 h 2 2 5 h 1 1 1 h 2 1 2 o b 5 99 0 n",
        "N N N H H H H H H 3 1 5 2 7 3 [ 2 1 ] 3 3 1 3 ",
    ),
    // One more arrives where its low stamp is within the bound.
    (
        "r 3 0 r 2 0 h 1 3 6 h 2 3 7 h 1 2 2 b 3 99 2 b 3 99 3 n",
        "N N H H H [ 2 ] [ ] 2 2 1 2 ",
    ),
    // An exception arrives once.
    ("r 1 0 r 2 0 g 2 g 2 g 9 a n", "N N y n n [ 1 ] 2 2 0 2 "),
    // Receipts are reported in their order, three at a time.
    (
        "r 1 0 c 1 5 c 2 5 r 2 0 r 3 0 r 4 0 q 0 q 7 q 8",
        "N N N N 1 1 2 6 3 7 4 8 ",
    ),
];

#[test]
fn desks_follow_scripts(rt: HostRuntime) -> Result<(), Fail> {
    for (script, wanted) in CASES {
        let got = gives(rt.alloc(), script)?;
        assert_eq!(rt; got.as_str(), *wanted);
    }
    Ok(())
}
