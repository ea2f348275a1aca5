//! Scripts of words and numbers, and the text that a run writes.
use seq_base::{NoMemory, Tx};
use std::alloc::Global;
use std::str::SplitWhitespace;

/// What is left of a script.
pub(crate) struct Words<'a> {
    words: SplitWhitespace<'a>,
}

impl<'a> Drop for Words<'a> {
    fn drop(self) {
        let Words { words: _ } = self;
    }
}

impl<'a> Words<'a> {
    pub(crate) fn new(script: &'a str) -> Words<'a> {
        Words {
            words: script.split_whitespace(),
        }
    }

    pub(crate) fn word(&mut self) -> Option<&'a str> {
        self.words.next()
    }

    /// The next number, or 0 at the end.
    pub(crate) fn number(&mut self) -> u64 {
        match self.words.next() {
            None => 0,
            Some(word) => value_of(word),
        }
    }

    pub(crate) fn tx(&mut self) -> Tx {
        tx(self.number())
    }
}

fn value_of(word: &str) -> u64 {
    word.parse::<u64>().unwrap_or(0)
}

/// A transaction by its number.
pub(crate) fn tx(number: u64) -> Tx {
    Tx {
        client: 1,
        number: (number % 100_000) as u32,
        payload: 0,
    }
}

/// The text that a run writes.
pub(crate) struct Text {
    pub(crate) text: String,
}

impl Drop for Text {
    fn drop(self) {
        let Text { text: _ } = self;
    }
}

impl Text {
    pub(crate) fn new(alloc: Global) -> Text {
        Text {
            text: String::new(alloc),
        }
    }

    pub(crate) fn mark(&mut self, mark: &str) -> Result<(), NoMemory> {
        self.text.push_str(mark)?;
        Ok(())
    }

    pub(crate) fn number(&mut self, number: u64) -> Result<(), NoMemory> {
        use std::fmt::Write;
        match write!(self.text, "{number} ") {
            Ok(()) => Ok(()),
            Err(_) => Err(NoMemory),
        }
    }

    pub(crate) fn txs(&mut self, txs: &[Tx]) -> Result<(), NoMemory> {
        self.mark("[ ")?;
        for tx in txs {
            self.number(u64::from(tx.number))?;
        }
        self.mark("] ")
    }
}
