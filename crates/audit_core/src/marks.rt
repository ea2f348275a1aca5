//! The kinds and views of the statements that were sealed.
ghost use Rattle.std.specs.Prelude.{◌≡◌, not, true, [], ◌∷◌, IfOk, OnOk};
ghost use Rattle.journal_rules.specs.Sealed.{marks_in};
ghost use Rattle.audit_core.specs.Marking.{mark, are_new, marked};
ghost use Rattle.audit_core.specs.Sets.{has_mark, with_mark};

use crate::statements::mark_of;
use seq_base::{Bytes, NoMemory};
use std::alloc::Global;
use std::collections::BTreeSet;
use std::marker::Model;

pub(crate) struct Marks {
    /// Pairs of a kind and a view.
    set: BTreeSet<(u32, u32)>,
}

impl Drop for Marks {
    fn drop(self) {
        let Marks { set: _ } = self;
    }
}

impl Model for Marks {
    ghost use Rattle.std.specs.Prelude.{ℕ, List};

    ghost Value = { List (ℕ × ℕ) };

    ghost view = { λ marks. marks.set.keys };
}

impl Marks {
    pub(crate) fn none(alloc: Global) -> Marks
        ensures { result ≡ [] }
    {
        Marks {
            set: BTreeSet::new(alloc),
        }
    }

    /// Adds a pair, and returns whether it is new.
    fn insert(&mut self, kind: u32, view: u32) -> Result<bool, NoMemory>
        ensures is_new { IfOk result (λ new. new ≡ not (has_mark self.old (mark kind view))) }
        ensures marks { OnOk result (self.new ≡ with_mark (mark kind view) self.old) }
    {
        let is_new = self.set.insert((kind, view))?;
        Ok(is_new)
    }

    /// Adds the kinds and views of statements, and returns whether each is new.
    pub(crate) fn insert_all(&mut self, statements: &[Bytes]) -> Result<bool, NoMemory>
        ensures are_new { IfOk result (λ new. new ≡ are_new self.old (marks_in statements.now)) }
        ensures marks { IfOk result (λ new. new ≡ true → self.new ≡ marked self.old (marks_in statements.now)) }
    {
        for statement in statements {
            if !self.insert_of(statement)? {
                return Ok(false);
            }
        }
        Ok(true)
    }

    /// The same for one statement.
    fn insert_of(&mut self, statement: &Bytes) -> Result<bool, NoMemory>
        ensures are_new { IfOk result (λ new. new ≡ are_new self.old (marks_in (statement.now ∷ []))) }
        ensures marks { IfOk result (λ new. new ≡ true → self.new ≡ marked self.old (marks_in (statement.now ∷ []))) }
    {
        match mark_of(statement.as_slice()) {
            Some((kind, view)) => self.insert(kind, view),
            None => Ok(true),
        }
    }
}
