//! The values at the keys of a table, and how a fault names a key.
ghost use Rattle.std.specs.Prelude.{◌≡◌, ◌≤◌, Ok, IfOk, [], find, map, not, option_map, string_bytes};
ghost use Rattle.std.specs.BTreeMap.{keys};
ghost use Rattle.std.specs.Option.{option_copied};
ghost use Rattle.toml.specs.Data.{get_member};
ghost use Rattle.toml.specs.View.{view, table_view};
ghost use Rattle.plan_text.specs.Reads.{IsFaultOf, ReadsTo, ReadsAs};
ghost use Rattle.plan_text.specs.Values.{array_in};
ghost use Rattle.plan_text.specs.Fields.{at_key, at_key_or, is_named, key_in, known, named, number_at, place, section_at, word_at};

use crate::values::{array_of, number_of, word_of};
use crate::{FaultKind, PlanError, PlanFault};
use seq_base::{KeyText, NoMemory};
use std::alloc::Global;
use toml::{Table, Value};

/// A table: the document itself, or the table at an index of an array. A fault names a key of such a table as
/// `client[0].id`.
#[derive(Clone, Copy)]
pub(crate) struct Fields<'a> {
    table: &'a Table,
    place: Option<(&'a str, usize)>,
}

impl<'a> Fields<'a> {
    ghost use Rattle.plan_text.specs.Sections.{section_of};

    pub(crate) fn of_document(table: &'a Table) -> Fields<'a>
        ensures { section_of result ≡ record { members = table_view table.now; prefix = [] } }
    {
        Fields { table, place: None }
    }

    /// The table at an index of an array.
    pub(crate) fn of_element(
        alloc: Global,
        value: &'a Value,
        list: &'a str,
        at: usize,
    ) -> Result<Fields<'a>, PlanError>
        ensures { ReadsAs section_of result (section_at list.now at (view value.now)) }
    {
        match value.as_table() {
            Some(table) => Ok(Fields {
                table,
                place: Some((list, at)),
            }),
            None => Err(element_fault(alloc, FaultKind::WrongKind, list, at)),
        }
    }

    /// A fault of the value at a key.
    pub(crate) fn fault(&self, alloc: Global, kind: FaultKind, key: &str) -> PlanError
        ensures { IsFaultOf result kind (key_in (section_of self.now) key.now) }
    {
        match self.name_of(alloc, key) {
            Ok(key) => PlanError::Fault(PlanFault {
                kind,
                key: KeyText::of(key),
            }),
            Err(_) => PlanError::NoMemory,
        }
    }

    /// A fault of the element at an index of the array at a key.
    pub(crate) fn element_fault(
        &self,
        alloc: Global,
        kind: FaultKind,
        key: &str,
        at: usize,
    ) -> PlanError
        ensures { IsFaultOf result kind (place (key_in (section_of self.now) key.now) at) }
    {
        match format!(in alloc; "{key}[{at}]") {
            Ok(key) => self.fault(alloc, kind, key.as_str()),
            Err(_) => PlanError::NoMemory,
        }
    }

    /// A key with its prefix in a fault.
    fn name_of(&self, alloc: Global, key: &str) -> Result<String, NoMemory>
        ensures { IfOk result (λ name. string_bytes name ≡ key_in (section_of self.now) key.now) }
    {
        match self.place {
            None => Ok(format!(in alloc; "{key}")?),
            Some((list, at)) => Ok(format!(in alloc; "{list}[{at}].{key}")?),
        }
    }

    /// Refuses a key that is not among the names: the least by bytes, which is the first.
    pub(crate) fn known(&self, alloc: Global, names: &[&str]) -> Result<(), PlanError>
        ensures { ReadsTo result (known (map (λ name. name.now) names.now) (section_of self.now)) }
    {
        match first_unknown(self.table, names) {
            Some(key) => Err(self.fault(alloc, FaultKind::Unknown, key.as_str())),
            None => Ok(()),
        }
    }

    pub(crate) fn get(&self, key: &str) -> Option<&'a Value>
        ensures { option_map (λ value. view value.now) result ≡ get_member key.now (section_of self.now).members }
    {
        self.table.get(key)
    }

    /// What was read at a key, with a fault named by the key.
    pub(crate) fn named<X: Drop>(
        &self,
        alloc: Global,
        key: &str,
        read: Result<X, FaultKind>,
    ) -> Result<X, PlanError>
        ensures value { IfOk result (λ value. read ≡ Ok value) }
        ensures exact { ReadsTo result (named (key_in (section_of self.now) key.now) read) }
    {
        match read {
            Ok(value) => Ok(value),
            Err(kind) => Err(self.fault(alloc, kind, key)),
        }
    }

    /// The number at a key, from `low` to `high`.
    pub(crate) fn number(
        &self,
        alloc: Global,
        key: &str,
        low: u32,
        high: u32,
    ) -> Result<u32, PlanError>
        ensures range { IfOk result (λ number. (low ≤ number) × (number ≤ high)) }
        ensures exact { ReadsTo result (number_at low high key.now (section_of self.now)) }
    {
        match self.get(key) {
            Some(value) => self.named(alloc, key, number_of(value, low, high)),
            None => Err(self.fault(alloc, FaultKind::Missing, key)),
        }
    }

    /// The word at a key.
    pub(crate) fn word(&self, alloc: Global, key: &str) -> Result<&'a str, PlanError>
        ensures { ReadsAs (λ word. word.now) result (word_at key.now (section_of self.now)) }
    {
        let Some(value) = self.get(key) else {
            return Err(self.fault(alloc, FaultKind::Missing, key));
        };
        match word_of(value) {
            Ok(word) => Ok(word),
            Err(kind) => Err(self.fault(alloc, kind, key)),
        }
    }

    /// The values of the array at a key.
    pub(crate) fn array(&self, alloc: Global, key: &str) -> Result<&'a [Value], PlanError>
        ensures { ReadsAs (λ values. map view values.now) result (at_key array_in key.now (section_of self.now)) }
    {
        let Some(value) = self.get(key) else {
            return Err(self.fault(alloc, FaultKind::Missing, key));
        };
        match array_of(value) {
            Ok(values) => Ok(values),
            Err(kind) => Err(self.fault(alloc, kind, key)),
        }
    }

    /// The values of the array at a key, and none where the key is absent.
    pub(crate) fn array_if_any(&self, alloc: Global, key: &str) -> Result<&'a [Value], PlanError>
        ensures { ReadsAs (λ values. map view values.now) result (at_key_or [] array_in key.now (section_of self.now)) }
    {
        let Some(value) = self.get(key) else {
            return Ok(&[]);
        };
        match array_of(value) {
            Ok(values) => Ok(values),
            Err(kind) => Err(self.fault(alloc, kind, key)),
        }
    }
}

/// A fault of the element at an index of an array of the document.
pub(crate) fn element_fault(alloc: Global, kind: FaultKind, key: &str, at: usize) -> PlanError
    ensures { IsFaultOf result kind (place key.now at) }
{
    match format!(in alloc; "{key}[{at}]") {
        Ok(key) => PlanError::Fault(PlanFault {
            kind,
            key: KeyText::of(key),
        }),
        Err(_) => PlanError::NoMemory,
    }
}

/// The first key that is not among the names.
fn first_unknown<'a>(table: &'a Table, names: &[&str]) -> Option<&'a String>
    ensures { option_copied result
        ≡ find (λ key. not (is_named (map (λ name. name.now) names.now) (string_bytes key))) (keys table.now) }
{
    table.keys().find(|key| !is_among(key.as_str(), names))
}

fn is_among(key: &str, names: &[&str]) -> bool
    ensures { result ≡ is_named (map (λ name. name.now) names.now) key.now }
{
    for name in names {
        if *name == key {
            return true;
        }
    }
    false
}
