//! Order texts that are read, and the text of each fault.
use crate::cases::check_cases;
use crate::numbers::number_of;
use plan_text::{FaultKind, PlanError, PlanFault, read_order_text};
use seq_base::{KeyText, Setting, SettingFault, Tx, TxList};
use std::alloc::{AllocError, Global};
use std::fmt::Write;
use std::test::Fail;

const FAULTS: &str = "\
text||missing line 1
text|/|line line 1
text|setting 5 1 1 1|line line 1
text|setting 5 1 1/|line line 1
text|setting 5 1 1 1 1/|line line 1
text|setting 5 1 1 1 /|line line 1
text|setting  5 1 1 1/|line line 1
text|Setting 5 1 1 1/|line line 1
text|setting 05 1 1 1/|line line 1
text|setting 4294967296 1 1 1/|line line 1
text|setting 5 1 1 1\r/|line line 1
text|setting 0 1 1 1/|setting replicas
text|setting 17 1 1 1/|setting replicas
text|setting 5 1 1 2/|setting gamma
text|setting 5 1 1001 1001/|setting gamma
text|setting 4 1 1 1/order/|setting resilience
text|setting 5 1 1 1/|missing line 2
text|setting 5 1 1 1/order/order/order/|missing line 5
text|setting 5 1 1 1/order/order/order/order|line line 5
text|setting 5 1 1 1/order/order/order/order/order/|line line 6
text|setting 5 1 1 1/order/order/order/order//|line line 6
text|setting 5 1 1 1/order /|line line 2
text|setting 5 1 1 1/order  1.1.0/|line line 2
text|setting 5 1 1 1/ order/|line line 2
text|setting 5 1 1 1/orders/|line line 2
text|setting 5 1 1 1/order 1.1/|line line 2
text|setting 5 1 1 1/order/order 1.1.0 1.1.0/|double line 3
text|setting 5 1 1 1/order/order 1.1.0 1.1.0 x/|line line 3
text|setting 5 1 1 1/order 1.1.0 1.1.0|line line 2
";

/// The input is the number of transactions in one list. The answer has n, f, and the length of each list.
const COUNTS: &str = "\
count|0|1 0: 0
count|128|1 0: 128
count|129|line line 2
";

/// Each kind of fault at a key, and the fault when memory runs out.
const KINDS: &str = "\
kind|toml|toml
kind|unknown|unknown faulty[1]
kind|missing|missing faulty[1]
kind|kind|kind faulty[1]
kind|range|range faulty[1]
kind|setting|setting gamma
kind|double|double faulty[1]
kind|line|line faulty[1]
kind|no memory|no memory
";

#[test]
fn each_fault_of_an_order_text_has_its_words(rt: HostRuntime) -> Result<(), Fail> {
    check_cases(rt.alloc(), FAULTS)
}

#[test]
fn an_order_line_holds_128_transactions_at_most(rt: HostRuntime) -> Result<(), Fail> {
    check_cases(rt.alloc(), COUNTS)
}

#[test]
fn each_kind_of_fault_has_its_word(rt: HostRuntime) -> Result<(), Fail> {
    check_cases(rt.alloc(), KINDS)
}

pub(crate) fn write_kind(answer: &mut String, alloc: Global, word: &str) -> Result<(), Fail> {
    let error = error_of(alloc, word)?;
    Ok(write!(answer, "{error}")?)
}

fn error_of(alloc: Global, word: &str) -> Result<PlanError, AllocError> {
    if word == "no memory" {
        return Ok(PlanError::NoMemory);
    }
    let key = KeyText::of(String::from_str(alloc, "faulty[1]")?);
    Ok(PlanError::Fault(PlanFault {
        kind: kind_of(word),
        key,
    }))
}

fn kind_of(word: &str) -> FaultKind {
    match word {
        "toml" => FaultKind::NotToml,
        "unknown" => FaultKind::Unknown,
        "missing" => FaultKind::Missing,
        "kind" => FaultKind::WrongKind,
        "range" => FaultKind::Range,
        "setting" => FaultKind::Setting(SettingFault::Gamma),
        "double" => FaultKind::Double,
        _ => FaultKind::Line,
    }
}

/// The answer for a text in which slashes replace the ends of lines.
pub(crate) fn write_lines(answer: &mut String, alloc: Global, text: &str) -> Result<(), Fail> {
    let text = text.replace(alloc, '/', "\n")?;
    write_text(answer, alloc, text.as_str())
}

/// `n f`, followed by the length of each list, or the first fault.
fn write_text(answer: &mut String, alloc: Global, text: &str) -> Result<(), Fail> {
    match read_order_text(alloc, text.as_bytes()) {
        Ok(text) => write_lists(answer, &text.setting, text.lists.as_slice()),
        Err(error) => Ok(write!(answer, "{error}")?),
    }
}

fn write_lists(answer: &mut String, setting: &Setting, lists: &[TxList]) -> Result<(), Fail> {
    let (n, f) = (setting.n(), setting.f());
    write!(answer, "{n} {f}:")?;
    for list in lists {
        let count = list.as_slice().len();
        write!(answer, " {count}")?;
    }
    Ok(())
}

/// The same for a text with one list of `count` transactions.
pub(crate) fn write_count(answer: &mut String, alloc: Global, count: &str) -> Result<(), Fail> {
    let mut text = String::new(alloc);
    push_text(&mut text, number_of(Some(count)))?;
    write_text(answer, alloc, text.as_str())
}

fn push_text(text: &mut String, count: u32) -> Result<(), Fail> {
    text.push_str("setting 1 0 1 1\norder")?;
    for number in 0..count {
        let tx = Tx {
            client: 1,
            number,
            payload: 7,
        };
        write!(text, " {tx}")?;
    }
    Ok(text.push('\n')?)
}
