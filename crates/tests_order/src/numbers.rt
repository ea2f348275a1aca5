//! Settings, transactions and numbers.
use crate::cases::check_cases;
use seq_base::{Setting, SettingFault, Tx, parse_u32, parse_u64};
use std::cmp::Ordering;
use std::fmt::Write;
use std::test::Fail;

const SETTINGS: &str = "\
setting|5 1 1 1|fits
setting|4 1 1 1|setting resilience
setting|9 1 3 4|fits
setting|8 1 3 4|setting resilience
setting|5 1 1 2|setting gamma
setting|5 1 1000 1000|fits
setting|5 1 1001 1001|setting gamma
setting|5 1 2 1|setting gamma
setting|5 0 0 0|setting gamma
setting|0 0 1 1|setting replicas
setting|1 0 1 1|fits
setting|16 0 501 1000|fits
setting|16 3 1 1|fits
setting|16 4 1 1|setting resilience
setting|17 0 1 1|setting replicas
setting|17 0 1 2|setting replicas
setting|5 4294967295 1 1|setting resilience
setting|5 1 4294967295 1|setting gamma
counts|9 1 3 4|9 1 3 4, 4 7 8, 0 8 0
";

/// Transactions and numbers that are read and written again, and the comparison of four transactions, by client,
/// number and payload in this order.
const TXS: &str = "\
tx|4294967295.0.18446744073709551615|4294967295.0.18446744073709551615
tx||none
tx|.|none
tx|..|none
tx|1.2|none
tx|1.2.|none
tx|1.2.3.|none
tx|1..3|none
tx|01.2.3|none
tx|1.02.3|none
tx|1.2.03|none
tx|+1.2.3|none
tx|1.2.3 |none
tx| 1.2.3|none
tx|1.2.a|none
tx|4294967296.0.0|none
tx|0.4294967296.0|none
tx|0.0.18446744073709551616|none
tx|1.2.3.4|none
tx|-1.2.3|none
tx|1,2,3|none
number|u32 0|0
number|u32 4294967295|4294967295
number|u32 4294967296|none
number|u64 18446744073709551615|18446744073709551615
number|u64 18446744073709551616|none
number|u64 00|none
number|u64 +1|none
signs|1.9.9 2.1.9 2.2.1 2.2.3|=<<< >=<< >>=< >>>= 
";

#[test]
fn settings_are_accepted_and_refused(rt: HostRuntime) -> Result<(), Fail> {
    check_cases(rt.alloc(), SETTINGS)
}

#[test]
fn transactions_and_numbers_are_read(rt: HostRuntime) -> Result<(), Fail> {
    check_cases(rt.alloc(), TXS)
}

/// `fits`, or the fault of a setting.
pub(crate) fn write_setting(answer: &mut String, numbers: &str) -> Result<(), Fail> {
    match setting_of(numbers) {
        Ok(_) => Ok(answer.push_str("fits")?),
        Err(fault) => Ok(write!(answer, "{fault}")?),
    }
}

fn setting_of(numbers: &str) -> Result<Setting, SettingFault> {
    let mut words = numbers.split_whitespace();
    let n = number_of(words.next());
    let f = number_of(words.next());
    let p = number_of(words.next());
    let q = number_of(words.next());
    Setting::new(n, f, p, q)
}

/// The numbers of a setting, its three counts, and the leaders of views 0, 8 and 9.
pub(crate) fn write_counts(answer: &mut String, numbers: &str) -> Result<(), Fail> {
    let setting = setting_of(numbers)?;
    let (n, f, p, q) = (setting.n(), setting.f(), setting.p(), setting.q());
    write!(answer, "{n} {f} {p} {q}, ")?;
    let (threshold, solid, quorum) = (setting.threshold(), setting.solid_at(), setting.quorum());
    write!(answer, "{threshold} {solid} {quorum}, ")?;
    let (first, last, again) = (setting.leader(0), setting.leader(8), setting.leader(9));
    Ok(write!(answer, "{first} {last} {again}")?)
}

pub(crate) fn number_of(word: Option<&str>) -> u32 {
    match word {
        Some(word) => parse_u32(word.as_bytes()).unwrap_or(0),
        None => 0,
    }
}

/// A transaction that is read and written again.
pub(crate) fn write_tx(answer: &mut String, word: &str) -> Result<(), Fail> {
    match Tx::parse(word.as_bytes()) {
        Some(tx) => Ok(write!(answer, "{tx}")?),
        None => Ok(answer.push_str("none")?),
    }
}

/// A number of 32 or 64 bits that is read and written again.
pub(crate) fn write_number(answer: &mut String, input: &str) -> Result<(), Fail> {
    let (kind, word) = input.split_once(' ').unwrap_or(("", input));
    let read = if kind == "u32" {
        parse_u32(word.as_bytes()).map(u64::from)
    } else {
        parse_u64(word.as_bytes())
    };
    match read {
        Some(number) => Ok(write!(answer, "{number}")?),
        None => Ok(answer.push_str("none")?),
    }
}

/// The comparisons of each transaction with each.
pub(crate) fn write_signs(answer: &mut String, txs: &str) -> Result<(), Fail> {
    for one in txs.split_whitespace() {
        for other in txs.split_whitespace() {
            answer.push(sign_of(Tx::parse(one.as_bytes()), Tx::parse(other.as_bytes())))?;
        }
        answer.push(' ')?;
    }
    Ok(())
}

fn sign_of(one: Option<Tx>, other: Option<Tx>) -> char {
    match (one, other) {
        (Some(one), Some(other)) => match (one.cmp(&other), one == other) {
            (Ordering::Equal, true) => '=',
            (Ordering::Less, false) => '<',
            (Ordering::Greater, false) => '>',
            _ => '?',
        },
        _ => '?',
    }
}
