//! What a value of the document is, or the kind of its fault: a wrong kind of value comes before one out of range.
ghost use Rattle.std.specs.Prelude.{◌≡◌, ◌<◌, ◌≤◌, ◌^◌, IfOk, map};
ghost use Rattle.toml.specs.View.{view};
ghost use Rattle.plan_text.specs.Values.{number_in, seed_in, word_in, array_in, tx_in, Gives};

use crate::FaultKind;
use seq_base::Tx;
use toml::Value;

/// A number from `low` to `high`.
pub(crate) fn number_of(value: &Value, low: u32, high: u32) -> Result<u32, FaultKind>
    ensures value { result ≡ number_in low high (view value.now) }
    ensures range { IfOk result (λ number. (low ≤ number) × (number ≤ high)) }
{
    let Some(integer) = value.as_integer() else {
        return Err(FaultKind::WrongKind);
    };
    match u32::try_from(integer) {
        Ok(number) if low <= number && number <= high => Ok(number),
        _ => Err(FaultKind::Range),
    }
}

/// A number from 0 to 2^63-1, the greatest that a document can hold.
pub(crate) fn seed_of(value: &Value) -> Result<u64, FaultKind>
    ensures value { result ≡ seed_in (view value.now) }
    ensures small { IfOk result (λ seed. seed < 2 ^ 63) }
{
    let Some(integer) = value.as_integer() else {
        return Err(FaultKind::WrongKind);
    };
    match u64::try_from(integer) {
        Ok(seed) => Ok(seed),
        Err(_) => Err(FaultKind::Range),
    }
}

pub(crate) fn word_of(value: &Value) -> Result<&str, FaultKind>
    ensures { Gives (λ word. word.now) result (word_in (view value.now)) }
{
    match value.as_str() {
        Some(word) => Ok(word),
        None => Err(FaultKind::WrongKind),
    }
}

pub(crate) fn array_of(value: &Value) -> Result<&[Value], FaultKind>
    ensures { Gives (λ values. map view values.now) result (array_in (view value.now)) }
{
    match value.as_array() {
        Some(values) => Ok(values.as_slice()),
        None => Err(FaultKind::WrongKind),
    }
}

pub(crate) fn tx_of(value: &Value) -> Result<Tx, FaultKind>
    ensures { result ≡ tx_in (view value.now) }
{
    match Tx::parse(word_of(value)?.as_bytes()) {
        Some(tx) => Ok(tx),
        None => Err(FaultKind::Range),
    }
}
