ghost use Rattle.std.specs.Prelude.{◌≡◌, ◌≢◌, ◌∷◌, ◌++◌, Some, IfSome, IfNone};
ghost use Rattle.seq_base.specs.Dots.{HasNoDot};

use crate::{parse_u32, parse_u64};
use std::fmt;

const DOT: u8 = b'.';

/// A transaction: its client, its number among the client's transactions, and a payload of one word. Two are equal
/// where the whole record is. They are ordered by client, then number, then payload.
#[derive(Clone, Copy, Debug, PartialEq, Eq, PartialOrd, Ord, Hash)]
pub struct Tx {
    pub client: u32,
    pub number: u32,
    pub payload: u64,
}

/// `client.number.payload`, in decimal without leading zeros.
impl fmt::Display for Tx {
    ghost use Rattle.std.specs.Prelude.{Some};
    ghost use Rattle.seq_base.specs.Tx.{tx_text};

    ghost output = { λ t. Some (tx_text t) };

    fn fmt<W: fmt::Write>(&self, f: &mut fmt::Formatter<W>) -> fmt::Result {
        let client = self.client;
        let number = self.number;
        let payload = self.payload;
        write!(f, "{client}.{number}.{payload}")
    }
}

impl Tx {
    ghost use Rattle.seq_base.specs.Tx.{tx_text, FitsTx};
    ghost use Rattle.seq_base.specs.declared.tx.Tx.{Tx};

    /// Reads `client.number.payload`. Takes no memory.
    pub fn parse(text: &[u8]) -> Option<Tx>
        ensures some { IfSome result (λ t. text.now ≡ tx_text t) }
        ensures none { IfNone result ((t : Tx) → FitsTx t → text.now ≢ tx_text t) }
    {
        let (client, rest) = split_at_dot(text)?;
        let (number, payload) = split_at_dot(rest)?;
        Some(Tx {
            client: parse_u32(client)?,
            number: parse_u32(number)?,
            payload: parse_u64(payload)?,
        })
    }
}

/// The bytes before the first dot, and those after it.
fn split_at_dot(text: &[u8]) -> Option<(&[u8], &[u8])>
    ensures some { IfSome result (λ parts. (text.now ≡ parts.0.now ++ DOT ∷ parts.1.now) × HasNoDot parts.0.now) }
    ensures none { IfNone result (HasNoDot text.now) }
{
    for (at, byte) in text.iter().enumerate() {
        if *byte == DOT {
            return Some((&text[..at], &text[at + 1..]));
        }
    }
    None
}
