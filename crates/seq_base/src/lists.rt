//! List types that hold nothing but their items.
use crate::{Items, Tx};

/// Transactions in an order.
pub type TxList = Items<Tx>;

/// Lists of transactions, one for each replica or each local order.
pub type TxLists = Items<TxList>;

/// Batches of transactions, earliest first.
pub type BatchList = Items<TxList>;

/// The bytes of a signature.
pub type Seal = Items<u8>;

/// Bytes that are read, written or sent.
pub type Bytes = Items<u8>;
