//! Small types for lists, bytes and texts.
use crate::cases::check_cases;
use seq_base::{BatchList, Bytes, KeyText, NoMemory, Seal, Tx, TxList, TxLists};
use std::alloc::Global;
use std::fmt::Write;
use std::test::Fail;

const SOME: Tx = Tx {
    client: 1,
    number: 2,
    payload: 3,
};

/// The largest client and payload.
const LARGE: Tx = Tx {
    client: 4_294_967_295,
    number: 0,
    payload: 18_446_744_073_709_551_615,
};

/// Whether a container of a list, of bytes or of a text returns it.
const SMALL: &str = "\
small|list|yes
small|lists|yes
small|seal|yes
small|bytes|yes
small|transaction|yes
small|key|yes
small|no memory|no memory
";

#[test]
fn small_types_give_back_what_they_hold(rt: HostRuntime) -> Result<(), Fail> {
    check_cases(rt.alloc(), SMALL)
}

pub(crate) fn write_small(answer: &mut String, alloc: Global, kind: &str) -> Result<(), Fail> {
    if kind == "no memory" {
        return Ok(write!(answer, "{NoMemory}")?);
    }
    answer.push_str(if gives_back(alloc, kind)? {
        "yes"
    } else {
        "no"
    })?;
    Ok(())
}

fn gives_back(alloc: Global, kind: &str) -> Result<bool, Fail> {
    match kind {
        "list" => list_gives_back(alloc),
        "lists" => lists_give_back(alloc),
        "seal" => seal_gives_back(alloc),
        "bytes" => bytes_give_back(alloc),
        "transaction" => transaction_is_read_as_it_is_written(alloc),
        "key" => key_gives_back(alloc),
        _ => Ok(false),
    }
}

fn list_gives_back(alloc: Global) -> Result<bool, Fail> {
    let list = TxList::of(vec![in alloc; SOME]?);
    let is_listed = list.as_slice() == [SOME].as_slice();
    Ok(is_listed && list.into_vec().as_slice() == [SOME].as_slice())
}

fn lists_give_back(alloc: Global) -> Result<bool, Fail> {
    let list = TxList::of(vec![in alloc; SOME]?);
    let lists = TxLists::of(vec![in alloc; list]?);
    let count = lists.as_slice().len();
    let batches = BatchList::of(lists.into_vec());
    Ok(count == 1 && batches.as_slice().len() == 1)
}

fn seal_gives_back(alloc: Global) -> Result<bool, Fail> {
    let seal = Seal::of(vec![in alloc; 7, 8]?);
    let is_held = seal.as_slice() == [7, 8].as_slice();
    Ok(is_held && seal.into_vec().as_slice() == [7, 8].as_slice())
}

fn bytes_give_back(alloc: Global) -> Result<bool, Fail> {
    let bytes = Bytes::of(vec![in alloc; 9]?);
    let is_held = bytes.as_slice() == [9].as_slice();
    Ok(is_held && bytes.into_vec().as_slice() == [9].as_slice())
}

fn transaction_is_read_as_it_is_written(alloc: Global) -> Result<bool, Fail> {
    let word = LARGE.to_string(alloc)?;
    Ok(
        word.as_str() == "4294967295.0.18446744073709551615"
            && Tx::parse(word.as_bytes()) == Some(LARGE),
    )
}

fn key_gives_back(alloc: Global) -> Result<bool, Fail> {
    let key = KeyText::of(String::from_str(alloc, "line 4")?);
    let is_held = key.as_str() == "line 4";
    Ok(is_held && key.into_string().as_str() == "line 4")
}
