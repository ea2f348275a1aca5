//! Writers of fixed-width fields and of byte lists. Each appends to the output.
ghost use Rattle.std.specs.Prelude.{◌≡◌, ◌++◌, OnOk};
ghost use Rattle.std.specs.Int.{w8, w16, w32, to_be_bytes};
ghost use Rattle.seq_base.specs.Spelling.{seal_spelling, tx_spelling};

use seq_base::{Digest, NoMemory, Seal, Tx};

/// One byte. A number of 256 or more wraps.
pub(crate) fn put_u8(out: &mut Vec<u8>, number: u32) -> Result<(), NoMemory>
    ensures { OnOk result (out.new.items ≡ out.old.items ++ to_be_bytes w8 number) }
{
    out.push((number % 256) as u8)?;
    Ok(())
}

/// The count of a short list, in one byte. A count of 256 or more wraps.
pub(crate) fn put_u8_count(out: &mut Vec<u8>, count: usize) -> Result<(), NoMemory>
    ensures { OnOk result (out.new.items ≡ out.old.items ++ to_be_bytes w8 count) }
{
    out.push((count % 256) as u8)?;
    Ok(())
}

/// The count of a list, in two bytes. A count of 65,536 or more wraps.
pub(crate) fn put_u16_count(out: &mut Vec<u8>, count: usize) -> Result<(), NoMemory>
    ensures { OnOk result (out.new.items ≡ out.old.items ++ to_be_bytes w16 count) }
{
    out.push((count / 256 % 256) as u8)?;
    out.push((count % 256) as u8)?;
    Ok(())
}

pub(crate) fn put_u32(out: &mut Vec<u8>, number: u32) -> Result<(), NoMemory>
    ensures { OnOk result (out.new.items ≡ out.old.items ++ to_be_bytes w32 number) }
{
    out.extend_from_slice(&number.to_be_bytes())?;
    Ok(())
}

pub(crate) fn put_digest(out: &mut Vec<u8>, digest: &Digest) -> Result<(), NoMemory>
    ensures { OnOk result (out.new.items ≡ out.old.items ++ digest.now.0) }
{
    out.extend_from_slice(&digest.0)?;
    Ok(())
}

pub(crate) fn put_seal(out: &mut Vec<u8>, seal: &Seal) -> Result<(), NoMemory>
    ensures { OnOk result (out.new.items ≡ out.old.items ++ seal_spelling seal.now) }
{
    let bytes = seal.as_slice();
    put_u16_count(out, bytes.len())?;
    out.extend_from_slice(bytes)?;
    Ok(())
}

pub(crate) fn put_tx(out: &mut Vec<u8>, tx: &Tx) -> Result<(), NoMemory>
    ensures { OnOk result (out.new.items ≡ out.old.items ++ tx_spelling tx.now) }
{
    put_u32(out, tx.client)?;
    put_u32(out, tx.number)?;
    out.extend_from_slice(&tx.payload.to_be_bytes())?;
    Ok(())
}
