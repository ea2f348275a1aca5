//! The fields and the parts of a trace, each appended to what was written.
ghost use Rattle.std.specs.Prelude.{◌≡◌, ◌++◌, ◌<◌, OnOk};
ghost use Rattle.std.specs.Int.{w8, w16, w32, w64, to_be_bytes};
ghost use Rattle.seq_base.specs.Spelling.{tx_spelling};
ghost use Rattle.trace_form.specs.Codes.{height_code, reason_code};
ghost use Rattle.trace_form.specs.Spelling.{list_spelling, bytes_spelling, event_spelling, statements_spelling, entry_spelling};

use node_core::{Entry, Event, Reason};
use seal_kit::Height;
use seq_base::{Bytes, NoMemory, Tx};
use wire_view::WireFault;

/// One byte. A number of 256 or more wraps.
pub(crate) fn put_u8(out: &mut Vec<u8>, number: u32) -> Result<(), NoMemory>
    ensures { OnOk result (out.new.items ≡ out.old.items ++ to_be_bytes w8 number) }
{
    out.push((number % 256) as u8)?;
    Ok(())
}

/// Two bytes. A number of 65,536 or more wraps.
pub(crate) fn put_u16(out: &mut Vec<u8>, number: u32) -> Result<(), NoMemory>
    ensures { OnOk result (out.new.items ≡ out.old.items ++ to_be_bytes w16 number) }
{
    out.push((number / 256 % 256) as u8)?;
    out.push((number % 256) as u8)?;
    Ok(())
}

pub(crate) fn put_u32(out: &mut Vec<u8>, number: u32) -> Result<(), NoMemory>
    ensures { OnOk result (out.new.items ≡ out.old.items ++ to_be_bytes w32 number) }
{
    out.extend_from_slice(&number.to_be_bytes())?;
    Ok(())
}

pub(crate) fn put_u64(out: &mut Vec<u8>, number: u64) -> Result<(), NoMemory>
    ensures { OnOk result (out.new.items ≡ out.old.items ++ to_be_bytes w64 number) }
{
    out.extend_from_slice(&number.to_be_bytes())?;
    Ok(())
}

/// A count in four bytes. Only its low 32 bits are written.
pub(crate) fn put_count(out: &mut Vec<u8>, count: usize) -> Result<(), NoMemory>
    ensures { OnOk result (out.new.items ≡ out.old.items ++ to_be_bytes w32 count) }
{
    put_u32(out, (count % 4_294_967_296) as u32)
}

fn put_tx(out: &mut Vec<u8>, tx: &Tx) -> Result<(), NoMemory>
    ensures { OnOk result (out.new.items ≡ out.old.items ++ tx_spelling tx.now) }
{
    put_u32(out, tx.client)?;
    put_u32(out, tx.number)?;
    put_u64(out, tx.payload)
}

pub(crate) fn put_list(out: &mut Vec<u8>, txs: &[Tx]) -> Result<(), NoMemory>
    ensures { OnOk result (out.new.items ≡ out.old.items ++ list_spelling txs.now) }
{
    put_count(out, txs.len())?;
    for tx in txs {
        put_tx(out, tx)?;
    }
    Ok(())
}

fn put_bytes(out: &mut Vec<u8>, bytes: &[u8]) -> Result<(), NoMemory>
    ensures { OnOk result (out.new.items ≡ out.old.items ++ bytes_spelling bytes.now) }
{
    put_count(out, bytes.len())?;
    out.extend_from_slice(bytes)?;
    Ok(())
}

fn put_event(out: &mut Vec<u8>, event: &Event) -> Result<(), NoMemory>
    ensures { OnOk result (out.new.items ≡ out.old.items ++ event_spelling event.now) }
{
    match event {
        Event::Arrived(list) => {
            out.push(1)?;
            put_list(out, list.as_slice())
        }
        Event::Deliver { from, bytes } => {
            out.push(2)?;
            put_u8(out, *from)?;
            put_bytes(out, bytes.as_slice())
        }
        Event::Tick { floor } => {
            out.push(3)?;
            put_u32(out, *floor)
        }
    }
}

pub(crate) fn put_entry(out: &mut Vec<u8>, entry: &Entry) -> Result<(), NoMemory>
    ensures { OnOk result (out.new.items ≡ out.old.items ++ entry_spelling entry.now) }
{
    put_event(out, &entry.event)?;
    put_u8(out, reason_code(&entry.turned.reason))?;
    put_u32(out, entry.turned.kept)?;
    put_statements(out, entry.turned.sealed.as_slice())
}

fn put_statements(out: &mut Vec<u8>, statements: &[Bytes]) -> Result<(), NoMemory>
    ensures { OnOk result (out.new.items ≡ out.old.items ++ statements_spelling statements.now) }
{
    out.push((statements.len() % 256) as u8)?;
    for statement in statements {
        put_bytes(out, statement.as_slice())?;
    }
    Ok(())
}

pub(crate) fn height_code(height: Height) -> u32
    ensures { result ≡ height_code height }
{
    match height {
        Height::H5 => 1,
        Height::H10 => 2,
        Height::H5H5 => 3,
        Height::H5H10 => 4,
    }
}

fn reason_code(reason: &Reason) -> u32
    ensures { result ≡ reason_code reason.now }
{
    match reason {
        Reason::Done => 0,
        Reason::BadWire(WireFault::Short) => 1,
        Reason::BadWire(WireFault::Trailing) => 2,
        Reason::BadWire(WireFault::Kind) => 3,
        Reason::BadWire(WireFault::Version) => 4,
        Reason::BadWire(WireFault::Count) => 5,
        Reason::BadWire(WireFault::Shape) => 6,
        Reason::Foreign => 7,
        Reason::ViewLimit => 8,
        Reason::NotLeader => 9,
        Reason::OldView => 10,
        Reason::BadSeal => 11,
        Reason::BadCert => 12,
        Reason::Orphan => 13,
        Reason::Misfit => 14,
        Reason::Clash => 15,
        Reason::Unsafe => 16,
        Reason::Repeat => 17,
    }
}
