//! A local order that a turn sealed.
ghost use Rattle.std.specs.Prelude.{◌≡◌, ◌==◌, ◌||◌, not, get_or, IfOk};
ghost use Rattle.audit_core.specs.Judging.{drawn_on, drawn_over};

use crate::statements::{is_order, parent_of, replica_of, view_of};
use chain_store::StoredBlocks;
use seq_base::{Digest, NoMemory, Tx};
use std::alloc::Global;
use wire_write::order_bytes;

/// Rule 3: whether a statement is no order, or the spelling of the order that is drawn from what is known, for the
/// replica, view and parent that it names.
pub(crate) fn may_seal(
    alloc: Global,
    blocks: &StoredBlocks,
    known: &[Tx],
    statement: &[u8],
) -> Result<bool, NoMemory>
    ensures { IfOk result (λ may. may ≡ (not (get_or statement.now 0 0 == 3) || drawn_on blocks.now known.now statement.now)) }
{
    if is_order(statement) {
        is_drawn(alloc, blocks, known, statement)
    } else {
        Ok(true)
    }
}

fn is_drawn(
    alloc: Global,
    blocks: &StoredBlocks,
    known: &[Tx],
    statement: &[u8],
) -> Result<bool, NoMemory>
    ensures { IfOk result (λ drawn. drawn ≡ drawn_on blocks.now known.now statement.now) }
{
    let Some(parent) = parent_of(statement) else {
        return Ok(false);
    };
    if !blocks.store().is_stored(&parent) {
        return Ok(false);
    }
    is_drawn_over(alloc, blocks, known, statement, &parent)
}

fn is_drawn_over(
    alloc: Global,
    blocks: &StoredBlocks,
    known: &[Tx],
    statement: &[u8],
    parent: &Digest,
) -> Result<bool, NoMemory>
    ensures { IfOk result (λ drawn. drawn ≡ drawn_over blocks.now known.now statement.now parent.now) }
{
    let (replica, view) = (replica_of(statement), view_of(statement));
    let order = blocks.draw(replica, view, parent, known)?;
    let bytes = order_bytes(alloc, &order)?;
    Ok(statement == bytes.as_slice())
}
