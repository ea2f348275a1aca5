ghost use Rattle.std.specs.Prelude.{◌≡◌, ◌==◌, length, slice_get, IfOk};
ghost use Rattle.seq_base.specs.Limits.{IsWithin};
ghost use Rattle.seq_base.specs.Spelling.{block_spelling};
ghost use Rattle.wire_view.specs.Reading.{Gives, block_at};

use crate::WireFault;
use crate::cert::{CertView, read_cert};
use crate::fields::{prefix, read_short_count, read_u32};
use crate::order::OrderView;
use crate::orders::{OrdersView, read_orders};
use seq_base::{Block, NoMemory};
use std::alloc::Global;
use std::marker::Model;

/// The maximum number of local orders in a block.
const MAX_ORDERS: u32 = 16;

/// A block without its bytes.
#[derive(Drop)]
struct BlockParts<'a> {
    view: u32,
    cert: CertView<'a>,
    orders: OrdersView<'a>,
}

impl<'a> Model for BlockParts<'a> {
    ghost use Rattle.seq_base.specs.declared.block.Block.{Block};

    ghost Value = { Block };

    ghost view = { λ block. record { view = block.view; cert = block.cert; orders = block.orders } };
}

/// A block, in place.
#[derive(Drop)]
pub struct BlockView<'a> {
    block: BlockParts<'a>,
    bytes: &'a [u8],
}

impl<'a> Model for BlockView<'a> {
    ghost use Rattle.seq_base.specs.declared.block.Block.{Block};

    ghost Value = { Block };

    ghost use Rattle.std.specs.Prelude.{◌≡◌};
    ghost use Rattle.seq_base.specs.Spelling.{block_spelling};

    ghost view = { λ b. b.block };

    ghost invariant = { λ b. b.bytes.now ≡ block_spelling b.block };
}

impl<'a> BlockView<'a> {
    pub fn view(&self) -> u32
        ensures { result ≡ self.now.view }
    {
        self.block.view
    }

    /// The certificate of the parent.
    pub fn cert(&self) -> CertView<'a>
        ensures { result ≡ self.now.cert }
    {
        self.block.cert.again()
    }

    /// The number of local orders in the block.
    pub fn len(&self) -> u32
        ensures { result ≡ length self.now.orders }
    {
        self.block.orders.len()
    }

    /// Whether the block has no local orders.
    pub fn is_empty(&self) -> bool
        ensures { result ≡ (length self.now.orders == 0) }
    {
        self.block.orders.len() == 0
    }

    /// The local order at index `k`, from 0, or `None` at or past the end.
    pub fn order(&self, k: u32) -> Option<OrderView<'a>>
        ensures { result ≡ slice_get self.now.orders k }
    {
        self.block.orders.get(k)
    }

    /// The bytes of the block. Its digest is taken over them.
    pub fn bytes(&self) -> &'a [u8]
        ensures { result.now ≡ block_spelling self.now }
    {
        self.bytes
    }

    pub(crate) fn again(&self) -> BlockView<'a>
        ensures { result ≡ self.now }
    {
        BlockView {
            block: BlockParts {
                view: self.block.view,
                cert: self.block.cert.again(),
                orders: self.block.orders.again(),
            },
            bytes: self.bytes,
        }
    }

    /// An owned copy of the block.
    pub fn own(&self, alloc: Global) -> Result<Block, NoMemory>
        ensures value { IfOk result (λ block. block ≡ self.now) }
        ensures within { IfOk result (λ block. IsWithin block) }
    {
        Ok(Block {
            view: self.block.view,
            cert: self.block.cert.own(alloc)?,
            orders: self.block.orders.own(alloc)?,
        })
    }
}

#[tactic(auto, unfolding(crate::specs::Reading::block_at))]
fn read_parts(bytes: &[u8]) -> Result<(BlockParts<'_>, &[u8]), WireFault>
    ensures { Gives (λ x. (x.0, x.1.now)) result (block_at bytes.now) }
{
    let (view, rest) = read_u32(bytes)?;
    let (cert, rest) = read_cert(rest)?;
    let (count, rest) = read_short_count(MAX_ORDERS, rest)?;
    let (orders, rest) = read_orders(count, rest)?;
    Ok((BlockParts { view, cert, orders }, rest))
}

pub(crate) fn read_block(bytes: &[u8]) -> Result<(BlockView<'_>, &[u8]), WireFault>
    ensures { Gives (λ x. (x.0, x.1.now)) result (block_at bytes.now) }
{
    let (block, rest) = read_parts(bytes)?;
    let prefix = prefix(bytes, rest);
    Ok((
        BlockView {
            block,
            bytes: prefix,
        },
        rest,
    ))
}
