ghost use Rattle.std.specs.Prelude.{◌≡◌, ◌<◌, ◌∷◌, IfOk, IsOk, IsTrue};
ghost use Rattle.seq_base.specs.Limits.{IsShort};
ghost use Rattle.seq_base.specs.Spelling.{order_spelling};
ghost use Rattle.wire_view.specs.Reading.{Gives, order_at, sealed_at, tagged_at};

use crate::WireFault;
use crate::fields::{prefix, read_digest, read_replica, read_seal, read_u32};
use crate::txs::{TxsView, read_txs};
use seq_base::kinds::ORDER;
use seq_base::{Digest, LocalOrder, NoMemory, Seal, SealedOrder};
use std::alloc::Global;
use std::marker::Model;

/// The maximum numbers of fresh and of late transactions in a local order.
const MAX_FRESH: u32 = 128;

const MAX_LATE: u32 = 256;

/// A local order without its bytes.
#[derive(Drop)]
pub(crate) struct OrderParts<'a> {
    replica: u32,
    view: u32,
    parent: Digest,
    fresh: TxsView<'a>,
    late: TxsView<'a>,
}

impl<'a> Model for OrderParts<'a> {
    ghost use Rattle.seq_base.specs.declared.order.LocalOrder.{LocalOrder};

    ghost Value = { LocalOrder };

    ghost use Rattle.std.specs.Prelude.{◌≤◌, ◌<◌, length};

    ghost view = { λ o. record { replica = o.replica; view = o.view; parent = o.parent; fresh = o.fresh; late = o.late } };

    ghost invariant = { λ o. (o.replica < 256) × (length o.fresh ≤ 128) × (length o.late ≤ 256) };
}

impl<'a> OrderParts<'a> {
    fn replica(&self) -> u32
        ensures value { result ≡ self.now.replica }
        ensures byte { result < 256 }
    {
        self.replica
    }

    fn again(&self) -> OrderParts<'a>
        ensures value { result ≡ self.now }
        ensures short { IsShort self.now }
    {
        OrderParts {
            replica: self.replica,
            view: self.view,
            parent: self.parent,
            fresh: self.fresh.again(),
            late: self.late.again(),
        }
    }

    fn own(&self, alloc: Global) -> Result<LocalOrder, NoMemory>
        ensures value { IfOk result (λ order. order ≡ self.now) }
        ensures short { IsShort self.now }
    {
        Ok(LocalOrder {
            replica: self.replica,
            view: self.view,
            parent: self.parent,
            fresh: self.fresh.own(alloc)?,
            late: self.late.own(alloc)?,
        })
    }
}

/// A local order with its seal, in place.
#[derive(Drop)]
pub struct OrderView<'a> {
    order: OrderParts<'a>,
    statement: &'a [u8],
    seal: &'a [u8],
}

impl<'a> Model for OrderView<'a> {
    ghost use Rattle.seq_base.specs.declared.order.SealedOrder.{SealedOrder};

    ghost Value = { SealedOrder };

    ghost use Rattle.std.specs.Prelude.{◌≡◌};
    ghost use Rattle.seq_base.specs.Spelling.{order_spelling};

    ghost view = { λ o. record { order = o.order; seal = o.seal.now } };

    ghost invariant = { λ o. o.statement.now ≡ order_spelling o.order };
}

impl<'a> OrderView<'a> {
    pub fn replica(&self) -> u32
        ensures value { result ≡ self.now.order.replica }
        ensures byte { result < 256 }
    {
        self.order.replica()
    }

    pub fn view(&self) -> u32
        ensures { result ≡ self.now.order.view }
    {
        self.order.view
    }

    /// The digest of the parent.
    pub fn parent(&self) -> Digest
        ensures { result ≡ self.now.order.parent }
    {
        self.order.parent
    }

    /// The fresh transactions, at most 128.
    pub fn fresh(&self) -> TxsView<'a>
        ensures { result ≡ self.now.order.fresh }
    {
        self.order.fresh.again()
    }

    /// The late transactions, at most 256.
    pub fn late(&self) -> TxsView<'a>
        ensures { result ≡ self.now.order.late }
    {
        self.order.late.again()
    }

    /// The bytes that the replica sealed.
    pub fn statement(&self) -> &'a [u8]
        ensures { result.now ≡ order_spelling self.now.order }
    {
        self.statement
    }

    pub fn seal(&self) -> &'a [u8]
        ensures { result.now ≡ self.now.seal }
    {
        self.seal
    }

    pub(crate) fn again(&self) -> OrderView<'a>
        ensures value { result ≡ self.now }
        ensures short { IsShort self.now.order }
    {
        OrderView {
            order: self.order.again(),
            statement: self.statement,
            seal: self.seal,
        }
    }

    /// An owned copy of the sealed order.
    pub fn own(&self, alloc: Global) -> Result<SealedOrder, NoMemory>
        ensures value { IfOk result (λ sealed. sealed ≡ self.now) }
        ensures short { IfOk result (λ sealed. IsShort sealed.order) }
    {
        Ok(SealedOrder {
            order: self.order.own(alloc)?,
            seal: Seal::of(Vec::from_slice(alloc, self.seal)?),
        })
    }
}

/// A local order without its kind. A replica below `least` is a fault. If `checked`, the order was read before.
#[tactic(auto, unfolding(crate::specs::Reading::order_at))]
fn read_order(least: u32, checked: bool, bytes: &[u8]) -> Result<(OrderParts<'_>, &[u8]), WireFault>
    requires { IsTrue checked → IsOk (order_at least bytes.now) }
    ensures { Gives (λ x. (x.0, x.1.now)) result (order_at least bytes.now) }
{
    let (replica, rest) = read_replica(least, bytes)?;
    let (view, rest) = read_u32(rest)?;
    let (parent, rest) = read_digest(rest)?;
    let (fresh, rest) = read_txs(MAX_FRESH, checked, rest)?;
    let (late, rest) = read_txs(MAX_LATE, checked, rest)?;
    let order = OrderParts {
        replica,
        view,
        parent,
        fresh,
        late,
    };
    Ok((order, rest))
}

/// A local order with its seal. The statement is its kind and the rest.
#[tactic(auto, unfolding(crate::specs::Reading::sealed_at))]
pub(crate) fn read_sealed<'a>(
    least: u32,
    checked: bool,
    statement: &'a [u8],
    rest: &'a [u8],
) -> Result<(OrderView<'a>, &'a [u8]), WireFault>
    requires kind { statement.now ≡ ORDER ∷ rest.now }
    requires before { IsTrue checked → IsOk (sealed_at least rest.now) }
    ensures { Gives (λ x. (x.0, x.1.now)) result (sealed_at least rest.now) }
{
    let (order, rest) = read_order(least, checked, rest)?;
    let statement = prefix(statement, rest);
    let (seal, rest) = read_seal(rest)?;
    let sealed = OrderView {
        order,
        statement,
        seal,
    };
    Ok((sealed, rest))
}

/// A local order with its seal, as blocks and votes contain it: its kind first.
#[tactic(auto, unfolding(crate::specs::Reading::tagged_at))]
pub(crate) fn read_tagged(
    least: u32,
    checked: bool,
    bytes: &[u8],
) -> Result<(OrderView<'_>, &[u8]), WireFault>
    requires { IsTrue checked → IsOk (tagged_at least bytes.now) }
    ensures { Gives (λ x. (x.0, x.1.now)) result (tagged_at least bytes.now) }
{
    match bytes {
        [] => Err(WireFault::Short),
        [ORDER, rest @ ..] => read_sealed(least, checked, bytes, rest),
        [_, ..] => Err(WireFault::Kind),
    }
}
