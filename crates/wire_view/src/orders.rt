ghost use Rattle.std.specs.Prelude.{◌≡◌, ◌<◌, ◌≤◌, Some, length, slice_get, All, IfOk};
ghost use Rattle.seq_base.specs.Limits.{IsShort};
ghost use Rattle.wire_view.specs.Reading.{Gives, rest_of, orders_at};

use crate::WireFault;
use crate::fields::prefix;
use crate::order::{OrderView, read_tagged};
use seq_base::{NoMemory, SealedOrders};
use std::alloc::Global;
use std::marker::Model;

/// The local orders of a block, in place. Their replicas are strictly ascending.
#[derive(Drop)]
pub(crate) struct OrdersView<'a> {
    count: u32,
    bytes: &'a [u8],
}

impl<'a> Model for OrdersView<'a> {
    ghost use Rattle.std.specs.Prelude.{List};
    ghost use Rattle.seq_base.specs.declared.order.SealedOrder.{SealedOrder};

    ghost Value = { List SealedOrder };

    ghost use Rattle.std.specs.Prelude.{◌≡◌, ◌≤◌, Ok, [], length};
    ghost use Rattle.wire_view.specs.Reading.{orders_at, orders_in};

    ghost view = { λ orders. orders_in orders.count orders.bytes.now };

    ghost invariant = { λ orders. (orders.count ≤ 16)
        × (length (orders_in orders.count orders.bytes.now) ≡ orders.count)
        × (orders_at orders.count 0 orders.bytes.now ≡ Ok (orders_in orders.count orders.bytes.now, [])) };
}

impl<'a> OrdersView<'a> {
    pub(crate) fn len(&self) -> u32
        ensures value { result ≡ length self.now }
        ensures few { result ≤ 16 }
    {
        self.count
    }

    pub(crate) fn get(&self, k: u32) -> Option<OrderView<'a>>
        ensures { result ≡ slice_get self.now k }
    {
        if k >= self.count {
            return None;
        }
        Some(self.at(k))
    }

    fn at(&self, k: u32) -> OrderView<'a>
        requires { k < length self.now }
        ensures { slice_get self.now k ≡ Some result }
    {
        let mut least = 0;
        let mut rest = self.bytes;
        for _ in 0..k {
            let Ok((order, after)) = read_tagged(least, true, rest) else {
                unreachable!()
            };
            least = order.replica() + 1;
            rest = after;
        }
        let Ok((order, _)) = read_tagged(least, true, rest) else {
            unreachable!()
        };
        order
    }

    pub(crate) fn again(&self) -> OrdersView<'a>
        ensures { result ≡ self.now }
    {
        OrdersView {
            count: self.count,
            bytes: self.bytes,
        }
    }

    pub(crate) fn own(&self, alloc: Global) -> Result<SealedOrders, NoMemory>
        ensures value { IfOk result (λ orders. orders ≡ self.now) }
        ensures few { length self.now ≤ 16 }
        ensures short { IfOk result (λ orders. All (λ sealed. IsShort sealed.order) orders) }
    {
        let mut orders = Vec::new(alloc);
        for k in 0..self.count {
            let order = self.at(k).own(alloc)?;
            orders.push(order)?;
        }
        Ok(SealedOrders::of(orders))
    }
}

/// Skips this many local orders, and returns the bytes after them.
fn skip_orders(count: u32, bytes: &[u8]) -> Result<&[u8], WireFault>
    ensures { Gives (λ x. x.now) result (rest_of (orders_at count 0 bytes.now)) }
{
    let mut least = 0;
    let mut rest = bytes;
    for _ in 0..count {
        let (order, after) = read_tagged(least, false, rest)?;
        least = order.replica() + 1;
        rest = after;
    }
    Ok(rest)
}

pub(crate) fn read_orders(count: u32, bytes: &[u8]) -> Result<(OrdersView<'_>, &[u8]), WireFault>
    requires { count ≤ 16 }
    ensures { Gives (λ x. (x.0, x.1.now)) result (orders_at count 0 bytes.now) }
{
    let rest = skip_orders(count, bytes)?;
    let prefix = prefix(bytes, rest);
    Ok((
        OrdersView {
            count,
            bytes: prefix,
        },
        rest,
    ))
}
