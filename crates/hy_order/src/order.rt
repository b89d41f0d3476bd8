//! The order in which the operations of a key took effect.

ghost use Rattle.std.specs.Prelude.{◌≡◌};

use hy_base::Numbers;
use hy_record::Key;
use std::marker::Model;

/// The order of a key: the numbers of its operations.
#[derive(Debug, Drop)]
pub struct Order {
    pub key: Key,
    pub ops: Numbers,
}

/// The orders of the keys of a run.
#[derive(Debug, Drop)]
pub struct Orders {
    orders: Vec<Order>,
}

impl Model for Orders {
    ghost use Rattle.std.specs.Prelude.{List};
    ghost use Rattle.hy_order.specs.declared.order.Order.{Order};

    ghost Value = { List Order };

    ghost view = { λ list. list.orders.items };
}

impl Orders {
    /// The list of these orders.
    pub fn of(orders: Vec<Order>) -> Orders
        ensures { result ≡ orders.items }
    {
        Orders { orders }
    }

    /// The orders, in order.
    pub fn items(&self) -> &[Order]
        ensures { result.now ≡ self.now }
    {
        &self.orders
    }

    /// The orders, in the memory that they have.
    pub fn into_items(self) -> Vec<Order>
        ensures { result.items ≡ self }
    {
        self.orders
    }
}
