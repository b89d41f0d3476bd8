//! The lines of orders in a report.

ghost use Rattle.std.specs.Prelude.{◌≡◌};
ghost use Rattle.hy_text.specs.Gives.{Gives};
ghost use Rattle.hy_order.specs.ReportReading.{order_of_words};

use crate::order::Order;
use crate::text::slots::{read_due_key, read_numbers};
use hy_base::Cause;
use hy_record::Key;
use hy_text::{LineError, LineKind, Words, read_keyword};
use std::alloc::Global;
use std::marker::Model;

/// The lines of orders, one for each key that is due.
#[derive(Drop)]
pub(crate) struct OrderLines<'a> {
    keys: &'a [Key],
}

impl<'a> Model for OrderLines<'a> {
    ghost use Rattle.std.specs.Prelude.{List, ℕ};

    ghost Value = { List (List ℕ) };

    ghost view = { λ lines. lines.keys.now };
}

impl<'a> OrderLines<'a> {
    /// The lines of the orders of these keys.
    pub(crate) fn of(keys: &'a [Key]) -> OrderLines<'a>
        ensures { result ≡ keys.now }
    {
        OrderLines { keys }
    }
}

impl<'a> LineKind for OrderLines<'a> {
    ghost use Rattle.hy_order.specs.ReportReading.{order_lines};

    type Item = Order;

    ghost kind = { order_lines };

    fn is_due(&self, _keyword: &[u8]) -> bool {
        match self.keys {
            [] => false,
            [..] => true,
        }
    }

    fn read(
        &mut self,
        alloc: Global,
        keyword: &[u8],
        words: &mut Words,
    ) -> Result<Order, LineError> {
        let [key, later @ ..] = self.keys else {
            return Err(LineError::Bad(Cause::BadWord));
        };
        read_keyword(keyword, b"order")?;
        let order = read_order(alloc, key, words)?;
        self.keys = later;
        Ok(order)
    }
}

/// The order of the key, of the words after the keyword.
#[tactic(auto, unfolding(crate::specs::ReportReading::order_of_words))]
fn read_order(alloc: Global, key: &Key, words: &mut Words) -> Result<Order, LineError>
    ensures { Gives result (order_of_words key.now words.old) }
{
    read_due_key(key, words.next_word())?;
    let ops = read_numbers(alloc, words)?;
    Ok(Order { key: *key, ops })
}
