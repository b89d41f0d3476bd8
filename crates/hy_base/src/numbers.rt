//! A list of numbers, which contracts see as a list.

ghost use Rattle.std.specs.Prelude.{◌≡◌, List, ℕ};

use std::marker::Model;

/// Numbers of operations, in the order of the list.
#[derive(Debug, Drop)]
pub struct Numbers {
    items: Vec<u32>,
}

impl Model for Numbers {
    ghost Value = { List ℕ };

    ghost view = { λ numbers. numbers.items.items };
}

impl Numbers {
    /// The list of these numbers.
    pub fn of(items: Vec<u32>) -> Numbers
        ensures { result ≡ items.items }
    {
        Numbers { items }
    }

    /// The numbers, in order.
    pub fn items(&self) -> &[u32]
        ensures { result.now ≡ self.now }
    {
        &self.items
    }

    /// The numbers, in the memory that they have.
    pub fn into_items(self) -> Vec<u32>
        ensures { result.items ≡ self }
    {
        self.items
    }
}
