//! Which clouds hold the current version of a key.

ghost use Rattle.std.specs.Prelude.{◌≡◌};

use hy_record::{Key, Stamp};
use std::marker::Model;

/// The current version of a key, and the clouds from which it can be retrieved.
#[derive(Clone, Copy, Debug)]
pub struct Held {
    pub key: Key,
    pub stamp: Stamp,
    /// One bit for each cloud: bit i is cloud i.
    pub clouds: u16,
}

/// The retrievable copies of the keys of a run.
#[derive(Debug, Drop)]
pub struct HeldList {
    copies: Vec<Held>,
}

impl Model for HeldList {
    ghost use Rattle.std.specs.Prelude.{List};
    ghost use Rattle.hy_order.specs.declared.held.Held.{Held};

    ghost Value = { List Held };

    ghost view = { λ list. list.copies.items };
}

impl HeldList {
    /// The list of these copies.
    pub fn of(copies: Vec<Held>) -> HeldList
        ensures { result ≡ copies.items }
    {
        HeldList { copies }
    }

    /// The copies, in order.
    pub fn items(&self) -> &[Held]
        ensures { result.now ≡ self.now }
    {
        &self.copies
    }

    /// The copies, in the memory that they have.
    pub fn into_items(self) -> Vec<Held>
        ensures { result.items ≡ self }
    {
        self.copies
    }
}
