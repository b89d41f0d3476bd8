//! Lists of timestamps.

ghost use Rattle.std.specs.Prelude.{◌≡◌, ◌==◌, ◌≤◌, IsTrue, length};
ghost use Rattle.std.proofs.Common.{rules};
ghost use Rattle.std.specs.Cmp.Rules.{comparing};
ghost use Rattle.std.specs.Cmp.Lexicographic.{pointwise};
ghost use Rattle.std.specs.Ordering.{on, eq_of_both};
ghost use Rattle.hy_record.specs.Stamps.{is_rising};

use crate::stamp::Stamp;
use std::marker::Model;

/// The most timestamps of a list.
pub const MAX_STAMPS: usize = 256;

/// At most 256 timestamps, each above the one before it.
#[derive(Debug, Drop)]
pub struct Stamps {
    items: Vec<Stamp>,
}

impl Model for Stamps {
    ghost use Rattle.std.specs.Prelude.{List};
    ghost use Rattle.hy_record.specs.Stamp.{Timestamp};
    ghost use Rattle.hy_record.specs.Stamps.{IsStampList};

    ghost Value = { List Timestamp };

    ghost view = { λ stamps. stamps.items.items };

    ghost invariant = { λ stamps. IsStampList stamps.items.items };
}

impl Stamps {
    /// The list of these timestamps.
    pub fn of(items: Vec<Stamp>) -> Stamps
        requires few { length items.items ≤ MAX_STAMPS }
        requires rising { IsTrue (is_rising items.items) }
        ensures { result ≡ items.items }
    {
        Stamps { items }
    }

    /// The timestamps, in increasing order.
    pub fn items(&self) -> &[Stamp]
        ensures value { result.now ≡ self.now }
        ensures few { length result.now ≤ MAX_STAMPS }
        ensures rising { IsTrue (is_rising result.now) }
    {
        &self.items
    }

    /// The timestamps, in the memory that they have.
    pub fn into_items(self) -> Vec<Stamp>
        ensures value { result.items ≡ self }
        ensures few { length result.items ≤ MAX_STAMPS }
        ensures rising { IsTrue (is_rising result.items) }
    {
        self.items
    }
}

impl PartialEq for Stamps {
    ghost eq = { pointwise (eq_of_both (on (λ s. s.sn) ◌==◌) (on (λ s. s.cid) ◌==◌)) };

    ghost laws = { Prim.search (comparing, rules) };

    fn eq(&self, other: &Stamps) -> bool {
        self.items() == other.items()
    }
}

impl Eq for Stamps {
    ghost laws = { Prim.search (comparing, rules) };
}
