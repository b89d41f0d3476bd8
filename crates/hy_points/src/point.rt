//! Points: the moments of operations that decide their order.

use hy_record::{Key, Stamp};

/// What an operation does to the register of its key.
#[derive(Clone, Copy, Debug, PartialEq, Eq)]
pub enum ActKind {
    /// It stores a value.
    Put,
    /// It reads.
    Get,
    /// It makes the register absent.
    Delete,
    /// It stores a value where the record has this timestamp.
    Swap(Stamp),
}

/// A moment of an operation, which is named by its number.
#[derive(Clone, Copy, Debug)]
pub enum Point {
    /// The client begins it.
    Begin {
        op: u32,
        client: u32,
        key: Key,
        act: ActKind,
    },
    /// It reads the record of its key, and finds this timestamp; (0, 0) where there is no record.
    Ask {
        op: u32,
        found: Stamp,
    },
    /// It writes a record of this timestamp, which is applied or refused.
    Set {
        op: u32,
        stamp: Stamp,
        applied: bool,
    },
    /// It tries to write a record of this timestamp, and finds that timestamp at its key: it is
    /// applied where a swap finds what it expects.
    Try {
        op: u32,
        stamp: Stamp,
        found: Stamp,
    },
    /// It returns.
    End {
        op: u32,
    },
}
