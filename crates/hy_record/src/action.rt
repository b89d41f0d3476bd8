//! What a client asks of the store, what it is told, and how far an operation is.

use crate::key::Key;
use crate::stamp::Stamp;
use hy_base::Blob;

/// What a client asks.
#[derive(Debug, Drop, PartialEq, Eq)]
pub enum Action {
    /// Store the value under the key.
    Put {
        key: Key,
        value: Blob,
    },
    /// Answer the value under the key.
    Get {
        key: Key,
    },
    /// Make the key absent.
    Delete {
        key: Key,
    },
    /// Delete superseded versions of the key from the clouds.
    Collect {
        key: Key,
    },
    /// Store the value under the key, if its record has the expected timestamp; (0, 0) stands for no record.
    Swap {
        key: Key,
        expected: Stamp,
        value: Blob,
    },
}

/// What a client is told.
#[derive(Debug, Drop, PartialEq, Eq)]
pub enum Reply {
    /// The put or delete was done, with this timestamp.
    Done(Stamp),
    /// The record has the last timestamp that there is: nothing was changed.
    Exhausted(Stamp),
    /// The value of the key, and its timestamp.
    Value(Blob, Stamp),
    /// The key is absent: no record, at (0, 0), or a deletion with this timestamp.
    Absent(Stamp),
    /// So many superseded versions were deleted.
    Collected(u32),
    /// The swap was done, with this timestamp.
    Swapped(Stamp),
    /// The record had this timestamp, which is not the expected one: nothing was changed.
    Changed(Stamp),
}

/// How far an operation without a reply is.
#[derive(Clone, Copy, Debug, PartialEq, Eq)]
pub enum Phase {
    /// It awaits the record.
    Read,
    /// It awaits the clouds that store the value.
    Store,
    /// It awaits the update of the record.
    Update,
    /// It awaits valid fragments.
    Fetch,
    /// All holders were tried: it awaits fragments, or news of the record.
    Watch,
    /// It reads the record again.
    Reread,
    /// It awaits the superseded timestamps.
    Olds,
    /// It awaits the clouds that delete.
    Drop,
    /// It awaits the service that forgets.
    Forget,
}
