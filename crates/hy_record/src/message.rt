//! What clients ask the metadata service, and what it answers.

use crate::key::Key;
use crate::record::Record;
use crate::stamp::Stamp;
use crate::stamps::Stamps;

/// What a client asks the metadata service, for its operation of this number on this key.
#[derive(Debug, Drop, PartialEq, Eq)]
pub enum MetaAsk {
    /// Answer the record of the key.
    Read {
        client: u32,
        op: u32,
        key: Key,
    },
    /// Make this the record of the key, if its timestamp is above that of the record.
    Update {
        client: u32,
        op: u32,
        key: Key,
        rec: Record,
    },
    /// Tell once that the record has a timestamp above this one.
    Watch {
        client: u32,
        op: u32,
        key: Key,
        stamp: Stamp,
    },
    /// Answer the superseded timestamps of the key.
    Olds {
        client: u32,
        op: u32,
        key: Key,
    },
    /// Keep these superseded timestamps of the key no longer.
    Forget {
        client: u32,
        op: u32,
        key: Key,
        stamps: Stamps,
    },
    /// Make this the record of the key, if that of the record is the expected timestamp and below its own; (0, 0) stands for no record.
    Swap {
        client: u32,
        op: u32,
        key: Key,
        expected: Stamp,
        rec: Record,
    },
}

/// What the metadata service answers, to the client and the operation that asked.
#[derive(Debug, Drop, PartialEq, Eq)]
pub enum MetaSay {
    /// The key has this record, or none.
    Has {
        client: u32,
        op: u32,
        key: Key,
        rec: Option<Record>,
    },
    /// The update of this timestamp made its record that of the key.
    Applied {
        client: u32,
        op: u32,
        key: Key,
        stamp: Stamp,
    },
    /// The record of the key, of this timestamp, stayed.
    Kept {
        client: u32,
        op: u32,
        key: Key,
        stamp: Stamp,
    },
    /// The record has a timestamp above this one, which was watched.
    Fired {
        client: u32,
        op: u32,
        key: Key,
        stamp: Stamp,
    },
    /// The least superseded timestamps of the key.
    OldList {
        client: u32,
        op: u32,
        key: Key,
        stamps: Stamps,
    },
    /// The timestamps are kept no longer.
    Forgot {
        client: u32,
        op: u32,
        key: Key,
    },
    /// The swap of this timestamp made its record that of the key.
    Swapped {
        client: u32,
        op: u32,
        key: Key,
        stamp: Stamp,
    },
    /// The swap was refused: the record of the key, of this timestamp, stayed.
    Changed {
        client: u32,
        op: u32,
        key: Key,
        stamp: Stamp,
    },
}
