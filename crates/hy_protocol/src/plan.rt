//! What an operation is to do, and for whom.

use hy_base::Blob;
use hy_record::Key;

/// A put of a value under a key, or a delete: the client's operation of this number, in a store that bears f faulty clouds and cuts values into k parts.
#[derive(Debug, Drop)]
pub struct PutPlan {
    pub client: u32,
    pub op: u32,
    pub key: Key,
    /// The value; none for a delete.
    pub value: Option<Blob>,
    pub f: u8,
    pub k: u8,
}

/// A get of a key: the client's operation of this number.
#[derive(Clone, Copy, Debug)]
pub struct GetPlan {
    pub client: u32,
    pub op: u32,
    pub key: Key,
}

/// A collection of a key's superseded versions: the client's operation of this number, in a store that bears f faulty clouds and cuts values into k parts.
#[derive(Clone, Copy, Debug)]
pub struct CollectPlan {
    pub client: u32,
    pub op: u32,
    pub key: Key,
    pub f: u8,
    pub k: u8,
}
