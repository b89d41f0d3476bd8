//! What clients ask of clouds, and what clouds answer.

use crate::key::Key;
use crate::stamp::Stamp;
use hy_base::Blob;

/// What is asked of a cloud about the object of one name.
#[derive(Debug, Drop, PartialEq, Eq)]
pub enum CloudAct {
    /// Hold these bytes.
    Put(Blob),
    /// Answer the bytes that are held.
    Get,
    /// Hold nothing.
    Delete,
}

/// A request about the object of this key and timestamp.
#[derive(Debug, Drop, PartialEq, Eq)]
pub struct Wish {
    pub key: Key,
    pub stamp: Stamp,
    pub act: CloudAct,
}

/// A request to a cloud, for the client's operation of this number.
#[derive(Debug, Drop, PartialEq, Eq)]
pub struct CloudAsk {
    pub client: u32,
    pub op: u32,
    pub cloud: u8,
    pub wish: Wish,
}

/// What a cloud answers.
#[derive(Debug, Drop, PartialEq, Eq)]
pub enum CloudSay {
    /// The bytes are held; `fresh` where none were held before.
    Stored { fresh: bool },
    /// Other bytes are held under the name.
    Conflict,
    /// These bytes are held.
    Body(Blob),
    /// Nothing is held.
    Missing,
    /// Nothing is held any more.
    Gone,
    /// Another answer, by its status; 0 for one that could not be had or read.
    Bad(u16),
}

/// An answer of a cloud, to the client's operation that asked.
#[derive(Debug, Drop, PartialEq, Eq)]
pub struct CloudReply {
    pub client: u32,
    pub op: u32,
    pub cloud: u8,
    pub key: Key,
    pub stamp: Stamp,
    pub say: CloudSay,
}
