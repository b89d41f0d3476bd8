//! What sessions are told.

use hy_record::Stamp;

/// What a reading of a head tells.
#[derive(Debug, Drop)]
pub(crate) struct Seen {
    /// The timestamp of the key's record.
    pub stamp: Stamp,
    /// The row of the operation that wrote it.
    pub row: u32,
}

/// What a writing to a head tells.
#[derive(Debug, Drop)]
pub enum Said {
    /// It was applied.
    Applied,
    /// The record has this timestamp, and stays.
    Kept(Stamp),
}
