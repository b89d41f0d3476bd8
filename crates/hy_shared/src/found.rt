//! What a reading of the shared table found.

use hy_record::Record;

/// A record of the table, and the row of the operation that wrote it.
#[derive(Debug, Drop)]
pub struct Found {
    pub rec: Record,
    pub row: u32,
}
