//! Marks: operations in an order.

use hy_record::Stamp;

/// An operation in an order: the moment at which it takes effect, the timestamp that it wrote or
/// found, whether it reads, and its number.
///
/// Marks compare by moment, and those of one moment by timestamp.
#[derive(Clone, Copy, PartialEq, Eq, PartialOrd, Ord)]
pub(crate) struct Mark {
    /// The place of a point of the log.
    pub(crate) place: usize,
    /// The moment is that point, else just before it.
    pub(crate) is_at: bool,
    pub(crate) stamp: Stamp,
    pub(crate) reads: bool,
    pub(crate) op: u32,
}
