//! What comes over a net.

use crate::blob::Blob;

/// What the next call of a net gave. The bytes of a piece stand at the front of the buffer.
#[derive(Clone, Copy, Debug, Drop)]
pub enum Arrival {
    /// A peer opened the connection of this number.
    Opened(u32),
    /// So many bytes came on the connection of this number.
    Bytes(u32, usize),
    /// The peer closed the connection of this number.
    Closed(u32),
    /// Nothing came for a while; the only clock of a net.
    Quiet,
}

/// What came over a net, with its bytes.
#[derive(Debug, Drop)]
pub enum Arrived {
    Opened(u32),
    Bytes(u32, Blob),
    Closed(u32),
    Quiet,
}
