//! Frames that are to be sent.

use hy_base::Blob;

/// The frame that is to be sent on the connection, if it is open then.
#[derive(Debug, Drop)]
pub(crate) struct Letter {
    pub(crate) conn: u32,
    pub(crate) bytes: Blob,
}

/// What is to be done behind a message.
#[derive(Debug, Drop)]
pub(crate) enum Turn {
    /// Nothing, since no message came.
    Rests,
    /// The connection is to be closed.
    Closes,
    /// These are to be sent, in this order.
    Sends(Vec<Letter>),
}
