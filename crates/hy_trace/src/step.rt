//! The steps of a schedule.

use hy_record::{Action, CloudReply};

/// The most messages that are delivered while one operation runs to its end.
pub const MAX_GIVES: u32 = 65_536;

/// One step of a schedule. A step that names a client or a message that is not there has no effect.
#[derive(Debug, Drop, PartialEq, Eq)]
pub enum Step {
    /// The next client joins.
    Join,
    /// A client is asked for an operation.
    Invoke { client: u32, action: Action },
    /// The message of this number is delivered, for the first time or again. Messages are numbered from 1 in the order in which they were sent.
    Give { number: u32 },
    /// An answer of a Byzantine cloud is delivered.
    Lie { reply: CloudReply },
    /// A retransmission timeout of a client.
    Tick { client: u32 },
    /// A client crashes.
    Stop { client: u32 },
}
