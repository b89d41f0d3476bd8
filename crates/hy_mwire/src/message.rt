//! What a frame says.

use hy_record::{MetaAsk, MetaSay};

/// A message between a client and the metadata service.
#[derive(Debug, Drop)]
pub enum Message {
    /// A client asks for a session.
    Join,
    /// The session has this client number.
    Joined { client: u32 },
    /// There is no session left.
    Full,
    /// A client asks.
    Ask(MetaAsk),
    /// The service answers.
    Say(MetaSay),
}
