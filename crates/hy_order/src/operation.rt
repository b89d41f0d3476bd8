//! One operation of a client: what was asked, when, and how it ended.

use hy_record::{Action, Phase, Reply};

/// An operation of a history.
#[derive(Debug, Drop, PartialEq, Eq)]
pub struct Operation {
    /// Its number, from 1 in the order of invocation.
    pub number: u32,
    /// The client that asked.
    pub client: u32,
    /// What was asked.
    pub action: Action,
    /// The step of the invocation.
    pub invoked: u64,
    /// How it ended.
    pub end: End,
}

/// How an operation ended.
#[derive(Debug, Drop, PartialEq, Eq)]
pub enum End {
    /// With a reply, at this step.
    Replied { at: u64, reply: Reply },
    /// Not yet: its phase, how much of what the phase awaits it has, and how much it needs.
    Pending { phase: Phase, have: u32, need: u32 },
}
