//! What the words of the command line can ask for.

use crate::request::Request;

/// What the words of the command line ask for.
#[derive(Clone, Copy, Debug, PartialEq, Eq)]
pub enum Command {
    /// A command on the text that the input is.
    OnText(TextCommand),
    /// What came of the schedule that is made of the seed, with so many drawn events.
    Make { seed: u64, events: u32 },
    /// The worked values of the formats.
    Vectors,
    /// The server of the metadata at the port, until so many arrivals were taken.
    Meta { port: u16, arrivals: u32 },
    /// The server of a cloud at the port, until so many arrivals were taken.
    Cloud { port: u16, arrivals: u32 },
    /// A command on a key of a store.
    OnStore(StoreCommand, Request),
}

/// What a command on a text, or on frames, does with it.
#[derive(Clone, Copy, Debug, PartialEq, Eq)]
pub enum TextCommand {
    /// The replay of a schedule.
    Replay,
    /// The check of a report.
    Check,
    /// What a keeper answers to frames of requests, on a disk whose call of this number fails.
    Keep { stop: u32 },
}

/// What a command on a store does with the key.
#[derive(Clone, Copy, Debug, PartialEq, Eq)]
pub enum StoreCommand {
    /// Stores the input as its value.
    Put,
    /// Reads its value.
    Get,
    /// Deletes its value.
    Delete,
    /// Takes its superseded values from the clouds.
    Collect,
}
