//! What a command on a store names.

use hy_record::Key;

/// A store, a key of it, and how long its answers are waited for.
#[derive(Clone, Copy, Debug, PartialEq, Eq)]
pub struct Request {
    /// The faulty clouds that the store bears, at most 3.
    pub f: u8,
    /// The parts that a value is cut into, 1 to 4.
    pub k: u8,
    /// The port of the metadata's server.
    pub meta: u16,
    /// The port of the first cloud, at most 65,520; the other clouds are at the ports behind it.
    pub clouds: u16,
    pub key: Key,
    /// How many arrivals are taken at most, 1 or more.
    pub arrivals: u32,
}
