//! A call of a net in memory, as it is kept.

/// A call with its outcome: whether it was done, or the number that was dialled.
#[derive(Clone, Copy, Debug, Drop, PartialEq, Eq)]
pub enum NetCall {
    Listen { port: u16, done: bool },
    Dial { port: u16, number: Option<u32> },
    Send { conn: u32, size: usize, done: bool },
    Close { conn: u32 },
}
