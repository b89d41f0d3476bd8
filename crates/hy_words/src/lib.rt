//! The words of the command line: which command they ask for, with its numbers and key.
//!
//!     let command = read_command(&words)?;
//!
//! Definitions: `specs/Words.antt` and `specs/Given.antt`, after the table of `docs/USE.md`.
//!
//! Proved: the words ask for exactly the command that their table has for them, with the numbers and the key
//! that they spell, within their limits; a key is no option, and a put or delete names no compare-and-swap key
//! (`reading.rt`, `read_command`: `IsInRange`).
#![tactic(auto)]

mod command;
mod given;
mod limits;
mod name;
mod operands;
mod reading;
mod request;

pub use command::{Command, StoreCommand, TextCommand};
pub use limits::{
    CLIENT_ARRIVALS, COLLECT_ARRIVALS, MAX_FIRST_PORT, MAX_PORT, MAX_SEED, SERVER_ARRIVALS,
};
pub use reading::read_command;
pub use request::Request;

#[cfg(test)]
mod tests;
