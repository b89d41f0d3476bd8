//! What every text of the store stands on: lines, words, the slots of a line, and the printed forms of numbers,
//! keys, values, actions, timestamps, phases and sets of clouds.
//!
//! A `Cursor` goes through the lines of a text, `Words` through those of a line.
//!
//!     let key = read_key(word)?;
//!
//! Definitions: `specs/`, one file a kind of word, after `docs/FORMATS.md`.
//!
//! Proved: each reader of a word answers what its slot says, and each writer adds the printed form. The lines
//! of a kind are read to the first line of another kind, or to the first that is at fault (`kind.rt`,
//! `read_lines`, `read_line`).
#![tactic(auto)]

mod action;
mod cause;
mod clouds;
mod cursor;
mod error;
mod key;
mod kind;
mod line;
mod number;
mod phase;
mod stamp;
mod table;
mod value;
mod word;
mod writing;

pub use action::{Verb, Verbs, push_action, read_action};
pub use cause::cause_name;
pub use clouds::{push_clouds, read_clouds};
pub use cursor::{Cursor, OpenLine};
pub use error::LineError;
pub use key::{push_key, read_key};
pub use kind::{LineKind, read_line, read_lines};
pub use line::{Line, Lines, check_line_end};
pub use number::{push_number, read_number, read_u32};
pub use phase::read_phase;
pub use stamp::{push_stamp, read_stamp};
pub use table::{Named, read_named};
pub use value::{push_value, read_value};
pub use word::{Words, read_keyword};
pub use writing::{push_number_word, push_numbers, push_value_word, push_word};

#[cfg(test)]
mod tests;
