//! What the store speaks of: timestamps, keys, records and their names, and what is asked and answered.
//!
//! `Stamp` orders writes, `Key` names a value, `Record` says when a value was written and how it lies in
//! the clouds. `MetaAsk` and `MetaSay`, `CloudAsk` and `CloudReply` are the messages; `Cue` is an input of
//! an operation, `Out` what it sends, `Action` and `Reply` what a client asks and is told.
//!
//!     let record = Record::decode(alloc, &bytes)?;
//!
//! Definitions: `specs/` (`Stamp`, `Key`, `Record`, `Spelling`, `Names`). A key whose first byte is `_` is
//! written by swap alone (`is_cell`).
//!
//! Proved: timestamps go by number and then by client, and end where they should; a key and a name are
//! read exactly where the text spells one; a record is read exactly where the bytes spell it, else the
//! first fault by place is answered (`decode`), and has one spelling, of at most 338 bytes, which no other
//! begins (`encode`, `laws.rt`); a fragment is valid exactly by its length and its hash (`is_valid`).
//! Whoever is handed a record knows that it meets the rules of one (`known`).
//!
//! Trusted: SHA-256 is the word that the crate `sha2` proves.
#![tactic(auto)]

mod action;
mod cloud;
mod hash;
mod key;
mod kind;
mod laws;
mod message;
mod name;
mod record;
mod stamp;
mod stamps;
mod turn;

pub use action::{Action, Phase, Reply};
pub use cloud::{CloudAct, CloudAsk, CloudReply, CloudSay, Wish};
pub use hash::{Hash, sha};
pub use key::{Key, KeyFault};
pub use kind::Kind;
pub use laws::{
    record_lists_a_quorum, record_spellings_are_apart, record_spellings_are_short,
    records_are_read_back,
};
pub use message::{MetaAsk, MetaSay};
pub use name::{name_of, read_name};
pub use record::{Record, RecordFault};
pub use stamp::Stamp;
pub use stamps::{MAX_STAMPS, Stamps};
pub use turn::{Cue, Out, Outs, Turn};

#[cfg(test)]
mod tests;
