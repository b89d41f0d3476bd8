//! The get: a machine that stands for the inputs that it was handed.
//!
//! A `GetOp` takes one input a step, asks clouds of the record's list for fragments, checks each by its hash,
//! and rebuilds the value from the first k that are good.
//!
//!     let outs = get.step(alloc, &input)?;
//!
//! Definitions: `hy_protocol`, `get_turn` (`specs/Turns.antt`).
//!
//! Proved: what it sends and replies at each input is exactly what the read protocol gives for the list of its
//! inputs, whatever clouds answer; an input that is not for it changes nothing, nor does any after its reply;
//! after want of memory it stands for the same list (`get.rt`, `start`: `stands`, `sends`; `step`: `turn`,
//! `ok`, `err`). Its phase, what it has and needs, and how often it asked for the record again are those of
//! the list too (`phase`, `have`, `need`, `rounds`). As laws (`laws.rt`): a get without a reply holds valid
//! fragments of fewer clouds than its record has parts, and replies at the step at which it holds enough; the
//! value that it replies was rebuilt from fragments that clouds gave since the record was told, each of which
//! the record's hashes verify; it asks for the record again at most once for each version; the requests that it
//! sends upon answers of clouds are at most f + q for each version.
#![tactic(auto)]

mod fetch;
mod get;
mod laws;
mod requests;

pub use get::GetOp;
pub use laws::{
    gets_await_fragments, gets_refresh_once, gets_reply_at_enough_fragments,
    replied_values_are_verified, requests_upon_answers_are_few,
};

#[cfg(test)]
mod tests;
