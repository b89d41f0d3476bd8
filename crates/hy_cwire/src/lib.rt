//! What clients ask of clouds and what clouds answer, as messages of HTTP/1.1, and their readers, which
//! take them in any pieces.
//!
//! `write_ask` and `write_say` write a message; `AskReader` reads at a cloud, `SayReader` at a client.
//!
//!     reader.feed(alloc, &piece)?;
//!     if let Some(say) = reader.next(alloc)? { .. }
//!
//! Definitions: `specs/` (heads, lengths, fields, and what a reader stands for).
//!
//! Proved: what is written is the exact bytes; a reader stands for the bytes that it took, whatever the
//! pieces: it is in the head, or has the one head that they begin with and the front of the body that
//! came, or answers the first fault in a fixed order (`feed`). It gives a whole message once (`next`), is
//! cut by an end exactly where the message is not whole (`end`), answers a fault from then on (`broken`)
//! and is as it was after want of memory (`memory`). How bytes were cut does not matter, and what was
//! written is read back (`laws.rt`). The status that tells a fault is that of `docs/FORMATS.md`
//! (`status_for`). Tested with heads of `curl` and nginx.
//!
//! Trusted: which bytes are a head is the grammar of the crate `httparse`.
#![tactic(auto)]

mod ask_head;
mod ask_reader;
mod block;
mod bytes;
mod fault;
mod fields;
mod kind;
mod laws;
mod length;
mod progress;
mod say_head;
mod say_reader;
mod writing;

pub use ask_reader::AskReader;
pub use block::MAX_HEAD;
pub use fault::{HttpFault, status_for};
pub use kind::WishKind;
pub use laws::{
    cuts_of_answers_do_not_matter, cuts_of_requests_do_not_matter, limits_have_these_numbers,
    written_answers_are_read_back, written_requests_are_read_back,
};
pub use say_reader::SayReader;
pub use writing::{write_ask, write_say};

#[cfg(test)]
mod tests;
