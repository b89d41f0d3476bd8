//! The metadata of a store, shared by clients in threads without a lock: a table of words that change in
//! atomic steps, of which all sessions see one history.
//!
//! `SharedMeta` is the table, shared by `&`; `Root` gives clients their numbers; a `Pass` is the session of a
//! client, which runs one operation at a time and can be sent to a thread.
//!
//!     let found = table.read(alloc, &mut pass)?;
//!     let said = table.update(&mut pass, &rec);
//!
//! Definitions: `specs/Sessions.antt` (what a session is, and what it sees), `specs/Answers.antt` and
//! `specs/Found.antt` (when it may do a step, and what it is told), `specs/Rule.antt` (what holds between steps).
//!
//! Proved: the log that a session has seen is atomic, whole; after each call it is the log seen before, what
//! others did between, and this call's event, and nothing else of the session's client (`SeesHistory`). A place
//! is the number of invocations and returns up to the call. `read` finds the record of the key and the row of
//! the operation that wrote it, which is in the log; `update` is applied exactly where the record is below, and
//! else tells the record's timestamp; `finish` keeps the timestamp of the reply, and a get replies only what it
//! read. After `meet` the second session has seen all that the first had. Timestamp and words tell a record.
//!
//! Trusted: the atomic steps of the toolchain. Not said: that a call is fast, or that threads ran at once.
#![tactic(auto)]

mod event;
mod found;
mod law;
mod laws;
mod layout;
mod pass;
mod places;
mod root;
mod rows;
mod running;
mod said;
mod shared;
mod steps;
mod view;

pub use event::Event;
pub use found::Found;
pub use laws::words_tell_the_record;
pub use layout::Layout;
pub use pass::Pass;
pub use root::Root;
pub use running::Running;
pub use said::Said;
pub use shared::SharedMeta;
pub use view::View;

#[cfg(test)]
mod tests;
