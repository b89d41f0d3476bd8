//! The ground that every crate stands on: bytes, failures, limits, and the traits of the outside.
//!
//! `Source` and `Sink` are what is read and written, `Net` is connections; each has an end in memory
//! (`BytesIn`, `BytesOut`, `NetTape`) on which chosen calls fail, and adapters over readers and writers.
//! `Blob` is bytes, `Numbers` a list of numbers, and the limits of the store stand in `limits.rt`.
//!
//!     let text = read_all(alloc, &mut source, MAX_INPUT)?;
//!
//! Definitions: `specs/` (`Source`, `Sink`, `Net`, `Moves`, `Shape`, `Faults`).
//!
//! Proved: reading to the end gives exactly the bytes, and is too long exactly where a byte past the
//! limit was read (`read_all`); writing adds all of the bytes, or a front of them where the sink's count
//! rose (`write_all`); a fault comes only where the count of failed calls rose. Each call of a net that
//! tells adds the one move that it made (`Net`: `tells`), and no dial answers a number twice (`fresh`).
//! The net in memory gives its script, numbers what it dials 1, 2, 3, fails exactly where it is set up to
//! or where its room does not suffice, and tells exactly until then (`NetTape`: `gives`, `fails`, `leaves`).
//!
//! Trusted: what a reader, a writer or a socket really gave.
#![tactic(auto)]

mod adapters;
mod arrival;
mod blob;
mod calls;
mod failure;
mod fault;
mod limits;
mod memory_sink;
mod memory_source;
mod net;
mod net_call;
mod net_script;
mod net_tape;
mod numbers;
mod outbox;
mod pieces;
mod reading;
mod shape;
mod sink;
mod source;
mod writing;

pub use adapters::{ReadSource, WriteSink};
pub use arrival::{Arrival, Arrived};
pub use blob::Blob;
pub use failure::{Failed, NoMemory};
pub use fault::{Cause, TextError, TextFault};
pub use limits::{
    MAX_CLOUDS, MAX_COUNT, MAX_EVENTS, MAX_F, MAX_INPUT, MAX_K, MAX_KEY, MAX_LINE, MAX_MADE, MAX_N,
    MAX_RECORD, MAX_SESSIONS, MAX_SN, MAX_TEXT_VALUE, MAX_VALUE, SN_END, limits_have_these_numbers,
};
pub use memory_sink::BytesOut;
pub use memory_source::BytesIn;
pub use net::Net;
pub use net_call::NetCall;
pub use net_tape::NetTape;
pub use numbers::Numbers;
pub use reading::{ReadAllFault, read_all};
pub use shape::{cloud_count, fragment_size, quorum_size};
pub use sink::Sink;
pub use source::Source;
pub use writing::{WriteFault, write_all};

#[cfg(test)]
mod tests;
