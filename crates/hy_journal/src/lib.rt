//! A metadata service that keeps a journal on a disk, and so outlives a crash.
//!
//! A `Keeper` is opened on a disk, and joins and serves as a service does. Each change, an `Entry`,
//! is in the journal for good before it is answered:
//!
//!     let mut keeper = Keeper::open(alloc, disk)?;
//!     let client = keeper.join(alloc)?;
//!     let says = keeper.serve(alloc, &ask)?;
//!
//! The file is a gate, and behind each open gate an entry and the next gate. An entry is written
//! with a closed gate behind it and synced; only then its own gate is opened, and synced.
//!
//! `read_requests` reads what a keeper is to serve, frame by frame, up to the first that is none.
//!
//! The definitions are in `specs/`: `Entry` and `File` (bytes), `Fold` (what entries stand for),
//! `Keeper` (what a keeper stands for, and why a call is refused), `Requests` and `History`.
//!
//! Proved, over every disk that meets `hy_disk::Disk`: after a crash at any moment an opening finds
//! the entries that were answered, in order, and at most the one that was under way, whole; answers
//! are those of a service that served these requests; each refusal has its cause, and leaves all as
//! it was. By the laws below, over all openings no id is given twice. Trusted: nothing here.
#![tactic(auto)]

mod append;
mod entry;
mod fault;
mod keeper;
mod kept;
mod laws;
mod limits;
mod opening;
mod replay;
mod requests;
mod state;
mod store;
mod swap;

pub use entry::Entry;
pub use fault::{KeepFault, OpenFault, RequestsFault};
pub use keeper::Keeper;
pub use kept::{KEPT_ROOM, kept_answers};
pub use laws::{
    entries_decide, files_stand_for_one_list, ids_are_given_once, requests_are_read_in_one_way,
};
pub use limits::MAX_JOURNAL;
pub use requests::read_requests;

#[cfg(test)]
mod tests;
