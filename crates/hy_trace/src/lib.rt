//! Traces of a store: what the steps of a schedule do to its clients, its metadata service and its clouds,
//! and what a report tells of them.
//!
//! Nothing runs here. A simulator keeps a trace, and theorems speak of every one. A trace is a list of
//! deeds, the newest first (`specs/Deeds.antt`); a schedule's steps make one (`Schedule`), messages are
//! what its deeds sent (`Messages`), and over it are defined histories (`History`), the moment at which
//! each operation takes effect (`Points`), the order of a key (`Order`), what was hashed (`Hashed`), which
//! clouds hold the current version (`Held`) and the report (`Report`).
//!
//! Proved: in the trace of every schedule each deed could come after those before it
//! (`schedules_make_traces`). Worked schedules, swaps among them, have the histories and orders that they
//! should, computed from the definitions (`worked_rows_are_told`).
#![tactic(auto)]

mod laws;
mod rows;
mod step;

pub use laws::schedules_make_traces;
pub use rows::worked_rows_are_told;
pub use step::{MAX_GIVES, Step};
