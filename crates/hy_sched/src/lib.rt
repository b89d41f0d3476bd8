//! Schedules: the parameters of a store, the events of a run of it, and the text of both.
//!
//! `Schedule` has the store's `Params` and its `Events`. An `Event` is one of seven: a client joins, it is
//! asked for an operation, which may run to its end at once, a message is delivered, a Byzantine cloud
//! answers, a timeout passes, a client crashes. One that names what is not there has no effect.
//!
//!     let schedule = read_schedule(alloc, text)?;
//!     let same_text = write_schedule(alloc, &schedule)?;
//!
//! Definitions: the text of a schedule in `specs/Text.antt`, which schedules a text can tell in
//! `specs/Ranges.antt` (`IsSchedule`), how a text is judged from its front on in `specs/Reading.antt`.
//!
//! Proved: a schedule is written exactly as its text is defined (`write_schedule`); a text is read exactly
//! where it is that of a schedule within the limits of `docs/FORMATS.md`, for stores of every shape and any
//! number of Byzantine clouds, and else its first bad line and the cause are answered (`read_schedule`:
//! `exact`, `found`, `only`, `refused`); a schedule within these limits is read back from its text
//! (`schedules_are_read_back`). So what is read has a shape that a store can have, values of at most 4,096
//! bytes, actions on keys of their kind, and forged answers of Byzantine clouds alone.
#![tactic(auto)]

mod event;
mod event_kind;
mod event_line;
mod header_line;
mod laws;
mod params;
mod reading;
mod say;
mod schedule;
mod writing;

pub use event::{Event, Events};
pub use laws::schedules_are_read_back;
pub use params::Params;
pub use reading::read_schedule;
pub use schedule::Schedule;
pub use writing::write_schedule;

#[cfg(test)]
mod tests;
