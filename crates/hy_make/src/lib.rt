//! Schedules that are made of a seed, each event drawn while the store runs, and what came of them.
//!
//! Four clients join; then each event is drawn from the generator PCG32 and, where it delivers messages in
//! order, from how many messages the run of the events before it has sent. `Summary` counts the run's steps,
//! operations and orders, and how many of the orders are legal.
//!
//!     let summary = summary_of(alloc, seed, events)?;
//!     let line = summary_line(alloc, &summary)?;
//!
//! Definitions: an event of its draws in `specs/Drawing.antt`, the schedule of a seed and its summary in
//! `specs/Making.antt`.
//!
//! Proved: the code draws each event while a world takes it, and its summary is exactly that of the run of the
//! seed's schedule (`summary_of`: `summary`); where no two strings that were hashed collide, its count of legal
//! orders is its count of orders (`legal`). Both hold over every metadata service (`summary_over`). The line is
//! the text of the summary (`summary_line`).
#![tactic(auto)]

mod drawer;
mod making;
mod summary;

pub use making::{summary_of, summary_over};
pub use summary::{Summary, summary_line};

#[cfg(test)]
mod tests;
