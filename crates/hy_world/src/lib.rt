//! The simulator: the clients, the metadata service and the clouds of a store, which stand for the trace of
//! the steps that they took.
//!
//! `World` takes the events of a schedule one by one and tells of its run; `replay` takes a whole schedule
//! and answers its report. Both have a form over every metadata service (`WorldOver`, `replay_over`).
//!
//!     world.step(alloc, &event)?;
//!     let report = world.report(alloc)?;
//!
//! Definitions: what an event is to a trace in `specs/Schedules.antt`, what a world stands for in
//! `specs/World.antt`, what is promised of a run in `specs/Promises.antt`.
//!
//! Proved, whatever the schedule does: after an event the machines and the log are those of the trace (`step`:
//! `ok`); what a world tells is what the definitions say of the trace (`sent`, `steps`, `history`, `points`,
//! `held`, `report`); the points of a run are an atomic log, by which the orders are those of
//! the report (`points`: `atomic`, `once`, `order`); after want of memory each later event answers that
//! (`err`, `broken`). After each step, in the middle of a `Do` too (`step`, `replay`: `promises`): with at
//! most f Byzantine clouds, a current version that has a value is held, with valid bytes, by k honest clouds
//! of its record's list, and a get that each honest cloud of its version's list has answered follows a version
//! that was superseded; with any number of them, a get refreshes at most once for each update of its key since
//! it began, and what a collector asks to delete was superseded. The report of a schedule is linearizable where
//! no two strings that were hashed collide (`replay`: `linearizable`); it lists each current version that has a
//! value (`listed`), and each copy that it lists is one of at least k (`retrievable`). It is a condition of
//! `step` that a schedule can write an event's value (`short`).
#![tactic(auto)]

mod cloud_set;
mod copies;
mod holders;
mod machines;
mod nodes;
mod progress;
mod reporting;
mod run;
mod seat;
mod simulation;
mod world;

pub use run::{replay, replay_over};
pub use world::{World, WorldOver};

#[cfg(test)]
mod tests;
