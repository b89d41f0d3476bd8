//! The protocols of clients and clouds: what each operation sends and replies, the session of a client, and
//! what an honest cloud holds and answers.
//!
//! Nothing runs here. Machines, traces, network roles and threads all cite these definitions, which stand
//! in `specs/`: `Write`, `Swap`, `Read` and `Collect` for the operations, each over the inputs that it was
//! handed, the newest first; `Turns` for what one does at an input; `Sessions` for a client; `Cloud`.
//! `PutPlan`, `GetPlan` and `CollectPlan` are what an operation is to do.
//!
//!     if is_for(&cue, client, op, &key) { .. }
//!
//! Proved: which operation an input is for is told exactly (`is_for`); worked inputs of each protocol have
//! the sends and replies that they should, computed from the definitions (`worked_inputs_are_answered`).
#![tactic(auto)]

mod addressing;
mod plan;
mod rows;

pub use addressing::is_for;
pub use plan::{CollectPlan, GetPlan, PutPlan};
pub use rows::{edges_are_answered, worked_inputs_are_answered};
