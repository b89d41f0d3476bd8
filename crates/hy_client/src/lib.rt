//! The client, which runs one operation at a time, and the machines of a collection and of a conditional
//! swap.
//!
//! A `Client` is asked for an action (`invoke`) and handed what arrives (`step`, `tick`); each answers what
//! is to be sent and, once, the reply. A `CollectOp` deletes superseded versions. A `SwapOp` is a put whose
//! update asks for a timestamp: it hands its inputs to a `PutOp`, and judges those that a swap alone awaits.
//!
//!     let sends = client.invoke(alloc, &action)?;
//!     let turn = client.step(alloc, &input)?;
//!
//! Definitions: `hy_protocol/specs/Session.antt` (the client), `Collect.antt` and `Swap.antt` there.
//!
//! Proved: a client stands for a session (`client.rt`). It refuses an action exactly where the session says
//! so, with the fault that it says, and a refused action takes no number (`invoke`: `refused`, `accepted`,
//! `err`, `numbered`, `unnumbered`); what it begins, sends, replies and tells is what the session says
//! (`sends`, `ok`; `step`, `tick`: `turn`, `ok`; `stop`, `begun`, `running`). A collection (`collect.rt`)
//! and a swap (`swap.rt`) send, reply and tell of themselves exactly what the protocol says at the last of
//! their inputs, whatever those are, and after want of memory stand for the same inputs (`start`, `step`:
//! `turn`, `ok`, `err`; `phase`, `have`, `need`). A swap starts exactly where its value has at most
//! 1,048,576 bytes (`start`: `fits`, `fault`).
#![tactic(auto)]

mod client;
mod collect;
mod deletion;
mod fault;
mod last;
mod machine;
mod swap;
mod target;

pub use client::{Client, Running};
pub use collect::CollectOp;
pub use fault::InvokeFault;
pub use swap::SwapOp;

#[cfg(test)]
mod swap_tests;
#[cfg(test)]
mod tests;
