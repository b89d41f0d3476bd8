//! The put and the delete: a machine that stands for the inputs that it was handed.
//!
//! A `PutPlan` says what is written, and to which clouds; a `PutOp` takes one input a step and answers what is
//! to be sent and, once, the reply.
//!
//!     let outs = put.step(alloc, &input)?;
//!
//! Definitions: `hy_protocol`, `put_turn` (`specs/Turns.antt`).
//!
//! Proved: at each input a put does exactly what the write protocol does after all inputs that it was handed,
//! those of other operations among them; after want of memory it stands for the same inputs (`put.rt`, `step`:
//! `turn`, `ok`, `err`). It starts exactly where the value has at most 1,048,576 bytes (`start`: `fits`,
//! `fault`), and tells at every moment how far it is (`phase`, `have`, `need`). As laws (`laws.rt`): an update
//! that a put sends lists exactly a quorum of clouds, each of which acknowledged this write's timestamp, and
//! has the hash of each cloud's fragment of the value; after its reply a put sends and replies nothing.
#![tactic(auto)]

mod content;
mod fault;
mod laws;
mod put;
mod state;

pub use fault::StartFault;
pub use hy_protocol::PutPlan;
pub use laws::{nothing_follows_the_reply, updates_list_those_that_acknowledged};
pub use put::PutOp;

#[cfg(test)]
mod tests;
