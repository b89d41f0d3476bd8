//! The servers over a net: a cloud, and the metadata service.
//!
//!     serve_meta(&mut net, alloc, port, arrivals)?;
//!
//! Definitions: `specs/CloudRole.antt`, `specs/MetaRole.antt`: one rule a line for what is due when.
//!
//! Proved, over a net that tells what happens: for each server there is a course of its definition that led to
//! where it ends, in which each call is the one that is due, and each arrival is taken when nothing else is to
//! be done. A cloud (`serve_cloud`: `plays`): the bytes of a connection come to what the HTTP profile says
//! however they were cut, each request is answered as an honest cloud answers after those before it, a fault
//! by its status, and its connection closed once. The metadata (`serve_meta`: `plays`): the first message of a
//! connection joins, and each later one is a request of the client that joined there; anything else closes it,
//! as a fault of a frame does; the requests are served in the order in which they arrive, each answer and each
//! news of a watch goes to the open connection of its client, and a connection on which a send failed is closed.
//! They answer Ok only when they had taken all their arrivals and done what was due, and a net fault only where
//! they could not listen or take an arrival, where the net's count rose (`fault`); with any other answer that
//! count is as before (`kept`).
//!
//! Trusted: what a socket really gave.
#![tactic(auto)]

mod answer;
mod cloud_lines;
mod cloud_server;
mod cloud_serving;
mod fault;
mod letter;
mod meta_lines;
mod meta_server;
mod meta_serving;
mod room;

pub use cloud_serving::serve_cloud;
pub use fault::ServeFault;
pub use meta_serving::serve_meta;
pub use room::buffer;

#[cfg(test)]
mod tests;
