//! The client over a net: it runs one operation, over a connection to the metadata service and connections to
//! the clouds.
//!
//!     let reply = drive_client(&mut net, alloc, &job, arrivals)?;
//!
//! Definitions: `specs/Role.antt`. It dials the service and joins, begins its action at the first Joined, sends
//! each message to the service as one frame and each request to a cloud on a connection of its own, and hands
//! the client each answer when it is whole, an answer that could not be had for one that failed, broke off or
//! could not be read, after all that was due to be sent, and a timeout for each Quiet.
//!
//! Proved (`driving.rt`, `drive_client`): there is a course of this definition that led to where it ends
//! (`plays`). Its action is one that frames can carry, and so no swap (`drives`). It returns at the step at
//! which there is a reply, which is one of its action (`suits`); it tells a full service, a value that is too
//! large, for any net only where it is (`large`), and how far the operation is where all arrivals were taken;
//! a net fault comes only where the service could not be dialled or sent to, with no call behind it, or where
//! no arrival could be taken and the count of that rose (`plays`, `fault`); with any other answer that count is
//! as before (`kept`).
#![tactic(auto)]

mod asking;
mod cloud_lines;
mod driver;
mod driving;
mod errand;
mod fault;
mod job;
mod service_line;
mod settling;

pub use driving::drive_client;
pub use fault::DriveFault;
pub use job::Job;

#[cfg(test)]
mod tests;
