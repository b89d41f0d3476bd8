//! An honest cloud: an object store that holds the first bytes put under a name until they are deleted.
//!
//!     let say = cloud.serve(alloc, &wish)?;
//!
//! `Cloud` is the store; what it is asked is a `Wish` of `hy_record`. Definitions:
//! `hy_protocol/specs/Cloud.antt` (`bytes_held`, `cloud_answer`), over the requests served.
//!
//! Proved: its answers are those of the definitions over the requests that it served, and what it holds
//! under a name is the bytes of the first put after the last delete (`says`, `ok`, `err`; `holds`). After
//! want of memory it stands for the same requests.
//!
//! The simulator and the command `cloud` run it. Byzantine clouds are not modelled here: they answer
//! anything, and no code stands for them.
#![tactic(auto)]

mod cloud;

pub use cloud::Cloud;

#[cfg(test)]
mod tests;
