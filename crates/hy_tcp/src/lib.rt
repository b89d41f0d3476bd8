//! The net over sockets of the loopback.
//!
//!     let mut net = TcpNet::new(&rt, alloc)?;
//!
//! `TcpNet` is a `Net` of `hy_base` that tells nothing of what it did: it is proved safe, and no more. That
//! bytes arrive as they were sent, that a slow or hostile peer stops nobody else, and how quick it is, tests and
//! examples show (`hybris/src/tests.rt`, `examples/network`).
//!
//! What comes is taken connection by connection, in turn; a look at sockets that finds nothing is followed by a
//! rest, longer each time up to 4 milliseconds. 4 milliseconds without an arrival are a Quiet, and each in a row
//! is twice as long, up to 64. What a socket does not take at once waits in memory, up to 4 MiB a connection; one
//! that was closed here goes on while its peer takes what waits.
#![tactic(auto)]

mod connection;
mod pace;
mod sockets;
mod tcp_net;

pub use tcp_net::TcpNet;
