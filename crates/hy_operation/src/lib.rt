//! What the operations of a client share: sets of clouds, who asks, how far an operation is, and which of its
//! inputs are for it.
//!
//! `Marks` counts clouds once each and becomes a set of clouds; an `Issuer` (client, operation, key) makes
//! each request of an operation.
//!
//!     marks.mark(cloud);
//!     outs.push(alloc, issuer.update(rec))?;
//!
//! Definitions: `hy_protocol/specs/Operations.antt` and `Inputs.antt`.
//!
//! Proved: marks are counted, and become a set of clouds, as the filter of the marked ones says (`marks.rt`:
//! `mark`, `count_below`, `set_below`); each request of an operation is the protocol's message (`issuer.rt`).
#![tactic(auto)]

mod clouds;
mod issuer;
mod known;
mod marks;
mod progress;

pub use clouds::clouds_of;
pub use issuer::Issuer;
pub use known::stamp_of;
pub use marks::Marks;
pub use progress::Progress;
