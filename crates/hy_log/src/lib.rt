//! What is kept of the steps of a store: the messages, and the operations with what a report tells of
//! them.
//!
//! A `Log` keeps a trace: the messages, numbered from 1, each with the step at which it was sent; the
//! operations, each with the step at which it began; and of each operation its `Course`: its reply, the
//! timestamps that it was told first and last, its first update or judged swap that was served, what the
//! record was then, and whether that was applied. `Effects` is what a deed adds.
//!
//!     log.append(effects)?;
//!     let orders = log.orders(alloc)?;
//!
//! Definitions: `specs/Courses.antt`, `Points.antt`, `Orders.antt`, `Log.antt`.
//!
//! Proved: a log that keeps a trace keeps the trace with one deed more after that deed's effects were added
//! (`append`: `keeps`; `posted`). Its history is that of the trace (`history`), where it is told how far
//! the operations are that run, and its orders are those of the trace's report (`orders`): the definition
//! goes by points, and the code sorts by timestamps. Its points are those of the trace: where each put,
//! get, delete and swap began, read, wrote or tried to, and returned, in the order of their steps
//! (`points`); they are an atomic log in which no operation reads twice (`atomic`, `once`), so the law of
//! the orders by such logs holds of them, and the order of each key by them is that of the trace's report,
//! as are the orders of all keys (`order`).
#![tactic(auto)]

mod copies;
mod course;
mod courses;
mod effects;
mod history;
mod kept;
mod last_key;
mod log;
mod moment;
mod notes;
mod orders;
mod place;
mod places;
mod points;
mod post;

pub use copies::copy_of_action;
pub use course::{Course, FirstUpdate, Returned};
pub use courses::Courses;
pub use effects::{Beginning, Effects, Heard, Return, Updated, return_of};
pub use kept::{Kept, KeptPost, KeptRequest};
pub use log::{Log, Started};
pub use post::{Post, posts_of, posts_of_says};
