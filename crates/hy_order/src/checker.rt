//! The checker: whether the orders of a report are linearizations.

mod checking;
mod index;
mod listing;
mod marks;
mod plain;
mod real_time;
mod register;

pub use checking::{check, first_illegal};
