//! How far an operation is.

use hy_record::Phase;

/// The phase of an operation, how much of what it awaits it has, and how much it needs.
#[derive(Clone, Copy, Debug)]
pub struct Progress {
    pub phase: Phase,
    pub have: u32,
    pub need: u32,
}
