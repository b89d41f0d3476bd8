//! Whether the operations of an order stand in real time.

ghost use Rattle.std.specs.Prelude.{◌≡◌, ◌≤◌, drop, length, map};
ghost use Rattle.hy_order.specs.Checking.{early_part, return_step};
ghost use Rattle.hy_order.specs.Linearization.{returned_before};
ghost use Rattle.hy_order.specs.Violation.{early_numbers, returned_number};

use crate::operation::{End, Operation};

/// The first operation after which one stands that returned before it was invoked: the number of the
/// first such one, and its own.
pub(crate) fn first_early(listed: &[&Operation]) -> Option<(u32, u32)>
    ensures { result ≡ early_numbers (map (λ op. op.now) listed.now) }
{
    let start = early_start(listed);
    let (op, later) = listed[start..].split_first()?;
    let earlier = first_returned_before(later, op.invoked)?;
    Some((earlier, op.number))
}

/// The number of the first operation that returned before the step.
fn first_returned_before(listed: &[&Operation], step: u64) -> Option<u32>
    ensures { result ≡ returned_number step (map (λ op. op.now) listed.now) }
{
    for op in listed {
        if has_returned_before(&op.end, step) {
            return Some(op.number);
        }
    }
    None
}

/// The place of the first operation after which one stands that returned before it was invoked, or
/// the length where there is none.
///
/// It goes from the back, and keeps the earliest return of the operations that it has passed.
fn early_start(listed: &[&Operation]) -> usize
    ensures within { result ≤ length listed.now }
    ensures part { drop result (map (λ op. op.now) listed.now) ≡ early_part (map (λ op. op.now) listed.now) }
{
    let mut start = listed.len();
    let mut earliest = u64::MAX;
    for place in (0..listed.len()).rev() {
        let op = listed[place];
        if earliest < op.invoked {
            start = place;
        }
        earliest = earliest.min(return_step(&op.end));
    }
    start
}

/// The step at which it returned, or the last step that there is.
fn return_step(end: &End) -> u64
    ensures { result ≡ return_step end.now }
{
    match end {
        End::Replied { at, .. } => *at,
        End::Pending { .. } => u64::MAX,
    }
}

/// Whether it returned before the step.
fn has_returned_before(end: &End, step: u64) -> bool
    ensures { result ≡ returned_before step end.now }
{
    match end {
        End::Replied { at, .. } => *at < step,
        End::Pending { .. } => false,
    }
}
