//! The order of a key's operations by the timestamps that they wrote and found.

ghost use Rattle.std.specs.Prelude.{◌≡◌, IfOk, map, not};
ghost use Rattle.std.specs.List.{filter};
ghost use Rattle.hy_order.specs.Linearization.{is_write};
ghost use Rattle.hy_points.specs.Atomic.{no_stamp};
ghost use Rattle.hy_points.specs.Marks.{sorted_by};
ghost use Rattle.hy_points.specs.Stamps.{
  end_stamp,
  is_swap,
  is_told,
  reply_stamp,
  stamp_order,
  told_cmp,
  told_number,
  told_of,
};

use crate::told::Told;
use hy_base::{NoMemory, Numbers};
use hy_order::{End, History, Operation, Order, is_finished, is_of_key};
use hy_record::{Action, Key, Reply, Stamp};
use std::alloc::Global;

/// The finished puts, gets and deletes of the key by timestamp: writes before the gets that found
/// them, and gets of one timestamp by their invocation.
///
/// It takes time n log n in the operations.
pub fn stamp_order(alloc: Global, history: &History, key: &Key) -> Result<Order, NoMemory>
    ensures key { IfOk result (λ order. order.key ≡ key.now) }
    ensures order { IfOk result (λ order. order.ops ≡ stamp_order history.now key.now) }
{
    let told = told_of_key(alloc, history.items(), key)?;
    let ops = numbers_in_order(alloc, told)?;
    Ok(Order { key: *key, ops })
}

/// The numbers of these by timestamp, writes before reads, and by invocation.
fn numbers_in_order(alloc: Global, told: Vec<Told>) -> Result<Numbers, NoMemory>
    ensures { IfOk result (λ numbers. numbers ≡ map told_number (sorted_by told_cmp told.items)) }
{
    let told = in_order(told)?;
    let numbers = told.iter().map(|told| told.number).collect(alloc)?;
    Ok(Numbers::of(numbers))
}

/// What places each finished operation of the key.
fn told_of_key(alloc: Global, ops: &[Operation], key: &Key) -> Result<Vec<Told>, NoMemory>
    ensures { IfOk result (λ told. told.items ≡ map told_of (filter (is_told key.now) ops.now)) }
{
    let mut told = Vec::new(alloc);
    for op in ops {
        if is_told(op, key) {
            told.push(told_of(op))?;
        }
    }
    Ok(told)
}

/// Whether it is a finished put, get or delete of the key.
fn is_told(op: &Operation, key: &Key) -> bool
    ensures { result ≡ is_told key.now op.now }
{
    is_of_key(op, key) && is_finished(&op.end) && !is_swap(&op.action)
}

/// Whether it is a swap.
fn is_swap(action: &Action) -> bool
    ensures { result ≡ is_swap action.now }
{
    matches!(action, Action::Swap { .. })
}

/// What places the operation.
fn told_of(op: &Operation) -> Told
    ensures { result ≡ told_of op.now }
{
    Told {
        stamp: end_stamp(&op.end),
        reads: !is_write(&op.action),
        invoked: op.invoked,
        number: op.number,
    }
}

/// Whether the action writes.
fn is_write(action: &Action) -> bool
    ensures { result ≡ is_write action.now }
{
    matches!(
        action,
        Action::Put { .. } | Action::Delete { .. } | Action::Swap { .. }
    )
}

/// The timestamp that the end tells, or that of no record.
fn end_stamp(end: &End) -> Stamp
    ensures { result ≡ end_stamp end.now }
{
    match end {
        End::Replied { reply, .. } => reply_stamp(reply),
        End::Pending { .. } => Stamp::zero(),
    }
}

/// The timestamp that the reply tells, or that of no record.
fn reply_stamp(reply: &Reply) -> Stamp
    ensures { result ≡ reply_stamp reply.now }
{
    match reply {
        Reply::Done(stamp)
        | Reply::Value(_, stamp)
        | Reply::Absent(stamp)
        | Reply::Exhausted(stamp)
        | Reply::Swapped(stamp)
        | Reply::Changed(stamp) => *stamp,
        Reply::Collected(_) => Stamp::zero(),
    }
}

/// These by timestamp, writes before reads, and by invocation.
fn in_order(told: Vec<Told>) -> Result<Vec<Told>, NoMemory>
    ensures { IfOk result (λ sorted. sorted.items ≡ sorted_by told_cmp told.items) }
{
    let mut sorted = told;
    sorted.sort()?;
    Ok(sorted)
}
