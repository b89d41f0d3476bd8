//! One pass over the orders of a report, which tells of most legal reports that they are legal.
//!
//! It asks of each order what the order alone can violate, marks the operations that any of them
//! lists, and looks at the end whether a finished one was left out. The operations of a key are never
//! searched for: the keys of the orders rise, so an operation is listed by the order of its key or by
//! none.

ghost use Rattle.std.specs.Prelude.{◌≡◌, ◌||◌, IfOk, None, length, not, true};
ghost use Rattle.std.specs.List.{list_all};
ghost use Rattle.std.specs.Option.{option_copied};
ghost use Rattle.hy_order.specs.Checking.{AreBelow, AreMarksOf, ArePlaces, is_marked};
ghost use Rattle.hy_order.specs.Linearization.{is_finished};
ghost use Rattle.hy_order.specs.Plain.{AreAlsoMarked, AreSound, IsSound, are_rising};
ghost use Rattle.hy_order.specs.Violation.{first_illegal, repeated_number};
ghost use Rattle.hy_order.specs.WordReaders.{is_above};

use crate::checker::listing::{first_stranger_among, operations_among};
use crate::checker::marks::{is_marked, mark};
use crate::checker::real_time::first_early;
use crate::checker::register::first_wrong;
use crate::history::History;
use crate::membership::is_finished;
use crate::operation::Operation;
use crate::order::Order;
use hy_base::NoMemory;
use hy_record::Key;
use std::alloc::Global;

/// The mark of an operation that an order lists.
const LISTED: usize = 1;

/// Whether the orders are found legal in one pass, without a search for the operations of a key.
///
/// Where they are not, an order is illegal, or the keys of the orders do not rise.
pub(crate) fn are_plain(
    alloc: Global,
    history: &History,
    orders: &[Order],
) -> Result<bool, NoMemory>
    ensures { IfOk result (λ plain. plain ≡ true → first_illegal history.now orders.now ≡ None) }
{
    let ops = history.items();
    let mut marks = vec![in alloc; 0usize; ops.len()]?;
    is_plain(alloc, ops, &mut marks, orders)
}

/// The same of these operations, where none has a mark.
fn is_plain(
    alloc: Global,
    ops: &[Operation],
    marks: &mut [usize],
    orders: &[Order],
) -> Result<bool, NoMemory>
    requires marks { AreMarksOf ops.now marks.old }
    requires none { AreBelow 1 marks.old }
    ensures { IfOk result (λ plain. plain ≡ true → first_illegal ops.now orders.now ≡ None) }
{
    let sound = are_sound(alloc, ops, marks, orders)?;
    if !sound || !are_rising(orders) {
        return Ok(false);
    }
    Ok(are_finished_marked(ops, marks))
}

/// Whether each order is sound. Where they are, the marked operations are those that they list.
fn are_sound(
    alloc: Global,
    ops: &[Operation],
    marks: &mut [usize],
    orders: &[Order],
) -> Result<bool, NoMemory>
    requires marks { AreMarksOf ops.now marks.old }
    requires none { AreBelow 1 marks.old }
    ensures { IfOk result (λ sound. sound ≡ true → AreSound ops.now orders.now marks.new) }
{
    for order in orders {
        let sound = is_sound(alloc, ops, marks, order)?;
        if !sound {
            return Ok(false);
        }
    }
    Ok(true)
}

/// Whether the order violates nothing but that it may miss an operation. It marks those that it lists.
fn is_sound(
    alloc: Global,
    ops: &[Operation],
    marks: &mut [usize],
    order: &Order,
) -> Result<bool, NoMemory>
    requires marks { AreMarksOf ops.now marks.old }
    ensures marked { AreAlsoMarked order.now.ops marks.old marks.new }
    ensures sound { IfOk result (λ sound. sound ≡ true → IsSound ops.now order.now) }
{
    let numbers = order.ops.items();
    let new = mark_new(marks, numbers);
    let stranger = first_stranger_among(ops, &order.key, numbers);
    if !new || stranger.is_some() {
        return Ok(false);
    }
    let listed = operations_among(alloc, ops, numbers)?;
    if first_early(&listed).is_some() {
        return Ok(false);
    }
    Ok(first_wrong(&listed).is_none())
}

/// Marks the operations of the numbers, and answers whether none had the mark before.
fn mark_new(marks: &mut [usize], numbers: &[u32]) -> bool
    ensures marked { AreAlsoMarked numbers.now marks.old marks.new }
    ensures new { result ≡ true → ArePlaces (length marks.old) numbers.now → repeated_number numbers.now ≡ None }
{
    let mut new = true;
    for number in numbers {
        let was_marked = is_marked(marks, LISTED, *number);
        mark(marks, LISTED, *number);
        if was_marked {
            new = false;
        }
    }
    new
}

/// Whether each finished operation has the mark.
fn are_finished_marked(ops: &[Operation], marks: &[usize]) -> bool
    ensures { result ≡ list_all (λ op. not (is_finished op.end) || is_marked marks.now 1 op.number) ops.now }
{
    ops.iter().all(|op| !is_finished(&op.end) || is_marked(marks, LISTED, op.number))
}

/// Whether the keys of the orders stand in increasing order, each once.
fn are_rising(orders: &[Order]) -> bool
    ensures { result ≡ are_rising None orders.now }
{
    let mut last = None;
    for order in orders {
        if !is_above(last, &order.key) {
            return false;
        }
        last = Some(&order.key);
    }
    true
}

/// Whether the key is above the last one, where there is one.
fn is_above(last: Option<&Key>, key: &Key) -> bool
    ensures { result ≡ is_above (option_copied last.entry) key.now }
{
    match last {
        None => true,
        Some(last) => *last < *key,
    }
}
