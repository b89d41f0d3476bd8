//! Whether an order lists each operation that it has to list, and no other, once.

ghost use Rattle.std.specs.Prelude.{◌≡◌, ℕ, List, IfOk, map};
ghost use Rattle.hy_order.specs.History.{IsNumberedFrom};
ghost use Rattle.hy_order.specs.Linearization.{listed, operation_at};
ghost use Rattle.hy_order.specs.Checking.{AreMarked, AreMarksOf, is_marked, unlisted_number};
ghost use Rattle.hy_order.specs.Violation.{is_member, missing_number, stranger_number};

use crate::checker::index::{OperationIndex, operation_of};
use crate::checker::marks::is_marked;
use crate::membership::{is_finished, is_of_key, may_be_listed};
use crate::operation::Operation;
use hy_base::NoMemory;
use hy_record::Key;
use std::alloc::Global;

/// The number of the first finished operation of the key that the order has not marked.
pub(crate) fn first_missing(
    index: &OperationIndex,
    key: &Key,
    marks: &[usize],
    order: usize,
) -> Option<u32>
    requires { AreMarksOf index.now marks.now }
    ensures { (numbers : List ℕ) → AreMarked numbers order marks.now →
        result ≡ missing_number index.now key.now numbers }
{
    let ops = index.of_key(key)?;
    first_unmarked(ops, marks, order)
}

/// The number of the first finished operation that the order has not marked.
fn first_unmarked(ops: &[&Operation], marks: &[usize], order: usize) -> Option<u32>
    ensures { result ≡ unlisted_number (is_marked marks.now order) (map (λ op. op.now) ops.now) }
{
    for op in ops {
        if is_finished(&op.end) && !is_marked(marks, order, op.number) {
            return Some(op.number);
        }
    }
    None
}

/// The first listed number that is of no operation, or of one that an order of the key may not list.
pub(crate) fn first_stranger(index: &OperationIndex, key: &Key, numbers: &[u32]) -> Option<u32>
    ensures { result ≡ stranger_number index.now key.now numbers.now }
{
    first_stranger_among(index.operations(), key, numbers)
}

/// The same of these operations.
pub(crate) fn first_stranger_among(ops: &[Operation], key: &Key, numbers: &[u32]) -> Option<u32>
    requires { IsNumberedFrom 1 ops.now }
    ensures { result ≡ stranger_number ops.now key.now numbers.now }
{
    numbers
        .iter()
        .copied()
        .find(|number| !is_member(ops, key, *number))
}

/// Whether an order of the key may list the number.
fn is_member(ops: &[Operation], key: &Key, number: u32) -> bool
    requires { IsNumberedFrom 1 ops.now }
    ensures { result ≡ is_member key.now (operation_at ops.now number) }
{
    match operation_of(ops, number) {
        Some(op) => is_of_key(op, key) && may_be_listed(op),
        None => false,
    }
}

/// The operations of the numbers, in the order of the list.
pub(crate) fn operations_of<'a>(
    alloc: Global,
    index: &OperationIndex<'a>,
    numbers: &[u32],
) -> Result<Vec<&'a Operation>, NoMemory>
    ensures { IfOk result (λ found. map (λ op. op.now) found.items ≡ listed index.now numbers.now) }
{
    operations_among(alloc, index.operations(), numbers)
}

/// The same of these operations.
pub(crate) fn operations_among<'a>(
    alloc: Global,
    ops: &'a [Operation],
    numbers: &[u32],
) -> Result<Vec<&'a Operation>, NoMemory>
    requires { IsNumberedFrom 1 ops.now }
    ensures { IfOk result (λ found. map (λ op. op.now) found.items ≡ listed ops.now numbers.now) }
{
    let mut found = Vec::new(alloc);
    for number in numbers {
        if let Some(op) = operation_of(ops, *number) {
            found.push(op)?;
        }
    }
    Ok(found)
}
