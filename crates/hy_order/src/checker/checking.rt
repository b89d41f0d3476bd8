//! Whether an order of a key is a linearization, and where it first fails to be one.

ghost use Rattle.std.specs.Prelude.{◌≡◌, ◌+◌, ◌↔◌, IfOk, None};
ghost use Rattle.std.specs.List.{AllByRecursion};
ghost use Rattle.hy_order.specs.Checking.{AreBelow, AreMarksOf};
ghost use Rattle.hy_order.specs.Linearization.{IsLinearization, IsLinearized, IsReportLinearizable};
ghost use Rattle.hy_order.specs.ReportRanges.{IsReport};
ghost use Rattle.hy_order.specs.Violation.{first_violation, first_illegal};

use crate::checker::index::OperationIndex;
use crate::checker::listing::{first_missing, first_stranger, operations_of};
use crate::checker::marks::mark_listed;
use crate::checker::plain::are_plain;
use crate::checker::real_time::first_early;
use crate::checker::register::first_wrong;
use crate::history::History;
use crate::order::Order;
use crate::report::Report;
use crate::verdict::Verdict;
use hy_base::NoMemory;
use hy_record::Key;
use std::alloc::Global;

/// The verdict on the order, in time n log n in the operations and the listed numbers.
pub fn check(alloc: Global, history: &History, order: &Order) -> Result<Verdict, NoMemory>
    ensures verdict { IfOk result (λ verdict. verdict ≡ first_violation history.now order.now.key order.now.ops) }
    ensures legal { IfOk result (λ verdict. (verdict ≡ Verdict.Legal) ↔ IsLinearization history.now order.now.key order.now.ops) }
{
    let index = OperationIndex::of(alloc, history)?;
    let mut marks = no_marks(alloc, &index)?;
    verdict_on(alloc, &index, &mut marks, 1, order)
}

/// The key of the first order of the report that is not legal, and the verdict on it.
///
/// It takes time n log n in the operations and the listed numbers, where each key has one order.
pub fn first_illegal(alloc: Global, report: &Report) -> Result<Option<(Key, Verdict)>, NoMemory>
    ensures found { IfOk result (λ found. found ≡ first_illegal report.now.history report.now.orders) }
    // There is none exactly where each order is a linearization.
    ensures legal { IfOk result (λ found. (found ≡ None) ↔ AllByRecursion (IsLinearized report.now.history) report.now.orders) }
    // In a report that can be read, each key of an operation has an order.
    ensures linearizable { IsReport report.now → IfOk result (λ found. (found ≡ None) ↔ IsReportLinearizable report.now) }
{
    let orders = report.orders.items();
    let plain = are_plain(alloc, &report.history, orders)?;
    if plain {
        return Ok(None);
    }
    search_illegal(alloc, &report.history, orders)
}

/// The key of the first of these orders that is not legal, and the verdict on it, by an index of the
/// operations by key.
fn search_illegal(
    alloc: Global,
    history: &History,
    orders: &[Order],
) -> Result<Option<(Key, Verdict)>, NoMemory>
    ensures { IfOk result (λ found. found ≡ first_illegal history.now orders.now) }
{
    let index = OperationIndex::of(alloc, history)?;
    let mut marks = no_marks(alloc, &index)?;
    first_illegal_among(alloc, &index, &mut marks, orders)
}

/// Marks for the operations of the index, where no order has marked any.
fn no_marks(alloc: Global, index: &OperationIndex) -> Result<Vec<usize>, NoMemory>
    ensures marks { IfOk result (λ marks. AreMarksOf index.now marks.items) }
    ensures none { IfOk result (λ marks. AreBelow 1 marks.items) }
{
    let marks = vec![in alloc; 0usize; index.len()]?;
    Ok(marks)
}

/// The key of the first of these orders that is not legal, and the verdict on it.
fn first_illegal_among(
    alloc: Global,
    index: &OperationIndex,
    marks: &mut [usize],
    orders: &[Order],
) -> Result<Option<(Key, Verdict)>, NoMemory>
    requires marks { AreMarksOf index.now marks.old }
    requires none { AreBelow 1 marks.old }
    ensures { IfOk result (λ found. found ≡ first_illegal index.now orders.now) }
{
    for (place, order) in orders.iter().enumerate() {
        let verdict = verdict_on(alloc, index, marks, place + 1, order)?;
        if !verdict.is_legal() {
            return Ok(Some((order.key, verdict)));
        }
    }
    Ok(None)
}

/// The verdict on the order, by the index of the history. It marks the operations that it lists with
/// this mark, above those of the orders before it.
fn verdict_on(
    alloc: Global,
    index: &OperationIndex,
    marks: &mut [usize],
    mark: usize,
    order: &Order,
) -> Result<Verdict, NoMemory>
    requires marks { AreMarksOf index.now marks.old }
    requires below { AreBelow mark marks.old }
    ensures verdict { IfOk result (λ verdict. verdict ≡ first_violation index.now order.now.key order.now.ops) }
    ensures below { AreBelow (mark + 1) marks.new }
{
    let numbers = order.ops.items();
    let repeated = mark_listed(marks, mark, numbers);
    if let Some(number) = first_missing(index, &order.key, marks, mark) {
        return Ok(Verdict::Missing(number));
    }
    if let Some(number) = first_stranger(index, &order.key, numbers) {
        return Ok(Verdict::Stranger(number));
    }
    if let Some(number) = repeated {
        return Ok(Verdict::Twice(number));
    }
    let listed = operations_of(alloc, index, numbers)?;
    if let Some((earlier, later)) = first_early(&listed) {
        return Ok(Verdict::Early(earlier, later));
    }
    Ok(match first_wrong(&listed) {
        Some(number) => Verdict::Wrong(number),
        None => Verdict::Legal,
    })
}

#[cfg(test)]
mod tests;
