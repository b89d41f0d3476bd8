//! Reading a report, line by line.

ghost use Rattle.std.specs.Prelude.{◌≡◌, ◌+◌, ◌<◌, IfOk, OnOk, length, take, true};
ghost use Rattle.std.specs.List.{list_any};
ghost use Rattle.std.specs.Option.{option_copied};
ghost use Rattle.std.specs.Str.{bytes_eq};
ghost use Rattle.hy_base.specs.declared.fault.TextError.TheVariants as errors;
ghost use Rattle.hy_base.specs.declared.fault.TextFault.{TextFault};
ghost use Rattle.hy_text.specs.Gives.{GivesText};
ghost use Rattle.hy_text.specs.Kind.{TakesLines, items_from};
ghost use Rattle.hy_order.specs.Due.{is_key, names_key};
ghost use Rattle.hy_order.specs.Keys.{register_key, register_keys, sorted_keys};
ghost use Rattle.hy_order.specs.Report.{report_text};
ghost use Rattle.hy_order.specs.ReportRanges.{IsReport};
ghost use Rattle.hy_order.specs.ReportReading.{last_of, operation_lines, report_of};
ghost use Rattle.hy_order.specs.declared.report.Report.{Report};

use crate::held::HeldList;
use crate::history::History;
use crate::operation::Operation;
use crate::order::Orders;
use crate::report::Report;
use crate::text::end_line::EndLine;
use crate::text::held_line::HeldLines;
use crate::text::operation_line::OperationLines;
use crate::text::order_line::OrderLines;
use hy_base::{Cause, NoMemory, TextError};
use hy_record::{Action, Key};
use hy_text::{Cursor, read_line, read_lines};
use std::alloc::Global;
use std::collections::BTreeSet;

/// The report that the text is.
///
/// A fault names the first line that does not fit, counted from 1, and the cause that the first word
/// from the left has which does not fit. A line of another kind in the place of one that is due is
/// `BadWord`, another key than the one due is `BadKey`, a line after the last is `Extra`, and where
/// the text ends before its last line, `NoEnd` names the line after it.
pub fn read_report(alloc: Global, text: &[u8]) -> Result<Report, TextError>
    // Which report, or which fault: the first of the text.
    ensures exact { GivesText result (report_of text.now) }
    // What is read is the text of a report in range.
    ensures found { IfOk result (λ report. IsReport report × (text.now ≡ report_text report)) }
    // The text of a report in range is read, unless memory runs out.
    ensures only { (report : Report) → IsReport report → text.now ≡ report_text report →
        GivesText result (Ok report) }
    // The text of a report in range has no fault.
    ensures refused { (fault : TextFault) → result ≡ Err (errors.Fault fault) →
        ((report : Report) → IsReport report → text.now ≡ report_text report → ⊥) }
{
    read_text(alloc, text)
}

/// The report of the text, or its first fault.
#[tactic(auto, unfolding(crate::specs::ReportReading::report_of, crate::specs::ReportReading::report_at))]
fn read_text(alloc: Global, text: &[u8]) -> Result<Report, TextError>
    ensures { GivesText result (report_of text.now) }
{
    let mut cursor = Cursor::of(text);
    let history = read_history(alloc, &mut cursor)?;
    let keys = keys_due(alloc, history.items())?;
    let orders = Orders::of(read_lines(alloc, &mut OrderLines::of(&keys), &mut cursor)?);
    let held = HeldList::of(read_lines(alloc, &mut HeldLines::new(), &mut cursor)?);
    let operations = history.items().len();
    let keys = orders.items().len();
    read_last_line(alloc, EndLine::of(operations, keys), &mut cursor)?;
    Ok(Report {
        history,
        orders,
        held,
    })
}

/// The operations, and what is left after their lines.
fn read_history(alloc: Global, cursor: &mut Cursor) -> Result<History, TextError>
    ensures { TakesLines (λ history. history) result cursor.new
        (items_from operation_lines (record { number = 0; step = 0 }) cursor.old.number cursor.old.lines) }
{
    let ops = read_lines(alloc, &mut OperationLines::new(), cursor)?;
    Ok(History::of(ops))
}

/// Reads the last line, and that no line stands after it.
fn read_last_line(alloc: Global, mut end: EndLine, cursor: &mut Cursor) -> Result<(), TextError>
    ensures { GivesText result (last_of end cursor.old.number cursor.old.lines) }
{
    read_line(alloc, &mut end, cursor, Cause::NoEnd)?;
    cursor.end()
}

/// The keys that a put, a get, a delete or a swap names, in increasing order.
fn keys_due(alloc: Global, ops: &[Operation]) -> Result<Vec<Key>, NoMemory>
    ensures { IfOk result (λ keys. keys.items ≡ sorted_keys (register_keys ops.now)) }
{
    let mut keys = BTreeSet::new(alloc);
    let mut places = vec![in alloc; 0usize; SLOTS]?;
    for place in 0..ops.len() {
        add_key(&mut keys, &mut places, ops, place)?;
    }
    let mut due = Vec::new(alloc);
    for key in keys.iter() {
        due.push(*key)?;
    }
    Ok(due)
}

/// Adds the key that the operation at the place names, where it puts, gets, deletes or swaps one.
///
/// Most operations name a key that one shortly before them named too, which needs no search among
/// the keys: each slot keeps the place of the last operation whose key falls to it.
fn add_key(
    keys: &mut BTreeSet<Key>,
    places: &mut [usize],
    ops: &[Operation],
    place: usize,
) -> Result<(), NoMemory>
    requires within { place < length ops.now }
    requires earlier { keys.old.keys ≡ sorted_keys (register_keys (take place ops.now)) }
    ensures { OnOk result (keys.new.keys ≡ sorted_keys (register_keys (take (place + 1) ops.now))) }
{
    let op = &ops[place];
    let Some(key) = register_key(&op.action) else {
        return Ok(());
    };
    if is_named_before(&ops[..place], places, key) {
        return Ok(());
    }
    keys.insert(*key)?;
    Ok(())
}

/// How many slots there are for the places of operations.
const SLOTS: usize = 1024;

/// Whether the operation at the place in the slot of the key is one of these and names the key. The
/// slot then keeps the place after them.
fn is_named_before(ops: &[Operation], places: &mut [usize], key: &Key) -> bool
    ensures { result ≡ true → list_any (λ other. bytes_eq other key.now) (register_keys ops.now) ≡ true }
{
    let Some(last) = places.get_mut(slot_of(key)) else {
        return false;
    };
    let named = names_key(ops.get(*last), key);
    *last = ops.len();
    named
}

/// A slot for the key.
fn slot_of(key: &Key) -> usize {
    let mut slot: usize = 0;
    for byte in key.bytes() {
        slot = slot.wrapping_mul(31).wrapping_add(usize::from(*byte));
    }
    slot % SLOTS
}

/// Whether there is an operation, and it puts, gets, deletes or swaps the key.
fn names_key(op: Option<&Operation>, key: &Key) -> bool
    ensures { result ≡ names_key key.now (option_copied op.entry) }
{
    match op {
        Some(op) => is_key(register_key(&op.action), key),
        None => false,
    }
}

/// Whether it is the key.
fn is_key(found: Option<&Key>, key: &Key) -> bool
    ensures { result ≡ is_key key.now (option_copied found.entry) }
{
    match found {
        Some(other) => other == key,
        None => false,
    }
}

/// The key of a put, a get, a delete or a swap.
fn register_key(action: &Action) -> Option<&Key>
    ensures { option_copied result ≡ register_key action.now }
{
    match action {
        Action::Put { key, .. }
        | Action::Get { key }
        | Action::Delete { key }
        | Action::Swap { key, .. } => Some(key),
        Action::Collect { .. } => None,
    }
}

#[cfg(test)]
mod tests;
