//! Marks on the operations of a history, by which an order tells which of them it lists.
//!
//! Each operation has one mark, the number of the order that listed it last, or 0. Each order marks
//! with a number above those before it, so no mark is ever cleared.

ghost use Rattle.std.specs.Prelude.{◌≡◌, ◌+◌, ◌<◌, ◌||◌, ◌==◌, ℕ, None, IfSome, length};
ghost use Rattle.hy_order.specs.Checking.{AreBelow, AreMarked, ArePlaces, IsPlace, is_marked};
ghost use Rattle.hy_order.specs.Violation.{repeated_number};

/// Marks the operations of the numbers with the order, and answers the first number that stands
/// earlier too, where each is that of an operation.
pub(crate) fn mark_listed(marks: &mut [usize], order: usize, numbers: &[u32]) -> Option<u32>
    requires { AreBelow order marks.old }
    ensures marked { AreMarked numbers.now order marks.new }
    ensures below { AreBelow (order + 1) marks.new }
    ensures repeated { ArePlaces (length marks.old) numbers.now → result ≡ repeated_number numbers.now }
{
    let mut repeated = None;
    for number in numbers {
        let was_marked = is_marked(marks, order, *number);
        mark(marks, order, *number);
        if was_marked {
            repeated = repeated.or(Some(*number));
        }
    }
    repeated
}

/// Whether the operation of the number has the mark of the order.
pub(crate) fn is_marked(marks: &[usize], order: usize, number: u32) -> bool
    ensures { result ≡ is_marked marks.now order number }
{
    match place_of(marks, number) {
        Some(place) => marks[place] == order,
        None => false,
    }
}

/// Marks the operation of the number, where there is one.
pub(crate) fn mark(marks: &mut [usize], order: usize, number: u32)
    ensures marked { (other : ℕ) → IsPlace (length marks.old) other →
        is_marked marks.new order other ≡ (is_marked marks.old order other || number == other) }
    ensures below { AreBelow (order + 1) marks.old → AreBelow (order + 1) marks.new }
{
    if let Some(place) = place_of(marks, number) {
        marks[place] = order;
    }
}

/// The place of the operation of the number, where there is one.
fn place_of(marks: &[usize], number: u32) -> Option<usize>
    ensures some { IfSome result (λ place. (place + 1 ≡ number) × (place < length marks.now)) }
    ensures none { result ≡ None → ¬ IsPlace (length marks.now) number }
{
    let place = number.checked_sub(1)? as usize;
    if place < marks.len() {
        Some(place)
    } else {
        None
    }
}
