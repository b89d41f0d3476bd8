//! Whether the operations of an order tell what the register of the key holds.

ghost use Rattle.std.specs.Prelude.{◌≡◌, map};
ghost use Rattle.std.specs.Option.{option_copied};
ghost use Rattle.hy_record.specs.Stamp.{Timestamp};
ghost use Rattle.hy_order.specs.Linearization.{
  is_changed,
  no_register,
  register_after,
  written_stamp,
};
ghost use Rattle.hy_order.specs.Violation.{
  finds_stamp,
  is_stamp_of,
  tells_register,
  tells_value,
  wrong_number,
};

use crate::operation::{End, Operation};
use hy_record::{Action, Reply, Stamp};
use std::marker::Model;

/// What the register of a key holds: a value or none, and the timestamp of the write that left it. A
/// write that has not replied leaves a timestamp that is unknown.
#[derive(Drop)]
struct Held<'a> {
    value: Option<&'a [u8]>,
    stamp: Option<Stamp>,
}

impl<'a> Model for Held<'a> {
    ghost use Rattle.std.specs.Option.{option_copied};
    ghost use Rattle.hy_order.specs.Linearization.{Register};

    ghost Value = { Register };

    ghost view = { λ held. record { value = option_copied held.value; stamp = held.stamp } };
}

/// The number of the first operation that does not tell what the register holds at its place.
pub(crate) fn first_wrong(listed: &[&Operation]) -> Option<u32>
    ensures { result ≡ wrong_number no_register (map (λ op. op.now) listed.now) }
{
    let mut held = nothing_held();
    for op in listed {
        if !tells_register(&held, &op.action, &op.end) {
            return Some(op.number);
        }
        held = held_after(held, &op.action, &op.end);
    }
    None
}

/// The register that nothing was written to.
fn nothing_held<'a>() -> Held<'a>
    ensures { result ≡ no_register }
{
    Held {
        value: None,
        stamp: Some(Stamp::zero()),
    }
}

/// Whether the operation tells what the register holds: a get its value, a swap its timestamp.
fn tells_register(held: &Held, action: &Action, end: &End) -> bool
    ensures { result ≡ tells_register held.now action.now end.now }
{
    match action {
        Action::Swap { expected, .. } => finds_stamp(held, expected, end),
        Action::Put { .. } | Action::Get { .. } | Action::Delete { .. } | Action::Collect { .. } =>
            { tells_value(held, end) }
    }
}

/// Whether a reply that tells a value or its absence tells what the register holds.
fn tells_value(held: &Held, end: &End) -> bool
    ensures { result ≡ tells_value held.now end.now }
{
    let End::Replied { reply, .. } = end else {
        return true;
    };
    match reply {
        Reply::Value(value, _) => held.value == Some(value.bytes()),
        Reply::Absent(_) => held.value.is_none(),
        Reply::Done(_)
        | Reply::Exhausted(_)
        | Reply::Collected(_)
        | Reply::Swapped(_)
        | Reply::Changed(_) => true,
    }
}

/// Whether a swap with this end finds the register as it says: of the expected timestamp, or of the
/// one that it was told, which is another.
fn finds_stamp(held: &Held, expected: &Stamp, end: &End) -> bool
    ensures { result ≡ finds_stamp held.now expected.now end.now }
{
    match end {
        End::Pending { .. } => is_stamp_of(&held.stamp, expected),
        End::Replied { reply, .. } => match reply {
            Reply::Swapped(_) => is_stamp_of(&held.stamp, expected),
            Reply::Changed(stamp) => !stamp.is_same(expected) && is_stamp_of(&held.stamp, stamp),
            Reply::Done(_)
            | Reply::Exhausted(_)
            | Reply::Value(..)
            | Reply::Absent(_)
            | Reply::Collected(_) => true,
        },
    }
}

/// Whether the timestamp is the held one, where that is known.
fn is_stamp_of(held: &Option<Stamp>, stamp: &Stamp) -> bool
    ensures { result ≡ is_stamp_of held.now stamp.now }
{
    match held {
        Some(held) => held.is_same(stamp),
        None => true,
    }
}

/// What the register holds after the action of an operation with this end.
fn held_after<'a>(held: Held<'a>, action: &'a Action, end: &End) -> Held<'a>
    ensures { result ≡ register_after action.now end.now held.entry }
{
    match action {
        Action::Put { value, .. } => Held {
            value: Some(value.bytes()),
            stamp: written_stamp(end),
        },
        Action::Delete { .. } => Held {
            value: None,
            stamp: written_stamp(end),
        },
        Action::Swap { value, .. } => {
            if is_changed(end) {
                held
            } else {
                Held {
                    value: Some(value.bytes()),
                    stamp: written_stamp(end),
                }
            }
        }
        Action::Get { .. } | Action::Collect { .. } => held,
    }
}

/// The timestamp that a write was told; none where it has no reply.
fn written_stamp(end: &End) -> Option<Stamp>
    ensures { result ≡ written_stamp end.now }
{
    match end {
        End::Replied {
            reply: Reply::Done(stamp) | Reply::Swapped(stamp),
            ..
        } => Some(*stamp),
        End::Replied { .. } | End::Pending { .. } => None,
    }
}

/// Whether a swap was told that the record was another.
fn is_changed(end: &End) -> bool
    ensures { result ≡ is_changed end.now }
{
    matches!(
        end,
        End::Replied {
            reply: Reply::Changed(_),
            ..
        }
    )
}
