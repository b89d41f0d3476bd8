//! Which operations are of a key, and which of them an order has to list or may list.

ghost use Rattle.std.specs.Prelude.{◌≡◌};
ghost use Rattle.hy_order.specs.History.{key_of_action};
ghost use Rattle.hy_order.specs.Linearization.{
  is_of_key,
  is_finished,
  is_finished_reply,
  may_be_listed,
};

use crate::operation::{End, Operation};
use hy_record::{Action, Key, Reply};

/// Whether the operation is one of the key.
pub fn is_of_key(op: &Operation, key: &Key) -> bool
    ensures { result ≡ is_of_key key.now op.now }
{
    key_of_action(&op.action) == key
}

/// The key that the action names.
pub(crate) fn key_of_action(action: &Action) -> &Key
    ensures { result.now ≡ key_of_action action.now }
{
    match action {
        Action::Put { key, .. }
        | Action::Get { key }
        | Action::Delete { key }
        | Action::Collect { key }
        | Action::Swap { key, .. } => key,
    }
}

/// Whether it is the end of a finished put, get, delete or swap, which each order of the key has to list.
pub fn is_finished(end: &End) -> bool
    ensures { result ≡ is_finished end.now }
{
    match end {
        End::Replied { reply, .. } => is_finished_reply(reply),
        End::Pending { .. } => false,
    }
}

/// Whether it is the reply of a put, get, delete or swap that finished.
fn is_finished_reply(reply: &Reply) -> bool
    ensures { result ≡ is_finished_reply reply.now }
{
    matches!(
        reply,
        Reply::Done(_) | Reply::Value(..) | Reply::Absent(_) | Reply::Swapped(_) | Reply::Changed(_)
    )
}

/// Whether an order of its key may list the operation: a finished put, get, delete or swap, or an unfinished
/// put, delete or swap.
pub(crate) fn may_be_listed(op: &Operation) -> bool
    ensures { result ≡ may_be_listed op.now.action op.now.end }
{
    match &op.end {
        End::Replied { reply, .. } => is_finished_reply(reply),
        End::Pending { .. } => matches!(
            op.action,
            Action::Put { .. } | Action::Delete { .. } | Action::Swap { .. }
        ),
    }
}
