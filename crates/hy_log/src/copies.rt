//! Copies of what was asked and of what was replied.

ghost use Rattle.std.specs.Prelude.{◌≡◌, IfOk};

use hy_base::{Blob, NoMemory};
use hy_record::{Action, Reply};
use std::alloc::Global;

/// A copy of what was asked.
pub fn copy_of_action(alloc: Global, action: &Action) -> Result<Action, NoMemory>
    ensures { IfOk result (λ copy. copy ≡ action.now) }
{
    match action {
        Action::Put { key, value } => {
            let value = Blob::copy_of(alloc, value.bytes())?;
            Ok(Action::Put { key: *key, value })
        }
        Action::Get { key } => Ok(Action::Get { key: *key }),
        Action::Delete { key } => Ok(Action::Delete { key: *key }),
        Action::Collect { key } => Ok(Action::Collect { key: *key }),
        Action::Swap {
            key,
            expected,
            value,
        } => {
            let value = Blob::copy_of(alloc, value.bytes())?;
            Ok(Action::Swap {
                key: *key,
                expected: *expected,
                value,
            })
        }
    }
}

/// A copy of what was replied.
pub(crate) fn copy_of_reply(alloc: Global, reply: &Reply) -> Result<Reply, NoMemory>
    ensures { IfOk result (λ copy. copy ≡ reply.now) }
{
    match reply {
        Reply::Value(value, stamp) => {
            let value = Blob::copy_of(alloc, value.bytes())?;
            Ok(Reply::Value(value, *stamp))
        }
        Reply::Done(stamp) => Ok(Reply::Done(*stamp)),
        Reply::Exhausted(stamp) => Ok(Reply::Exhausted(*stamp)),
        Reply::Absent(stamp) => Ok(Reply::Absent(*stamp)),
        Reply::Collected(count) => Ok(Reply::Collected(*count)),
        Reply::Swapped(stamp) => Ok(Reply::Swapped(*stamp)),
        Reply::Changed(stamp) => Ok(Reply::Changed(*stamp)),
    }
}
