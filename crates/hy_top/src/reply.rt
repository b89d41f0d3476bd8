//! How the reply of a store is told.

ghost use Rattle.std.specs.Prelude.{◌≡◌, IfOk};
ghost use Rattle.hy_top.specs.Reply.{TellsReply, collected_line, value_text};

use crate::line::stamp_line;
use crate::status::Status;
use hy_base::{Blob, NoMemory};
use hy_record::{Reply, Stamp};
use hy_text::{push_number_word, push_stamp};
use std::alloc::Global;

/// The output that tells the reply; where there is no timestamp left, it is a refusal.
pub(crate) fn reply_text(alloc: Global, reply: Reply) -> Result<Blob, Status>
    ensures { TellsReply reply result }
{
    match reply {
        Reply::Done(stamp) => Ok(Blob::of(stamp_line(alloc, b"done", &stamp)?)),
        Reply::Exhausted(stamp) => Err(Status::Exhausted(stamp)),
        Reply::Value(value, stamp) => Ok(value_text(alloc, &value, &stamp)?),
        Reply::Absent(stamp) => Ok(Blob::of(stamp_line(alloc, b"none", &stamp)?)),
        Reply::Collected(count) => Ok(collected_line(alloc, count)?),
        Reply::Swapped(stamp) => Ok(Blob::of(stamp_line(alloc, b"swapped", &stamp)?)),
        Reply::Changed(stamp) => Ok(Blob::of(stamp_line(alloc, b"changed", &stamp)?)),
    }
}

/// The value of the key, behind the line that tells its size and its timestamp.
fn value_text(alloc: Global, value: &Blob, stamp: &Stamp) -> Result<Blob, NoMemory>
    ensures { IfOk result (λ text. text ≡ value_text value.now stamp.now) }
{
    let mut text = Vec::from_slice(alloc, b"value")?;
    push_number_word(&mut text, value.bytes().len() as u64)?;
    push_stamp(&mut text, stamp)?;
    text.push(b'\n')?;
    text.extend_from_slice(value.bytes())?;
    Ok(Blob::of(text))
}

/// The line that tells how many superseded versions were deleted.
fn collected_line(alloc: Global, count: u32) -> Result<Blob, NoMemory>
    ensures { IfOk result (λ text. text ≡ collected_line count) }
{
    let mut line = Vec::from_slice(alloc, b"collected")?;
    push_number_word(&mut line, count.into())?;
    line.push(b'\n')?;
    Ok(Blob::of(line))
}
