//! What is told of the run of a schedule that was made.

ghost use Rattle.std.specs.Prelude.{◌≡◌, IfOk, OnOk, ◌++◌, ◌∷◌, []};
ghost use Rattle.std.specs.Fmt.{decimal};
ghost use Rattle.hy_text.specs.Line.{spaced};
ghost use Rattle.hy_make.specs.Making.{summary_text};

use hy_base::{Blob, NoMemory};
use hy_text::{push_number_word, push_word};
use std::alloc::Global;

/// Counts of the run of a schedule that was made.
#[derive(Clone, Copy, Debug, PartialEq, Eq)]
pub struct Summary {
    /// The events that were drawn.
    pub events: u32,
    /// The steps, with those by which the clients joined.
    pub steps: u64,
    /// The operations that began.
    pub operations: u64,
    /// The operations with a reply.
    pub finished: u64,
    /// The keys that a put, get or delete named; each has an order.
    pub keys: u64,
    /// The orders that are legal.
    pub legal: u64,
}

/// The line of the summary.
pub fn summary_line(alloc: Global, summary: &Summary) -> Result<Blob, NoMemory>
    ensures { IfOk result (λ line. line ≡ summary_text summary.now) }
{
    let mut line = Vec::from_slice(alloc, b"made")?;
    push_number_word(&mut line, u64::from(summary.events))?;
    push_count(&mut line, b"steps", summary.steps)?;
    push_count(&mut line, b"ops", summary.operations)?;
    push_count(&mut line, b"finished", summary.finished)?;
    push_count(&mut line, b"keys", summary.keys)?;
    push_count(&mut line, b"legal", summary.legal)?;
    line.push(b'\n')?;
    Ok(Blob::of(line))
}

/// Appends the name of a count and the count.
fn push_count(line: &mut Vec<u8>, name: &[u8], count: u64) -> Result<(), NoMemory>
    ensures { OnOk result (line.new.items ≡ line.old.items ++ spaced (name.now ∷ decimal count ∷ [])) }
{
    push_word(line, name)?;
    push_number_word(line, count)
}
