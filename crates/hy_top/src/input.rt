//! The input of a command, read to its end.

ghost use Rattle.std.specs.Prelude.{◌≤◌};
ghost use Rattle.hy_base.specs.Source.{source_use};
ghost use Rattle.hy_top.specs.Input.{ReadsInput};
ghost use Rattle.hy_top.specs.Operate.{ReadsValue};

use crate::status::Status;
use hy_base::{Blob, MAX_INPUT, MAX_VALUE, Source, read_all};
use std::alloc::Global;

/// The input.
pub(crate) fn read_input<S: Source>(alloc: Global, input: &mut S) -> Result<Blob, Status>
    ensures input { ReadsInput (source_use S.left S.faults input.old input.new) result }
    ensures reads { S.faults input.old ≤ S.faults input.new }
{
    Ok(read_all(alloc, input, MAX_INPUT)?)
}

/// The input, as a value.
pub(crate) fn read_value<S: Source>(alloc: Global, input: &mut S) -> Result<Blob, Status>
    ensures value { ReadsValue (source_use S.left S.faults input.old input.new) result }
    ensures reads { S.faults input.old ≤ S.faults input.new }
{
    let value = read_input(alloc, input)?;
    let size = value.bytes().len();
    if size > MAX_VALUE as usize {
        return Err(Status::TooLarge(size as u64));
    }
    Ok(value)
}
