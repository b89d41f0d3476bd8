//! What came of a schedule that is made.

ghost use Rattle.std.specs.Prelude.{◌≤◌};
ghost use Rattle.hy_base.specs.declared.limits.TheConstants.{MAX_MADE};
ghost use Rattle.hy_top.specs.Make.{MakesSummary};

use crate::status::Status;
use hy_base::Blob;
use hy_make::{summary_line, summary_of};
use std::alloc::Global;

/// The line of what came of the schedule of the seed with so many drawn events.
pub(crate) fn made_line(alloc: Global, seed: u64, events: u32) -> Result<Blob, Status>
    requires { events ≤ MAX_MADE }
    ensures { MakesSummary seed events result }
{
    let summary = summary_of(alloc, seed, events)?;
    Ok(summary_line(alloc, &summary)?)
}
