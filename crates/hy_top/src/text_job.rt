//! What each command on a text makes of it.

ghost use Rattle.std.specs.Prelude.{◌≤◌, length};
ghost use Rattle.hy_base.specs.declared.limits.TheConstants.{MAX_INPUT};
ghost use Rattle.hy_top.specs.Check.{Checks};
ghost use Rattle.hy_top.specs.Job.{Makes};
ghost use Rattle.hy_top.specs.Replay.{Replays};

use crate::keep::keep_frames;
use crate::line::legal_line;
use crate::status::Status;
use hy_base::Blob;
use hy_order::{first_illegal, read_report, write_report};
use hy_sched::read_schedule;
use hy_words::TextCommand;
use hy_world::replay;
use std::alloc::Global;

/// What the command makes of the text: its output, or why it is refused.
pub(crate) fn output_on(alloc: Global, command: TextCommand, text: Blob) -> Result<Blob, Status>
    requires { length text ≤ MAX_INPUT }
    ensures { Makes command text result }
{
    match command {
        TextCommand::Replay => replay_text(alloc, text),
        TextCommand::Check => check_text(alloc, text),
        TextCommand::Keep { stop } => keep_frames(alloc, stop, text),
    }
}

/// The report of the schedule that the text is.
fn replay_text(alloc: Global, text: Blob) -> Result<Blob, Status>
    ensures { Replays text result }
{
    let schedule = read_schedule(alloc, text.bytes())?;
    drop(text);
    let report = replay(alloc, &schedule)?;
    drop(schedule);
    Ok(write_report(alloc, &report)?)
}

/// How many orders the report has that the text is, all of them legal.
fn check_text(alloc: Global, text: Blob) -> Result<Blob, Status>
    ensures { Checks text result }
{
    let report = read_report(alloc, text.bytes())?;
    drop(text);
    match first_illegal(alloc, &report)? {
        Some((key, verdict)) => Err(Status::Illegal(key, verdict)),
        None => Ok(legal_line(alloc, report.orders.items().len())?),
    }
}
