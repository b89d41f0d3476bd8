//! Reading a schedule, line by line.

ghost use Rattle.std.specs.Prelude.{◌≡◌, IfOk};
ghost use Rattle.hy_base.specs.declared.fault.TextError.TheVariants as errors;
ghost use Rattle.hy_base.specs.declared.fault.TextFault.{TextFault};
ghost use Rattle.hy_text.specs.Gives.{GivesText};
ghost use Rattle.hy_sched.specs.Ranges.{IsSchedule};
ghost use Rattle.hy_sched.specs.Reading.{schedule_of};
ghost use Rattle.hy_sched.specs.Text.{IsScheduleText, schedule_text};
ghost use Rattle.hy_sched.specs.declared.schedule.Schedule.{Schedule};

use crate::event::Events;
use crate::event_line::EventLines;
use crate::header_line::HeaderLine;
use crate::schedule::Schedule;
use hy_base::{Cause, TextError};
use hy_text::{Cursor, read_line, read_lines};
use std::alloc::Global;

/// The schedule that the text is.
///
/// A fault names the first line that does not fit, counted from 1, and its cause: on the first line
/// the first of `NoHeader` and `BadParams`; on the line of an event `TooManyLines` before the cause
/// of the first word from the left that does not fit, and `TooManyOpen` after it; last on each
/// line, `NoLineEnd`.
pub fn read_schedule(alloc: Global, text: &[u8]) -> Result<Schedule, TextError>
    // Which schedule, or which fault: the first of the text.
    ensures exact { GivesText result (schedule_of text.now) }
    // What is read is the text of a schedule within the limits.
    ensures found { IfOk result
        (λ schedule. IsSchedule schedule × (text.now ≡ schedule_text schedule)) }
    // The text of a schedule within the limits is read, unless memory runs out.
    ensures only { (schedule : Schedule) → IsSchedule schedule → text.now ≡ schedule_text schedule →
        GivesText result (Ok schedule) }
    // The text of a schedule within the limits has no fault.
    ensures refused { (fault : TextFault) → result ≡ Err (errors.Fault fault) →
        ¬ IsScheduleText text.now }
{
    read_text(alloc, text)
}

/// The schedule of the text, or its first fault.
#[tactic(auto, unfolding(crate::specs::Reading::schedule_of, crate::specs::Reading::schedule_at))]
fn read_text(alloc: Global, text: &[u8]) -> Result<Schedule, TextError>
    ensures { GivesText result (schedule_of text.now) }
{
    let mut cursor = Cursor::of(text);
    let params = read_line(alloc, &mut HeaderLine {}, &mut cursor, Cause::NoHeader)?;
    let events = Events::of(read_lines(alloc, &mut EventLines::of(params), &mut cursor)?);
    Ok(Schedule { params, events })
}
