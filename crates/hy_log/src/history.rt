//! The history of a run: its operations, with how each ended or how far it is.

ghost use Rattle.std.specs.Prelude.{◌≡◌, ◌+◌, ◌-◌, List, None, slice_index_or, IfOk};
ghost use Rattle.hy_trace.specs.Deeds.{Params as TraceParams, Deed};
ghost use Rattle.hy_trace.specs.History.{history_of};
ghost use Rattle.hy_trace.specs.Trace.{IsTrace};
ghost use Rattle.hy_log.specs.Courses.{course_at};
ghost use Rattle.hy_log.specs.History.{
  AreRunning,
  first_progress,
  told_end,
  told_from,
  told_operation,
};
ghost use Rattle.hy_log.specs.Log.{Keeps};

use crate::copies::{copy_of_action, copy_of_reply};
use crate::course::Course;
use crate::log::{Log, Started};
use hy_base::NoMemory;
use hy_operation::Progress;
use hy_order::{End, Operation};
use hy_record::{Action, Phase};
use std::alloc::Global;

impl Log {
    /// The operations in the order in which they began, numbered from 1.
    ///
    /// `running` tells how far the running operation of each client is, client 1 first. More than
    /// 4,294,967,295 operations are refused as want of memory.
    pub fn history(
        &self,
        alloc: Global,
        running: &[Option<Progress>],
    ) -> Result<Vec<Operation>, NoMemory>
        ensures { IfOk result (λ operations. (p : TraceParams) (t : List Deed) →
            IsTrace p t → Keeps self.now p t → AreRunning p t running.now
            → operations.items ≡ history_of p t) }
    {
        let operations = self.operations(alloc, running)?;
        Ok(operations)
    }

    /// The operations in the order in which they began, as the log tells them.
    fn operations(
        &self,
        alloc: Global,
        running: &[Option<Progress>],
    ) -> Result<Vec<Operation>, NoMemory>
        ensures { IfOk result (λ operations. operations.items
            ≡ told_from self.now.courses running.now 1 self.now.starts.items) }
    {
        let mut operations = Vec::new(alloc);
        for started in &self.starts {
            let number = number_after(operations.len())?;
            operations.push(self.operation(alloc, number, started, running)?)?;
        }
        Ok(operations)
    }

    /// The operation of this number.
    fn operation(
        &self,
        alloc: Global,
        number: u32,
        started: &Started,
        running: &[Option<Progress>],
    ) -> Result<Operation, NoMemory>
        ensures { IfOk result (λ operation. operation
            ≡ told_operation self.now.courses running.now number started.now) }
    {
        let beginning = &started.beginning;
        let client = beginning.client;
        let progress = running_of(running, client);
        let end = match self.courses.get(client, beginning.op) {
            Some(course) => end_of(alloc, course, progress, &beginning.action)?,
            None => pending(progress, &beginning.action),
        };
        let action = copy_of_action(alloc, &beginning.action)?;
        Ok(Operation {
            number,
            client,
            action,
            invoked: started.step,
            end,
        })
    }
}

/// The number of the operation after so many.
pub(crate) fn number_after(count: usize) -> Result<u32, NoMemory>
    ensures { IfOk result (λ number. number ≡ count + 1) }
{
    if count >= u32::MAX as usize {
        return Err(NoMemory);
    }
    Ok(count as u32 + 1)
}

/// How an operation of this course ended, or how far it is.
fn end_of(
    alloc: Global,
    course: &Course,
    progress: Option<Progress>,
    action: &Action,
) -> Result<End, NoMemory>
    ensures { IfOk result (λ end. end ≡ told_end course.now.returned progress action.now) }
{
    match &course.returned {
        Some(returned) => {
            let reply = copy_of_reply(alloc, &returned.reply)?;
            Ok(End::Replied {
                at: returned.at,
                reply,
            })
        }
        None => Ok(pending(progress, action)),
    }
}

/// How far a running operation is; where that is not told, it is where it began.
fn pending(progress: Option<Progress>, action: &Action) -> End
    ensures { result ≡ told_end None progress action.now }
{
    let Progress { phase, have, need } = match progress {
        Some(progress) => progress,
        None => first_progress(action),
    };
    End::Pending { phase, have, need }
}

/// How far the running operation of the client is, where that is told.
fn running_of(running: &[Option<Progress>], client: u32) -> Option<Progress>
    ensures { result ≡ slice_index_or running.now (client - 1) None }
{
    match running.get(client.saturating_sub(1) as usize) {
        Some(progress) => *progress,
        None => None,
    }
}

/// How far an operation is that has just begun: it awaits one answer of the service.
fn first_progress(action: &Action) -> Progress
    ensures { result ≡ first_progress action.now }
{
    let phase = match action {
        Action::Collect { .. } => Phase::Olds,
        Action::Put { .. } | Action::Get { .. } | Action::Delete { .. } | Action::Swap { .. } =>
            Phase::Read,
    };
    Progress {
        phase,
        have: 0,
        need: 1,
    }
}
