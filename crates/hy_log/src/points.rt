//! The points of a run: the moments that decide the orders of its operations.

ghost use Rattle.std.specs.Prelude.{◌≡◌, List, map, IfOk};
ghost use Rattle.hy_points.specs.Atomic.{IsAtomicLog, AsksOnce};
ghost use Rattle.hy_points.specs.Marks.{sorted_by};
ghost use Rattle.hy_trace.specs.Deeds.{Params as TraceParams, Deed};
ghost use Rattle.hy_trace.specs.Trace.{IsTrace};
ghost use Rattle.hy_log.specs.Log.{Keeps};
ghost use Rattle.hy_log.specs.Courses.{course_at};
ghost use Rattle.hy_log.specs.RunOrders.{OrdersRun};
ghost use Rattle.hy_log.specs.Points.{
  moments_from,
  operation_moments,
  acting_moments,
  point_at,
  points_of,
  step_cmp,
};

use crate::course::Course;
use crate::history::number_after;
use crate::log::{Log, Started};
use crate::moment::{Moment, act_kind, ask_moment, begin_moment, end_moment, set_moment};
use hy_base::NoMemory;
use hy_points::{ActKind, Point, PointLog};
use hy_record::Key;
use std::alloc::Global;

impl Log {
    /// The points of the puts, gets, deletes and swaps, in the order of their steps: an atomic log in
    /// which no operation reads twice, by which the orders are those of the run's report.
    ///
    /// It takes time n log n in the operations. More than 4,294,967,295 of them are refused as want of
    /// memory.
    pub fn points(&self, alloc: Global) -> Result<PointLog, NoMemory>
        ensures points { IfOk result (λ points. (p : TraceParams) (t : List Deed) →
            IsTrace p t → Keeps self.now p t → points ≡ points_of p t) }
        ensures atomic { IfOk result (λ points. (p : TraceParams) (t : List Deed) →
            IsTrace p t → Keeps self.now p t → IsAtomicLog points) }
        ensures once { IfOk result (λ points. (p : TraceParams) (t : List Deed) →
            IsTrace p t → Keeps self.now p t → AsksOnce points) }
        ensures order { IfOk result (λ points. (p : TraceParams) (t : List Deed) →
            IsTrace p t → Keeps self.now p t → OrdersRun p t points) }
    {
        let moments = self.moments(alloc)?;
        let sorted = in_order(moments)?;
        let points = points_at(alloc, &sorted)?;
        Ok(PointLog::of(points))
    }

    /// The moments of the operations.
    fn moments(&self, alloc: Global) -> Result<Vec<Moment>, NoMemory>
        ensures { IfOk result (λ moments. moments.items
            ≡ moments_from self.now.courses 1 self.now.starts.items) }
    {
        let mut moments = Vec::new(alloc);
        for (index, started) in self.starts.iter().enumerate() {
            let number = number_after(index)?;
            let mut own = self.operation_moments(alloc, number, started)?;
            moments.append(&mut own)?;
        }
        Ok(moments)
    }

    /// The moments of an operation.
    fn operation_moments(
        &self,
        alloc: Global,
        number: u32,
        started: &Started,
    ) -> Result<Vec<Moment>, NoMemory>
        ensures { IfOk result (λ own. own.items
            ≡ operation_moments self.now.courses number started.now) }
    {
        let Some((key, act)) = act_kind(&started.beginning.action) else {
            return Ok(Vec::new(alloc));
        };
        match self
            .courses
            .get(started.beginning.client, started.beginning.op)
        {
            Some(course) => acting_moments(alloc, number, started, key, act, course),
            None => acting_moments(alloc, number, started, key, act, &Course::new()),
        }
    }
}

/// The moments of a put, a get, a delete or a swap of this course.
fn acting_moments(
    alloc: Global,
    number: u32,
    started: &Started,
    key: Key,
    act: ActKind,
    course: &Course,
) -> Result<Vec<Moment>, NoMemory>
    ensures { IfOk result (λ own. own.items ≡ acting_moments number started.now (key, act) course.now) }
{
    let later = [
        ask_moment(number, &act, course),
        set_moment(number, started.beginning.client, &act, course),
        end_moment(number, course),
    ];
    let mut own = Vec::new(alloc);
    own.push(begin_moment(number, started, key, act))?;
    for moment in &later {
        if let Some(moment) = moment {
            own.push(*moment)?;
        }
    }
    Ok(own)
}

/// The moments by their steps.
fn in_order(moments: Vec<Moment>) -> Result<Vec<Moment>, NoMemory>
    ensures { IfOk result (λ sorted. sorted.items ≡ sorted_by step_cmp moments.items) }
{
    let mut sorted = moments;
    sorted.sort_by_key(|moment| moment.step)?;
    Ok(sorted)
}

/// The points of the moments.
fn points_at(alloc: Global, moments: &[Moment]) -> Result<Vec<Point>, NoMemory>
    ensures { IfOk result (λ points. points.items ≡ map point_at moments.now) }
{
    let mut points = Vec::new(alloc);
    for moment in moments {
        points.push(moment.point)?;
    }
    Ok(points)
}
