//! Where an operation stands in the order of its key.

ghost use Rattle.std.specs.Prelude.{◌≡◌};
ghost use Rattle.hy_log.specs.Orders.{
  changed_place,
  found_changed,
  is_done,
  judged_at,
  listed_place,
  read_place,
  swap_place,
  write_place,
};

use crate::course::{Course, FirstUpdate, Returned};
use crate::effects::Beginning;
use hy_record::{Action, Reply, Stamp};

/// The place of an operation among those of its key.
#[derive(Clone, Copy, Debug, PartialEq, Eq, PartialOrd, Ord)]
pub(crate) struct Place {
    /// The timestamp that it wrote or found.
    pub(crate) stamp: Stamp,
    /// The step at which a read found it; 0 for a write.
    pub(crate) made: u64,
}

/// The place of an operation of this course, if an order of its key lists it.
pub(crate) fn listed_place(beginning: &Beginning, course: &Course) -> Option<Place>
    ensures { result ≡ listed_place beginning.now course.now }
{
    match &beginning.action {
        Action::Put { .. } | Action::Delete { .. } => write_place(beginning.client, course),
        Action::Get { .. } => read_place(course),
        Action::Collect { .. } => None,
        Action::Swap { .. } => swap_place(beginning.client, course),
    }
}

/// The place of a write: it is listed where it did what was asked or its update was applied.
fn write_place(client: u32, course: &Course) -> Option<Place>
    ensures { result ≡ write_place client course.now }
{
    if !(course.is_applied || is_done(&course.returned)) {
        return None;
    }
    let stamp = course.first?.after(client)?;
    Some(Place { stamp, made: 0 })
}

/// Whether it is the reply of a put, a delete or a swap that did what was asked.
fn is_done(returned: &Option<Returned>) -> bool
    ensures { result ≡ is_done returned.now }
{
    match returned {
        Some(returned) => matches!(returned.reply, Reply::Done(_) | Reply::Swapped(_)),
        None => false,
    }
}

/// The place of a get: it is listed where it finished.
fn read_place(course: &Course) -> Option<Place>
    ensures { result ≡ read_place course.now }
{
    match &course.returned {
        Some(returned) => match &returned.reply {
            Reply::Value(_, stamp) | Reply::Absent(stamp) => Some(Place {
                stamp: *stamp,
                made: course.made,
            }),
            Reply::Done(_)
            | Reply::Exhausted(_)
            | Reply::Collected(_)
            | Reply::Swapped(_)
            | Reply::Changed(_) => None,
        },
        None => None,
    }
}

/// The place of a swap: where it found another record it is listed as a read, else as a write.
fn swap_place(client: u32, course: &Course) -> Option<Place>
    ensures { result ≡ swap_place client course.now }
{
    match changed_place(course) {
        Some(place) => Some(place),
        None => write_place(client, course),
    }
}

/// The place of a swap that found another record.
fn changed_place(course: &Course) -> Option<Place>
    ensures { result ≡ changed_place course.now }
{
    match &course.returned {
        Some(returned) => found_changed(judged_at(course), &returned.reply),
        None => None,
    }
}

/// The place of a swap that found another record at this step.
fn found_changed(step: u64, reply: &Reply) -> Option<Place>
    ensures { result ≡ found_changed step reply.now }
{
    match reply {
        Reply::Changed(stamp) => Some(Place {
            stamp: *stamp,
            made: step,
        }),
        Reply::Value(..)
        | Reply::Absent(_)
        | Reply::Done(_)
        | Reply::Swapped(_)
        | Reply::Exhausted(_)
        | Reply::Collected(_) => None,
    }
}

/// The step at which a swap was judged, or else at which its answer was made.
fn judged_at(course: &Course) -> u64
    ensures { result ≡ judged_at course.now }
{
    match course.updated {
        Some(FirstUpdate { at, .. }) => at,
        None => course.made,
    }
}
