//! The points of an operation, each with its step.

ghost use Rattle.std.specs.Prelude.{◌≡◌};
ghost use Rattle.hy_log.specs.Points.{
  act_kind,
  ask_at,
  ask_moment,
  begin_moment,
  end_moment,
  own_by,
  set_at,
  set_moment,
  try_at,
};

use crate::course::{Course, FirstUpdate};
use crate::log::Started;
use hy_points::{ActKind, Point};
use hy_record::{Action, Key, Stamp};

/// A point of an operation, and its step.
#[derive(Clone, Copy, Debug)]
pub(crate) struct Moment {
    pub(crate) step: u64,
    pub(crate) point: Point,
}

/// What a put, a get, a delete or a swap does to the register of its key, and the key.
pub(crate) fn act_kind(action: &Action) -> Option<(Key, ActKind)>
    ensures { result ≡ act_kind action.now }
{
    match action {
        Action::Put { key, .. } => Some((*key, ActKind::Put)),
        Action::Get { key } => Some((*key, ActKind::Get)),
        Action::Delete { key } => Some((*key, ActKind::Delete)),
        Action::Swap { key, expected, .. } => Some((*key, ActKind::Swap(*expected))),
        Action::Collect { .. } => None,
    }
}

/// Its beginning.
pub(crate) fn begin_moment(op: u32, started: &Started, key: Key, act: ActKind) -> Moment
    ensures { result ≡ begin_moment op started.now key act }
{
    let client = started.beginning.client;
    Moment {
        step: started.step,
        point: Point::Begin {
            op,
            client,
            key,
            act,
        },
    }
}

/// The reading that gave a get its version, a write its timestamp, and a swap its first answer.
pub(crate) fn ask_moment(op: u32, act: &ActKind, course: &Course) -> Option<Moment>
    ensures { result ≡ ask_moment op act.now course.now }
{
    match act {
        ActKind::Get => ask_at(op, course.made, course.version),
        ActKind::Put | ActKind::Delete | ActKind::Swap(_) => {
            ask_at(op, course.first_made, course.first)
        }
    }
}

/// A reading at this step, if something was found.
fn ask_at(op: u32, step: u64, found: Option<Stamp>) -> Option<Moment>
    ensures { result ≡ ask_at op step found }
{
    let found = found?;
    Some(Moment {
        step,
        point: Point::Ask { op, found },
    })
}

/// The first update of a write that was served, or the judged swap.
pub(crate) fn set_moment(op: u32, client: u32, act: &ActKind, course: &Course) -> Option<Moment>
    ensures { result ≡ set_moment op client act.now course.now }
{
    match act {
        ActKind::Get => None,
        ActKind::Put | ActKind::Delete => set_at(op, own_stamp(client, course), course.updated),
        ActKind::Swap(_) => try_at(op, own_stamp(client, course), course.updated),
    }
}

/// The timestamp that an operation writes: the next of its client above the first that it was told.
fn own_stamp(client: u32, course: &Course) -> Option<Stamp>
    ensures { result ≡ own_by client course.now.first }
{
    let first = course.first?;
    first.after(client)
}

/// The update of a write that was served.
fn set_at(op: u32, stamp: Option<Stamp>, updated: Option<FirstUpdate>) -> Option<Moment>
    ensures { result ≡ set_at op stamp updated }
{
    let FirstUpdate { at, is_applied, .. } = updated?;
    let stamp = stamp?;
    Some(Moment {
        step: at,
        point: Point::Set {
            op,
            stamp,
            applied: is_applied,
        },
    })
}

/// The swap that was judged.
fn try_at(op: u32, stamp: Option<Stamp>, updated: Option<FirstUpdate>) -> Option<Moment>
    ensures { result ≡ try_at op stamp updated }
{
    let FirstUpdate { at, found, .. } = updated?;
    let stamp = stamp?;
    Some(Moment {
        step: at,
        point: Point::Try { op, stamp, found },
    })
}

/// Its return.
pub(crate) fn end_moment(op: u32, course: &Course) -> Option<Moment>
    ensures { result ≡ end_moment op course.now }
{
    match &course.returned {
        Some(returned) => Some(Moment {
            step: returned.at,
            point: Point::End { op },
        }),
        None => None,
    }
}
