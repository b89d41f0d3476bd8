//! What the effects of a deed mean for the courses of operations.

ghost use Rattle.std.specs.Prelude.{◌≡◌};
ghost use Rattle.hy_log.specs.Courses.{note_of_heard, note_of_return, note_of_update};

use crate::course::News;
use crate::effects::{Heard, Return, Updated};

/// What an operation of a client meets.
#[derive(Debug, Drop)]
pub(crate) struct Note {
    pub(crate) client: u32,
    pub(crate) op: u32,
    pub(crate) news: News,
}

/// What an operation meets where it is told the record.
pub(crate) fn note_of_heard(heard: Option<Heard>) -> Option<Note>
    ensures { result ≡ note_of_heard heard }
{
    let Heard {
        client,
        op,
        stamp,
        made,
    } = heard?;
    let news = News::Heard { stamp, made };
    Some(Note { client, op, news })
}

/// What an operation meets where it replies, at this step.
pub(crate) fn note_of_return(at: u64, returned: Option<Return>) -> Option<Note>
    ensures { result ≡ note_of_return at returned }
{
    let Return { client, op, reply } = returned?;
    let news = News::Replied { at, reply };
    Some(Note { client, op, news })
}

/// What an operation meets where its update is served, at this step.
pub(crate) fn note_of_update(at: u64, updated: Option<Updated>) -> Option<Note>
    ensures { result ≡ note_of_update at updated }
{
    let Updated {
        client,
        op,
        is_applied,
        found,
    } = updated?;
    let news = News::Updated {
        at,
        is_applied,
        found,
    };
    Some(Note { client, op, news })
}
