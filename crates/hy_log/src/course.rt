//! The course of an operation: what has become of it since it began.

ghost use Rattle.std.specs.Prelude.{◌≡◌};
ghost use Rattle.hy_log.specs.Courses.{fresh, noted, is_newer};

use hy_record::{Reply, Stamp};

/// When an operation replied, and what.
#[derive(Debug, Drop)]
pub struct Returned {
    pub at: u64,
    pub reply: Reply,
}

/// The first update or judged swap of an operation that the service served: the step of that,
/// whether it was applied, and the timestamp of the record of its key just before; (0, 0) where there
/// was none.
#[derive(Clone, Copy, Debug)]
pub struct FirstUpdate {
    pub at: u64,
    pub is_applied: bool,
    pub found: Stamp,
}

/// What has become of an operation.
#[derive(Debug, Drop)]
pub struct Course {
    /// Its reply.
    pub returned: Option<Returned>,
    /// The timestamp of the record that it was told first.
    pub first: Option<Stamp>,
    /// The step at which the answer was made that told it so; 0 where there is none.
    pub first_made: u64,
    /// The greatest timestamp of a record that it was told.
    pub version: Option<Stamp>,
    /// The step at which the answer was made that told it so first; 0 where there is none.
    pub made: u64,
    /// Its first update or judged swap that was served.
    pub updated: Option<FirstUpdate>,
    /// Whether an update or a swap of it was applied.
    pub is_applied: bool,
}

/// What an operation meets.
#[derive(Debug, Drop)]
pub(crate) enum News {
    /// It was told the record: its timestamp, and the step at which the answer was made.
    Heard {
        stamp: Stamp,
        made: u64,
    },
    /// It replied, at this step.
    Replied {
        at: u64,
        reply: Reply,
    },
    /// The service served its update or judged its swap at this step, and applied it or refused it;
    /// the record of its key had this timestamp before.
    Updated {
        at: u64,
        is_applied: bool,
        found: Stamp,
    },
}

impl Course {
    /// Nothing has become of it.
    pub(crate) fn new() -> Course
        ensures { result ≡ fresh }
    {
        Course {
            returned: None,
            first: None,
            first_made: 0,
            version: None,
            made: 0,
            updated: None,
            is_applied: false,
        }
    }

    /// Notes what the operation meets.
    pub(crate) fn note(&mut self, news: News)
        ensures { self.new ≡ noted news self.old }
    {
        match news {
            News::Heard { stamp, made } => self.hear(stamp, made),
            News::Replied { at, reply } => self.returned = Some(Returned { at, reply }),
            News::Updated {
                at,
                is_applied,
                found,
            } => self.update(at, is_applied, found),
        }
    }

    /// Notes that it was told the record.
    fn hear(&mut self, stamp: Stamp, made: u64)
        ensures { self.new ≡ noted (News.Heard stamp made) self.old }
    {
        if self.first.is_none() {
            self.first = Some(stamp);
            self.first_made = made;
        }
        if is_newer(&self.version, &stamp) {
            self.version = Some(stamp);
            self.made = made;
        }
    }

    /// Notes that its update was served.
    fn update(&mut self, at: u64, is_applied: bool, found: Stamp)
        ensures { self.new ≡ noted (News.Updated at is_applied found) self.old }
    {
        if self.updated.is_none() {
            self.updated = Some(FirstUpdate {
                at,
                is_applied,
                found,
            });
        }
        self.is_applied = is_applied || self.is_applied;
    }
}

/// Whether the timestamp is above the one known, or none is known.
fn is_newer(known: &Option<Stamp>, stamp: &Stamp) -> bool
    ensures { result ≡ is_newer known.now stamp.now }
{
    match known {
        Some(known) => known.is_below(stamp),
        None => true,
    }
}
