//! How far a put is, and what it keeps until then.

ghost use Rattle.hy_record.specs.Stamp.{IsWritten};

use hy_operation::{Marks, Progress};
use hy_record::{Record, Stamp};

/// The write's timestamp, and the clouds that acknowledged their fragments of it.
#[derive(Clone, Copy, Debug)]
pub(crate) struct Storing {
    pub(crate) stamp: Stamp,
    pub(crate) acked: Marks,
    ghost written: { IsWritten stamp },
}

/// How far a put is.
#[derive(Debug, Drop)]
pub(crate) enum State {
    /// It awaits the record.
    Reading,
    /// It awaits the clouds that store the value.
    Storing(Storing),
    /// It awaits the update to this record.
    Updating(Record),
    /// It has its reply; it was so far then.
    Replied(Progress),
}
