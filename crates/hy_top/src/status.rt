//! How a run of the program ends.

ghost use Rattle.std.specs.Prelude.{◌≡◌};
ghost use Rattle.hy_top.specs.Keep.{status_of_requests};
ghost use Rattle.hy_top.specs.Status.{status_of_driving, status_of_reading, status_of_serving, status_of_text};
ghost use Rattle.hy_top.specs.declared.status.Status.TheVariants as statuses;

use hy_base::{NoMemory, ReadAllFault, TextError, TextFault};
use hy_drive::DriveFault;
use hy_journal::RequestsFault;
use hy_order::Verdict;
use hy_record::{Key, Stamp};
use hy_serve::ServeFault;

/// How a run of the program ends. Each but Done, WriteFault and NoMemory is a refusal: a line tells it.
#[derive(Clone, Copy, Debug, PartialEq, Eq)]
pub enum Status {
    /// The job was done and its output was written.
    Done,
    /// The input is not in the grammar; its first bad line.
    BadInput(TextFault),
    /// The words are no command.
    BadWords,
    /// All arrivals were taken and there is no reply: what the operation has, and what it needs.
    NotYet { have: u32, need: u32 },
    /// The input could not be read.
    ReadFault,
    /// The output could not be written: a front of what was due was.
    WriteFault,
    /// The net failed: a server could not listen, no arrival could be taken, or the metadata's server
    /// could not be reached.
    NetFault,
    /// Memory ran out; nothing was written.
    NoMemory,
    /// The input has more than 16,777,216 bytes.
    TooLong,
    /// The report has an illegal order: the key of the first, and the verdict on it.
    Illegal(Key, Verdict),
    /// The key's record has the last timestamp that there is, this one: nothing was changed.
    Exhausted(Stamp),
    /// The input of a put has so many bytes, more than the 1,048,576 of a value.
    TooLarge(u64),
    /// The metadata's server has no session left.
    SessionsFull,
    /// The input is not frames of requests: the place of the first that is none.
    BadFrames(u64),
}

impl Status {
    ghost use Rattle.hy_top.specs.Status.{exit_code};

    /// The exit status of the program.
    pub fn code(&self) -> u8
        ensures { result ≡ exit_code self.now }
    {
        match self {
            Status::Done => 0,
            Status::BadInput(_) => 1,
            Status::BadWords => 2,
            Status::NotYet { .. } => 3,
            Status::ReadFault => 4,
            Status::WriteFault => 5,
            Status::NetFault => 6,
            Status::NoMemory => 7,
            Status::TooLong => 8,
            Status::Illegal(..) => 9,
            Status::Exhausted(_) => 10,
            Status::TooLarge(_) => 11,
            Status::SessionsFull => 12,
            Status::BadFrames(_) => 13,
        }
    }
}

impl From<NoMemory> for Status {
    ghost from_gives = { λ _ status. status ≡ statuses.NoMemory };

    fn from(_e: NoMemory) -> Status {
        Status::NoMemory
    }
}

impl From<ReadAllFault> for Status {
    ghost from_gives = { λ fault status. status ≡ status_of_reading fault };

    fn from(fault: ReadAllFault) -> Status {
        match fault {
            ReadAllFault::ReadFault => Status::ReadFault,
            ReadAllFault::TooLong => Status::TooLong,
            ReadAllFault::NoMemory => Status::NoMemory,
        }
    }
}

impl From<TextError> for Status {
    ghost from_gives = { λ error status. status ≡ status_of_text error };

    fn from(error: TextError) -> Status {
        match error {
            TextError::Fault(fault) => Status::BadInput(fault),
            TextError::NoMemory => Status::NoMemory,
        }
    }
}

impl From<RequestsFault> for Status {
    ghost from_gives = { λ fault status. status ≡ status_of_requests fault };

    fn from(fault: RequestsFault) -> Status {
        match fault {
            RequestsFault::BadFrame(place) => Status::BadFrames(place),
            RequestsFault::NoMemory => Status::NoMemory,
        }
    }
}

impl From<ServeFault> for Status {
    ghost from_gives = { λ fault status. status ≡ status_of_serving fault };

    fn from(fault: ServeFault) -> Status {
        match fault {
            ServeFault::NetFault => Status::NetFault,
            ServeFault::NoMemory => Status::NoMemory,
        }
    }
}

impl From<DriveFault> for Status {
    ghost from_gives = { λ fault status. status ≡ status_of_driving fault };

    fn from(fault: DriveFault) -> Status {
        match fault {
            DriveFault::NetFault => Status::NetFault,
            DriveFault::SessionsFull => Status::SessionsFull,
            DriveFault::TooLarge(size) => Status::TooLarge(size as u64),
            DriveFault::NotYet { have, need } => Status::NotYet { have, need },
            DriveFault::NoMemory => Status::NoMemory,
        }
    }
}
