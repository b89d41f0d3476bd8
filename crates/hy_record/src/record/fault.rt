//! What is wrong with bytes that spell no record.

ghost use Rattle.std.specs.Prelude.{◌≡◌};
ghost use Rattle.hy_record.specs.declared.record.fault.RecordFault.TheVariants as faults;

use hy_base::NoMemory;
use std::alloc::{AllocError, AllocFailed};

/// The first fault of bytes that spell no record, judged in order of place.
#[derive(Clone, Copy, Debug, PartialEq, Eq)]
pub enum RecordFault {
    /// The bytes, of which there are so many, end before a field is whole.
    Short(usize),
    /// The first byte is this one, and not the version that is read.
    BadVersion(u8),
    /// The second byte is this one, which names no kind.
    BadKind(u8),
    /// The field at this place breaks its rule.
    BadShape(usize),
    /// Bytes stand after the last field, from this place on.
    Extra(usize),
    /// Memory ran out.
    NoMemory,
}

impl From<NoMemory> for RecordFault {
    ghost from_gives = { λ _ e. e ≡ faults.NoMemory };

    fn from(_e: NoMemory) -> RecordFault {
        RecordFault::NoMemory
    }
}

impl From<AllocError> for RecordFault {
    ghost from_gives = { λ _ e. e ≡ faults.NoMemory };

    fn from(_e: AllocError) -> RecordFault {
        RecordFault::NoMemory
    }
}

impl<T: Drop> From<AllocFailed<T>> for RecordFault {
    ghost from_gives = { λ _ e. e ≡ faults.NoMemory };

    fn from(_e: AllocFailed<T>) -> RecordFault {
        RecordFault::NoMemory
    }
}
