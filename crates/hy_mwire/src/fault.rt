//! What is wrong with a stream that is not one of frames.

ghost use Rattle.std.specs.Prelude.{◌≡◌};
ghost use Rattle.hy_mwire.specs.declared.fault.FrameFault.TheVariants as faults;

use hy_base::NoMemory;
use std::alloc::{AllocError, AllocFailed};

/// Why a stream ends in the middle. A place is the number of bytes before the frame.
///
/// A place beyond 18,446,744,073,709,551,615 is named by that number.
#[derive(Clone, Copy, Debug, PartialEq, Eq)]
pub enum FrameFault {
    /// The frame says that it has so many bytes, more than a frame may have.
    TooLong(u32),
    /// The first byte of the frame at this place names no kind of message.
    BadKind(u8, u64),
    /// The frame at this place has no bytes, or none that are a message of its kind.
    BadBody(u64),
    /// Memory ran out.
    NoMemory,
}

impl From<NoMemory> for FrameFault {
    ghost from_gives = { λ _ e. e ≡ faults.NoMemory };

    fn from(_e: NoMemory) -> FrameFault {
        FrameFault::NoMemory
    }
}

impl From<AllocError> for FrameFault {
    ghost from_gives = { λ _ e. e ≡ faults.NoMemory };

    fn from(_e: AllocError) -> FrameFault {
        FrameFault::NoMemory
    }
}

impl<T: Drop> From<AllocFailed<T>> for FrameFault {
    ghost from_gives = { λ _ e. e ≡ faults.NoMemory };

    fn from(_e: AllocFailed<T>) -> FrameFault {
        FrameFault::NoMemory
    }
}
