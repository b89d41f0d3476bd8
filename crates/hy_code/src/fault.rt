//! Why a value is not rebuilt.

ghost use Rattle.std.specs.Prelude.{◌≡◌};
ghost use Rattle.hy_code.specs.declared.fault.RebuildFault.TheVariants as faults;

use hy_base::NoMemory;
use std::alloc::{AllocError, AllocFailed};

/// The first k picks, which alone are judged, do not rebuild a value.
#[derive(Clone, Copy, Debug, PartialEq, Eq)]
pub enum RebuildFault {
    /// There are only so many picks, which is fewer than the parts.
    Few(usize),
    /// The pick at this place has a wrong number of bytes.
    Length(usize),
    /// The first cloud, from the left, that stands earlier too.
    Twice(u8),
    /// Memory ran out.
    NoMemory,
}

impl From<NoMemory> for RebuildFault {
    ghost from_gives = { λ _ fault. fault ≡ faults.NoMemory };

    fn from(_e: NoMemory) -> RebuildFault {
        RebuildFault::NoMemory
    }
}

impl From<AllocError> for RebuildFault {
    ghost from_gives = { λ _ fault. fault ≡ faults.NoMemory };

    fn from(_e: AllocError) -> RebuildFault {
        RebuildFault::NoMemory
    }
}

impl<T: Drop> From<AllocFailed<T>> for RebuildFault {
    ghost from_gives = { λ _ fault. fault ≡ faults.NoMemory };

    fn from(_e: AllocFailed<T>) -> RebuildFault {
        RebuildFault::NoMemory
    }
}
