//! Why a put does not start.

ghost use Rattle.std.specs.Prelude.{◌≡◌};
ghost use Rattle.hy_put.specs.declared.fault.StartFault.TheVariants as faults;

use hy_base::NoMemory;
use std::alloc::AllocFailed;

/// Why a put does not start.
#[derive(Clone, Copy, Debug, PartialEq, Eq)]
pub enum StartFault {
    /// The value has so many bytes, more than a value may have.
    TooLarge(usize),
    /// Memory ran out.
    NoMemory,
}

impl From<NoMemory> for StartFault {
    ghost from_gives = { λ _ e. e ≡ faults.NoMemory };

    fn from(_e: NoMemory) -> StartFault {
        StartFault::NoMemory
    }
}

impl<T: Drop> From<AllocFailed<T>> for StartFault {
    ghost from_gives = { λ _ e. e ≡ faults.NoMemory };

    fn from(_e: AllocFailed<T>) -> StartFault {
        StartFault::NoMemory
    }
}
