//! Why a client over a net has no reply.

ghost use Rattle.std.specs.Prelude.{◌≡◌};
ghost use Rattle.hy_drive.specs.declared.fault.DriveFault.TheVariants as faults;

use hy_base::{Failed, NoMemory};
use std::alloc::AllocFailed;

/// Why a client ended without a reply.
#[derive(Clone, Copy, Debug, PartialEq, Eq)]
pub enum DriveFault {
    /// `next` failed, or a dial or send of the connection to the service.
    NetFault,
    /// The service has no session left.
    SessionsFull,
    /// The value has so many bytes, more than a value may have.
    TooLarge(usize),
    /// So many arrivals were taken, and the operation has `have` of the `need` answers that it
    /// awaits. Before the session it is 0 of 1.
    NotYet { have: u32, need: u32 },
    /// Memory ran out.
    NoMemory,
}

impl From<Failed> for DriveFault {
    ghost from_gives = { λ _ e. e ≡ faults.NetFault };

    fn from(_e: Failed) -> DriveFault {
        DriveFault::NetFault
    }
}

impl From<NoMemory> for DriveFault {
    ghost from_gives = { λ _ e. e ≡ faults.NoMemory };

    fn from(_e: NoMemory) -> DriveFault {
        DriveFault::NoMemory
    }
}

impl<T: Drop> From<AllocFailed<T>> for DriveFault {
    ghost from_gives = { λ _ e. e ≡ faults.NoMemory };

    fn from(_e: AllocFailed<T>) -> DriveFault {
        DriveFault::NoMemory
    }
}
