//! Why a client does not begin an operation.

ghost use Rattle.std.specs.Prelude.{◌≡◌};
ghost use Rattle.hy_client.specs.Faults.{fault_of};
ghost use Rattle.hy_client.specs.declared.fault.InvokeFault.TheVariants as faults;

use hy_base::NoMemory;
use hy_put::StartFault;

/// Why a client does not begin an operation.
#[derive(Clone, Copy, Debug, PartialEq, Eq)]
pub enum InvokeFault {
    /// The client has stopped.
    Stopped,
    /// The client's operation of this number has no reply.
    Busy(u32),
    /// The key is of the wrong kind: swaps alone write a compare-and-swap key, and write no other.
    WrongKey,
    /// The value has so many bytes, more than a value may have.
    TooLarge(usize),
    /// Memory ran out.
    NoMemory,
}

impl From<NoMemory> for InvokeFault {
    ghost from_gives = { λ _ e. e ≡ faults.NoMemory };

    fn from(_e: NoMemory) -> InvokeFault {
        InvokeFault::NoMemory
    }
}

impl From<StartFault> for InvokeFault {
    ghost from_gives = { λ fault e. e ≡ fault_of fault };

    fn from(fault: StartFault) -> InvokeFault {
        match fault {
            StartFault::TooLarge(size) => InvokeFault::TooLarge(size),
            StartFault::NoMemory => InvokeFault::NoMemory,
        }
    }
}
