//! Why a server ends before its time.

ghost use Rattle.std.specs.Prelude.{◌≡◌};
ghost use Rattle.hy_serve.specs.declared.fault.ServeFault.TheVariants as faults;

use hy_base::{Failed, NoMemory};

/// Why a server ended before it had taken its arrivals.
#[derive(Clone, Copy, Debug, PartialEq, Eq)]
pub enum ServeFault {
    /// `listen` or `next` failed.
    NetFault,
    /// Memory ran out.
    NoMemory,
}

impl From<Failed> for ServeFault {
    ghost from_gives = { λ _ e. e ≡ faults.NetFault };

    fn from(_e: Failed) -> ServeFault {
        ServeFault::NetFault
    }
}

impl From<NoMemory> for ServeFault {
    ghost from_gives = { λ _ e. e ≡ faults.NoMemory };

    fn from(_e: NoMemory) -> ServeFault {
        ServeFault::NoMemory
    }
}
