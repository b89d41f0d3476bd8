//! Why a journal is not opened, and why a call is not served.

ghost use Rattle.std.specs.Prelude.{◌≡◌};
ghost use Rattle.hy_journal.specs.declared.fault.OpenFault.TheVariants as open_faults;
ghost use Rattle.hy_journal.specs.declared.fault.KeepFault.TheVariants as keep_faults;
ghost use Rattle.hy_journal.specs.declared.fault.RequestsFault.TheVariants as requests_faults;

use hy_base::{Failed, NoMemory};
use std::alloc::{AllocError, AllocFailed};

/// Why a disk's file is not opened.
#[derive(Clone, Copy, Debug, PartialEq, Eq)]
pub enum OpenFault {
    /// A call of the disk failed; its count of faults rose.
    DiskFault,
    /// The file has so many bytes, more than a journal may have.
    TooLong(u64),
    /// An open gate stands before this place, and no whole entry behind it.
    BadEntry(u64),
    /// Memory ran out.
    NoMemory,
}

impl From<Failed> for OpenFault {
    ghost from_gives = { λ _ e. e ≡ open_faults.DiskFault };

    fn from(_e: Failed) -> OpenFault {
        OpenFault::DiskFault
    }
}

impl From<NoMemory> for OpenFault {
    ghost from_gives = { λ _ e. e ≡ open_faults.NoMemory };

    fn from(_e: NoMemory) -> OpenFault {
        OpenFault::NoMemory
    }
}

impl From<AllocError> for OpenFault {
    ghost from_gives = { λ _ e. e ≡ open_faults.NoMemory };

    fn from(_e: AllocError) -> OpenFault {
        OpenFault::NoMemory
    }
}

impl<T: Drop> From<AllocFailed<T>> for OpenFault {
    ghost from_gives = { λ _ e. e ≡ open_faults.NoMemory };

    fn from(_e: AllocFailed<T>) -> OpenFault {
        OpenFault::NoMemory
    }
}

/// Why a keeper does not serve a call.
#[derive(Clone, Copy, Debug, PartialEq, Eq)]
pub enum KeepFault {
    /// An earlier call answered a fault of the disk.
    Broken,
    /// All ids of sessions were given.
    SessionsFull,
    /// The journal would get so many bytes, more than it may have.
    Full(u64),
    /// Memory ran out.
    NoMemory,
    /// A call of the disk failed; its count of faults rose. The entry may be in the journal or not.
    DiskFault,
}

impl From<Failed> for KeepFault {
    ghost from_gives = { λ _ e. e ≡ keep_faults.DiskFault };

    fn from(_e: Failed) -> KeepFault {
        KeepFault::DiskFault
    }
}

impl From<NoMemory> for KeepFault {
    ghost from_gives = { λ _ e. e ≡ keep_faults.NoMemory };

    fn from(_e: NoMemory) -> KeepFault {
        KeepFault::NoMemory
    }
}

impl From<AllocError> for KeepFault {
    ghost from_gives = { λ _ e. e ≡ keep_faults.NoMemory };

    fn from(_e: AllocError) -> KeepFault {
        KeepFault::NoMemory
    }
}

impl<T: Drop> From<AllocFailed<T>> for KeepFault {
    ghost from_gives = { λ _ e. e ≡ keep_faults.NoMemory };

    fn from(_e: AllocFailed<T>) -> KeepFault {
        KeepFault::NoMemory
    }
}

/// Why bytes are not read as frames of requests.
#[derive(Clone, Copy, Debug, PartialEq, Eq)]
pub enum RequestsFault {
    /// No whole frame of a request stands at this place, which is before the end.
    BadFrame(u64),
    /// Memory ran out.
    NoMemory,
}

impl From<NoMemory> for RequestsFault {
    ghost from_gives = { λ _ e. e ≡ requests_faults.NoMemory };

    fn from(_e: NoMemory) -> RequestsFault {
        RequestsFault::NoMemory
    }
}

impl<T: Drop> From<AllocFailed<T>> for RequestsFault {
    ghost from_gives = { λ _ e. e ≡ requests_faults.NoMemory };

    fn from(_e: AllocFailed<T>) -> RequestsFault {
        RequestsFault::NoMemory
    }
}
