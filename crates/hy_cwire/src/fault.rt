//! What is wrong with a message, and the status that says so.

ghost use Rattle.std.specs.Prelude.{◌≡◌};
ghost use Rattle.hy_cwire.specs.declared.fault.HttpFault.TheVariants as faults;
ghost use Rattle.hy_cwire.specs.Fault.{status_of};

use http::StatusCode;
use hy_base::NoMemory;
use std::alloc::{AllocError, AllocFailed};

/// Why bytes are no message of the profile: the first of these faults that the message has.
#[derive(Clone, Copy, Debug, PartialEq, Eq)]
pub enum HttpFault {
    /// The first 8,192 bytes do not end a head.
    HeadTooLong,
    /// The block of this length is no head.
    NotHead(usize),
    /// The method is none of PUT, GET and DELETE.
    BadMethod,
    /// The target is no name of an object.
    BadTarget,
    /// The body is in some coding.
    Coding,
    /// The length stands more than once.
    LengthTwice,
    /// A length is needed and not there, or is no number.
    NoLength,
    /// The body has this length, more than it may have.
    BodyTooLong(u64),
    /// The peer closed after so many bytes of the body, of which so many are due; 0 where the head
    /// was not whole, and then so many bytes came.
    Cut(u64, u64),
    /// Memory ran out.
    NoMemory,
}

impl From<NoMemory> for HttpFault {
    ghost from_gives = { λ _ e. e ≡ faults.NoMemory };

    fn from(_e: NoMemory) -> HttpFault {
        HttpFault::NoMemory
    }
}

impl From<AllocError> for HttpFault {
    ghost from_gives = { λ _ e. e ≡ faults.NoMemory };

    fn from(_e: AllocError) -> HttpFault {
        HttpFault::NoMemory
    }
}

impl<T: Drop> From<AllocFailed<T>> for HttpFault {
    ghost from_gives = { λ _ e. e ≡ faults.NoMemory };

    fn from(_e: AllocFailed<T>) -> HttpFault {
        HttpFault::NoMemory
    }
}

/// The status of the answer to a message that has this fault.
pub fn status_for(fault: &HttpFault) -> u16
    ensures { result ≡ status_of fault.now }
{
    let status = match fault {
        HttpFault::Coding | HttpFault::BadMethod => StatusCode::NOT_IMPLEMENTED,
        HttpFault::NoLength => StatusCode::LENGTH_REQUIRED,
        HttpFault::BodyTooLong(_) => StatusCode::PAYLOAD_TOO_LARGE,
        _ => StatusCode::BAD_REQUEST,
    };
    status.as_u16()
}
