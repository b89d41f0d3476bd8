//! Why a line could not be read.

ghost use Rattle.std.specs.Prelude.{◌≡◌};
ghost use Rattle.hy_text.specs.declared.error.LineError.TheVariants as errors;

use hy_base::{Cause, NoMemory, TextError, TextFault};
use std::alloc::{AllocError, AllocFailed};

/// Why a line could not be read.
#[derive(Clone, Copy, Debug, PartialEq, Eq)]
pub enum LineError {
    /// The first word from the left that does not fit has this cause.
    Bad(Cause),
    /// Memory ran out.
    NoMemory,
}

impl LineError {
    ghost use Rattle.hy_text.specs.Gives.{text_error};

    /// The error of the text whose line of this number, counted from 1, has this error.
    pub fn at_line(self, number: u32) -> TextError
        ensures { result ≡ text_error number self }
    {
        match self {
            LineError::Bad(cause) => TextError::Fault(TextFault {
                line: number,
                cause,
            }),
            LineError::NoMemory => TextError::NoMemory,
        }
    }
}

impl From<NoMemory> for LineError {
    ghost from_gives = { λ _ e. e ≡ errors.NoMemory };

    fn from(_e: NoMemory) -> LineError {
        LineError::NoMemory
    }
}

impl From<AllocError> for LineError {
    ghost from_gives = { λ _ e. e ≡ errors.NoMemory };

    fn from(_e: AllocError) -> LineError {
        LineError::NoMemory
    }
}

impl<T: Drop> From<AllocFailed<T>> for LineError {
    ghost from_gives = { λ _ e. e ≡ errors.NoMemory };

    fn from(_e: AllocFailed<T>) -> LineError {
        LineError::NoMemory
    }
}

impl From<Cause> for LineError {
    ghost from_gives = { λ cause e. e ≡ errors.Bad cause };

    fn from(cause: Cause) -> LineError {
        LineError::Bad(cause)
    }
}
