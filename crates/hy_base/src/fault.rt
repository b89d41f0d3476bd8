//! What is wrong with a text: the first bad line, and why.

ghost use Rattle.std.specs.Prelude.{◌≡◌};
ghost use Rattle.hy_base.specs.declared.fault.TextError.TheVariants as errors;

use crate::failure::NoMemory;
use std::alloc::{AllocError, AllocFailed};

/// Why a line of a text is refused.
#[derive(Clone, Copy, Debug, PartialEq, Eq)]
pub enum Cause {
    /// The first line does not begin as a schedule does.
    NoHeader,
    /// The rest of the first line is no store that can be replayed.
    BadParams,
    /// Another keyword is due.
    BadWord,
    /// A number in range is due.
    BadNumber,
    /// A value in lower-case hexadecimal is due.
    BadHex,
    /// A key is due.
    BadKey,
    /// The value has more bytes than a text may give it.
    LongValue,
    /// A word or a space stands after the last word due.
    Extra,
    /// Too many clients joined before this line.
    TooManyOpen,
    /// Too many event lines stand before this line.
    TooManyLines,
    /// The line has no end.
    NoLineEnd,
    /// The text ends before its last line.
    NoEnd,
}

/// The first bad line of a text, counted from 1, and why it is refused.
///
/// A line beyond number 4,294,967,295 is named by that number.
#[derive(Clone, Copy, Debug, PartialEq, Eq)]
pub struct TextFault {
    pub line: u32,
    pub cause: Cause,
}

/// Why a text could not be read.
#[derive(Clone, Copy, Debug, PartialEq, Eq)]
pub enum TextError {
    /// The text is not in the grammar.
    Fault(TextFault),
    /// Memory ran out.
    NoMemory,
}

impl From<NoMemory> for TextError {
    ghost from_gives = { λ _ e. e ≡ errors.NoMemory };

    fn from(_e: NoMemory) -> TextError {
        TextError::NoMemory
    }
}

impl From<AllocError> for TextError {
    ghost from_gives = { λ _ e. e ≡ errors.NoMemory };

    fn from(_e: AllocError) -> TextError {
        TextError::NoMemory
    }
}

impl<T: Drop> From<AllocFailed<T>> for TextError {
    ghost from_gives = { λ _ e. e ≡ errors.NoMemory };

    fn from(_e: AllocFailed<T>) -> TextError {
        TextError::NoMemory
    }
}
