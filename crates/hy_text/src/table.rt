//! Words of a table: each value has a word of its own, and is found by it.

ghost use Rattle.std.specs.Prelude.{◌≡◌, ℕ, List};
ghost use Rattle.hy_text.specs.Table.{value_named};

use hy_base::Cause;

/// A value that is written as a word of its own.
pub trait Named: Copy {
    /// Its word, as contracts see it.
    ghost word_of: { Self → List ℕ };

    /// Its word.
    fn word(self) -> &'static [u8]
        ensures { result.now ≡ word_of self };
}

/// The first of the values whose word this is.
#[tactic(auto, unfolding(crate::specs::Table::value_named))]
pub fn read_named<T: Named>(values: &[T], word: &[u8]) -> Result<T, Cause>
    ensures { result ≡ value_named T.word_of values.now word.now }
{
    for value in values {
        if word == value.word() {
            return Ok(*value);
        }
    }
    Err(Cause::BadWord)
}
