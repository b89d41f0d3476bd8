//! The words of a line, taken one by one from the left.

ghost use Rattle.std.specs.Prelude.{◌≡◌, ◌==◌, [], ◌∷◌, MatchOption, position};
ghost use Rattle.hy_text.specs.Line.{pieces_at, first_word, later_words};
ghost use Rattle.hy_text.specs.Slot.{keyword, end_of};

use hy_base::Cause;
use memchr::memchr;
use std::marker::Model;

/// The words that are left of a line, or of a list whose separator is a comma.
#[derive(Drop)]
pub struct Words<'a> {
    separator: u8,
    rest: Option<&'a [u8]>,
}

impl<'a> Model for Words<'a> {
    ghost use Rattle.std.specs.Prelude.{List, ℕ};
    ghost use Rattle.std.specs.Option.{option_copied};
    ghost use Rattle.hy_text.specs.Line.{pieces_left};

    ghost Value = { List (List ℕ) };

    ghost view = { λ words. pieces_left words.separator (option_copied words.rest) };
}

/// From so many bytes on they are searched many at once, which costs more to begin.
const MANY_BYTES: usize = 64;

/// Where the first separator stands.
#[inline(always)]
fn separator_place(separator: u8, bytes: &[u8]) -> Option<usize>
    ensures { result ≡ position (λ b. b == separator) bytes.now }
{
    if bytes.len() < MANY_BYTES {
        bytes.iter().position(|byte| *byte == separator)
    } else {
        far_place(separator, bytes)
    }
}

/// Where the first separator stands, searched many bytes at once.
#[inline(never)]
fn far_place(separator: u8, bytes: &[u8]) -> Option<usize>
    ensures { result ≡ position (λ b. b == separator) bytes.now }
{
    memchr(separator, bytes)
}

/// The bytes before the first separator and those after it, or nothing where none stands in the bytes.
#[inline(always)]
pub(crate) fn cut_at(separator: u8, bytes: &[u8]) -> Option<(&[u8], &[u8])>
    ensures { MatchOption result (pieces_at separator bytes.now ≡ bytes.now ∷ [])
        (λ parts. pieces_at separator bytes.now ≡ parts.0.now ∷ pieces_at separator parts.1.now) }
{
    match separator_place(separator, bytes) {
        Some(end) => Some((&bytes[..end], &bytes[end + 1..])),
        None => None,
    }
}

impl<'a> Words<'a> {
    /// The words of these bytes, which stand between separators.
    pub fn split(bytes: &'a [u8], separator: u8) -> Words<'a>
        ensures { result ≡ pieces_at separator bytes.now }
    {
        Words {
            separator,
            rest: Some(bytes),
        }
    }

    /// Takes the next word: the empty one where no word is left.
    #[inline(always)]
    pub fn next_word(&mut self) -> &'a [u8]
        ensures word { result.now ≡ first_word self.old }
        ensures rest { self.new ≡ later_words self.old }
    {
        let Some(bytes) = self.rest else {
            return b"";
        };
        match cut_at(self.separator, bytes) {
            Some((word, rest)) => {
                self.rest = Some(rest);
                word
            }
            None => {
                self.rest = None;
                bytes
            }
        }
    }

    /// Whether no word is left; an empty word that is left is one too many.
    pub fn end(&self) -> Result<(), Cause>
        ensures { result ≡ end_of self.now }
    {
        match self.rest {
            None => Ok(()),
            Some(_) => Err(Cause::Extra),
        }
    }
}

/// Whether the word is the keyword that is due.
pub fn read_keyword(word: &[u8], due: &[u8]) -> Result<(), Cause>
    ensures { result ≡ keyword due.now word.now }
{
    if word == due {
        Ok(())
    } else {
        Err(Cause::BadWord)
    }
}
