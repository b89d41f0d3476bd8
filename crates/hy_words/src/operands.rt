//! The operands of a command, taken one by one from the left.

ghost use Rattle.std.specs.Prelude.{◌≡◌, [], map, string_bytes};
ghost use Rattle.hy_text.specs.Line.{first_word, later_words};
ghost use Rattle.hy_text.specs.Slot.{end_of};
ghost use Rattle.hy_words.specs.Operands.{operands_left};

use hy_base::Cause;
use std::marker::Model;

/// The first word, the empty one where there is none, and the words after it.
pub(crate) fn first_word(words: &[String]) -> (&[u8], &[String])
    ensures word { result.0.now ≡ first_word (map string_bytes words.now) }
    ensures rest { map string_bytes result.1.now ≡ later_words (map string_bytes words.now) }
{
    match words {
        [word, rest @ ..] => (word.as_bytes(), rest),
        [] => (b"", words),
    }
}

/// The operands that are left: those before an option, and those after it.
#[derive(Drop)]
pub(crate) struct Operands<'a> {
    front: &'a [String],
    back: &'a [String],
}

impl<'a> Model for Operands<'a> {
    ghost use Rattle.std.specs.Prelude.{List, ℕ};
    ghost use Rattle.hy_words.specs.Operands.{operands_left};

    ghost Value = { List (List ℕ) };

    ghost view = { λ operands. operands_left operands.front.now operands.back.now };
}

impl<'a> Operands<'a> {
    /// All of these words, and then all of those.
    pub(crate) fn of(front: &'a [String], back: &'a [String]) -> Operands<'a>
        ensures { result ≡ operands_left front.now back.now }
    {
        Operands { front, back }
    }

    /// Takes the next operand: the empty word where none is left.
    pub(crate) fn next_word(&mut self) -> &'a [u8]
        ensures word { result.now ≡ first_word self.old }
        ensures rest { self.new ≡ later_words self.old }
    {
        if self.front.is_empty() {
            let (word, rest) = first_word(self.back);
            self.back = rest;
            word
        } else {
            let (word, rest) = first_word(self.front);
            self.front = rest;
            word
        }
    }

    /// Whether no operand is left.
    pub(crate) fn end(&self) -> Result<(), Cause>
        ensures { result ≡ end_of self.now }
    {
        match self.front {
            [] => match self.back {
                [] => Ok(()),
                [_, ..] => Err(Cause::Extra),
            },
            [_, ..] => Err(Cause::Extra),
        }
    }
}
