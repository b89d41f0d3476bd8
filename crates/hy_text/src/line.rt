//! The lines of a text, taken one by one.

ghost use Rattle.std.specs.Prelude.{◌≡◌, [], ◌∷◌, MatchOption};
ghost use Rattle.hy_text.specs.Line.{lines_of};
ghost use Rattle.hy_text.specs.Slot.{end_of_line};

use crate::word::{Words, cut_at};
use hy_base::Cause;
use std::marker::Model;

/// A line of a text.
#[derive(Drop)]
pub struct Line<'a> {
    /// Its words.
    pub words: Words<'a>,
    /// Whether a line feed ends it.
    pub ended: bool,
}

impl<'a> Line<'a> {
    ghost use Rattle.hy_text.specs.Seen.{line_seen};

    /// The first line of the text and what stands after it, where the text has a line.
    #[inline(always)]
    fn first_of(text: &'a [u8]) -> Option<(Line<'a>, &'a [u8])>
        ensures { MatchOption result (lines_of text.now ≡ [])
            (λ split. lines_of text.now ≡ line_seen split.0 ∷ lines_of split.1.now) }
    {
        match cut_at(b'\n', text) {
            Some((line, rest)) => {
                let words = Words::split(line, b' ');
                Some((Line { words, ended: true }, rest))
            }
            None if text.is_empty() => None,
            None => {
                let words = Words::split(text, b' ');
                Some((
                    Line {
                        words,
                        ended: false,
                    },
                    b"",
                ))
            }
        }
    }
}

/// The lines that are left of a text.
#[derive(Drop)]
pub struct Lines<'a> {
    rest: &'a [u8],
}

impl<'a> Model for Lines<'a> {
    ghost use Rattle.std.specs.Prelude.{List};
    ghost use Rattle.hy_text.specs.Line.{Line, lines_of};

    ghost Value = { List Line };

    ghost view = { λ lines. lines_of lines.rest.now };
}

impl<'a> Lines<'a> {
    /// The lines of the text.
    pub fn of(text: &'a [u8]) -> Lines<'a>
        ensures { result ≡ lines_of text.now }
    {
        Lines { rest: text }
    }
}

impl<'a> Iterator for Lines<'a> {
    ghost use Rattle.std.specs.Iterator.{YieldsFirstBy, item_count};
    ghost use Rattle.hy_text.specs.Seen.{line_seen};

    type Item = Line<'a>;

    ghost next_gives = { YieldsFirstBy line_seen (λ lines. lines) };

    ghost remaining = { item_count (λ lines. lines) };

    #[inline(always)]
    fn next(&mut self) -> Option<Line<'a>> {
        let (line, rest) = Line::first_of(self.rest)?;
        self.rest = rest;
        Some(line)
    }
}

/// Whether a line feed ends the line.
pub fn check_line_end(ended: bool) -> Result<(), Cause>
    ensures { result ≡ end_of_line ended }
{
    if ended { Ok(()) } else { Err(Cause::NoLineEnd) }
}
