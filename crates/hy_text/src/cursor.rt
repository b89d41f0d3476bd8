//! The lines of a text, taken one by one by their first word.

ghost use Rattle.std.specs.Prelude.{◌≡◌, map, MatchOption, IfSome, []};
ghost use Rattle.std.specs.Option.{option_copied};
ghost use Rattle.hy_base.specs.declared.fault.TextError.TheVariants as errors;
ghost use Rattle.hy_text.specs.Line.{lines_of};

use crate::line::{Line, Lines};
use crate::word::Words;
use hy_base::{Cause, TextError, TextFault};
use std::marker::Model;

/// A line whose first word has been read.
#[derive(Drop)]
pub struct OpenLine<'a> {
    /// Its number, counted from 1.
    pub number: u32,
    /// Its first word.
    pub keyword: &'a [u8],
    /// The words after the first.
    pub words: Words<'a>,
    /// Whether a line feed ends it.
    pub ended: bool,
}

/// The lines that are left of a text, the next of them open.
#[derive(Drop)]
pub struct Cursor<'a> {
    number: u32,
    next: Option<OpenLine<'a>>,
    later: Lines<'a>,
}

impl<'a> Model for Cursor<'a> {
    ghost use Rattle.hy_text.specs.OpenLine.{Rest, lines_left, HasNumber};

    ghost Value = { Rest };

    ghost view = { λ cursor. record { number = cursor.number; lines = lines_left cursor.next cursor.later } };

    ghost invariant = { λ cursor. HasNumber cursor.number cursor.next };
}

impl<'a> Cursor<'a> {
    ghost use Rattle.hy_text.specs.Gives.{GivesText};
    ghost use Rattle.hy_text.specs.Kind.{nothing_in};
    ghost use Rattle.hy_text.specs.OpenLine.{Rest, IsNextLine, next_keyword, opened};

    /// The lines of the text.
    pub fn of(text: &'a [u8]) -> Cursor<'a>
        ensures { result ≡ record { number = 1; lines = map opened (lines_of text.now) } }
    {
        let mut later = Lines::of(text);
        let next = OpenLine::first_of(&mut later, 1);
        Cursor {
            number: 1,
            next,
            later,
        }
    }

    /// The first word of the next line.
    pub fn next_keyword(&self) -> Option<&'a [u8]>
        ensures { option_copied result ≡ next_keyword self.now.lines }
    {
        match &self.next {
            Some(line) => Some(line.keyword),
            None => None,
        }
    }

    /// The fault of the next line, or of the place where it would stand.
    pub fn fault(&self, cause: Cause) -> TextError
        ensures { result ≡ errors.Fault (record { line = self.now.number; cause = cause }) }
    {
        TextError::Fault(TextFault {
            line: self.number,
            cause,
        })
    }

    /// Whether no line is left; one that is left is one too many.
    pub fn end(&self) -> Result<(), TextError>
        ensures { GivesText result (nothing_in self.now.number self.now.lines) }
    {
        match self.next {
            None => Ok(()),
            Some(_) => Err(self.fault(Cause::Extra)),
        }
    }

    /// Takes the next line.
    #[inline(always)]
    pub fn take(&mut self) -> Option<OpenLine<'a>>
        ensures { MatchOption result ((self.old.lines ≡ []) × (self.new ≡ self.old))
            (λ line. IsNextLine self.old line self.new) }
    {
        let line = self.next.take()?;
        self.number = self.number.saturating_add(1);
        self.next = OpenLine::first_of(&mut self.later, self.number);
        Some(line)
    }
}

impl<'a> OpenLine<'a> {
    ghost use Rattle.hy_text.specs.OpenLine.{lines_left, opened};

    /// The first of the lines, which has this number, and takes it out of them.
    #[inline(always)]
    fn first_of(lines: &mut Lines<'a>, number: u32) -> Option<OpenLine<'a>>
        ensures lines { lines_left result lines.new ≡ map opened lines.old }
        ensures number { IfSome result (λ line. line.number ≡ number) }
    {
        let mut line = lines.next()?;
        let keyword = line.words.next_word();
        let Line { words, ended } = line;
        Some(OpenLine {
            number,
            keyword,
            words,
            ended,
        })
    }
}
