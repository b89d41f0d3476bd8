//! Kinds of lines, and how the lines of a text are read that are of one kind.

ghost use Rattle.std.specs.Prelude.{◌≡◌, MatchOption, IfOk, false, true};
ghost use Rattle.hy_text.specs.Gives.{Gives, GivesText, at_line};
ghost use Rattle.hy_text.specs.Kind.{TakesLines, is_next_due, item_from, item_in, items_from};
ghost use Rattle.hy_text.specs.OpenLine.{IsNextLine, opened_seen};

use crate::cursor::{Cursor, OpenLine};
use crate::error::LineError;
use crate::line::check_line_end;
use crate::word::Words;
use hy_base::{Cause, TextError};
use std::alloc::Global;

/// A kind of line. Its value is what stands before the next line of the kind.
pub trait LineKind {
    ghost use Rattle.hy_text.specs.Kind.{Kind};

    /// What a line tells.
    type Item: Drop;

    /// The kind, as contracts see it.
    ghost kind: { Kind Self Self.Item };

    /// Whether a line of the kind is due where the next line has this first word.
    fn is_due(&self, keyword: &[u8]) -> bool
        ensures { result ≡ kind.is_due self.now keyword.now };

    /// What a line tells by its first word and the words after it, all of which it takes.
    fn read(
        &mut self,
        alloc: Global,
        keyword: &[u8],
        words: &mut Words,
    ) -> Result<Self::Item, LineError>
        ensures gives { Gives result (kind.read self.old keyword.now words.old) }
        ensures next { IfOk result (λ item. self.new ≡ kind.next self.old item) };
}

/// What the next lines tell, as long as one of the kind is due.
pub fn read_lines<K: LineKind>(
    alloc: Global,
    kind: &mut K,
    cursor: &mut Cursor,
) -> Result<Vec<K::Item>, TextError>
    ensures { TakesLines (λ items. items.items) result cursor.new
        (items_from K.kind kind.old cursor.old.number cursor.old.lines) }
{
    let mut items = Vec::new(alloc);
    while let Some(line) = take_due(kind, cursor) {
        let item = read_item(alloc, kind, line)?;
        items.push(item)?;
    }
    Ok(items)
}

/// What the next line tells, which is of the kind; `missing` is the cause where the text has none.
pub fn read_line<K: LineKind>(
    alloc: Global,
    kind: &mut K,
    cursor: &mut Cursor,
    missing: Cause,
) -> Result<K::Item, TextError>
    ensures { TakesLines (λ item. item) result cursor.new
        (item_from missing K.kind kind.old cursor.old.number cursor.old.lines) }
{
    let Some(line) = cursor.take() else {
        return Err(cursor.fault(missing));
    };
    read_item(alloc, kind, line)
}

/// Takes the next line, where one of the kind is due.
fn take_due<'a, K: LineKind>(kind: &K, cursor: &mut Cursor<'a>) -> Option<OpenLine<'a>>
    ensures { MatchOption result ((is_next_due K.kind kind.now cursor.old.lines ≡ false) × (cursor.new ≡ cursor.old))
        (λ line. IsNextLine cursor.old line cursor.new × (K.kind.is_due kind.now line.keyword.now ≡ true)) }
{
    match cursor.next_keyword() {
        Some(keyword) if kind.is_due(keyword) => cursor.take(),
        _ => None,
    }
}

/// What the line tells, with its number where it is at fault.
fn read_item<K: LineKind>(alloc: Global, kind: &mut K, line: OpenLine) -> Result<K::Item, TextError>
    ensures gives { GivesText result (at_line line.entry.number (item_in K.kind kind.old (opened_seen line.entry))) }
    ensures next { IfOk result (λ item. kind.new ≡ K.kind.next kind.old item) }
{
    let number = line.number;
    match read_closed(alloc, kind, line) {
        Ok(item) => Ok(item),
        Err(error) => Err(error.at_line(number)),
    }
}

/// What the line tells, where a line feed ends it.
fn read_closed<K: LineKind>(
    alloc: Global,
    kind: &mut K,
    line: OpenLine,
) -> Result<K::Item, LineError>
    ensures gives { Gives result (item_in K.kind kind.old (opened_seen line.entry)) }
    ensures next { IfOk result (λ item. kind.new ≡ K.kind.next kind.old item) }
{
    let mut words = line.words;
    let item = kind.read(alloc, line.keyword, &mut words)?;
    check_line_end(line.ended)?;
    Ok(item)
}
