//! The lines of retrievable copies in a report.

ghost use Rattle.std.specs.Prelude.{◌≡◌};
ghost use Rattle.hy_text.specs.Gives.{Gives};
ghost use Rattle.hy_order.specs.ReportReading.{held_of_words};

use crate::held::Held;
use crate::text::slots::{read_any_stamp, read_key_above, read_store_clouds};
use hy_record::Key;
use hy_text::{LineError, LineKind, Words};
use std::alloc::Global;
use std::marker::Model;

/// The lines of retrievable copies, after the last key that one was of.
#[derive(Drop)]
pub(crate) struct HeldLines {
    last: Option<Key>,
}

impl Model for HeldLines {
    ghost use Rattle.std.specs.Prelude.{List, ℕ, Option};

    ghost Value = { Option (List ℕ) };

    ghost view = { λ lines. lines.last };
}

impl HeldLines {
    ghost use Rattle.std.specs.Prelude.{None};

    /// The lines from the first on.
    pub(crate) fn new() -> HeldLines
        ensures { result ≡ None }
    {
        HeldLines { last: None }
    }
}

impl LineKind for HeldLines {
    ghost use Rattle.hy_order.specs.ReportReading.{held_lines};

    type Item = Held;

    ghost kind = { held_lines };

    fn is_due(&self, keyword: &[u8]) -> bool {
        keyword == b"held".as_slice()
    }

    fn read(
        &mut self,
        _alloc: Global,
        _keyword: &[u8],
        words: &mut Words,
    ) -> Result<Held, LineError> {
        let held = read_held(self.last, words)?;
        self.last = Some(held.key);
        Ok(held)
    }
}

/// The retrievable copies of a key, of the words after the keyword.
#[tactic(auto, unfolding(crate::specs::ReportReading::held_of_words))]
fn read_held(last: Option<Key>, words: &mut Words) -> Result<Held, LineError>
    ensures { Gives result (held_of_words last words.old) }
{
    let key = read_key_above(last, words.next_word())?;
    let stamp = read_any_stamp(words)?;
    let clouds = read_store_clouds(words.next_word())?;
    words.end()?;
    Ok(Held { key, stamp, clouds })
}
