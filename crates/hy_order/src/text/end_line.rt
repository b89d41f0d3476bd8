//! The last line of a report: how many operations and how many orders stand above.

ghost use Rattle.std.specs.Prelude.{◌≡◌};
ghost use Rattle.hy_order.specs.ReportReading.{counts_of_words};

use hy_base::Cause;
use hy_text::{LineError, LineKind, Words, read_keyword, read_number};
use std::alloc::Global;
use std::marker::Model;

/// The last line of a report, with the counts that are due in it.
#[derive(Drop)]
pub(crate) struct EndLine {
    operations: u64,
    orders: u64,
}

impl Model for EndLine {
    ghost use Rattle.hy_order.specs.ReportReading.{Counts};

    ghost Value = { Counts };

    ghost view = { λ end. record { operations = end.operations; orders = end.orders } };
}

impl EndLine {
    /// The line after so many operations and so many orders.
    pub(crate) fn of(operations: usize, orders: usize) -> EndLine
        ensures { result ≡ record { operations = operations; orders = orders } }
    {
        EndLine {
            operations: operations as u64,
            orders: orders as u64,
        }
    }
}

impl LineKind for EndLine {
    ghost use Rattle.hy_order.specs.ReportReading.{end_line};

    type Item = ();

    ghost kind = { end_line };

    fn is_due(&self, _keyword: &[u8]) -> bool {
        true
    }

    fn read(&mut self, _alloc: Global, keyword: &[u8], words: &mut Words) -> Result<(), LineError> {
        read_keyword(keyword, b"end")?;
        read_counts(words, self.operations, self.orders)?;
        Ok(())
    }
}

/// Reads the words of the last line after the keyword.
#[tactic(auto, unfolding(crate::specs::ReportReading::counts_of_words))]
fn read_counts(words: &mut Words, ops: u64, orders: u64) -> Result<(), Cause>
    ensures { result ≡ counts_of_words ops orders words.old }
{
    read_number(words.next_word(), ops, ops)?;
    read_number(words.next_word(), orders, orders)?;
    words.end()
}
