//! Numbered calls, some of which are to fail, and counts of faults.

ghost use Rattle.std.specs.Prelude.{◌≡◌, ◌≤◌, ◌↔◌, IsTrue};
ghost use Rattle.hy_base.specs.Faults.{next_count, FailsNext};

use crate::failure::Failed;

/// The numbers of the calls that are to fail, and how many calls were made.
#[derive(Debug, Drop)]
pub(crate) struct Calls {
    pub(crate) failing: Vec<u32>,
    pub(crate) made: u64,
}

impl Calls {
    /// No call was made yet; the first has number 1.
    pub(crate) fn new(failing: Vec<u32>) -> Calls
        ensures { result ≡ record { failing = failing; made = 0 } }
    {
        Calls { failing, made: 0 }
    }

    /// Begins a call, and answers whether its number says that it fails.
    pub(crate) fn next_fails(&mut self) -> bool
        ensures fails { IsTrue result ↔ FailsNext self.old.failing.items self.old.made }
        ensures failing { self.new.failing ≡ self.old.failing }
        ensures made { self.new.made ≡ next_count self.old.made }
    {
        self.made = self.made.saturating_add(1);
        let number = self.made;
        self.failing
            .iter()
            .any(|&failing| u64::from(failing) == number)
    }
}

/// Counts a fault, and answers it.
pub(crate) fn fault(count: &mut u64) -> Failed
    ensures after { count.new ≡ next_count count.old }
    ensures grows { count.old ≤ count.new }
{
    *count = count.saturating_add(1);
    Failed
}
