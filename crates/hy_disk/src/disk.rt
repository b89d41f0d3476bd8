//! What is written to, and outlives a crash.

ghost use Rattle.std.specs.Prelude.{◌≡◌, ◌≤◌, ◌+◌, max, List, ℕ, IfOk, length};
ghost use Rattle.hy_base.specs.Faults.{HasCause, next_count};
ghost use Rattle.hy_disk.specs.Disk.{ReadsAt, SameFiles, WriteGives, WriteLeaves, SyncLeaves};
ghost use Rattle.hy_disk.specs.Crash.{Elapses};

use hy_base::Failed;

/// A file on a disk: what a read gives, and which files a crash may leave.
///
/// Between two syncs a crash may leave any bytes in each range that was written and past the old
/// end, and any length from the old to the new one.
pub trait Disk {
    /// The bytes that a read gives.
    ghost contents: { Self → List ℕ };

    /// A crash at this moment may leave the file.
    ghost may_leave: { Self → List ℕ → Type 0 };

    /// The moment, as a number that does not fall.
    ghost moment: { Self → ℕ };

    /// A crash at some moment from that one on, in a call or between two, might have left the file.
    ghost left_since: { Self → ℕ → List ℕ → Type 0 };

    /// How often a call failed so far.
    ghost faults: { Self → ℕ };

    /// How many calls were made so far.
    ghost calls: { Self → ℕ };

    /// The second is the first after calls that tried at most so many writes and syncs, to write
    /// at most so many bytes, all of them before this place.
    ghost reach: { Self → Self → ℕ → ℕ → ℕ → Type 0 };

    /// The length of the file.
    fn size(&mut self) -> Result<u64, Failed>
        ensures size { IfOk result (λ size. size ≡ length (contents self.old)) }
        ensures contents { contents self.new ≡ contents self.old }
        ensures leaves { SameFiles (may_leave self.old) (may_leave self.new) }
        ensures reach { reach self.old self.new 0 0 0 }
        ensures time { Elapses (moment self.old) (moment self.new)
            (left_since self.old) (left_since self.new) (may_leave self.new) }
        ensures calls { calls self.new ≡ next_count (calls self.old) }
        ensures cause { HasCause (faults self.old) (faults self.new) result };

    /// Reads from this place into the front of the buffer, and answers how many bytes.
    ///
    /// 0 for a buffer that is not empty is the end.
    fn read_at(&mut self, place: u64, buf: &mut [u8]) -> Result<usize, Failed>
        ensures bytes { IfOk result (ReadsAt (contents self.old) place buf.new) }
        ensures contents { contents self.new ≡ contents self.old }
        ensures leaves { SameFiles (may_leave self.old) (may_leave self.new) }
        ensures reach { reach self.old self.new 0 0 0 }
        ensures time { Elapses (moment self.old) (moment self.new)
            (left_since self.old) (left_since self.new) (may_leave self.new) }
        ensures calls { calls self.new ≡ next_count (calls self.old) }
        ensures cause { HasCause (faults self.old) (faults self.new) result };

    /// Writes the bytes at this place, with zeros in a gap before it.
    ///
    /// A write that fails may have written anything there.
    fn write_at(&mut self, place: u64, bytes: &[u8]) -> Result<(), Failed>
        ensures contents { WriteGives place bytes.now
            (contents self.old) (contents self.new) result }
        ensures leaves { WriteLeaves place (length bytes.now)
            (may_leave self.old) (may_leave self.new) result }
        ensures reach { reach self.old self.new 1 (length bytes.now) (place + length bytes.now) }
        ensures time { Elapses (moment self.old) (moment self.new)
            (left_since self.old) (left_since self.new) (may_leave self.new) }
        ensures calls { calls self.new ≡ next_count (calls self.old) }
        ensures cause { HasCause (faults self.old) (faults self.new) result };

    /// After it a crash leaves what a read gives. A sync that fails leaves what it found.
    fn sync(&mut self) -> Result<(), Failed>
        ensures contents { contents self.new ≡ contents self.old }
        ensures leaves { SyncLeaves (contents self.old)
            (may_leave self.old) (may_leave self.new) result }
        ensures reach { reach self.old self.new 1 0 0 }
        ensures time { Elapses (moment self.old) (moment self.new)
            (left_since self.old) (left_since self.new) (may_leave self.new) }
        ensures calls { calls self.new ≡ next_count (calls self.old) }
        ensures cause { HasCause (faults self.old) (faults self.new) result };

    /// What a read gives is a file that a crash may leave.
    ghost contents_left: { (disk : Self) → may_leave disk (contents disk) };

    /// This moment is one of those since an earlier one.
    ghost counts_now: { (disk : Self) (t : ℕ) (c : List ℕ) →
        t ≤ moment disk → may_leave disk c → left_since disk t c };

    /// Since this moment there is no other.
    ghost only_now: { (disk : Self) (c : List ℕ) →
        left_since disk (moment disk) c → may_leave disk c };

    /// No call was made.
    ghost reach_same: { (disk : Self) → reach disk disk 0 0 0 };

    /// Calls, and then others.
    ghost reach_then: { (a b c : Self) (steps more bytes others end last : ℕ) →
        reach a b steps bytes end → reach b c more others last →
        reach a c (steps + more) (bytes + others) (max end last) };

    /// Bounds that are larger hold too.
    ghost reach_more: { (a b : Self) (steps more bytes others end last : ℕ) →
        steps ≤ more → bytes ≤ others → end ≤ last →
        reach a b steps bytes end → reach a b more others last };
}
