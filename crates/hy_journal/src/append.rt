//! An entry added to a journal.

ghost use Rattle.std.specs.Prelude.{◌≡◌, ◌≤◌, ◌+◌, ◌++◌, ◌∷◌, [], List, OnOk, length};
ghost use Rattle.hy_base.specs.Faults.{HasCause};
ghost use Rattle.hy_disk.specs.Crash.{LeavesOnly};
ghost use Rattle.hy_journal.specs.declared.entry.Entry.{Entry as TheEntry};
ghost use Rattle.hy_journal.specs.declared.limits.TheConstants.{MAX_JOURNAL};
ghost use Rattle.hy_journal.specs.Entry.{IsEntry, entry_bytes};
ghost use Rattle.hy_journal.specs.File.{HasOrLacks};
ghost use Rattle.hy_journal.specs.Keeper.{IsSettled, CanAppend, calls_after};

use crate::store::store;
use hy_base::Failed;
use hy_disk::Disk;

/// Adds an entry at the end of a journal: these are its bytes and the closed gate behind it.
///
/// The gate before it is opened last, when the entry is on the disk.
pub(crate) fn append<D: Disk>(disk: &mut D, end: u64, bytes: &[u8]) -> Result<(), Failed>
    requires { 1 ≤ end }
    ensures settled { OnOk result ((entries : List TheEntry) (entry : TheEntry) →
        CanAppend entries entry end bytes.now (D.contents disk.old) (D.may_leave disk.old) →
        IsSettled (entries ++ entry ∷ []) (end + length bytes.now) (D.contents disk.new)
        (D.may_leave disk.new)) }
    ensures any_moment { (entries : List TheEntry) (entry : TheEntry) →
        CanAppend entries entry end bytes.now (D.contents disk.old) (D.may_leave disk.old) →
        LeavesOnly D.moment D.left_since disk.old disk.new (HasOrLacks entries (entry ∷ [])) }
    ensures reach { D.reach disk.old disk.new 4 (length bytes.now + 1) (end + length bytes.now) }
    ensures calls { OnOk result (D.calls disk.new ≡ calls_after 4 (D.calls disk.old)) }
    ensures few { D.calls disk.new ≤ D.calls disk.old + 4 }
    ensures cause { HasCause (D.faults disk.old) (D.faults disk.new) result }
{
    store(disk, end, bytes)?;
    store(disk, end - 1, &[1])
}
