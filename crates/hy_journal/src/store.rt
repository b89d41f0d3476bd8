//! Bytes written to a disk for good.

ghost use Rattle.std.specs.Prelude.{◌≡◌, ◌≤◌, ◌+◌, OnOk, length};
ghost use Rattle.hy_base.specs.Faults.{HasCause};
ghost use Rattle.hy_disk.specs.Disk.{written, OnlyFile, TornFrom};
ghost use Rattle.hy_disk.specs.Crash.{LeavesOnly};
ghost use Rattle.hy_journal.specs.Keeper.{calls_after};

use hy_base::Failed;
use hy_disk::Disk;

/// Writes the bytes at this place, and syncs.
pub(crate) fn store<D: Disk>(disk: &mut D, place: u64, bytes: &[u8]) -> Result<(), Failed>
    ensures contents { OnOk result (D.contents disk.new ≡ written place bytes.now
        (D.contents disk.old)) }
    ensures durable { OnOk result (OnlyFile (D.contents disk.new) (D.may_leave disk.new)) }
    ensures any_moment { LeavesOnly D.moment D.left_since disk.old disk.new
        (TornFrom place (length bytes.now) (D.may_leave disk.old)) }
    ensures reach { D.reach disk.old disk.new 2 (length bytes.now) (place + length bytes.now) }
    ensures calls { OnOk result (D.calls disk.new ≡ calls_after 2 (D.calls disk.old)) }
    ensures few { D.calls disk.new ≤ D.calls disk.old + 2 }
    ensures cause { HasCause (D.faults disk.old) (D.faults disk.new) result }
{
    disk.write_at(place, bytes)?;
    disk.sync()
}
