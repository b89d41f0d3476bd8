//! A file read and made ready for entries.

ghost use Rattle.std.specs.Prelude.{◌≡◌, ◌⊎◌, ◌≤◌, ◌<◌, ◌+◌, IfOk, OnOk, IfErr, IsErrOf, length};
ghost use Rattle.hy_base.specs.Faults.{Rose};
ghost use Rattle.hy_disk.specs.Disk.{OnlyFile, SameFiles};
ghost use Rattle.hy_disk.specs.Crash.{LeavesOnly};
ghost use Rattle.hy_journal.specs.declared.limits.TheConstants.{MAX_JOURNAL};
ghost use Rattle.hy_journal.specs.declared.fault.OpenFault.TheVariants as faults;
ghost use Rattle.hy_journal.specs.File.{IsNew};
ghost use Rattle.hy_journal.specs.Keeper.{OpenCause, OpensAs, OpenLeaves, calls_after};

use crate::fault::OpenFault;
use crate::limits::MAX_JOURNAL;
use crate::replay::replay;
use crate::state::State;
use crate::store::store;
use hy_disk::Disk;
use std::alloc::Global;

/// The most bytes that one read asks for.
const CHUNK: usize = 65_536;

/// What the file stands for; a new file gets its first gate.
pub(crate) fn prepare<D: Disk>(alloc: Global, disk: &mut D) -> Result<State, OpenFault>
    ensures opens { IfOk result (OpensAs (D.contents disk.old) (D.contents disk.new)
        (D.may_leave disk.new)) }
    ensures cause { IfErr result (OpenCause (D.contents disk.old)) }
    ensures any_moment { LeavesOnly D.moment D.left_since disk.old disk.new
        (OpenLeaves (D.contents disk.old) (D.may_leave disk.old)) }
    ensures reach { D.reach disk.old disk.new 3 1 1 }
    ensures calls { IsNew (D.contents disk.old) →
        OnOk result (D.calls disk.new ≡ calls_after 4 (D.calls disk.old)) }
    ensures few { IsNew (D.contents disk.old) → D.calls disk.new ≤ D.calls disk.old + 4 }
    ensures kept { OnOk result (D.faults disk.new ≡ D.faults disk.old) }
    ensures stays { D.faults disk.old ≤ D.faults disk.new }
    ensures rose { IsErrOf result faults.DiskFault → Rose (D.faults disk.old) (D.faults disk.new) }
{
    disk.sync()?;
    let size = disk.size()?;
    if size > MAX_JOURNAL {
        return Err(OpenFault::TooLong(size));
    }
    if size <= 1 {
        return begin(alloc, disk);
    }
    let bytes = read_file(alloc, disk, size)?;
    replay(alloc, &bytes)
}

/// Gives a new file its first gate.
fn begin<D: Disk>(alloc: Global, disk: &mut D) -> Result<State, OpenFault>
    requires new { IsNew (D.contents disk.old) }
    requires synced { OnlyFile (D.contents disk.old) (D.may_leave disk.old) }
    ensures opens { IfOk result (OpensAs (D.contents disk.old) (D.contents disk.new)
        (D.may_leave disk.new)) }
    ensures cause { IfErr result (OpenCause (D.contents disk.old)) }
    ensures any_moment { LeavesOnly D.moment D.left_since disk.old disk.new IsNew }
    ensures reach { D.reach disk.old disk.new 2 1 1 }
    ensures calls { OnOk result (D.calls disk.new ≡ calls_after 2 (D.calls disk.old)) }
    ensures few { D.calls disk.new ≤ D.calls disk.old + 2 }
    ensures kept { OnOk result (D.faults disk.new ≡ D.faults disk.old) }
    ensures stays { D.faults disk.old ≤ D.faults disk.new }
    ensures rose { IsErrOf result faults.DiskFault → Rose (D.faults disk.old) (D.faults disk.new) }
{
    let state = State::new(alloc)?;
    store(disk, 0, &[0])?;
    Ok(state)
}

/// All bytes of the file.
fn read_file<D: Disk>(alloc: Global, disk: &mut D, size: u64) -> Result<Vec<u8>, OpenFault>
    requires size { size ≡ length (D.contents disk.old) }
    requires within { size ≤ MAX_JOURNAL }
    ensures bytes { IfOk result (λ bytes. bytes.items ≡ D.contents disk.old) }
    ensures contents { D.contents disk.new ≡ D.contents disk.old }
    ensures leaves { SameFiles (D.may_leave disk.old) (D.may_leave disk.new) }
    ensures any_moment { LeavesOnly D.moment D.left_since disk.old disk.new (D.may_leave disk.old) }
    ensures cause { IfErr result (OpenCause (D.contents disk.old)) }
    ensures reach { D.reach disk.old disk.new 0 0 0 }
    ensures kept { OnOk result (D.faults disk.new ≡ D.faults disk.old) }
    ensures stays { D.faults disk.old ≤ D.faults disk.new }
    ensures rose { IsErrOf result faults.DiskFault → Rose (D.faults disk.old) (D.faults disk.new) }
{
    let size = size as usize;
    let mut chunk = vec![in alloc; 0u8; size.min(CHUNK)]?;
    let mut bytes = Vec::with_capacity(alloc, size)?;
    while bytes.len() < size {
        let count = disk.read_at(bytes.len() as u64, &mut chunk)?;
        bytes.extend_from_slice(&chunk[..count])?;
    }
    Ok(bytes)
}
