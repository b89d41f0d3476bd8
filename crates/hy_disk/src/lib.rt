//! A disk that may crash at any moment, and one in memory.
//!
//! `Disk` is a file with four calls: `size`, `read_at`, `write_at` and `sync`. Its meanings are
//! what a read gives, the files that a crash may leave at this moment and at each moment since an
//! earlier one, and a count of faults. Between two syncs a crash may leave any bytes in each range
//! that was written and past the old end, and any length from the old to the new one; after a sync
//! that succeeded it leaves what a read gives. `MemDisk` is such a file in memory, on which chosen
//! calls fail:
//!
//!     let mut disk = MemDisk::new(alloc, 1_024, failing)?;
//!     disk.write_at(0, b"ab")?;
//!     disk.sync()?;
//!
//! The definitions are in `specs/`: `Disk` (what each call does to the file, and a write that was
//! cut short), `Crash` (moments), `MemDisk` (the files as functions of the writes and syncs), and
//! `Laws`.
//!
//! Proved: `MemDisk` is exactly the disk that its writes and syncs make. It says when each call
//! fails, that a failed call changes nothing but the counts, and, by `Reach`, that no call fails
//! for want of room where the room suffices for so many writes, syncs and bytes. Trusted: nothing
//! here. That a real disk meets `Disk` is for whoever writes one.
#![tactic(auto)]

mod calls;
mod disk;
mod file;
mod mem_disk;
mod past;

pub use disk::Disk;
pub use mem_disk::MemDisk;

#[cfg(test)]
mod tests;
