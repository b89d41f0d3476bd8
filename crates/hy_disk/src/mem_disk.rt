//! A disk in memory, of which a crash may leave any file that the writes since the last sync allow.

ghost use Rattle.std.specs.Prelude.{◌≡◌, ◌⊎◌, ◌↔◌, ◌+◌, length, IfOk, IsErr};
ghost use Rattle.hy_base.specs.Faults.{HasCause, next_count};
ghost use Rattle.hy_disk.specs.Disk.{ReadsAt, SameFiles, WriteGives, WriteLeaves, SyncLeaves};
ghost use Rattle.hy_disk.specs.Crash.{Elapses};
ghost use Rattle.hy_disk.specs.MemDisk.{contents_after, MayLeave, LeftSince, fresh_disk, FailsByNumber, IsPastFull, LacksRoom, has_room, after_look, after_step, given_count, wrote, synced, Reach};
ghost use Rattle.hy_disk.specs.Laws.{contents_left, counts_now, only_now, reach_same, reach_then, reach_more};

use crate::calls::{Calls, fault};
use crate::disk::Disk;
use crate::file::write_into;
use crate::past::Past;
use hy_base::{Failed, NoMemory};
use std::alloc::Global;
use std::marker::Model;

/// A file with room for so many bytes, on which chosen calls fail.
///
/// It keeps each write and each sync, with room for as many bytes, and for one write or sync for
/// each 8 bytes of the room. No call takes memory, and one that fails changes nothing.
#[derive(Debug, Drop)]
pub struct MemDisk {
    file: Vec<u8>,
    past: Past,
    room: usize,
    calls: Calls,
    faults: u64,
}

impl Model for MemDisk {
    ghost use Rattle.hy_disk.specs.MemDisk.{DiskValue, steps_of, IsReserved};

    ghost Value = { DiskValue };

    ghost view = { λ disk. record {
      steps = steps_of disk.past;
      room = disk.room;
      failing = disk.calls.failing.items;
      calls = disk.calls.made;
      faults = disk.faults;
    } };

    ghost invariant = { λ disk. IsReserved disk.file disk.past disk.room };
}

impl MemDisk {
    /// An empty file, which is all that a crash may leave. Memory is reserved.
    ///
    /// The calls fail whose numbers, counted from 1, are in `failing`.
    #[tactic(auto, unfolding(crate::specs::MemDisk::laid, crate::specs::MemDisk::marked, crate::specs::MemDisk::contents_after))]
    pub fn new(alloc: Global, room: usize, failing: Vec<u32>) -> Result<MemDisk, NoMemory>
        ensures { IfOk result (λ disk. disk ≡ fresh_disk room failing.items) }
    {
        let file = Vec::with_capacity(alloc, room)?;
        let bytes = Vec::with_capacity(alloc, room)?;
        let marks = Vec::with_capacity(alloc, room / 8)?;
        Ok(MemDisk {
            file,
            past: Past { marks, bytes },
            room,
            calls: Calls::new(failing),
            faults: 0,
        })
    }

    /// Whether a write of so many bytes at this place has room.
    fn has_room(&self, place: u64, size: usize) -> bool
        ensures { result ≡ has_room self.now place size }
    {
        let room = self.room as u128;
        let end = u128::from(place) + size as u128;
        let total = self.past.size() as u128 + size as u128;
        end <= room && total <= room && self.past.count() < self.room / 8
    }
}

impl Disk for MemDisk {
    ghost contents = { λ disk. contents_after disk.steps };

    ghost may_leave = { λ disk. MayLeave disk.steps };

    ghost moment = { λ disk. length disk.steps };

    ghost left_since = { λ disk. LeftSince disk.steps };

    ghost faults = { λ disk. disk.faults };

    ghost calls = { λ disk. disk.calls };

    ghost reach = { Reach };

    ghost reach_same = { reach_same };

    ghost reach_then = { reach_then };

    ghost reach_more = { reach_more };

    ghost contents_left = { λ disk. contents_left disk.steps };

    ghost counts_now = { λ disk t c within now. counts_now disk.steps t c within now };

    ghost only_now = { λ disk c left. only_now disk.steps c left };

    fn size(&mut self) -> Result<u64, Failed>
        ensures size { IfOk result (λ size. size ≡ length (contents_after self.old.steps)) }
        ensures contents { contents_after self.new.steps ≡ contents_after self.old.steps }
        ensures leaves { SameFiles (MayLeave self.old.steps) (MayLeave self.new.steps) }
        ensures reach { Reach self.old self.new 0 0 0 }
        ensures time { Elapses (length self.old.steps) (length self.new.steps)
            (LeftSince self.old.steps) (LeftSince self.new.steps) (MayLeave self.new.steps) }
        ensures calls { self.new.calls ≡ next_count self.old.calls }
        ensures cause { HasCause self.old.faults self.new.faults result }
        ensures fails { IsErr result ↔ FailsByNumber self.old }
        ensures after { self.new ≡ after_look self.old result }
    {
        if self.calls.next_fails() {
            return Err(fault(&mut self.faults));
        }
        Ok(self.file.len() as u64)
    }

    fn read_at(&mut self, place: u64, buf: &mut [u8]) -> Result<usize, Failed>
        ensures bytes { IfOk result (ReadsAt (contents_after self.old.steps) place buf.new) }
        ensures contents { contents_after self.new.steps ≡ contents_after self.old.steps }
        ensures leaves { SameFiles (MayLeave self.old.steps) (MayLeave self.new.steps) }
        ensures reach { Reach self.old self.new 0 0 0 }
        ensures time { Elapses (length self.old.steps) (length self.new.steps)
            (LeftSince self.old.steps) (LeftSince self.new.steps) (MayLeave self.new.steps) }
        ensures calls { self.new.calls ≡ next_count self.old.calls }
        ensures cause { HasCause self.old.faults self.new.faults result }
        ensures fails { IsErr result ↔ FailsByNumber self.old }
        ensures gives { IfOk result (λ count. count ≡ given_count self.old place (length buf.old)) }
        ensures after { self.new ≡ after_look self.old result }
    {
        if self.calls.next_fails() {
            return Err(fault(&mut self.faults));
        }
        if place >= self.file.len() as u64 {
            return Ok(0);
        }
        let rest = &self.file[place as usize..];
        let count = buf.len().min(rest.len());
        buf[..count].copy_from_slice(&rest[..count]);
        Ok(count)
    }

    fn write_at(&mut self, place: u64, bytes: &[u8]) -> Result<(), Failed>
        ensures contents { WriteGives place bytes.now
            (contents_after self.old.steps) (contents_after self.new.steps) result }
        ensures leaves { WriteLeaves place (length bytes.now)
            (MayLeave self.old.steps) (MayLeave self.new.steps) result }
        ensures reach { Reach self.old self.new 1 (length bytes.now) (place + length bytes.now) }
        ensures time { Elapses (length self.old.steps) (length self.new.steps)
            (LeftSince self.old.steps) (LeftSince self.new.steps) (MayLeave self.new.steps) }
        ensures calls { self.new.calls ≡ next_count self.old.calls }
        ensures cause { HasCause self.old.faults self.new.faults result }
        ensures fails { IsErr result
            ↔ (FailsByNumber self.old ⊎ LacksRoom self.old place (length bytes.now)) }
        ensures after { self.new ≡ after_step self.old (wrote place bytes.now) result }
    {
        if self.calls.next_fails() || !self.has_room(place, bytes.len()) {
            return Err(fault(&mut self.faults));
        }
        write_into(&mut self.file, place as usize, bytes);
        self.past.add_write(place, bytes);
        Ok(())
    }

    fn sync(&mut self) -> Result<(), Failed>
        ensures contents { contents_after self.new.steps ≡ contents_after self.old.steps }
        ensures leaves { SyncLeaves (contents_after self.old.steps)
            (MayLeave self.old.steps) (MayLeave self.new.steps) result }
        ensures reach { Reach self.old self.new 1 0 0 }
        ensures time { Elapses (length self.old.steps) (length self.new.steps)
            (LeftSince self.old.steps) (LeftSince self.new.steps) (MayLeave self.new.steps) }
        ensures calls { self.new.calls ≡ next_count self.old.calls }
        ensures cause { HasCause self.old.faults self.new.faults result }
        ensures fails { IsErr result ↔ (FailsByNumber self.old ⊎ IsPastFull self.old) }
        ensures after { self.new ≡ after_step self.old synced result }
    {
        if self.calls.next_fails() || self.past.count() >= self.room / 8 {
            return Err(fault(&mut self.faults));
        }
        self.past.add_sync();
        Ok(())
    }
}
