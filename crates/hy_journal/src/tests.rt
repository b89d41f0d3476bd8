use super::*;
use hy_disk::{Disk, MemDisk};
use hy_record::{Key, MetaAsk, MetaSay, Record, Stamp};
use std::alloc::Global;
use std::test::Fail;

/// A new disk on which the call of this number fails.
fn disk_failing_at(alloc: Global, stop: u32) -> Result<MemDisk, Fail> {
    let failing = vec![in alloc; stop]?;
    let disk = MemDisk::new(alloc, 1_024, failing).ok().ok_or("a disk")?;
    Ok(disk)
}

/// The keeper of the disk, opened again where a call of the disk failed.
fn opened(alloc: Global, disk: MemDisk) -> Result<Keeper<MemDisk>, Fail> {
    match Keeper::open(alloc, disk) {
        Ok(keeper) => Ok(keeper),
        Err((disk, OpenFault::DiskFault)) => {
            let keeper = Keeper::open(alloc, disk).ok().ok_or("a keeper")?;
            Ok(keeper)
        }
        Err(_) => {
            let none: Option<Keeper<MemDisk>> = None;
            let keeper = none.ok_or("a keeper")?;
            Ok(keeper)
        }
    }
}

/// The id of the next session, 0 where a call of the disk failed; and the keeper that goes on.
fn joined(alloc: Global, keeper: Keeper<MemDisk>) -> Result<(u32, Keeper<MemDisk>), Fail> {
    let mut keeper = keeper;
    match keeper.join(alloc) {
        Ok(id) => Ok((id, keeper)),
        Err(_) => {
            let keeper = opened(alloc, keeper.into_disk())?;
            Ok((0, keeper))
        }
    }
}

/// The ids that three sessions get, and the length of the file behind them.
fn three(alloc: Global, stop: u32) -> Result<(u32, u32, u32, u64), Fail> {
    let disk = disk_failing_at(alloc, stop)?;
    let keeper = opened(alloc, disk)?;
    let (first, keeper) = joined(alloc, keeper)?;
    let (second, keeper) = joined(alloc, keeper)?;
    let (third, keeper) = joined(alloc, keeper)?;
    let mut disk = keeper.into_disk();
    let size = disk.size().ok().ok_or("a size")?;
    Ok((first, second, third, size))
}

#[test]
fn a_journal_survives_a_failed_call(rt: HostRuntime) -> Result<(), Fail> {
    let alloc = rt.alloc();
    assert_eq!(rt; three(alloc, 0)?, (1, 2, 3, 19));
    // In the opening, which is made again.
    assert_eq!(rt; three(alloc, 1)?, (1, 2, 3, 19));
    assert_eq!(rt; three(alloc, 3)?, (1, 2, 3, 19));
    assert_eq!(rt; three(alloc, 4)?, (1, 2, 3, 19));
    // In the first session: before its gate is on the disk, and after.
    assert_eq!(rt; three(alloc, 5)?, (0, 1, 2, 13));
    assert_eq!(rt; three(alloc, 6)?, (0, 1, 2, 13));
    assert_eq!(rt; three(alloc, 7)?, (0, 1, 2, 13));
    assert_eq!(rt; three(alloc, 8)?, (0, 2, 3, 19));
    // In the second.
    assert_eq!(rt; three(alloc, 11)?, (1, 0, 2, 13));
    assert_eq!(rt; three(alloc, 12)?, (1, 0, 3, 19));
    Ok(())
}

#[test]
fn an_update_is_found_again(rt: HostRuntime) -> Result<(), Fail> {
    let alloc = rt.alloc();
    let key = Key::read(b"a").ok().ok_or("a key")?;
    let stamp = Stamp::new(1, 1).ok_or("a stamp")?;
    let rec = Record::tomb(alloc, stamp).ok().ok_or("a record")?;
    let again = Record::tomb(alloc, stamp).ok().ok_or("a record")?;
    let disk = disk_failing_at(alloc, 0)?;
    let mut keeper = opened(alloc, disk)?;
    let update = MetaAsk::Update {
        client: 1,
        op: 1,
        key,
        rec,
    };
    let says = keeper.serve(alloc, &update).ok().ok_or("answers")?;
    assert_eq!(rt;
        says,
        vec![in alloc;
            MetaSay::Applied {
                client: 1,
                op: 1,
                key,
                stamp
            }
        ]?
    );
    let mut keeper = opened(alloc, keeper.into_disk())?;
    let says = keeper
        .serve(
            alloc,
            &MetaAsk::Read {
                client: 1,
                op: 2,
                key,
            },
        )
        .ok()
        .ok_or("answers")?;
    assert_eq!(rt;
        says,
        vec![in alloc;
            MetaSay::Has {
                client: 1,
                op: 2,
                key,
                rec: Some(again)
            }
        ]?
    );
    assert_eq!(rt; keeper.join(alloc), Ok(1));
    Ok(())
}

/// The first bytes of the disk's file.
fn front_of(alloc: Global, disk: &mut MemDisk, count: usize) -> Result<Vec<u8>, Fail> {
    let mut front = vec![in alloc; 0u8; count]?;
    let read = disk.read_at(0, &mut front).ok().ok_or("bytes")?;
    front.truncate(read);
    Ok(front)
}

/// What the keeper answers to a swap of the key `_a` by client 1, which expects no record.
fn swapped(alloc: Global, keeper: &mut Keeper<MemDisk>, op: u32) -> Result<Vec<MetaSay>, Fail> {
    let key = Key::read(b"_a").ok().ok_or("a key")?;
    let stamp = Stamp::new(1, 1).ok_or("a stamp")?;
    let swap = MetaAsk::Swap {
        client: 1,
        op,
        key,
        expected: Stamp::zero(),
        rec: Record::tomb(alloc, stamp).ok().ok_or("a record")?,
    };
    let says = keeper.serve(alloc, &swap).ok().ok_or("answers")?;
    Ok(says)
}

#[test]
fn a_swap_is_kept_as_it_was_served(rt: HostRuntime) -> Result<(), Fail> {
    let alloc = rt.alloc();
    let client = 1;
    let key = Key::read(b"_a").ok().ok_or("a key")?;
    let stamp = Stamp::new(1, 1).ok_or("a stamp")?;
    let disk = disk_failing_at(alloc, 0)?;
    let mut keeper = opened(alloc, disk)?;
    let done = MetaSay::Swapped {
        client,
        op: 1,
        key,
        stamp,
    };
    let done = vec![in alloc; done]?;
    assert_eq!(rt; swapped(alloc, &mut keeper, 1)?, done);
    let mut disk = keeper.into_disk();
    assert_eq!(rt;
        front_of(alloc, &mut disk, 64)?.as_slice(),
        [
            1, 0, 0, 0, 30, 7, 0, 0, 0, 1, 0, 0, 0, 1, 2, b'_', b'a', 0, 0, 0, 0, 0, 0, 0, 0, 1, 0,
            0, 0, 0, 1, 0, 0, 0, 1, 0,
        ]
        .as_slice()
    );
    // After a crash it is answered again, and the next one finds what it made.
    let mut keeper = opened(alloc, disk)?;
    assert_eq!(rt; swapped(alloc, &mut keeper, 1)?, done);
    let changed = MetaSay::Changed {
        client,
        op: 2,
        key,
        stamp,
    };
    assert_eq!(rt; swapped(alloc, &mut keeper, 2)?, vec![in alloc; changed]?);
    Ok(())
}

#[test]
fn requests_are_read_until_one_is_bad(rt: HostRuntime) -> Result<(), Fail> {
    let alloc = rt.alloc();
    let join = [0, 0, 0, 1, 1];
    let read = [0, 0, 0, 11, 2, 0, 0, 0, 1, 0, 0, 0, 1, 1, b'a'];
    let mut bytes = Vec::new(alloc);
    bytes.extend_from_slice(&join)?;
    bytes.extend_from_slice(&read)?;
    assert_eq!(rt;
        read_requests(alloc, &bytes).ok().ok_or("requests")?.len(),
        2
    );
    assert_eq!(rt; read_requests(alloc, &[]).ok().ok_or("requests")?.len(), 0);
    assert_eq!(rt;
        read_requests(alloc, &[0]).err(),
        Some(RequestsFault::BadFrame(0))
    );
    // The second frame is cut short, and then one of an answer.
    assert_eq!(rt;
        read_requests(alloc, &bytes[..19]).err(),
        Some(RequestsFault::BadFrame(5))
    );
    bytes.extend_from_slice(&[0, 0, 0, 1, 0x88])?;
    assert_eq!(rt;
        read_requests(alloc, &bytes).err(),
        Some(RequestsFault::BadFrame(20))
    );
    Ok(())
}
