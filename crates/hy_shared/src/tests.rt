//! Sessions on one table: what they write, read and are told, at every shape and at the largest numbers.

ghost use Rattle.std.specs.Prelude.{◌≡◌, ◌<◌, ◌≤◌, ◌+◌, None, OnOk, IfOk, IsTrue, vec_len};
ghost use Rattle.std.specs.Thread.{IsSync};
ghost use Rattle.hy_base.specs.Shape.{IsShape};
ghost use Rattle.hy_base.specs.declared.limits.TheConstants.{MAX_F, MAX_K, MAX_VALUE};
ghost use Rattle.hy_record.specs.Record.{is_cloud_list, kind_of_parts};
ghost use Rattle.hy_shared.specs.Sessions.{new_session_of};

use super::*;
use crate::places::{hash_count, packed};
use hy_base::{Blob, cloud_count, quorum_size};
use hy_points::ActKind;
use hy_record::{Hash, Record, Reply, Stamp, sha};
use std::alloc::Global;
use std::process::Abort;
use std::test::Fail;
use std::thread::{Threads, join};

/// The hashes of a record of this shape.
fn hashes_of(alloc: Global, f: u8, k: u8) -> Result<Vec<Hash>, Fail>
    requires { IsShape f k }
    ensures { IfOk result (λ hashes. vec_len hashes ≡ Rattle.hy_record.specs.Record.hash_count (kind_of_parts k) f k) }
{
    let count = hash_count(f, k);
    let mut hashes = Vec::new(alloc);
    for i in 0..count {
        hashes.push(sha(&[i as u8]))?;
    }
    Ok(hashes)
}

/// Whether the bits name a quorum of the store's clouds.
fn lists_quorum(f: u8, k: u8, clouds: u16) -> bool
    requires faults { f ≤ MAX_F }
    requires parts { k ≤ MAX_K }
    ensures { result ≡ is_cloud_list f k clouds }
{
    u32::from(clouds) < 1 << cloud_count(f, k)
        && clouds.count_ones() == u32::from(quorum_size(f, k))
}

/// The session puts a value of this size to the key; the record that it wrote, and what it was told.
fn put(
    rt: &impl Abort,
    alloc: Global,
    table: &SharedMeta,
    pass: &mut Pass,
    key: u32,
    size: u32,
    clouds: u16,
) -> Result<Record, Fail>
    requires table { pass.old.table ≡ table.now }
    requires idle { pass.old.running ≡ None }
    requires room { pass.old.begun < table.now.layout.ops }
    requires key { key < table.now.layout.keys }
    requires size { size ≤ MAX_VALUE }
    requires clouds { IsTrue (is_cloud_list table.now.layout.f table.now.layout.k clouds) }
    ensures table { OnOk result (pass.new.table ≡ pass.old.table) }
    ensures idle { OnOk result (pass.new.running ≡ None) }
    ensures begun { OnOk result (pass.new.begun ≡ pass.old.begun + 1) }
{
    let layout = table.layout();
    let hashes = hashes_of(alloc, layout.f, layout.k)?;
    table.begin(pass, key, ActKind::Put);
    let found = table.read(alloc, pass)?;
    let above = match &found {
        None => Stamp::zero(),
        Some(found) => found.rec.stamp(),
    };
    let Some(stamp) = above.after(pass.client()) else {
        panic!(rt; "no next timestamp")
    };
    assert!(rt; stamp.sn() > 0 && stamp.cid() > 0);
    let rec = Record::value(alloc, stamp, size, layout.f, layout.k, clouds, &hashes)?;
    assert!(rt; matches!(table.update(pass, &rec), Said::Applied));
    table.finish(pass, &Reply::Done(stamp));
    Ok(rec)
}

/// The session deletes the key.
fn delete(
    rt: &impl Abort,
    alloc: Global,
    table: &SharedMeta,
    pass: &mut Pass,
    key: u32,
) -> Result<Record, Fail>
    requires table { pass.old.table ≡ table.now }
    requires idle { pass.old.running ≡ None }
    requires room { pass.old.begun < table.now.layout.ops }
    requires key { key < table.now.layout.keys }
    ensures table { OnOk result (pass.new.table ≡ pass.old.table) }
    ensures idle { OnOk result (pass.new.running ≡ None) }
    ensures begun { OnOk result (pass.new.begun ≡ pass.old.begun + 1) }
{
    table.begin(pass, key, ActKind::Delete);
    let found = table.read(alloc, pass)?;
    let above = match &found {
        None => Stamp::zero(),
        Some(found) => found.rec.stamp(),
    };
    let Some(stamp) = above.after(pass.client()) else {
        panic!(rt; "no next timestamp")
    };
    let rec = Record::deletion(alloc, stamp);
    assert!(rt; matches!(table.update(pass, &rec), Said::Applied));
    table.finish(pass, &Reply::Done(stamp));
    Ok(rec)
}

/// The session gets the key; what it found.
fn get(alloc: Global, table: &SharedMeta, pass: &mut Pass, key: u32) -> Result<Option<Found>, Fail>
    requires table { pass.old.table ≡ table.now }
    requires idle { pass.old.running ≡ None }
    requires room { pass.old.begun < table.now.layout.ops }
    requires key { key < table.now.layout.keys }
    ensures table { OnOk result (pass.new.table ≡ pass.old.table) }
    ensures idle { OnOk result (pass.new.running ≡ None) }
    ensures begun { OnOk result (pass.new.begun ≡ pass.old.begun + 1) }
{
    let bytes = Blob::copy_of(alloc, b"value")?;
    table.begin(pass, key, ActKind::Get);
    let found = table.read(alloc, pass)?;
    match &found {
        None => {
            table.finish(pass, &Reply::Absent(Stamp::zero()));
        }
        Some(found) => {
            if found.rec.is_tomb() {
                table.finish(pass, &Reply::Absent(found.rec.stamp()));
            } else {
                table.finish(pass, &Reply::Value(bytes, found.rec.stamp()));
            }
        }
    }
    Ok(found)
}

/// One session writes a value of this shape and deletes it; another reads each, and neither before.
fn reads_back(
    rt: &impl Abort,
    alloc: Global,
    f: u8,
    k: u8,
    size: u32,
    clouds: u16,
) -> Result<(), Fail>
    requires shape { IsShape f k }
    requires size { size ≤ MAX_VALUE }
    requires clouds { IsTrue (is_cloud_list f k clouds) }
{
    let (table, mut root) = SharedMeta::new(alloc, 3, 2, 3, f, k)?;
    let mut writer = table.split(&mut root);
    let mut reader = table.split(&mut root);
    assert!(rt; get(alloc, &table, &mut reader, 2)?.is_none());
    let value = put(rt, alloc, &table, &mut writer, 2, size, clouds)?;
    match get(alloc, &table, &mut reader, 2)? {
        None => panic!(rt; "no record"),
        Some(found) => assert!(rt; found.rec == value && found.row == 0),
    }
    let deletion = delete(rt, alloc, &table, &mut writer, 2)?;
    match get(alloc, &table, &mut reader, 2)? {
        None => panic!(rt; "no deletion"),
        Some(found) => assert!(rt; found.rec == deletion && found.row == 1),
    }
    Ok(())
}

#[test]
fn records_of_every_kind_and_shape_are_read_back(rt: HostRuntime) -> Result<(), Fail> {
    let shapes = [
        (0, 1, 0, 0b1),
        (3, 1, 1_048_576, 0b101_0101),
        (0, 2, 5, 0b11),
        (1, 2, 700, 0b1011),
        (2, 3, 4096, 0b11_0111),
        (3, 4, 1_048_576, 0b11_1111_1000),
    ];
    for (f, k, size, clouds) in shapes {
        assert!(rt; f <= 3 && 1 <= k && k <= 4 && size <= 1_048_576);
        assert!(rt; lists_quorum(f, k, clouds), "a quorum of f {f}, k {k}");
        reads_back(&rt, rt.alloc(), f, k, size, clouds)?;
    }
    Ok(())
}

#[test]
fn the_second_of_two_writes_is_kept(rt: HostRuntime) -> Result<(), Fail> {
    let (table, mut root) = SharedMeta::new(rt.alloc(), 1, 2, 1, 0, 1)?;
    let mut one = table.split(&mut root);
    let mut two = table.split(&mut root);
    assert!(rt; table.begin(&mut one, 0, ActKind::Put) == 1);
    assert!(rt; table.begin(&mut two, 0, ActKind::Put) == 2);
    assert!(rt; table.read(rt.alloc(), &mut one)?.is_none());
    assert!(rt; table.read(rt.alloc(), &mut two)?.is_none());
    let Some(first) = Stamp::zero().after(1) else {
        panic!(rt; "no next timestamp")
    };
    let Some(second) = Stamp::zero().after(2) else {
        panic!(rt; "no next timestamp")
    };
    let upper = Record::deletion(rt.alloc(), second);
    let lower = Record::deletion(rt.alloc(), first);
    assert!(rt; matches!(table.update(&mut two, &upper), Said::Applied));
    match table.update(&mut one, &lower) {
        Said::Kept(stamp) => assert!(rt; stamp == second),
        Said::Applied => panic!(rt; "a lower timestamp was applied"),
    }
    assert!(rt; table.finish(&mut one, &Reply::Done(first)) == 3);
    assert!(rt; table.finish(&mut two, &Reply::Done(second)) == 4);
    table.meet(&mut one, &mut two);
    Ok(())
}

#[test]
fn heads_bear_the_largest_numbers(rt: HostRuntime) -> Result<(), Fail> {
    let heads = [
        (1, 1, 0, 0x1_0100_0000),
        (1, 255, 16_777_215, 0x1_ffff_ffff),
        (4_294_967_294, 1, 16_777_215, 0xffff_fffe_01ff_ffff),
        (4_294_967_294, 255, 16_777_215, 0xffff_fffe_ffff_ffff),
    ];
    for (sn, cid, row, word) in heads {
        assert!(rt; cid < 256 && row < 16_777_216);
        let Some(stamp) = Stamp::new(sn, cid) else {
            panic!(rt; "no such timestamp")
        };
        assert!(rt; packed(&stamp, row) == word, "the word of {sn} {cid} {row}");
    }
    Ok(())
}

/// The session of the last of 255 clients.
fn last_session(table: &SharedMeta, root: &mut Root) -> Pass
    requires table { root.old.table ≡ table.now }
    requires none { root.old.given ≡ 0 }
    requires most { table.now.layout.clients ≡ 255 }
    ensures { result ≡ new_session_of table.now 255 }
{
    let mut last = table.split(root);
    for _given in 1u32..255 {
        last = table.split(root);
    }
    last
}

#[test]
fn the_last_of_the_most_clients_is_served(rt: HostRuntime) -> Result<(), Fail> {
    let (table, mut root) = SharedMeta::new(rt.alloc(), 65_536, 255, 2, 0, 1)?;
    let mut last = last_session(&table, &mut root);
    let layout = table.layout();
    assert!(rt;
        lists_quorum(layout.f, layout.k, 1),
        "a quorum of one cloud"
    );
    let rec = put(&rt, rt.alloc(), &table, &mut last, 65_535, 3, 1)?;
    assert!(rt; rec.stamp().cid() == 255);
    match get(rt.alloc(), &table, &mut last, 65_535)? {
        None => panic!(rt; "no record"),
        Some(found) => assert!(rt; found.rec == rec && found.row == 508),
    }
    Ok(())
}

/// The session begins an operation on the first key.
fn begin_one(table: &SharedMeta, mut pass: Pass) -> Pass
    requires table { pass.table ≡ table.now }
    requires idle { pass.running ≡ None }
    requires room { pass.begun < table.now.layout.ops }
    requires key { 0 < table.now.layout.keys }
    ensures { (result.begun ≡ pass.begun + 1) × (result.table ≡ pass.table) }
{
    table.begin(&mut pass, 0, ActKind::Get);
    pass
}

/// Two sessions begin in threads of their own, and then the second has seen what the first has.
fn begin_both<R: Threads + Sync>(rt: &R, table: &SharedMeta, one: Pass, two: Pass) -> (Pass, Pass)
    requires one { (one.table ≡ table.now) × (one.running ≡ None) × (one.begun < table.now.layout.ops) }
    requires two { (two.table ≡ table.now) × (two.running ≡ None) × (two.begun < table.now.layout.ops) }
    requires key { 0 < table.now.layout.keys }
    ensures { (result.0.begun ≡ one.begun + 1) × (result.1.begun ≡ two.begun + 1) }
{
    let (mut first, mut second) = join(
        rt,
        move || -> Pass
            requires { (one.table ≡ table.now) × (one.running ≡ None) × (one.begun < table.now.layout.ops) × (0 < table.now.layout.keys) }
            ensures { (result.begun ≡ one.begun + 1) × (result.table ≡ one.table) }
        { begin_one(table, one) },
        move || -> Pass
            requires { (two.table ≡ table.now) × (two.running ≡ None) × (two.begun < table.now.layout.ops) × (0 < table.now.layout.keys) }
            ensures { (result.begun ≡ two.begun + 1) × (result.table ≡ two.table) }
        { begin_one(table, two) },
    );
    table.meet(&mut first, &mut second);
    (first, second)
}

#[test]
fn sessions_run_in_threads_of_their_own(rt: HostRuntime) -> Result<(), Fail> {
    let (table, mut root) = SharedMeta::new(rt.alloc(), 1, 2, 1, 0, 1)?;
    let one = table.split(&mut root);
    let two = table.split(&mut root);
    let (first, second) = begin_both(&rt, &table, one, two);
    assert_eq!(rt; (first.begun(), second.begun()), (1, 1));
    Ok(())
}
