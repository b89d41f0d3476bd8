use super::*;
use hy_base::Blob;
use hy_record::{CloudAct, CloudSay, Key, Stamp, Wish};
use std::alloc::Global;
use std::test::Fail;

fn key(text: &str) -> Result<Key, Fail> {
    let key = Key::read(text.as_bytes()).ok().ok_or("a key")?;
    Ok(key)
}

fn stamp(sn: u32) -> Result<Stamp, Fail> {
    let stamp = Stamp::new(sn, 1).ok_or("a stamp")?;
    Ok(stamp)
}

fn blob(alloc: Global, bytes: &[u8]) -> Result<Blob, Fail> {
    let blob = Blob::copy_of(alloc, bytes).ok().ok_or("bytes")?;
    Ok(blob)
}

/// What the cloud answers to a request about the object of this key and sequence number.
fn asked(
    cloud: &mut Cloud,
    alloc: Global,
    at: &str,
    sn: u32,
    act: CloudAct,
) -> Result<CloudSay, Fail> {
    let wish = Wish {
        key: key(at)?,
        stamp: stamp(sn)?,
        act,
    };
    let say = cloud.serve(alloc, &wish).ok().ok_or("an answer")?;
    Ok(say)
}

#[test]
fn first_bytes_are_held_until_deleted(rt: HostRuntime) -> Result<(), Fail> {
    let alloc = rt.alloc();
    let mut cloud = Cloud::new(alloc).ok().ok_or("a cloud")?;
    let rows = [
        ("a", 1, CloudAct::Get, CloudSay::Missing),
        (
            "a",
            1,
            CloudAct::Put(blob(alloc, &[1])?),
            CloudSay::Stored { fresh: true },
        ),
        (
            "a",
            1,
            CloudAct::Put(blob(alloc, &[1])?),
            CloudSay::Stored { fresh: false },
        ),
        (
            "a",
            1,
            CloudAct::Put(blob(alloc, &[2])?),
            CloudSay::Conflict,
        ),
        (
            "a",
            2,
            CloudAct::Put(blob(alloc, &[2])?),
            CloudSay::Stored { fresh: true },
        ),
        (
            "b",
            1,
            CloudAct::Put(blob(alloc, &[])?),
            CloudSay::Stored { fresh: true },
        ),
        ("a", 1, CloudAct::Get, CloudSay::Body(blob(alloc, &[1])?)),
        ("a", 1, CloudAct::Delete, CloudSay::Gone),
        ("a", 1, CloudAct::Delete, CloudSay::Gone),
        ("a", 1, CloudAct::Get, CloudSay::Missing),
        ("a", 2, CloudAct::Get, CloudSay::Body(blob(alloc, &[2])?)),
        ("b", 1, CloudAct::Get, CloudSay::Body(blob(alloc, &[])?)),
        (
            "a",
            1,
            CloudAct::Put(blob(alloc, &[2])?),
            CloudSay::Stored { fresh: true },
        ),
    ];
    for (at, sn, act, due) in rows {
        let say = asked(&mut cloud, alloc, at, sn, act)?;
        assert!(rt; say == due, "{at} {sn}");
    }
    assert!(rt; cloud.holds(&key("a")?, stamp(1)?) == Some(&[2][..]));
    assert!(rt; cloud.holds(&key("b")?, stamp(2)?) == None);
    Ok(())
}
