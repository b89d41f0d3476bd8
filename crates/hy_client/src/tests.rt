//! The collector's sends, a client's refusals, and how far operations tell that they are.

ghost use Rattle.std.specs.Prelude.{IsTrue};
ghost use Rattle.hy_base.specs.Shape.{IsShape};

use super::*;
use hy_base::Blob;
use hy_record::{
    Action, CloudAct, CloudAsk, CloudReply, CloudSay, Cue, Key, MetaAsk, MetaSay, Out, Phase,
    Record, Reply, Stamp, Stamps, Wish,
};
use std::alloc::Global;
use std::process::Abort;
use std::test::Fail;

fn swap_key() -> Result<Key, Fail> {
    let key = Key::read(b"_a").ok().ok_or("a key")?;
    Ok(key)
}

fn key() -> Result<Key, Fail> {
    let key = Key::read(b"a").ok().ok_or("a key")?;
    Ok(key)
}

/// The timestamp of this number, of client 1.
fn stamp(sn: u32) -> Result<Stamp, Fail> {
    let stamp = Stamp::new(sn, 1).ok_or("a stamp")?;
    Ok(stamp)
}

/// The timestamps of the numbers 1 and 2.
fn two_stamps(alloc: Global) -> Result<Stamps, Fail> {
    let first = stamp(1)?;
    let second = stamp(2)?;
    if first.is_below(&second) {
        Ok(Stamps::of(vec![in alloc; first, second]?))
    } else {
        Err("an order".into())
    }
}

fn one_stamp(alloc: Global) -> Result<Stamps, Fail> {
    let first = stamp(1)?;
    Ok(Stamps::of(vec![in alloc; first]?))
}

fn old_list(stamps: Stamps) -> Result<Cue, Fail> {
    let key = key()?;
    Ok(Cue::Meta(MetaSay::OldList {
        client: 1,
        op: 1,
        key,
        stamps,
    }))
}

fn forgot() -> Result<Cue, Fail> {
    let key = key()?;
    Ok(Cue::Meta(MetaSay::Forgot {
        client: 1,
        op: 1,
        key,
    }))
}

/// What the cloud answers about the object of this number.
fn answer(cloud: u8, sn: u32, say: CloudSay) -> Result<Cue, Fail> {
    let key = key()?;
    let stamp = stamp(sn)?;
    Ok(Cue::Cloud(CloudReply {
        client: 1,
        op: 1,
        cloud,
        key,
        stamp,
        say,
    }))
}

/// Whether it is a deletion of the object of this number, in this cloud.
fn is_delete(out: &Out, cloud: u8, sn: u32) -> Result<bool, Fail> {
    let key = key()?;
    let stamp = stamp(sn)?;
    let wish = Wish {
        key,
        stamp,
        act: CloudAct::Delete,
    };
    let ask = CloudAsk {
        client: 1,
        op: 1,
        cloud,
        wish,
    };
    match out {
        Out::Cloud(sent) => Ok(*sent == ask),
        Out::Meta(_sent) => Ok(false),
    }
}

/// Whether it is the request to the service.
fn is_asked(out: &Out, ask: &MetaAsk) -> bool {
    match out {
        Out::Meta(sent) => *sent == *ask,
        Out::Cloud(_sent) => false,
    }
}

/// A collection by client 1 as its operation 1.
fn collection(alloc: Global, f: u8, k: u8) -> Result<CollectOp, Fail>
    requires { IsShape f k }
{
    let key = key()?;
    let (collect, sends) = CollectOp::start(alloc, 1, 1, &key, f, k)?;
    let olds = MetaAsk::Olds {
        client: 1,
        op: 1,
        key,
    };
    if sends.len() == 1 && is_asked(&sends[0], &olds) {
        Ok(collect)
    } else {
        Err("one request for the timestamps".into())
    }
}

#[test]
fn collected_under_reader(rt: HostRuntime) -> Result<(), Fail> {
    let alloc = rt.alloc();
    let key = key()?;
    let mut collect = collection(alloc, 0, 1)?;
    let listed = collect.step(alloc, &old_list(one_stamp(alloc)?)?)?;
    let sends = listed.sends.items();
    assert_eq!(rt; sends.len(), 1);
    assert!(rt; is_delete(&sends[0], 0, 1)?);
    let gone = collect.step(alloc, &answer(0, 1, CloudSay::Gone)?)?;
    let sends = gone.sends.items();
    assert_eq!(rt; sends.len(), 1);
    let forget = MetaAsk::Forget {
        client: 1,
        op: 1,
        key,
        stamps: one_stamp(alloc)?,
    };
    assert!(rt; is_asked(&sends[0], &forget));
    let again = collect.step(alloc, &Cue::Tick)?;
    assert!(rt; again.sends.items().len() == 1 && again.reply.is_none());
    let forgot = collect.step(alloc, &forgot()?)?;
    assert_eq!(rt; forgot.sends.items().len(), 0);
    assert!(rt; forgot.reply == Some(Reply::Collected(1)));
    let later = collect.step(alloc, &Cue::Tick)?;
    assert!(rt; later.sends.items().len() == 0 && later.reply.is_none());
    Ok(())
}

/// The deletions of a timestamp of the clouds below this number: whether each is sent once, and nothing else.
fn are_deletes(sends: &[Out], clouds: u8) -> Result<bool, Fail> {
    let mut place = 0usize;
    for sn in [1, 2] {
        for cloud in 0..clouds {
            match sends.get(place) {
                Some(out) => {
                    if !is_delete(out, cloud, sn)? {
                        return Ok(false);
                    }
                }
                None => return Ok(false),
            }
            place = place.saturating_add(1);
        }
    }
    Ok(place == sends.len())
}

#[test]
fn largest_shape_deletes_in_ten_clouds(rt: HostRuntime) -> Result<(), Fail> {
    let alloc = rt.alloc();
    let mut collect = collection(alloc, 3, 4)?;
    let asked = collect.step(alloc, &Cue::Tick)?;
    assert_eq!(rt; asked.sends.items().len(), 1);
    let listed = collect.step(alloc, &old_list(two_stamps(alloc)?)?)?;
    assert!(rt; are_deletes(listed.sends.items(), 10)?);
    for cloud in [9, 9, 3, 4, 5, 6, 7, 10, 8] {
        let first = collect.step(alloc, &answer(cloud, 1, CloudSay::Gone)?)?;
        assert_eq!(rt; first.sends.items().len(), 0);
    }
    assert_eq!(rt; (collect.have(), collect.need()), (1, 2));
    let again = collect.step(alloc, &Cue::Tick)?;
    assert_eq!(rt; again.sends.items().len(), 13);
    for cloud in [0, 1, 2, 3, 4, 5] {
        let second = collect.step(alloc, &answer(cloud, 2, CloudSay::Gone)?)?;
        assert_eq!(rt; second.sends.items().len(), 0);
    }
    let stray = collect.step(alloc, &answer(6, 3, CloudSay::Gone)?)?;
    assert_eq!(rt; stray.sends.items().len(), 0);
    let missing = collect.step(alloc, &answer(6, 2, CloudSay::Missing)?)?;
    assert_eq!(rt; missing.sends.items().len(), 0);
    let last = collect.step(alloc, &answer(6, 2, CloudSay::Gone)?)?;
    assert_eq!(rt; last.sends.items().len(), 1);
    Ok(())
}

/// A put of so many bytes.
fn put_of(alloc: Global, count: usize) -> Result<Action, Fail> {
    let key = key()?;
    let value = Blob::of(vec![in alloc; 7u8; count]?);
    Ok(Action::Put { key, value })
}

#[test]
fn invoke_refusals(rt: HostRuntime) -> Result<(), Fail> {
    let alloc = rt.alloc();
    let mut client = Client::new(1, 0, 1);
    let large = put_of(alloc, 1_048_577)?;
    assert!(rt; client.invoke(alloc, &large).err() == Some(InvokeFault::TooLarge(1_048_577)));
    assert!(rt; client.begun() == 0 && client.running().is_none());
    let largest = put_of(alloc, 1_048_576)?;
    let sends = client.invoke(alloc, &largest)?;
    let read = MetaAsk::Read {
        client: 1,
        op: 1,
        key: key()?,
    };
    assert!(rt; sends.len() == 1 && is_asked(&sends[0], &read));
    assert!(rt; client.begun() == 1);
    assert!(rt; client.invoke(alloc, &large).err() == Some(InvokeFault::Busy(1)));
    let misplaced = Action::Delete { key: swap_key()? };
    assert!(rt; client.invoke(alloc, &misplaced).err() == Some(InvokeFault::Busy(1)));
    let mut other = Client::new(1, 0, 1);
    assert!(rt; other.invoke(alloc, &misplaced).err() == Some(InvokeFault::WrongKey));
    client.stop();
    assert!(rt; client.invoke(alloc, &large).err() == Some(InvokeFault::Stopped));
    assert_eq!(rt; client.tick(alloc)?.sends.items().len(), 0);
    assert!(rt; client.begun() == 1);
    Ok(())
}

const RECORD_OF_ABC: &[u8] =
    b"010100000001000000010000000301010003ba7816bf8f01cfea414140de5dae2223b00361a396177a9cb410ff61f20015ad";

/// The record of `abc` that the clouds 0 and 1 hold, with the timestamp 1 of client 1.
fn record_of_abc(alloc: Global) -> Result<Option<Record>, Fail> {
    let bytes = hex::decode(alloc, RECORD_OF_ABC)
        .ok()
        .ok_or("hexadecimal digits")?;
    let record = Record::decode(alloc, &bytes).ok().ok_or("a record")?;
    Ok(Some(record))
}

fn has(rec: Option<Record>) -> Result<Cue, Fail> {
    let key = key()?;
    Ok(Cue::Meta(MetaSay::Has {
        client: 1,
        op: 1,
        key,
        rec,
    }))
}

fn fired(sn: u32) -> Result<Cue, Fail> {
    let key = key()?;
    let stamp = stamp(sn)?;
    Ok(Cue::Meta(MetaSay::Fired {
        client: 1,
        op: 1,
        key,
        stamp,
    }))
}

fn stored(cloud: u8) -> Result<Cue, Fail> {
    answer(cloud, 1, CloudSay::Stored { fresh: true })
}

/// How far the action is after each of the inputs, in a store of three clouds: before the first, and after each.
fn expect_phases(
    rt: &impl Abort,
    alloc: Global,
    action: &Action,
    inputs: &[Cue],
    told: &[(Phase, u32, u32)],
) -> Result<(), Fail> {
    let mut client = Client::new(1, 1, 1);
    let _sends = client.invoke(alloc, action)?;
    for (place, expected) in told.iter().enumerate() {
        let (phase, have, need) = *expected;
        assert!(rt;
            client.running()
                == Some(Running {
                    op: 1,
                    phase,
                    have,
                    need
                }),
            "after {place} inputs"
        );
        match inputs.get(place) {
            Some(cue) => {
                let _turn = client.step(alloc, cue)?;
            }
            None => return Ok(()),
        }
    }
    assert!(rt; client.running().is_none());
    Ok(())
}

#[test]
fn writes_tell_their_phases(rt: HostRuntime) -> Result<(), Fail> {
    let alloc = rt.alloc();
    let key = key()?;
    let applied = Cue::Meta(MetaSay::Applied {
        client: 1,
        op: 1,
        key,
        stamp: stamp(1)?,
    });
    let puts = vec![in alloc; has(None)?, stored(2)?, stored(2)?, stored(0)?, applied]?;
    let put = put_of(alloc, 3)?;
    let told = [
        (Phase::Read, 0, 1),
        (Phase::Store, 0, 2),
        (Phase::Store, 1, 2),
        (Phase::Store, 1, 2),
        (Phase::Update, 0, 1),
    ];
    expect_phases(&rt, alloc, &put, &puts, &told)?;
    let kept = Cue::Meta(MetaSay::Kept {
        client: 1,
        op: 1,
        key,
        stamp: stamp(2)?,
    });
    let deletes = vec![in alloc; has(None)?, kept]?;
    let told = [(Phase::Read, 0, 1), (Phase::Update, 0, 1)];
    expect_phases(&rt, alloc, &Action::Delete { key }, &deletes, &told)
}

#[test]
fn gets_tell_their_phases(rt: HostRuntime) -> Result<(), Fail> {
    let alloc = rt.alloc();
    let key = key()?;
    let abc = CloudSay::Body(Blob::copy_of(alloc, b"abc")?);
    let gets = vec![in alloc;
        has(record_of_abc(alloc)?)?,
        answer(0, 1, CloudSay::Missing)?,
        answer(1, 1, CloudSay::Missing)?,
        fired(1)?,
        answer(2, 1, abc)?,
    ]?;
    let told = [
        (Phase::Read, 0, 1),
        (Phase::Fetch, 0, 1),
        (Phase::Fetch, 0, 1),
        (Phase::Watch, 0, 1),
        (Phase::Reread, 0, 1),
    ];
    expect_phases(&rt, alloc, &Action::Get { key }, &gets, &told)
}

#[test]
fn collections_tell_their_phases(rt: HostRuntime) -> Result<(), Fail> {
    let alloc = rt.alloc();
    let key = key()?;
    let gone = CloudSay::Gone;
    let collects = vec![in alloc;
        old_list(two_stamps(alloc)?)?,
        answer(0, 1, CloudSay::Gone)?,
        answer(2, 1, CloudSay::Gone)?,
        answer(1, 2, CloudSay::Gone)?,
        answer(2, 2, gone)?,
        forgot()?,
    ]?;
    let told = [
        (Phase::Olds, 0, 1),
        (Phase::Drop, 0, 2),
        (Phase::Drop, 0, 2),
        (Phase::Drop, 1, 2),
        (Phase::Drop, 1, 2),
        (Phase::Forget, 0, 1),
    ];
    expect_phases(&rt, alloc, &Action::Collect { key }, &collects, &told)
}
