//! A conditional swap by one client: what it sends, tells of itself and replies.

ghost use Rattle.std.specs.Prelude.{IsTrue};

use super::*;
use hy_base::Blob;
use hy_record::{
    Action, CloudReply, CloudSay, Cue, Key, MetaAsk, MetaSay, Out, Phase, Record, Reply, Stamp,
};
use std::alloc::Global;
use std::process::Abort;
use std::test::Fail;

/// The record of `abc` with the timestamp 1 of client 1, that the clouds 0 and 1 of three hold.
const RECORD_OF_ABC: &[u8] =
    b"010100000001000000010000000301010003ba7816bf8f01cfea414140de5dae2223b00361a396177a9cb410ff61f20015ad";

/// The same with the last timestamp of client 1.
const LAST_RECORD: &[u8] =
    b"0101fffffffe000000010000000301010003ba7816bf8f01cfea414140de5dae2223b00361a396177a9cb410ff61f20015ad";

fn key() -> Result<Key, Fail> {
    let key = Key::read(b"_a").ok().ok_or("a key")?;
    Ok(key)
}

/// The timestamp of this number, of client 1.
fn stamp(sn: u32) -> Result<Stamp, Fail> {
    let stamp = Stamp::new(sn, 1).ok_or("a stamp")?;
    Ok(stamp)
}

fn record(alloc: Global, digits: &[u8]) -> Result<Record, Fail> {
    let bytes = hex::decode(alloc, digits).ok().ok_or("hexadecimal digits")?;
    let record = Record::decode(alloc, &bytes).ok().ok_or("a record")?;
    Ok(record)
}

fn has(rec: Option<Record>) -> Result<Cue, Fail> {
    let key = key()?;
    Ok(Cue::Meta(MetaSay::Has {
        client: 1,
        op: 1,
        key,
        rec,
    }))
}

/// The cloud stored its fragment of the timestamp 1.
fn stored(cloud: u8) -> Result<Cue, Fail> {
    let key = key()?;
    let stamp = stamp(1)?;
    Ok(Cue::Cloud(CloudReply {
        client: 1,
        op: 1,
        cloud,
        key,
        stamp,
        say: CloudSay::Stored { fresh: true },
    }))
}

fn kept(sn: u32) -> Result<Cue, Fail> {
    let key = key()?;
    let stamp = stamp(sn)?;
    Ok(Cue::Meta(MetaSay::Kept {
        client: 1,
        op: 1,
        key,
        stamp,
    }))
}

fn swapped(sn: u32) -> Result<Cue, Fail> {
    let key = key()?;
    let stamp = stamp(sn)?;
    Ok(Cue::Meta(MetaSay::Swapped {
        client: 1,
        op: 1,
        key,
        stamp,
    }))
}

fn changed(sn: u32) -> Result<Cue, Fail> {
    let key = key()?;
    let stamp = stamp(sn)?;
    Ok(Cue::Meta(MetaSay::Changed {
        client: 1,
        op: 1,
        key,
        stamp,
    }))
}

/// Whether these are the swap of the record of `abc`, where there was none, and nothing else.
fn is_swap(alloc: Global, sends: &[Out]) -> Result<bool, Fail> {
    let swap = MetaAsk::Swap {
        client: 1,
        op: 1,
        key: key()?,
        expected: Stamp::zero(),
        rec: record(alloc, RECORD_OF_ABC)?,
    };
    if sends.len() != 1 {
        return Ok(false);
    }
    match &sends[0] {
        Out::Meta(sent) => Ok(*sent == swap),
        Out::Cloud(_sent) => Ok(false),
    }
}

/// Swaps to `abc` in a store of three clouds: how far the swap is before each input, how many messages it sends then, and
/// the reply at the last input.
fn expect_swap(
    rt: &impl Abort,
    alloc: Global,
    expected: Stamp,
    inputs: &[Cue],
    told: &[(Phase, u32, u32, usize)],
    reply: &Reply,
) -> Result<(), Fail> {
    let action = Action::Swap {
        key: key()?,
        expected,
        value: Blob::copy_of(alloc, b"abc")?,
    };
    let mut client = Client::new(1, 1, 1);
    assert_eq!(rt; client.invoke(alloc, &action)?.len(), 1);
    for (place, row) in told.iter().enumerate() {
        let (phase, have, need, sent) = *row;
        assert!(rt;
            client.running()
                == Some(Running {
                    op: 1,
                    phase,
                    have,
                    need
                }),
            "before input {place}"
        );
        let cue = inputs.get(place).ok_or("an input")?;
        let turn = client.step(alloc, cue)?;
        assert_eq!(rt; turn.sends.items().len(), sent);
        if phase == Phase::Store && have == 1 && sent == 1 {
            assert!(rt; is_swap(alloc, turn.sends.items())?);
        }
        match &turn.reply {
            Some(given) => assert!(rt; *given == *reply),
            None => assert!(rt; place.saturating_add(1) < told.len(), "no reply"),
        }
    }
    assert!(rt; client.running().is_none());
    assert_eq!(rt; client.tick(alloc)?.sends.items().len(), 0);
    Ok(())
}

#[test]
fn swaps_are_done_or_told_what_changed(rt: HostRuntime) -> Result<(), Fail> {
    let alloc = rt.alloc();
    let none = Stamp::zero();
    let first = stamp(1)?;
    let second = stamp(2)?;
    let last = stamp(4_294_967_294)?;
    let told = [
        (Phase::Read, 0, 1, 2),
        (Phase::Store, 0, 2, 0),
        (Phase::Store, 1, 2, 1),
        (Phase::Update, 0, 1, 0),
        (Phase::Update, 0, 1, 1),
        (Phase::Update, 0, 1, 0),
    ];
    let done = vec![in alloc;
        has(None)?,
        stored(0)?,
        stored(1)?,
        kept(1)?,
        Cue::Tick,
        swapped(1)?,
    ]?;
    expect_swap(&rt, alloc, none, &done, &told, &Reply::Swapped(first))?;
    let late = vec![in alloc;
        has(None)?,
        stored(0)?,
        stored(1)?,
        kept(1)?,
        Cue::Tick,
        changed(2)?,
    ]?;
    expect_swap(&rt, alloc, none, &late, &told, &Reply::Changed(second))?;
    let read = [(Phase::Read, 0, 1, 0)];
    let early = vec![in alloc; has(Some(record(alloc, RECORD_OF_ABC)?))?]?;
    expect_swap(&rt, alloc, none, &early, &read, &Reply::Changed(first))?;
    let full = vec![in alloc; has(Some(record(alloc, LAST_RECORD)?))?]?;
    expect_swap(&rt, alloc, last, &full, &read, &Reply::Exhausted(last))
}
