//! Gets input by input, against worked rows.

use super::*;
use hy_base::Blob;
use hy_code::split;
use hy_record::{
    CloudAct, CloudReply, CloudSay, Cue, Key, MetaAsk, MetaSay, Out, Phase, Record, Reply, Stamp,
    sha,
};
use std::alloc::Global;
use std::process::Abort;

/// A message that a get sends.
#[derive(Clone, Copy, Debug, PartialEq, Eq)]
enum Sent {
    Read,
    /// Of the timestamp with this number.
    Watch(u32),
    /// Of the timestamp with this number, to this cloud.
    Get(u32, u8),
    Other,
}

fn shown(out: &Out) -> Sent {
    match out {
        Out::Meta(MetaAsk::Read { .. }) => Sent::Read,
        Out::Meta(MetaAsk::Watch { stamp, .. }) => Sent::Watch(stamp.sn()),
        Out::Meta(_) => Sent::Other,
        Out::Cloud(ask) => match &ask.wish.act {
            CloudAct::Get => Sent::Get(ask.wish.stamp.sn(), ask.cloud),
            CloudAct::Put(_) | CloudAct::Delete => Sent::Other,
        },
    }
}

fn key(rt: &impl Abort) -> Key {
    Key::read(b"a").ok().expect(rt, "a key")
}

fn stamp(rt: &impl Abort, sn: u32) -> Stamp {
    Stamp::new(sn, 1).expect(rt, "a timestamp")
}

fn blob(rt: &impl Abort, alloc: Global, bytes: &[u8]) -> Blob {
    Blob::copy_of(alloc, bytes).ok().expect(rt, "memory")
}

/// What the cloud holds of a value that is cut into k parts.
fn fragment(rt: &impl Abort, alloc: Global, value: &[u8], k: u8, cloud: u8) -> Blob {
    assert!(rt; 0 < k && k <= 4, "a number of parts");
    assert!(rt;
        cloud < 10 && value.len() < 256,
        "a cloud and a short value"
    );
    let fragments = split(alloc, value, k, 10).ok().expect(rt, "memory");
    blob(rt, alloc, fragments.get(cloud))
}

/// The hashes of a value's record, one after the other.
fn hashes(rt: &impl Abort, alloc: Global, f: u8, k: u8, value: &[u8]) -> Vec<u8> {
    if k == 1 {
        return Vec::from_slice(alloc, sha(value).bytes())
            .ok()
            .expect(rt, "memory");
    }
    let mut hashes = Vec::new(alloc);
    for cloud in 0..2u8.wrapping_mul(f).wrapping_add(k) {
        let hash = sha(fragment(rt, alloc, value, k, cloud).bytes());
        hashes
            .extend_from_slice(hash.bytes())
            .ok()
            .expect(rt, "memory");
    }
    hashes
}

/// An answer of the service: the record of this value, whose clouds are those with the lowest numbers.
fn has_value(rt: &impl Abort, alloc: Global, sn: u8, f: u8, k: u8, value: &[u8]) -> Cue {
    let kind = if k == 1 { 1 } else { 2 };
    let size = u8::try_from(value.len()).ok().expect(rt, "a short value");
    let clouds = 1u16
        .wrapping_shl(u32::from(f.wrapping_add(k)))
        .wrapping_sub(1);
    let fields = [1, kind, 0, 0, 0, sn, 0, 0, 0, 1, 0, 0, 0, size, f, k];
    let mut bytes = Vec::from_slice(alloc, &fields).ok().expect(rt, "memory");
    bytes
        .extend_from_slice(&clouds.to_be_bytes())
        .ok()
        .expect(rt, "memory");
    bytes
        .extend_from_slice(&hashes(rt, alloc, f, k, value))
        .ok()
        .expect(rt, "memory");
    has(rt, alloc, &bytes)
}

/// An answer of the service: the record that these bytes spell, or none.
fn has(rt: &impl Abort, alloc: Global, bytes: &[u8]) -> Cue {
    Cue::Meta(MetaSay::Has {
        client: 1,
        op: 2,
        key: key(rt),
        rec: Record::decode(alloc, bytes).ok(),
    })
}

fn fired(rt: &impl Abort, sn: u32) -> Cue {
    Cue::Meta(MetaSay::Fired {
        client: 1,
        op: 2,
        key: key(rt),
        stamp: stamp(rt, sn),
    })
}

fn answer(rt: &impl Abort, cloud: u8, sn: u32, say: CloudSay) -> Cue {
    Cue::Cloud(CloudReply {
        client: 1,
        op: 2,
        cloud,
        key: key(rt),
        stamp: stamp(rt, sn),
        say,
    })
}

fn body(rt: &impl Abort, alloc: Global, cloud: u8, sn: u32, bytes: &[u8]) -> Cue {
    answer(rt, cloud, sn, CloudSay::Body(blob(rt, alloc, bytes)))
}

/// A phase, what the get has, and what it needs.
type Progress = (Phase, u32, u32);

fn assert_sent(rt: &impl Abort, alloc: Global, sends: &[Out], want: &[Sent]) {
    let got: Vec<Sent> = sends
        .iter()
        .map(shown)
        .collect(alloc)
        .ok()
        .expect(rt, "memory");
    assert_eq!(rt; got.as_slice(), want);
}

/// A get of the key, as operation 2 of client 1.
fn started(rt: &impl Abort, alloc: Global) -> GetOp {
    let (get, sends) = GetOp::start(alloc, 1, 2, &key(rt))
        .ok()
        .expect(rt, "memory");
    assert_sent(rt, alloc, &sends, &[Sent::Read]);
    get
}

/// At the input the get sends these, does not reply, and is so far then.
fn goes_on(
    rt: &impl Abort,
    alloc: Global,
    get: &mut GetOp,
    cue: &Cue,
    want: &[Sent],
    progress: Progress,
) {
    let turn = get.step(alloc, cue).ok().expect(rt, "memory");
    assert!(rt; turn.reply.is_none());
    assert_sent(rt, alloc, turn.sends.items(), want);
    assert_eq!(rt; (get.phase(), get.have(), get.need()), progress);
}

/// At the input the get replies this and sends nothing, and after it does nothing any more.
fn ends(
    rt: &impl Abort,
    alloc: Global,
    get: &mut GetOp,
    cue: &Cue,
    want: &Reply,
    progress: Progress,
) {
    let turn = get.step(alloc, cue).ok().expect(rt, "memory");
    let reply = turn.reply.expect(rt, "a reply");
    assert!(rt; reply == *want);
    assert!(rt; turn.sends.items().is_empty());
    goes_on(rt, alloc, get, &Cue::Tick, &[], progress);
}

fn value(rt: &impl Abort, alloc: Global, bytes: &[u8], sn: u32) -> Reply {
    Reply::Value(blob(rt, alloc, bytes), stamp(rt, sn))
}

const FETCH: Progress = (Phase::Fetch, 0, 1);

/// A get of the byte that a write stored whole, of which the first cloud answers another.
fn rejects_another(rt: &impl Abort, alloc: Global, sn: u8, stored: u8, other: u8) {
    let mut get = started(rt, alloc);
    let at = u32::from(sn);
    let has = has_value(rt, alloc, sn, 1, 1, &[stored]);
    goes_on(rt, alloc, &mut get, &has, &[Sent::Get(at, 0)], FETCH);
    let lie = body(rt, alloc, 0, at, &[other]);
    goes_on(rt, alloc, &mut get, &lie, &[Sent::Get(at, 1)], FETCH);
    let truth = body(rt, alloc, 1, at, &[stored]);
    let reply = value(rt, alloc, &[stored], at);
    ends(rt, alloc, &mut get, &truth, &reply, (Phase::Fetch, 1, 1));
}

#[test]
fn lying_body_is_rejected(rt: HostRuntime) {
    rejects_another(&rt, rt.alloc(), 1, 1, 0);
}

#[test]
fn stale_body_is_rejected(rt: HostRuntime) {
    rejects_another(&rt, rt.alloc(), 2, 2, 1);
}

#[test]
fn late_valid_fragment_of_a_failed_cloud_counts(rt: HostRuntime) {
    let alloc = rt.alloc();
    let mut get = started(&rt, alloc);
    let has = has_value(&rt, alloc, 1, 1, 1, &[1]);
    goes_on(&rt, alloc, &mut get, &has, &[Sent::Get(1, 0)], FETCH);
    let bad = answer(&rt, 0, 1, CloudSay::Bad(0));
    goes_on(&rt, alloc, &mut get, &bad, &[Sent::Get(1, 1)], FETCH);
    goes_on(&rt, alloc, &mut get, &bad, &[], FETCH);
    let late = body(&rt, alloc, 0, 1, &[1]);
    let reply = value(&rt, alloc, &[1], 1);
    ends(&rt, alloc, &mut get, &late, &reply, (Phase::Fetch, 1, 1));
}

/// A get whose only cloud holds its version no more, up to the record that it reads again.
fn reads_again(rt: &impl Abort, alloc: Global) -> GetOp {
    let mut get = started(rt, alloc);
    let all = [Sent::Watch(1), Sent::Get(1, 0)];
    let has = has_value(rt, alloc, 1, 0, 1, &[1]);
    goes_on(rt, alloc, &mut get, &has, &[Sent::Get(1, 0)], FETCH);
    let missing = answer(rt, 0, 1, CloudSay::Missing);
    goes_on(rt, alloc, &mut get, &missing, &all, (Phase::Watch, 0, 1));
    goes_on(rt, alloc, &mut get, &Cue::Tick, &all, (Phase::Watch, 0, 1));
    goes_on(
        rt,
        alloc,
        &mut get,
        &fired(rt, 2),
        &[],
        (Phase::Watch, 0, 1),
    );
    for want in [[Sent::Read].as_slice(), [].as_slice()] {
        goes_on(
            rt,
            alloc,
            &mut get,
            &fired(rt, 1),
            want,
            (Phase::Reread, 0, 1),
        );
    }
    goes_on(
        rt,
        alloc,
        &mut get,
        &Cue::Tick,
        &[Sent::Read],
        (Phase::Reread, 0, 1),
    );
    get
}

#[test]
fn collected_under_reader(rt: HostRuntime) {
    let alloc = rt.alloc();
    let mut get = reads_again(&rt, alloc);
    let newer = has_value(&rt, alloc, 2, 0, 1, &[2]);
    goes_on(&rt, alloc, &mut get, &newer, &[Sent::Get(2, 0)], FETCH);
    let old = body(&rt, alloc, 0, 1, &[1]);
    goes_on(&rt, alloc, &mut get, &old, &[], FETCH);
    let new = body(&rt, alloc, 0, 2, &[2]);
    let reply = value(&rt, alloc, &[2], 2);
    ends(&rt, alloc, &mut get, &new, &reply, (Phase::Fetch, 1, 1));
    assert_eq!(rt; get.rounds(), 1);
}

#[test]
fn coded_put_with_padding(rt: HostRuntime) {
    let alloc = rt.alloc();
    let mut get = started(&rt, alloc);
    let has = has_value(&rt, alloc, 1, 1, 2, &[1, 2, 3]);
    let first = [Sent::Get(1, 0), Sent::Get(1, 1)];
    goes_on(&rt, alloc, &mut get, &has, &first, (Phase::Fetch, 0, 2));
    let one = body(&rt, alloc, 1, 1, &[3, 0]);
    goes_on(&rt, alloc, &mut get, &one, &[], (Phase::Fetch, 1, 2));
    let missing = answer(&rt, 0, 1, CloudSay::Missing);
    goes_on(
        &rt,
        alloc,
        &mut get,
        &missing,
        &[Sent::Get(1, 2)],
        (Phase::Fetch, 1, 2),
    );
    let two = body(&rt, alloc, 2, 1, &[5, 6]);
    let reply = value(&rt, alloc, &[1, 2, 3], 1);
    ends(&rt, alloc, &mut get, &two, &reply, (Phase::Fetch, 2, 2));
}

#[test]
fn absent_keys_are_told_at_once(rt: HostRuntime) {
    let alloc = rt.alloc();
    let tomb = has(&rt, alloc, &[1, 0, 0, 0, 0, 2, 0, 0, 0, 1]);
    for (cue, at) in [(has(&rt, alloc, &[]), Stamp::zero()), (tomb, stamp(&rt, 2))] {
        let mut get = started(&rt, alloc);
        ends(
            &rt,
            alloc,
            &mut get,
            &cue,
            &Reply::Absent(at),
            (Phase::Fetch, 0, 0),
        );
    }
}

const LARGE: [u8; 7] = [1, 2, 3, 4, 5, 6, 7];

/// A get in the largest shape, of which timeouts and one answer have had all holders asked.
fn all_asked(rt: &impl Abort, alloc: Global) -> GetOp {
    let mut get = started(rt, alloc);
    let has = has_value(rt, alloc, 1, 3, 4, &LARGE);
    let [a, b, c, d, e, f, g] = [0, 1, 2, 3, 4, 5, 6].map(|cloud| Sent::Get(1, cloud));
    goes_on(
        rt,
        alloc,
        &mut get,
        &has,
        &[a, b, c, d],
        (Phase::Fetch, 0, 4),
    );
    for next in [e, f, g] {
        goes_on(
            rt,
            alloc,
            &mut get,
            &Cue::Tick,
            &[next],
            (Phase::Fetch, 0, 4),
        );
    }
    let all = [Sent::Watch(1), a, b, c, d, e, f, g];
    let gone = answer(rt, 3, 1, CloudSay::Gone);
    goes_on(rt, alloc, &mut get, &gone, &all, (Phase::Watch, 0, 4));
    get
}

#[test]
fn largest_shape(rt: HostRuntime) {
    let alloc = rt.alloc();
    let mut get = all_asked(&rt, alloc);
    for (cloud, have) in [(9, 1), (3, 2), (3, 2), (6, 3)] {
        let bytes = fragment(&rt, alloc, &LARGE, 4, cloud);
        let valid = body(&rt, alloc, cloud, 1, bytes.bytes());
        goes_on(&rt, alloc, &mut get, &valid, &[], (Phase::Watch, have, 4));
    }
    let bytes = fragment(&rt, alloc, &LARGE, 4, 0);
    let last = body(&rt, alloc, 0, 1, bytes.bytes());
    let reply = value(&rt, alloc, &LARGE, 1);
    ends(&rt, alloc, &mut get, &last, &reply, (Phase::Watch, 4, 4));
}
