//! The messages of puts and deletes, input by input.

ghost use Rattle.std.specs.Prelude.{◌≡◌, ◌<◌, ◌≤◌};
ghost use Rattle.hy_base.specs.Shape.{IsShape};

use super::*;
use hy_base::{Blob, NoMemory};
use hy_record::{
    CloudAct, CloudReply, CloudSay, Cue, Key, MetaAsk, MetaSay, Out, Phase, Record, Reply, Stamp,
};
use std::alloc::Global;
use std::process::Abort;
use std::test::Fail;

fn key(rt: &impl Abort) -> Key {
    Key::read(b"a").ok().expect(rt, "a key")
}

fn stamp(rt: &impl Abort, sn: u32, cid: u32) -> Stamp {
    Stamp::new(sn, cid).expect(rt, "a timestamp")
}

/// So many bytes.
fn bytes(alloc: Global, count: usize) -> Result<Vec<u8>, Fail> {
    let bytes = vec![in alloc; 7u8; count]?;
    Ok(bytes)
}

/// Operation 1 of client 1: a put of these bytes, or a delete.
fn plan(rt: &impl Abort, alloc: Global, f: u8, k: u8, bytes: Option<&[u8]>) -> PutPlan
    ensures faults { result.f ≡ f }
    ensures parts { result.k ≡ k }
    ensures client { 1 ≤ result.client }
{
    let key = key(rt);
    let value = bytes.map(|bytes| Blob::copy_of(alloc, bytes).ok().expect(rt, "memory"));
    PutPlan {
        client: 1,
        op: 1,
        key,
        value,
        f,
        k,
    }
}

/// The put of this plan, which was told no record; it has sent one request for it.
fn begun(rt: &impl Abort, alloc: Global, f: u8, k: u8, bytes: Option<&[u8]>) -> PutOp
    requires { IsShape f k }
{
    let plan = plan(rt, alloc, f, k, bytes);
    let (put, sends) = PutOp::start(alloc, &plan).ok().expect(rt, "a put");
    assert_eq!(rt; words(rt, alloc, &sends).as_str(), "read ");
    put
}

fn has(rt: &impl Abort, rec: Option<Record>) -> Cue {
    Cue::Meta(MetaSay::Has {
        client: 1,
        op: 1,
        key: key(rt),
        rec,
    })
}

fn applied(rt: &impl Abort) -> Cue {
    Cue::Meta(MetaSay::Applied {
        client: 1,
        op: 1,
        key: key(rt),
        stamp: stamp(rt, 1, 1),
    })
}

/// The answer of a cloud about timestamp 1 1, to this operation of client 1.
fn answer(rt: &impl Abort, op: u32, cloud: u8, say: CloudSay) -> Cue {
    Cue::Cloud(CloudReply {
        client: 1,
        op,
        cloud,
        key: key(rt),
        stamp: stamp(rt, 1, 1),
        say,
    })
}

fn stored(rt: &impl Abort, cloud: u8) -> Cue {
    answer(rt, 1, cloud, CloudSay::Stored { fresh: true })
}

/// A message in words.
fn words_of(alloc: Global, out: &Out) -> Result<String, NoMemory> {
    let words = match out {
        Out::Meta(MetaAsk::Read { .. }) => format!(in alloc; "read ")?,
        Out::Meta(MetaAsk::Update { rec, .. }) => {
            let stamp = rec.stamp();
            format!(in alloc;
                "update {} {} size {} in {} ",
                stamp.sn(),
                stamp.cid(),
                rec.size(),
                rec.clouds()
            )?
        }
        Out::Meta(_) => format!(in alloc; "other ")?,
        Out::Cloud(ask) => match &ask.wish.act {
            CloudAct::Put(bytes) => format!(in alloc; "put {} {:?} ", ask.cloud, bytes.bytes())?,
            CloudAct::Get | CloudAct::Delete => format!(in alloc; "other ")?,
        },
    };
    Ok(words)
}

/// Messages in words.
fn words(rt: &impl Abort, alloc: Global, outs: &[Out]) -> String {
    let mut text = String::new(alloc);
    for out in outs {
        let words = words_of(alloc, out).ok().expect(rt, "memory");
        text.push_str(&words).ok().expect(rt, "memory");
    }
    text
}

/// A reply in words.
fn reply_words(alloc: Global, reply: &Option<Reply>) -> Result<String, NoMemory> {
    let words = match reply {
        Some(Reply::Done(stamp)) => format!(in alloc; "done {} {}", stamp.sn(), stamp.cid())?,
        Some(Reply::Exhausted(stamp)) => format!(in alloc;
            "exhausted {} {}",
            stamp.sn(),
            stamp.cid()
        )?,
        Some(_) => format!(in alloc; "other")?,
        None => String::new(alloc),
    };
    Ok(words)
}

/// Hands in an input, after which these messages and this reply come.
fn takes(rt: &impl Abort, alloc: Global, put: &mut PutOp, cue: Cue, sends: &str, reply: &str) {
    let turn = put.step(alloc, &cue).ok().expect(rt, "memory");
    assert_eq!(rt; words(rt, alloc, turn.sends.items()).as_str(), sends);
    let replied = reply_words(alloc, &turn.reply).ok().expect(rt, "memory");
    assert_eq!(rt; replied.as_str(), reply);
}

/// How far the put is.
fn is_at(rt: &impl Abort, put: &PutOp, phase: Phase, have: u32, need: u32) {
    assert!(rt; put.phase() == phase, "{have} of {need}");
    assert_eq!(rt; (put.have(), put.need()), (have, need));
}

#[test]
fn put_step_by_step(rt: HostRuntime) {
    let alloc = rt.alloc();
    let mut put = begun(&rt, alloc, 1, 1, Some(&[1]));
    is_at(&rt, &put, Phase::Read, 0, 1);
    takes(
        &rt,
        alloc,
        &mut put,
        has(&rt, None),
        "put 0 [1] put 1 [1] ",
        "",
    );
    is_at(&rt, &put, Phase::Store, 0, 2);
    takes(&rt, alloc, &mut put, stored(&rt, 0), "", "");
    is_at(&rt, &put, Phase::Store, 1, 2);
    takes(
        &rt,
        alloc,
        &mut put,
        stored(&rt, 1),
        "update 1 1 size 1 in 3 ",
        "",
    );
    is_at(&rt, &put, Phase::Update, 0, 1);
    takes(&rt, alloc, &mut put, applied(&rt), "", "done 1 1");
    takes(&rt, alloc, &mut put, Cue::Tick, "", "");
    is_at(&rt, &put, Phase::Update, 0, 1);
}

#[test]
fn repeated_ack_counts_once(rt: HostRuntime) {
    let alloc = rt.alloc();
    let mut put = begun(&rt, alloc, 1, 1, Some(&[1]));
    takes(
        &rt,
        alloc,
        &mut put,
        has(&rt, None),
        "put 0 [1] put 1 [1] ",
        "",
    );
    takes(&rt, alloc, &mut put, stored(&rt, 0), "", "");
    takes(&rt, alloc, &mut put, stored(&rt, 0), "", "");
    is_at(&rt, &put, Phase::Store, 1, 2);
}

#[test]
fn tick_reaches_spare_clouds(rt: HostRuntime) {
    let alloc = rt.alloc();
    let mut put = begun(&rt, alloc, 1, 1, Some(&[1]));
    takes(&rt, alloc, &mut put, Cue::Tick, "read ", "");
    takes(
        &rt,
        alloc,
        &mut put,
        has(&rt, None),
        "put 0 [1] put 1 [1] ",
        "",
    );
    takes(&rt, alloc, &mut put, stored(&rt, 0), "", "");
    takes(&rt, alloc, &mut put, Cue::Tick, "put 1 [1] put 2 [1] ", "");
    takes(
        &rt,
        alloc,
        &mut put,
        stored(&rt, 2),
        "update 1 1 size 1 in 5 ",
        "",
    );
    takes(&rt, alloc, &mut put, stored(&rt, 1), "", "");
    takes(
        &rt,
        alloc,
        &mut put,
        Cue::Tick,
        "update 1 1 size 1 in 5 ",
        "",
    );
}

#[test]
fn coded_put_with_padding(rt: HostRuntime) {
    let alloc = rt.alloc();
    let mut put = begun(&rt, alloc, 1, 2, Some(&[1, 2, 3]));
    takes(
        &rt,
        alloc,
        &mut put,
        has(&rt, None),
        "put 0 [1, 2] put 1 [3, 0] put 2 [5, 6] ",
        "",
    );
    takes(&rt, alloc, &mut put, stored(&rt, 0), "", "");
    takes(&rt, alloc, &mut put, stored(&rt, 1), "", "");
    takes(
        &rt,
        alloc,
        &mut put,
        Cue::Tick,
        "put 2 [5, 6] put 3 [7, 4] ",
        "",
    );
    takes(
        &rt,
        alloc,
        &mut put,
        stored(&rt, 2),
        "update 1 1 size 3 in 7 ",
        "",
    );
}

#[test]
fn records_have_the_hashes_of_fragments(rt: HostRuntime) {
    let alloc = rt.alloc();
    let mut put = begun(&rt, alloc, 0, 2, Some(&[1, 2, 3]));
    takes(
        &rt,
        alloc,
        &mut put,
        has(&rt, None),
        "put 0 [1, 2] put 1 [3, 0] ",
        "",
    );
    takes(&rt, alloc, &mut put, stored(&rt, 0), "", "");
    let turn = put.step(alloc, &stored(&rt, 1)).ok().expect(&rt, "memory");
    for out in turn.sends.items() {
        if let Out::Meta(MetaAsk::Update { rec, .. }) = out {
            assert!(rt; rec.is_valid(0, &[1, 2]) && rec.is_valid(1, &[3, 0]));
            return;
        }
    }
    assert!(rt; false, "no update was sent");
}

#[test]
fn only_acknowledgements_of_its_own_count(rt: HostRuntime) {
    let alloc = rt.alloc();
    let mut put = begun(&rt, alloc, 0, 1, Some(&[1]));
    takes(&rt, alloc, &mut put, has(&rt, None), "put 0 [1] ", "");
    takes(
        &rt,
        alloc,
        &mut put,
        answer(&rt, 1, 0, CloudSay::Conflict),
        "",
        "",
    );
    takes(&rt, alloc, &mut put, stored(&rt, 1), "", "");
    takes(
        &rt,
        alloc,
        &mut put,
        answer(&rt, 2, 0, CloudSay::Stored { fresh: true }),
        "",
        "",
    );
    takes(&rt, alloc, &mut put, applied(&rt), "", "");
    takes(
        &rt,
        alloc,
        &mut put,
        answer(&rt, 1, 0, CloudSay::Stored { fresh: false }),
        "update 1 1 size 1 in 1 ",
        "",
    );
}

#[test]
fn delete_needs_no_cloud(rt: HostRuntime) {
    let alloc = rt.alloc();
    let mut delete = begun(&rt, alloc, 1, 1, None);
    is_at(&rt, &delete, Phase::Read, 0, 1);
    takes(
        &rt,
        alloc,
        &mut delete,
        has(&rt, None),
        "update 1 1 size 0 in 0 ",
        "",
    );
    is_at(&rt, &delete, Phase::Update, 0, 1);
    takes(
        &rt,
        alloc,
        &mut delete,
        Cue::Tick,
        "update 1 1 size 0 in 0 ",
        "",
    );
    takes(&rt, alloc, &mut delete, applied(&rt), "", "done 1 1");
}

/// The answer that the record has the last timestamp that there is.
fn last(rt: &impl Abort, alloc: Global) -> Cue {
    let last = Stamp::new(4_294_967_294, 7).expect(rt, "a timestamp");
    let rec = Record::tomb(alloc, last).ok().expect(rt, "memory");
    has(rt, Some(rec))
}

#[test]
fn no_timestamp_is_left(rt: HostRuntime) {
    let alloc = rt.alloc();
    let mut put = begun(&rt, alloc, 1, 2, Some(&[1]));
    takes(
        &rt,
        alloc,
        &mut put,
        last(&rt, alloc),
        "",
        "exhausted 4294967294 7",
    );
    is_at(&rt, &put, Phase::Store, 0, 3);
    let mut delete = begun(&rt, alloc, 1, 2, None);
    takes(
        &rt,
        alloc,
        &mut delete,
        last(&rt, alloc),
        "",
        "exhausted 4294967294 7",
    );
    is_at(&rt, &delete, Phase::Update, 0, 1);
}

#[test]
fn largest_values(rt: HostRuntime) -> Result<(), Fail> {
    let alloc = rt.alloc();
    let most = bytes(alloc, 1_048_576)?;
    let _put = begun(&rt, alloc, 0, 1, Some(&most));
    let more = bytes(alloc, 1_048_577)?;
    let plan = plan(&rt, alloc, 0, 1, Some(&more));
    assert_eq!(rt;
        PutOp::start(alloc, &plan).err(),
        Some(StartFault::TooLarge(1_048_577))
    );
    Ok(())
}

#[test]
fn largest_shape(rt: HostRuntime) {
    let alloc = rt.alloc();
    let mut put = begun(&rt, alloc, 3, 4, Some(&[7, 7, 7, 7]));
    takes(
        &rt,
        alloc,
        &mut put,
        has(&rt, None),
        "put 0 [7] put 1 [7] put 2 [7] put 3 [7] put 4 [7] put 5 [7] put 6 [7] ",
        "",
    );
    for cloud in [9u8, 1, 2, 3, 4, 5] {
        takes(&rt, alloc, &mut put, stored(&rt, cloud), "", "");
    }
    is_at(&rt, &put, Phase::Store, 6, 7);
    // clouds 1 to 5, 7 and 9
    takes(
        &rt,
        alloc,
        &mut put,
        stored(&rt, 7),
        "update 1 1 size 4 in 702 ",
        "",
    );
}
