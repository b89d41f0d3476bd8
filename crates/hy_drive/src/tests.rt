//! Runs over a net in memory: what is answered, and what was done on the net.

ghost use Rattle.std.specs.Prelude.{◌≡◌, false, IfOk};
ghost use Rattle.hy_record.specs.Key.{is_cell};
ghost use Rattle.hy_drive.specs.Role.{IsDrivable};

use super::*;
use hy_base::{Arrived, Blob, NetCall, NetTape};
use hy_record::{Action, Key, Reply, Stamp};
use std::alloc::Global;
use std::test::Fail;

/// What comes; the frames of the service, on connection 1, in hexadecimal digits.
#[derive(Clone, Copy, Drop)]
enum Came<'a> {
    Frames(&'a [u8]),
    Bytes(u32, &'a [u8]),
    Closed(u32),
    Quiet,
}

/// A net over which this comes.
fn tape(alloc: Global, script: &[Came], failing: &[u32]) -> Result<NetTape, Fail> {
    let mut arrivals = Vec::new(alloc);
    for came in script {
        let arrived = match *came {
            Came::Frames(digits) => {
                let frames = hex::decode(alloc, digits).ok().ok_or("digits")?;
                Arrived::Bytes(1, Blob::of(frames))
            }
            Came::Bytes(conn, bytes) => Arrived::Bytes(conn, Blob::copy_of(alloc, bytes)?),
            Came::Closed(conn) => Arrived::Closed(conn),
            Came::Quiet => Arrived::Quiet,
        };
        arrivals.push(arrived)?;
    }
    let failing = Vec::from_slice(alloc, failing)?;
    Ok(NetTape::new(alloc, arrivals, 65536, failing)?)
}

/// A job in a store of one cloud.
fn job(action: Action) -> Job
    ensures f { result.f ≡ 0 }
    ensures k { result.k ≡ 1 }
    ensures clouds { result.clouds ≡ 7100 }
    ensures action { result.action ≡ action }
{
    Job {
        f: 0,
        k: 1,
        meta: 7000,
        clouds: 7100,
        action,
    }
}

/// The key `a`.
fn key_a() -> Result<Key, Fail>
    ensures { IfOk result (λ key. is_cell key ≡ false) }
{
    let key = Key::read(b"a").ok().ok_or("a key")?;
    if key.is_cell() {
        Err("a compare-and-swap key")?;
    }
    Ok(key)
}

/// A put of `abc` under the key `a`.
fn put(alloc: Global) -> Result<Action, Fail>
    ensures { IfOk result IsDrivable }
{
    let key = key_a()?;
    let value = Blob::copy_of(alloc, b"abc")?;
    Ok(Action::Put { key, value })
}

/// A put is done with this timestamp.
fn done(sn: u32, cid: u32) -> Result<Result<Reply, DriveFault>, Fail> {
    let stamp = Stamp::new(sn, cid).ok_or("a timestamp")?;
    Ok(Ok(Reply::Done(stamp)))
}

const JOINED: &[u8] = b"000000058100000001";

const HAS_NONE: &[u8] = b"0000000c820000000100000001016100";

const HAS_LAST: &[u8] = b"000000168200000001000000010161010100fffffffe00000007";

const APPLIED: &[u8] = b"0000001383000000010000000101610000000100000001";

const HAS_ABC: &[u8] = b"0000003e820000000100000001016101\
010100000001000000010000000300010001\
ba7816bf8f01cfea414140de5dae2223b00361a396177a9cb410ff61f20015ad";

const FULL: &[u8] = b"0000000188";

/// Join, the request for the record, and the record.
const SENT: &[u8] = b"0000000101\
0000000b0200000001000000010161\
0000003d0300000001000000010161\
010100000001000000010000000300010001\
ba7816bf8f01cfea414140de5dae2223b00361a396177a9cb410ff61f20015ad";

const PUT: &[u8] =
    b"PUT /o/a/0000000100000001 HTTP/1.1\r\nHost: 127.0.0.1:7100\r\nContent-Length: 3\r\nConnection: close\r\n\r\nabc";

const GET: &[u8] =
    b"GET /o/a/0000000100000001 HTTP/1.1\r\nHost: 127.0.0.1:7100\r\nConnection: close\r\n\r\n";

const FOUND: &[u8] = b"HTTP/1.1 200 OK\r\nContent-Length: 3\r\nConnection: close\r\n\r\nabc";

const CREATED: &[u8] = b"HTTP/1.1 201 Created\r\nContent-Length: 0\r\nConnection: close\r\n\r\n";

/// A put that is done.
const PUT_DONE: [Came; 4] = [
    Came::Frames(JOINED),
    Came::Frames(HAS_NONE),
    Came::Bytes(2, CREATED),
    Came::Frames(APPLIED),
];

/// Runs a put of `abc`.
fn run_put(
    alloc: Global,
    net: &mut NetTape,
    arrivals: u32,
) -> Result<Result<Reply, DriveFault>, Fail> {
    let job = job(put(alloc)?);
    Ok(drive_client(net, alloc, &job, arrivals))
}

/// The first bytes of what is written in digits.
fn decoded(alloc: Global, digits: &[u8], size: usize) -> Result<Vec<u8>, Fail> {
    let mut bytes = hex::decode(alloc, digits).ok().ok_or("digits")?;
    bytes.truncate(size);
    Ok(bytes)
}

#[test]
fn put_exhausted_over_net(rt: HostRuntime) -> Result<(), Fail> {
    let alloc = rt.alloc();
    let mut net = tape(alloc, &[Came::Frames(JOINED), Came::Frames(HAS_LAST)], &[])?;
    let last = Stamp::new(4294967294, 7).ok_or("a timestamp")?;
    assert_eq!(rt; run_put(alloc, &mut net, 2000)?, Ok(Reply::Exhausted(last)));
    assert_eq!(rt; net.sent(1), decoded(alloc, SENT, 20)?.as_slice());
    Ok(())
}

#[test]
fn put_done_over_net(rt: HostRuntime) -> Result<(), Fail> {
    let alloc = rt.alloc();
    let mut net = tape(alloc, &PUT_DONE, &[])?;
    assert_eq!(rt; run_put(alloc, &mut net, 4)?, done(1, 1)?);
    assert_eq!(rt; net.sent(1), decoded(alloc, SENT, 200)?.as_slice());
    assert_eq!(rt; net.sent(2), PUT);
    assert_eq!(rt;
        net.calls(),
        [
            NetCall::Dial {
                port: 7000,
                number: Some(1)
            },
            NetCall::Send {
                conn: 1,
                size: 5,
                done: true
            },
            NetCall::Send {
                conn: 1,
                size: 15,
                done: true
            },
            NetCall::Dial {
                port: 7100,
                number: Some(2)
            },
            NetCall::Send {
                conn: 2,
                size: PUT.len(),
                done: true
            },
            NetCall::Close { conn: 2 },
            NetCall::Send {
                conn: 1,
                size: 65,
                done: true
            },
        ]
        .as_slice()
    );
    Ok(())
}

#[test]
fn not_yet(rt: HostRuntime) -> Result<(), Fail> {
    let alloc = rt.alloc();
    for arrivals in 0..3 {
        let mut net = tape(alloc, &[], &[])?;
        let answer = run_put(alloc, &mut net, arrivals)?;
        assert_eq!(rt; answer, Err(DriveFault::NotYet { have: 0, need: 1 }));
        assert_eq!(rt; net.calls().len(), 2);
    }
    Ok(())
}

#[test]
fn timeouts_from_the_session_on(rt: HostRuntime) -> Result<(), Fail> {
    let alloc = rt.alloc();
    let script = [Came::Quiet, Came::Frames(JOINED), Came::Quiet, Came::Quiet];
    let mut net = tape(alloc, &script, &[])?;
    let answer = run_put(alloc, &mut net, 4)?;
    assert_eq!(rt; answer, Err(DriveFault::NotYet { have: 0, need: 1 }));
    assert_eq!(rt; net.sent(1).len(), 50);
    Ok(())
}

#[test]
fn sessions_full(rt: HostRuntime) -> Result<(), Fail> {
    let alloc = rt.alloc();
    let mut net = tape(alloc, &[Came::Frames(FULL)], &[])?;
    assert_eq!(rt;
        run_put(alloc, &mut net, 2000)?,
        Err(DriveFault::SessionsFull)
    );
    Ok(())
}

#[test]
fn too_large(rt: HostRuntime) -> Result<(), Fail> {
    let alloc = rt.alloc();
    let key = key_a()?;
    let value = Blob::of(vec![in alloc; 0u8; 1048577]?);
    let job = job(Action::Put { key, value });
    let mut net = tape(alloc, &[Came::Frames(JOINED)], &[])?;
    let answer = drive_client(&mut net, alloc, &job, 2000);
    assert_eq!(rt; answer, Err(DriveFault::TooLarge(1048577)));
    Ok(())
}

#[test]
fn calls_that_fail(rt: HostRuntime) -> Result<(), Fail> {
    let alloc = rt.alloc();
    // dial, Join, next, Read, next, dial of the cloud, its request, next, the record, next
    for failing in 1..11 {
        let mut net = tape(alloc, &PUT_DONE, &[failing])?;
        let answer = run_put(alloc, &mut net, 2000)?;
        if failing == 6 || failing == 7 {
            assert_eq!(rt; answer, Err(DriveFault::NotYet { have: 0, need: 1 }));
        } else {
            assert_eq!(rt; answer, Err(DriveFault::NetFault));
        }
    }
    Ok(())
}

#[test]
fn a_request_that_is_not_sent_is_closed(rt: HostRuntime) -> Result<(), Fail> {
    let alloc = rt.alloc();
    let mut net = tape(alloc, &PUT_DONE, &[7])?;
    let answer = run_put(alloc, &mut net, 2)?;
    assert_eq!(rt; answer, Err(DriveFault::NotYet { have: 0, need: 1 }));
    let closed = net.calls().last() == Some(&NetCall::Close { conn: 2 });
    assert!(rt; closed);
    Ok(())
}

#[test]
fn frames_and_answers_in_pieces(rt: HostRuntime) -> Result<(), Fail> {
    let alloc = rt.alloc();
    let (front, rest) = CREATED.split_at(20);
    let (cut, more) = JOINED.split_at(4);
    let script = [
        Came::Frames(cut),
        Came::Frames(more),
        Came::Frames(HAS_NONE),
        Came::Bytes(2, front),
        Came::Bytes(3, CREATED),
        Came::Bytes(2, rest),
        Came::Closed(2),
        Came::Bytes(2, CREATED),
        Came::Frames(APPLIED),
    ];
    let mut net = tape(alloc, &script, &[])?;
    assert_eq!(rt; run_put(alloc, &mut net, 9)?, done(1, 1)?);
    Ok(())
}

#[test]
fn frames_in_one_piece(rt: HostRuntime) -> Result<(), Fail> {
    let alloc = rt.alloc();
    let mut frames = Vec::from_slice(alloc, JOINED)?;
    frames.extend_from_slice(HAS_LAST)?;
    frames.extend_from_slice(APPLIED)?;
    let script = [Came::Frames(&frames), Came::Frames(FULL)];
    let mut net = tape(alloc, &script, &[])?;
    let last = Stamp::new(4294967294, 7).ok_or("a timestamp")?;
    assert_eq!(rt; run_put(alloc, &mut net, 1)?, Ok(Reply::Exhausted(last)));
    Ok(())
}

#[test]
fn a_cloud_that_closes_early(rt: HostRuntime) -> Result<(), Fail> {
    let alloc = rt.alloc();
    let script = [
        Came::Frames(JOINED),
        Came::Frames(HAS_NONE),
        Came::Closed(2),
        Came::Quiet,
        Came::Bytes(3, CREATED),
        Came::Frames(APPLIED),
    ];
    let mut net = tape(alloc, &script, &[])?;
    assert_eq!(rt; run_put(alloc, &mut net, 6)?, done(1, 1)?);
    assert_eq!(rt; net.sent(3), PUT);
    let closes = net
        .calls()
        .iter()
        .filter(|call| matches!(call, NetCall::Close { .. }))
        .count();
    assert_eq!(rt; closes, 1);
    Ok(())
}

#[test]
fn a_service_that_closes(rt: HostRuntime) -> Result<(), Fail> {
    let alloc = rt.alloc();
    for end in [Came::Closed(1), Came::Frames(b"0000000199")] {
        let script = [
            Came::Frames(JOINED),
            Came::Frames(HAS_NONE),
            end,
            Came::Bytes(2, CREATED),
            Came::Frames(APPLIED),
        ];
        let mut net = tape(alloc, &script, &[])?;
        let answer = run_put(alloc, &mut net, 10)?;
        assert_eq!(rt; answer, Err(DriveFault::NotYet { have: 0, need: 1 }));
        assert_eq!(rt; net.sent(1).len(), 20);
    }
    Ok(())
}

#[test]
fn get_over_net(rt: HostRuntime) -> Result<(), Fail> {
    let alloc = rt.alloc();
    let key = key_a()?;
    let job = job(Action::Get { key });
    let script = [
        Came::Frames(JOINED),
        Came::Frames(HAS_ABC),
        Came::Bytes(2, FOUND),
    ];
    let mut net = tape(alloc, &script, &[])?;
    let stamp = Stamp::new(1, 1).ok_or("a timestamp")?;
    let value = Blob::copy_of(alloc, b"abc")?;
    let answer = drive_client(&mut net, alloc, &job, 3);
    assert_eq!(rt; answer, Ok(Reply::Value(value, stamp)));
    assert_eq!(rt; net.sent(2), GET);
    Ok(())
}

#[test]
fn delete_over_net(rt: HostRuntime) -> Result<(), Fail> {
    let alloc = rt.alloc();
    let key = key_a()?;
    let job = job(Action::Delete { key });
    let script = [
        Came::Frames(JOINED),
        Came::Frames(HAS_NONE),
        Came::Frames(APPLIED),
    ];
    let mut net = tape(alloc, &script, &[])?;
    assert_eq!(rt; drive_client(&mut net, alloc, &job, 3), done(1, 1)?);
    assert_eq!(rt; net.calls().len(), 4);
    Ok(())
}
