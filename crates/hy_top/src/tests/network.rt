//! The commands that use a net, over one in memory.

use super::*;
use hy_base::{Arrived, NetCall};
use hy_record::Stamp;

/// A call of the program over a net: its words and its input, what comes over the net, and the
/// number of the net's call that fails, or 0.
#[derive(Drop)]
struct NetRow<'a> {
    words: &'a [&'a str],
    input: &'a [u8],
    script: &'a [(u32, &'a [u8])],
    failing_call: u32,
}

/// What a call did: its status, what it wrote, and the net as it left it.
#[derive(Drop)]
struct Outcome {
    status: Status,
    written: String,
    net: NetTape,
}

impl NetRow<'_> {
    /// Runs the program. Each piece of the script comes on its connection.
    fn run(&self, alloc: Global) -> Result<Outcome, Fail> {
        let words = self
            .words
            .iter()
            .map(|word| word.to_string(alloc))
            .try_collect(alloc)?;
        let mut script = Vec::new(alloc);
        for &(conn, piece) in self.script {
            script.push(Arrived::Bytes(conn, Blob::copy_of(alloc, piece)?))?;
        }
        let mut source = BytesIn::new(Blob::copy_of(alloc, self.input)?, 7_000, Vec::new(alloc));
        let mut sink = BytesOut::new(alloc, 4_096, Vec::new(alloc))?;
        let mut net = NetTape::new(alloc, script, 16_384, vec![in alloc; self.failing_call]?)?;
        let status = run(alloc, &words, &mut source, &mut sink, &mut net);
        let written = String::from_utf8_lossy(alloc, sink.written())?;
        Ok(Outcome {
            status,
            written,
            net,
        })
    }
}

/// A call over a net on which nothing fails.
fn row<'a>(words: &'a [&'a str], input: &'a [u8], script: &'a [(u32, &'a [u8])]) -> NetRow<'a> {
    NetRow {
        words,
        input,
        script,
        failing_call: 0,
    }
}

const PUT_WORDS: &[&str] = &["put", "0", "1", "7000", "7100", "a"];

const GET_WORDS: &[&str] = &["get", "0", "1", "7000", "7100", "a"];

const JOIN: &[u8] = b"\x00\x00\x00\x01\x01";

const JOINED: &[u8] = b"\x00\x00\x00\x05\x81\x00\x00\x00\x01";

const READ: &[u8] = b"\x00\x00\x00\x0b\x02\x00\x00\x00\x01\x00\x00\x00\x01\x01a";

const HAS_NONE: &[u8] = b"\x00\x00\x00\x0c\x82\x00\x00\x00\x01\x00\x00\x00\x01\x01a\x00";

const APPLIED: &[u8] =
    b"\x00\x00\x00\x13\x83\x00\x00\x00\x01\x00\x00\x00\x01\x01a\x00\x00\x00\x01\x00\x00\x00\x01";

const EXHAUSTED: &[u8] =
    b"\x00\x00\x00\x16\x82\x00\x00\x00\x01\x00\x00\x00\x01\x01a\x01\x01\x00\xff\xff\xff\xfe\x00\x00\x00\x07";

const FULL: &[u8] = b"\x00\x00\x00\x01\x88";

const PUT: &[u8] =
    b"PUT /o/a/0000000100000001 HTTP/1.1\r\nHost: 127.0.0.1:7100\r\nContent-Length: 3\r\nConnection: close\r\n\r\nabc";

const CREATED: &[u8] = b"HTTP/1.1 201 Created\r\nContent-Length: 0\r\nConnection: close\r\n\r\n";

/// What a put of `abc` meets that is done.
const STORES: &[(u32, &[u8])] = &[(1, JOINED), (1, HAS_NONE), (2, CREATED), (1, APPLIED)];

/// The record of `abc` at the timestamp (1, 1), behind the update that carries it.
const UPDATE: &[u8] =
    b"\x00\x00\x00\x3d\x03\x00\x00\x00\x01\x00\x00\x00\x01\x01a\x01\x01\x00\x00\x00\x01\x00\x00\x00\x01\x00\x00\x00\x03\x00\x01\x00\x01\xba\x78\x16\xbf\x8f\x01\xcf\xea\x41\x41\x40\xde\x5d\xae\x22\x23\xb0\x03\x61\xa3\x96\x17\x7a\x9c\xb4\x10\xff\x61\xf2\x00\x15\xad";

/// These pieces, one behind the other.
fn joined(alloc: Global, pieces: &[&[u8]]) -> Result<Vec<u8>, Fail> {
    let mut bytes = Vec::new(alloc);
    for piece in pieces {
        bytes.extend_from_slice(piece)?;
    }
    Ok(bytes)
}

#[test]
fn put_done_over_net(rt: HostRuntime) -> Result<(), Fail> {
    let alloc = rt.alloc();
    let outcome = row(PUT_WORDS, b"abc", STORES).run(alloc)?;
    assert_eq!(rt; outcome.status, Status::Done);
    assert_eq!(rt; outcome.written.as_str(), "done 1 1\n");
    let sent = joined(alloc, &[JOIN, READ, UPDATE])?;
    assert_eq!(rt; outcome.net.sent(1), sent.as_slice());
    assert_eq!(rt; outcome.net.sent(2), PUT);
    let dialled = outcome
        .net
        .calls()
        .iter()
        .filter(|call| matches!(call, NetCall::Dial { .. }));
    assert_eq!(rt; dialled.count(), 2);
    Ok(())
}

#[test]
fn put_exhausted_over_net(rt: HostRuntime) -> Result<(), Fail> {
    let alloc = rt.alloc();
    let outcome = row(PUT_WORDS, b"x", &[(1, JOINED), (1, EXHAUSTED)]).run(alloc)?;
    let last = Stamp::new(4_294_967_294, 7).ok_or("a timestamp")?;
    assert_eq!(rt; outcome.status, Status::Exhausted(last));
    assert_eq!(rt; outcome.written.as_str(), "exhausted 4294967294 7\n");
    let sent = joined(alloc, &[JOIN, READ])?;
    assert_eq!(rt; outcome.net.sent(1), sent.as_slice());
    Ok(())
}

/// Runs the program over a net: it has to end with this status, and to write this.
fn answers(
    rt: &impl Abort,
    alloc: Global,
    call: &NetRow,
    status: Status,
    written: &str,
) -> Result<(), Fail> {
    let outcome = call.run(alloc)?;
    assert_eq!(rt; outcome.status, status);
    assert_eq!(rt; outcome.written.as_str(), written);
    Ok(())
}

/// The put of `abc`, where this call of the net fails.
fn failing_put(failing_call: u32) -> NetRow<'static> {
    NetRow {
        words: PUT_WORDS,
        input: b"abc",
        script: STORES,
        failing_call,
    }
}

#[test]
fn each_call_of_the_net_fails_once(rt: HostRuntime) -> Result<(), Fail> {
    // The dial, Join, its Joined, the read, its answer; the cloud's answer, the update, its answer.
    for failing in [1, 2, 3, 4, 5, 8, 9, 10] {
        let call = failing_put(failing);
        answers(&rt, rt.alloc(), &call, Status::NetFault, "net fault\n")?;
    }
    // The dial of the cloud, its request.
    for failing in [6, 7] {
        let call = failing_put(failing);
        let status = Status::NotYet { have: 0, need: 1 };
        answers(&rt, rt.alloc(), &call, status, "not yet 0 1\n")?;
    }
    Ok(())
}

#[test]
fn too_few_arrivals_are_told(rt: HostRuntime) -> Result<(), Fail> {
    let brief = &["put", "0", "1", "7000", "7100", "a", "--arrivals", "1"];
    let none = &["put", "0", "1", "7000", "7100", "a", "--arrivals", "0"];
    let status = Status::NotYet { have: 0, need: 1 };
    answers(
        &rt,
        rt.alloc(),
        &row(brief, b"x", &[]),
        status,
        "not yet 0 1\n",
    )?;
    answers(
        &rt,
        rt.alloc(),
        &row(none, b"x", &[]),
        Status::BadWords,
        "bad words\n",
    )
}

#[test]
fn a_full_service_is_told(rt: HostRuntime) -> Result<(), Fail> {
    let call = row(PUT_WORDS, b"x", &[(1, FULL)]);
    answers(
        &rt,
        rt.alloc(),
        &call,
        Status::SessionsFull,
        "sessions full\n",
    )
}

#[test]
fn a_value_that_is_too_large_is_told(rt: HostRuntime) -> Result<(), Fail> {
    let large = vec![in rt.alloc(); 0u8; 1_048_577]?;
    let call = row(PUT_WORDS, &large, &[]);
    answers(
        &rt,
        rt.alloc(),
        &call,
        Status::TooLarge(1_048_577),
        "too large 1048577\n",
    )
}

#[test]
fn largest_value_is_put(rt: HostRuntime) -> Result<(), Fail> {
    let largest = vec![in rt.alloc(); 0u8; 1_048_576]?;
    let script = &[(1, JOINED), (1, HAS_NONE)];
    let brief = &["put", "0", "1", "7000", "7100", "a", "--arrivals=2"];
    let outcome = row(brief, &largest, script).run(rt.alloc())?;
    assert_eq!(rt; outcome.status, Status::NotYet { have: 0, need: 1 });
    Ok(())
}

#[test]
fn a_value_stands_behind_its_line(rt: HostRuntime) -> Result<(), Fail> {
    let alloc = rt.alloc();
    let has = joined(
        alloc,
        &[
            b"\x00\x00\x00\x3e\x82\x00\x00\x00\x01\x00\x00\x00\x01\x01a\x01",
            &UPDATE[15..],
        ],
    )?;
    let found = b"HTTP/1.1 200 OK\r\nContent-Length: 3\r\nConnection: close\r\n\r\nabc".as_slice();
    let outcome = row(GET_WORDS, b"", &[(1, JOINED), (1, &has), (2, found)]).run(alloc)?;
    assert_eq!(rt; outcome.status, Status::Done);
    assert_eq!(rt; outcome.written.as_str(), "value 3 1 1\nabc");
    let absent = row(GET_WORDS, b"", &[(1, JOINED), (1, HAS_NONE)]).run(alloc)?;
    assert_eq!(rt; absent.status, Status::Done);
    assert_eq!(rt; absent.written.as_str(), "none 0 0\n");
    Ok(())
}

#[test]
fn metadata_is_served(rt: HostRuntime) -> Result<(), Fail> {
    let alloc = rt.alloc();
    let words = ["meta", "7000", "--arrivals", "3"]
        .iter()
        .map(|word| word.to_string(alloc))
        .try_collect(alloc)?;
    let mut script = Vec::new(alloc);
    script.push(Arrived::Opened(9))?;
    script.push(Arrived::Bytes(9, Blob::copy_of(alloc, JOIN)?))?;
    script.push(Arrived::Bytes(9, Blob::copy_of(alloc, READ)?))?;
    let mut source = BytesIn::new(Blob::of(Vec::new(alloc)), 7_000, Vec::new(alloc));
    let mut sink = BytesOut::new(alloc, 4_096, Vec::new(alloc))?;
    let mut net = NetTape::new(alloc, script, 64, Vec::new(alloc))?;
    let status = run(alloc, &words, &mut source, &mut sink, &mut net);
    assert_eq!(rt; status, Status::Done);
    assert_eq!(rt; sink.written(), b"arrivals 3\n".as_slice());
    let sent = joined(alloc, &[JOINED, HAS_NONE])?;
    assert_eq!(rt; net.sent(9), sent.as_slice());
    Ok(())
}
