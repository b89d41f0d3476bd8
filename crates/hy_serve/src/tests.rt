mod meta;

use super::*;
use hy_base::{Arrived, Blob, NetCall, NetTape};
use std::alloc::Global;
use std::test::Fail;

/// A net on which each piece comes on its connection, which is opened before the first and closed at the end.
fn tape(alloc: Global, pieces: &[(u32, &[u8])], failing: &[u32]) -> Result<NetTape, Fail> {
    let mut script = Vec::new(alloc);
    for &(conn, piece) in pieces {
        script.push(Arrived::Opened(conn))?;
        script.push(Arrived::Bytes(conn, Blob::copy_of(alloc, piece)?))?;
    }
    Ok(NetTape::new(alloc, script, 4096, Vec::from_slice(alloc, failing)?)?)
}

const PUT: &[u8] =
    b"PUT /o/a/0000000100000001 HTTP/1.1\r\nHost: 127.0.0.1:7100\r\nContent-Length: 3\r\nConnection: close\r\n\r\nabc";

const GET: &[u8] =
    b"GET /o/a/0000000100000001 HTTP/1.1\r\nHost: 127.0.0.1:7100\r\nConnection: close\r\n\r\n";

const CREATED: &[u8] = b"HTTP/1.1 201 Created\r\nContent-Length: 0\r\nConnection: close\r\n\r\n";

const FOUND: &[u8] = b"HTTP/1.1 200 OK\r\nContent-Length: 3\r\nConnection: close\r\n\r\nabc";

#[test]
fn http_faults_of_server(rt: HostRuntime) -> Result<(), Fail> {
    for (request, answer) in [
        (
            b"PUT /o/a/0000000100000001 HTTP/1.1\r\nTransfer-Encoding: chunked\r\n\r\n".as_slice(),
            b"HTTP/1.1 501 Not Implemented\r\nContent-Length: 0\r\nConnection: close\r\n\r\n".as_slice(),
        ),
        (
            b"PUT /o/a/0000000100000001 HTTP/1.1\r\n\r\n".as_slice(),
            b"HTTP/1.1 411 Length Required\r\nContent-Length: 0\r\nConnection: close\r\n\r\n".as_slice(),
        ),
        (
            b"PUT /o/a/0000000100000001 HTTP/1.1\r\nContent-Length: 1048577\r\n\r\n".as_slice(),
            b"HTTP/1.1 413 Content Too Large\r\nContent-Length: 0\r\nConnection: close\r\n\r\n".as_slice(),
        ),
    ] {
        let mut net = tape(rt.alloc(), &[(9, request)], &[])?;
        assert_eq!(rt; serve_cloud(&mut net, rt.alloc(), 7100, 2), Ok(()));
        assert_eq!(rt; net.sent(9), answer);
    }
    Ok(())
}

#[test]
fn a_connection_is_answered_once(rt: HostRuntime) -> Result<(), Fail> {
    let (front, rest) = PUT.split_at(50);
    let pieces = [(1, front), (2, front), (1, rest), (1, GET), (3, GET)];
    let mut net = tape(rt.alloc(), &pieces, &[])?;
    assert_eq!(rt; serve_cloud(&mut net, rt.alloc(), 7100, 10), Ok(()));
    assert_eq!(rt; net.sent(1), CREATED);
    assert_eq!(rt; net.sent(2), b"".as_slice());
    assert_eq!(rt; net.sent(3), FOUND);
    assert_eq!(rt;
        net.calls(),
        [
            NetCall::Listen {
                port: 7100,
                done: true
            },
            NetCall::Send {
                conn: 1,
                size: CREATED.len(),
                done: true
            },
            NetCall::Close { conn: 1 },
            NetCall::Send {
                conn: 3,
                size: FOUND.len(),
                done: true
            },
            NetCall::Close { conn: 3 },
        ]
        .as_slice()
    );
    Ok(())
}

#[test]
fn calls_that_fail(rt: HostRuntime) -> Result<(), Fail> {
    for (failing, answer) in [
        (1, Err(ServeFault::NetFault)),
        (2, Err(ServeFault::NetFault)),
        (3, Err(ServeFault::NetFault)),
        (4, Ok(())),
    ] {
        let mut net = tape(rt.alloc(), &[(9, PUT)], &[failing])?;
        assert_eq!(rt; serve_cloud(&mut net, rt.alloc(), 7100, 2), answer);
        let closed = net.calls().last() == Some(&NetCall::Close { conn: 9 });
        assert_eq!(rt; closed, answer.is_ok());
    }
    Ok(())
}
