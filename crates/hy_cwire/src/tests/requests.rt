//! Requests: as they are written here and by other programs, and their faults.

use super::*;
use hy_base::Blob;
use hy_record::{Key, Stamp};

const PUT: &str =
    "PUT /o/a/0000000100000001 HTTP/1.1\r\nHost: 127.0.0.1:7100\r\nContent-Length: 3\r\nConnection: close\r\n\r\nabc";

const GET: &str =
    "GET /o/a/0000000100000001 HTTP/1.1\r\nHost: 127.0.0.1:7100\r\nConnection: close\r\n\r\n";

const DELETE: &str =
    "DELETE /o/a/0000000100000001 HTTP/1.1\r\nHost: 127.0.0.1:7100\r\nConnection: close\r\n\r\n";

/// What curl 7.88.1 wrote, as `curl -T FILE URL`, `curl URL` and `curl -X DELETE URL`.
const CURL_PUT: &str =
    "PUT /o/a/0000000100000001 HTTP/1.1\r\nHost: 127.0.0.1:7100\r\nUser-Agent: curl/7.88.1\r\nAccept: */*\r\nContent-Length: 3\r\nExpect: 100-continue\r\n\r\nabc";

const CURL_GET: &str =
    "GET /o/a/0000000100000001 HTTP/1.1\r\nHost: 127.0.0.1:7100\r\nUser-Agent: curl/7.88.1\r\nAccept: */*\r\n\r\n";

const CURL_DELETE: &str =
    "DELETE /o/a/0000000100000001 HTTP/1.1\r\nHost: 127.0.0.1:7100\r\nUser-Agent: curl/7.88.1\r\nAccept: */*\r\n\r\n";

/// The request about the object of key `a` and timestamp (1, 1) is written so.
fn writes(rt: &impl Abort, alloc: Global, act: CloudAct, text: &str) {
    let key = Key::read(b"a").ok().expect(rt, "a key");
    let stamp = Stamp::new(1, 1).expect(rt, "a timestamp");
    if let CloudAct::Put(body) = &act {
        assert!(rt; body.bytes().len() <= 1_048_576);
    }
    let wish = Wish { key, stamp, act };
    let written = write_ask(alloc, &wish, 7100).ok().expect(rt, "memory");
    assert!(rt; written.bytes() == text.as_bytes(), "{text}");
}

#[test]
fn requests_are_written_and_read_back(rt: HostRuntime) {
    let alloc = rt.alloc();
    let body = Blob::copy_of(alloc, b"abc").ok().expect(&rt, "memory");
    writes(&rt, alloc, CloudAct::Put(body), PUT);
    writes(&rt, alloc, CloudAct::Get, GET);
    writes(&rt, alloc, CloudAct::Delete, DELETE);
    asks(&rt, alloc, PUT.as_bytes(), "put [97] 1 1, 3 bytes");
    asks(&rt, alloc, GET.as_bytes(), "get [97] 1 1");
    asks(&rt, alloc, DELETE.as_bytes(), "delete [97] 1 1");
}

#[test]
fn requests_of_curl_are_read(rt: HostRuntime) {
    let alloc = rt.alloc();
    asks(&rt, alloc, CURL_PUT.as_bytes(), "put [97] 1 1, 3 bytes");
    asks(&rt, alloc, CURL_GET.as_bytes(), "get [97] 1 1");
    asks(&rt, alloc, CURL_DELETE.as_bytes(), "delete [97] 1 1");
}

#[test]
fn requests_have_their_faults(rt: HostRuntime) {
    let alloc = rt.alloc();
    for (text, words) in [
        ("\r\n\r\n", "NotHead(4), 400"),
        ("GET /o/a\r\n\r\n", "NotHead(12), 400"),
        (
            "GET /o/a/0000000100000001 HTTP/2\r\n\r\n",
            "NotHead(36), 400",
        ),
        (
            "GET /o/a/0000000100000001 HTTP/1.1\n\nx\r\n\r\n",
            "NotHead(41), 400",
        ),
        (
            "POST /o/a/0000000100000001 HTTP/1.1\r\n\r\n",
            "BadMethod, 501",
        ),
        (
            "put /o/a/0000000100000001 HTTP/1.1\r\n\r\n",
            "BadMethod, 501",
        ),
        (
            "POST /o/a HTTP/1.1\r\nTransfer-Encoding: x\r\n\r\n",
            "BadMethod, 501",
        ),
        ("GET /o/a/00000001 HTTP/1.1\r\n\r\n", "BadTarget, 400"),
        (
            "GET /o/a/ffffffff00000001 HTTP/1.1\r\n\r\n",
            "BadTarget, 400",
        ),
        (
            "GET /o/a/000000010000000A HTTP/1.1\r\n\r\n",
            "BadTarget, 400",
        ),
        (
            "PUT /o/A/0000000100000001 HTTP/1.1\r\nTransfer-Encoding: x\r\n\r\n",
            "BadTarget, 400",
        ),
    ] {
        asks(&rt, alloc, text.as_bytes(), words);
    }
}

/// A put, or a get, whose head has these fields comes to this.
fn with_fields(rt: &impl Abort, alloc: Global, line: &str, fields: &str, words: &str) {
    let mut text = Vec::from_slice(alloc, line.as_bytes())
        .ok()
        .expect(rt, "memory");
    text.extend_from_slice(b" /o/a/0000000100000001 HTTP/1.1\r\n")
        .ok()
        .expect(rt, "memory");
    text.extend_from_slice(fields.as_bytes())
        .ok()
        .expect(rt, "memory");
    asks(rt, alloc, &text, words);
}

#[test]
fn http_faults_of_server(rt: HostRuntime) {
    let alloc = rt.alloc();
    for (line, fields, words) in [
        ("PUT", "Transfer-Encoding: chunked\r\n\r\n", "Coding, 501"),
        ("PUT", "\r\n", "NoLength, 411"),
        (
            "PUT",
            "Content-Length: 1048577\r\n\r\n",
            "BodyTooLong(1048577), 413",
        ),
        (
            "PUT",
            "Content-Length: 3\r\ntransfer-encoding: x\r\nContent-Length: 3\r\n\r\n",
            "Coding, 501",
        ),
        ("GET", "TRANSFER-ENCODING:\r\n\r\n", "Coding, 501"),
        (
            "PUT",
            "content-length: 3\r\nCONTENT-LENGTH: 3\r\n\r\nabc",
            "LengthTwice, 400",
        ),
        (
            "GET",
            "Content-Length: 0\r\nContent-Length: 0\r\n\r\n",
            "LengthTwice, 400",
        ),
    ] {
        with_fields(&rt, alloc, line, fields, words);
    }
}

#[test]
fn lengths_have_their_faults(rt: HostRuntime) {
    let alloc = rt.alloc();
    for (line, fields, words) in [
        ("PUT", "Content-Length: 3a\r\n\r\n", "NoLength, 411"),
        ("PUT", "Content-Length: +3\r\n\r\n", "NoLength, 411"),
        ("PUT", "Content-Length:\r\n\r\n", "NoLength, 411"),
        ("GET", "Content-Length: x\r\n\r\n", "NoLength, 411"),
        ("GET", "Content-Length: 1\r\n\r\n", "BodyTooLong(1), 413"),
        ("DELETE", "Content-Length: 1\r\n\r\n", "BodyTooLong(1), 413"),
        (
            "PUT",
            "Content-Length: 18446744073709551615\r\n\r\n",
            "BodyTooLong(18446744073709551615), 413",
        ),
        (
            "PUT",
            "Content-Length: 18446744073709551619\r\n\r\n",
            "BodyTooLong(18446744073709551615), 413",
        ),
    ] {
        with_fields(&rt, alloc, line, fields, words);
    }
}

#[test]
fn lengths_are_taken_as_digits(rt: HostRuntime) {
    let alloc = rt.alloc();
    for (line, fields, words) in [
        (
            "PUT",
            "content-LENGTH: \t 0003 \t\r\n\r\nabcdef",
            "put [97] 1 1, 3 bytes",
        ),
        (
            "PUT",
            "Content-Length:0\r\n\r\nabc",
            "put [97] 1 1, 0 bytes",
        ),
        ("GET", "Content-Length: 00\r\n\r\n", "get [97] 1 1"),
        ("DELETE", "X-Content-Length: 7\r\n\r\n", "delete [97] 1 1"),
    ] {
        with_fields(&rt, alloc, line, fields, words);
    }
}
