//! Answers: as they are written here and by another server, what they mean by the method, and their faults.

use super::*;
use hy_base::Blob;

const CREATED: &str = "HTTP/1.1 201 Created\r\nContent-Length: 0\r\nConnection: close\r\n\r\n";

const OK: &str = "HTTP/1.1 200 OK\r\nContent-Length: 0\r\nConnection: close\r\n\r\n";

const BODY: &str = "HTTP/1.1 200 OK\r\nContent-Length: 3\r\nConnection: close\r\n\r\nabc";

const NO_CONTENT: &str = "HTTP/1.1 204 No Content\r\nConnection: close\r\n\r\n";

const BAD_REQUEST: &str =
    "HTTP/1.1 400 Bad Request\r\nContent-Length: 0\r\nConnection: close\r\n\r\n";

const NOT_FOUND: &str = "HTTP/1.1 404 Not Found\r\nContent-Length: 0\r\nConnection: close\r\n\r\n";

const CONFLICT: &str = "HTTP/1.1 409 Conflict\r\nContent-Length: 0\r\nConnection: close\r\n\r\n";

const LENGTH_REQUIRED: &str =
    "HTTP/1.1 411 Length Required\r\nContent-Length: 0\r\nConnection: close\r\n\r\n";

const TOO_LARGE: &str =
    "HTTP/1.1 413 Content Too Large\r\nContent-Length: 0\r\nConnection: close\r\n\r\n";

const NOT_IMPLEMENTED: &str =
    "HTTP/1.1 501 Not Implemented\r\nContent-Length: 0\r\nConnection: close\r\n\r\n";

/// What nginx 1.22.1 answered to puts of a new and of an old name, to a get, and to a get of a name that is not there.
const NGINX_CREATED: &str =
    "HTTP/1.1 201 Created\r\nServer: nginx/1.22.1\r\nDate: Tue, 01 Dec 2026 10:43:15 GMT\r\nContent-Length: 0\r\nLocation: http://127.0.0.1:7180/o/a/0000000100000001\r\nConnection: close\r\n\r\n";

const NGINX_NO_CONTENT: &str =
    "HTTP/1.1 204 No Content\r\nServer: nginx/1.22.1\r\nDate: Tue, 01 Dec 2026 10:43:15 GMT\r\nConnection: close\r\n\r\n";

const NGINX_BODY: &str =
    "HTTP/1.1 200 OK\r\nServer: nginx/1.22.1\r\nDate: Tue, 01 Dec 2026 10:43:15 GMT\r\nContent-Type: application/octet-stream\r\nContent-Length: 3\r\nLast-Modified: Tue, 01 Dec 2026 10:43:15 GMT\r\nConnection: close\r\nETag: \"6b0ea4c3-3\"\r\nAccept-Ranges: bytes\r\n\r\nabc";

const NGINX_NOT_FOUND: &str =
    "HTTP/1.1 404 Not Found\r\nServer: nginx/1.22.1\r\nDate: Tue, 01 Dec 2026 10:43:15 GMT\r\nContent-Type: text/html\r\nContent-Length: 153\r\nConnection: close\r\n\r\n<html>\r\n<head><title>404 Not Found</title></head>\r\n<body>\r\n<center><h1>404 Not Found</h1></center>\r\n<hr><center>nginx/1.22.1</center>\r\n</body>\r\n</html>\r\n";

/// The answer is written so.
fn writes(rt: &impl Abort, alloc: Global, say: &CloudSay, text: &str) {
    if let CloudSay::Body(body) = say {
        assert!(rt; body.bytes().len() <= 1_048_576);
    }
    if let CloudSay::Bad(status) = say {
        assert!(rt; *status == 400 || *status == 411 || *status == 413 || *status == 501);
    }
    let written = write_say(alloc, say).ok().expect(rt, "memory");
    assert!(rt; written.bytes() == text.as_bytes(), "{text}");
}

#[test]
fn answers_are_written(rt: HostRuntime) {
    let alloc = rt.alloc();
    let body = Blob::copy_of(alloc, b"abc").ok().expect(&rt, "memory");
    for (say, text) in &[
        (CloudSay::Stored { fresh: true }, CREATED),
        (CloudSay::Stored { fresh: false }, OK),
        (CloudSay::Conflict, CONFLICT),
        (CloudSay::Body(body), BODY),
        (CloudSay::Missing, NOT_FOUND),
        (CloudSay::Gone, NO_CONTENT),
        (CloudSay::Bad(400), BAD_REQUEST),
        (CloudSay::Bad(411), LENGTH_REQUIRED),
        (CloudSay::Bad(413), TOO_LARGE),
        (CloudSay::Bad(501), NOT_IMPLEMENTED),
    ] {
        writes(&rt, alloc, say, text);
    }
}

/// What the answer means to a put, to a get and to a delete.
fn means(rt: &impl Abort, alloc: Global, text: &str, put: &str, get: &str, delete: &str) {
    says(rt, alloc, WishKind::Put, text.as_bytes(), put);
    says(rt, alloc, WishKind::Get, text.as_bytes(), get);
    says(rt, alloc, WishKind::Delete, text.as_bytes(), delete);
}

#[test]
fn statuses_mean_what_the_method_says(rt: HostRuntime) {
    let alloc = rt.alloc();
    for (text, put, get, delete) in [
        (CREATED, "stored, fresh", "bad 201", "bad 201"),
        (OK, "stored", "body []", "gone"),
        (BODY, "stored", "body [97, 98, 99]", "gone"),
        (NO_CONTENT, "stored", "bad 204", "gone"),
        (NOT_FOUND, "bad 404", "missing", "gone"),
        (CONFLICT, "conflict", "bad 409", "bad 409"),
        (BAD_REQUEST, "bad 400", "bad 400", "bad 400"),
        (LENGTH_REQUIRED, "bad 411", "bad 411", "bad 411"),
        (TOO_LARGE, "bad 413", "bad 413", "bad 413"),
        (NOT_IMPLEMENTED, "bad 501", "bad 501", "bad 501"),
        (
            "HTTP/1.0 007 \r\nContent-Length: 0\r\n\r\n",
            "bad 7",
            "bad 7",
            "bad 7",
        ),
    ] {
        means(&rt, alloc, text, put, get, delete);
    }
}

#[test]
fn answers_of_nginx_are_read(rt: HostRuntime) {
    let alloc = rt.alloc();
    for (text, put, get, delete) in [
        (NGINX_CREATED, "stored, fresh", "bad 201", "bad 201"),
        (NGINX_NO_CONTENT, "stored", "bad 204", "gone"),
        (NGINX_BODY, "stored", "body [97, 98, 99]", "gone"),
        (NGINX_NOT_FOUND, "bad 404", "missing", "gone"),
    ] {
        means(&rt, alloc, text, put, get, delete);
    }
}

#[test]
fn some_statuses_have_no_body(rt: HostRuntime) {
    let alloc = rt.alloc();
    for (text, words) in [
        ("HTTP/1.1 100 Continue\r\n\r\n", "bad 100"),
        (
            "HTTP/1.1 199 \r\nContent-Length: 3\r\nContent-Length: x\r\n\r\nabc",
            "bad 199",
        ),
        (
            "HTTP/1.1 204 No Content\r\nContent-Length: 3\r\n\r\n",
            "bad 204",
        ),
        (
            "HTTP/1.1 304 Not Modified\r\nContent-Length: 3\r\n\r\n",
            "bad 304",
        ),
        (
            "HTTP/1.1 204 No Content\r\nTransfer-Encoding: chunked\r\n\r\n",
            "Coding, 501",
        ),
        (
            "HTTP/1.1 304 Not Modified\r\nTransfer-Encoding: chunked\r\n\r\n",
            "Coding, 501",
        ),
    ] {
        says(&rt, alloc, WishKind::Get, text.as_bytes(), words);
    }
}

#[test]
fn answers_have_their_faults(rt: HostRuntime) {
    let alloc = rt.alloc();
    for (text, words) in [
        (
            "HTTP/1.1 200 OK\r\nTransfer-Encoding: chunked\r\n\r\n",
            "Coding, 501",
        ),
        ("HTTP/1.1 200 OK\r\n\r\n", "NoLength, 411"),
        ("HTTP/1.1 099 \r\n\r\n", "NoLength, 411"),
        (
            "HTTP/1.1 200 OK\r\nContent-Length: 3\r\ncontent-length: 3\r\n\r\n",
            "LengthTwice, 400",
        ),
        (
            "HTTP/1.1 200 OK\r\nContent-Length: 1048577\r\n\r\n",
            "BodyTooLong(1048577), 413",
        ),
        ("HTTP/2 200 OK\r\n\r\n", "NotHead(17), 400"),
        ("HTTP/1.1 20 OK\r\n\r\n", "NotHead(18), 400"),
    ] {
        says(&rt, alloc, WishKind::Get, text.as_bytes(), words);
    }
}

/// The answer of 3 bytes that ends after so many of its bytes is cut.
fn is_cut(rt: &impl Abort, alloc: Global, end: usize) {
    let (front, _) = BODY.as_bytes().split_at(end.min(BODY.len()));
    let head = BODY.len().saturating_sub(3);
    let mut reader = say_reader(rt, alloc, WishKind::Get);
    assert!(rt; reader.feed(alloc, front) == Ok(()));
    assert!(rt; reader.next() == Ok(None));
    let cut = if end < head {
        HttpFault::Cut(end as u64, 0)
    } else {
        HttpFault::Cut((end - head) as u64, 3)
    };
    assert!(rt; reader.end() == Err(cut), "after {end} bytes");
    assert!(rt; reader.feed(alloc, b"abc") == Err(cut), "after {end} bytes");
    assert!(rt; reader.next() == Err(cut), "after {end} bytes");
}

#[test]
fn answers_that_end_early_are_cut(rt: HostRuntime) {
    let alloc = rt.alloc();
    for end in 0..BODY.len() {
        is_cut(&rt, alloc, end);
    }
}

#[test]
fn http_answer_faults(rt: HostRuntime) {
    let alloc = rt.alloc();
    let mut reader = say_reader(&rt, alloc, WishKind::Get);
    assert!(rt; reader.feed(alloc, b"HTTP/1.1 200 OK\r\nContent-Length: 5\r\n\r\nabc") == Ok(()));
    assert!(rt; reader.next() == Ok(None));
    assert!(rt; reader.end() == Err(HttpFault::Cut(3, 5)));
    let mut other = say_reader(&rt, alloc, WishKind::Get);
    let coded = other.feed(
        alloc,
        b"HTTP/1.1 200 OK\r\nTransfer-Encoding: chunked\r\n\r\nabc",
    );
    assert!(rt; coded == Err(HttpFault::Coding));
}
