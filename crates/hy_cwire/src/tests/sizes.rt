//! Heads and bodies at the edges of their sizes.

use super::*;

/// So many bytes that a field can have.
fn filling(rt: &impl Abort, alloc: Global, count: usize) -> Vec<u8> {
    (vec![in alloc; b'x'; count]).ok().expect(rt, "memory")
}

/// A request without its empty line, which has so many bytes.
fn long_head(rt: &impl Abort, alloc: Global, count: usize) -> Vec<u8> {
    let line = b"GET /o/a/0000000100000001 HTTP/1.1\r\nx: ";
    let mut text = Vec::from_slice(alloc, line).ok().expect(rt, "memory");
    let more = filling(rt, alloc, count.saturating_sub(line.len()));
    text.extend_from_slice(&more).ok().expect(rt, "memory");
    text
}

/// A head that ends with these bytes behind 8,188 others comes to this.
fn ends_with(rt: &impl Abort, alloc: Global, last: &[u8], words: &str) {
    let mut text = long_head(rt, alloc, 8_188);
    text.extend_from_slice(last).ok().expect(rt, "memory");
    asks(rt, alloc, &text, words);
}

#[test]
fn heads_have_at_most_8192_bytes(rt: HostRuntime) {
    let alloc = rt.alloc();
    ends_with(&rt, alloc, b"\r\n\r\n", "get [97] 1 1");
    ends_with(&rt, alloc, b"xxxx", "HeadTooLong, 400");
    ends_with(&rt, alloc, b"x\r\n\r\n", "HeadTooLong, 400");
}

/// A get with so many fields, each of three bytes and its line end.
fn with_fields(rt: &impl Abort, alloc: Global, count: usize) {
    let mut text = Vec::from_slice(alloc, b"GET /o/a/0000000100000001 HTTP/1.1\r\n")
        .ok()
        .expect(rt, "memory");
    for _ in 0..count {
        text.extend_from_slice(b"a:b\r\n").ok().expect(rt, "memory");
    }
    text.extend_from_slice(b"\r\n").ok().expect(rt, "memory");
    asks(rt, alloc, &text, "get [97] 1 1");
}

/// An answer with so many fields before its length.
fn answer_with_fields(rt: &impl Abort, alloc: Global, count: usize) {
    let mut text = Vec::from_slice(alloc, b"HTTP/1.1 200 OK\r\n")
        .ok()
        .expect(rt, "memory");
    for _ in 0..count {
        text.extend_from_slice(b"a:b\r\n").ok().expect(rt, "memory");
    }
    text.extend_from_slice(b"Content-Length: 1\r\n\r\nx")
        .ok()
        .expect(rt, "memory");
    says(rt, alloc, WishKind::Get, &text, "body [120]");
}

#[test]
fn heads_have_any_number_of_fields(rt: HostRuntime) {
    let alloc = rt.alloc();
    for count in [0, 63, 64, 65, 1_600] {
        with_fields(&rt, alloc, count);
        answer_with_fields(&rt, alloc, count);
    }
}

#[test]
fn a_put_has_at_most_a_value(rt: HostRuntime) {
    let alloc = rt.alloc();
    let mut reader = ask_reader(&rt, alloc);
    let head = b"PUT /o/a/0000000100000001 HTTP/1.1\r\nContent-Length: 1048576\r\n\r\n";
    assert!(rt; reader.feed(alloc, head) == Ok(()));
    let piece = filling(&rt, alloc, 65_536);
    for _ in 0..16 {
        assert_eq!(rt; next_ask(&rt, alloc, &mut reader).as_str(), "nothing");
        assert!(rt; reader.feed(alloc, &piece) == Ok(()));
    }
    assert!(rt; reader.feed(alloc, &piece) == Ok(()));
    assert_eq!(rt;
        next_ask(&rt, alloc, &mut reader).as_str(),
        "put [97] 1 1, 1048576 bytes"
    );
}
