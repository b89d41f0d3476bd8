//! The limits of a schedule, at their edges.

use super::*;
use hy_base::{MAX_EVENTS, MAX_SESSIONS, MAX_TEXT_VALUE};

/// A store of three clouds with the line in it, which ends in a value of so many bytes.
fn with_value(rt: &impl Abort, alloc: Global, line: &[u8], size: u32, after: &[u8]) -> Vec<u8> {
    let value = repeated(rt, alloc, b"07", size);
    joined(rt, alloc, &[LIARS, b"open\n", line, &value, after])
}

#[test]
fn values_have_a_limit(rt: HostRuntime) {
    let size = MAX_TEXT_VALUE as u32;
    for line in [
        b"do 1 put a ".as_slice(),
        b"invoke 1 put a ".as_slice(),
        b"invoke 1 swap _a 0 0 ".as_slice(),
        b"lie 2 1 1 a 1 1 body ".as_slice(),
    ] {
        let longest = with_value(&rt, rt.alloc(), line, size, b"\n");
        assert_written_again(&rt, rt.alloc(), "the longest value", &longest);
        let longer = with_value(&rt, rt.alloc(), line, size + 1, b" x\nfly\n");
        assert_fault(&rt, rt.alloc(), &longer, 3, Cause::LongValue);
        let odd = with_value(&rt, rt.alloc(), line, size + 1, b"0 x\nfly\n");
        assert_fault(&rt, rt.alloc(), &odd, 3, Cause::BadHex);
    }
}

#[test]
fn keys_have_a_limit(rt: HostRuntime) {
    let longest = repeated(&rt, rt.alloc(), b"k", 64);
    let text = joined(&rt, rt.alloc(), &[HEADER, b"do 1 get ", &longest, b"\n"]);
    assert_written_again(&rt, rt.alloc(), "the longest key", &text);
    let text = joined(&rt, rt.alloc(), &[HEADER, b"do 1 get k", &longest, b"\n"]);
    assert_fault(&rt, rt.alloc(), &text, 2, Cause::BadKey);
}

#[test]
fn clients_have_a_limit(rt: HostRuntime) {
    let all = repeated(&rt, rt.alloc(), b"open\n", MAX_SESSIONS);
    let text = joined(&rt, rt.alloc(), &[HEADER, &all, b"do 4096 get a\n"]);
    assert_written_again(&rt, rt.alloc(), "all clients", &text);
    for (line, cause) in [
        (b"open".as_slice(), Cause::TooManyOpen),
        (b"open ".as_slice(), Cause::Extra),
        (b"tick 4097".as_slice(), Cause::BadNumber),
    ] {
        assert_bad_line(&rt, rt.alloc(), &text, line, 4_099, cause);
    }
}

#[test]
fn client_too_many_is_named_before_the_line_end(rt: HostRuntime) {
    let all = repeated(&rt, rt.alloc(), b"open\n", MAX_SESSIONS);
    let text = joined(&rt, rt.alloc(), &[HEADER, &all, b"open"]);
    assert_fault(&rt, rt.alloc(), &text, 4_098, Cause::TooManyOpen);
}

#[test]
fn event_lines_have_a_limit(rt: HostRuntime) {
    let all = repeated(&rt, rt.alloc(), b"give 1\n", MAX_EVENTS);
    let text = joined(&rt, rt.alloc(), &[HEADER, &all]);
    let schedule = read(&rt, rt.alloc(), "all events", &text);
    assert_eq!(rt; schedule.events.items().len(), MAX_EVENTS as usize);
    for line in [b"give 1".as_slice(), b"open".as_slice(), b"fly".as_slice()] {
        assert_bad_line(&rt, rt.alloc(), &text, line, 16_386, Cause::TooManyLines);
    }
}
