//! Schedules that are read, written and refused.

use super::*;
use hy_base::{Cause, TextError, TextFault};
use std::alloc::Global;
use std::process::Abort;

mod faults;
mod limits;
mod texts;

/// A store of one cloud.
const HEADER: &[u8] = b"hybris 1 f 0 k 1 liars -\n";

/// A store of three clouds, of which the first and the last are Byzantine.
const LIARS: &[u8] = b"hybris 1 f 1 k 1 liars 0,2\n";

/// The bytes, one piece after the other.
fn joined(rt: &impl Abort, alloc: Global, pieces: &[&[u8]]) -> Vec<u8> {
    let mut whole = Vec::new(alloc);
    for piece in pieces {
        whole.extend_from_slice(piece).ok().expect(rt, "memory");
    }
    whole
}

/// The bytes, so many times.
fn repeated(rt: &impl Abort, alloc: Global, piece: &[u8], times: u32) -> Vec<u8> {
    let mut whole = Vec::new(alloc);
    for _ in 0..times {
        whole.extend_from_slice(piece).ok().expect(rt, "memory");
    }
    whole
}

/// The text is refused: its first bad line, and why.
fn assert_fault(rt: &impl Abort, alloc: Global, text: &[u8], line: u32, cause: Cause) {
    let fault = TextError::Fault(TextFault { line, cause });
    assert_eq!(rt;
        read_schedule(alloc, text).err(),
        Some(fault),
        "at {text:?}"
    );
}

/// The line after the front is the first that is refused, and why.
fn assert_bad_line(
    rt: &impl Abort,
    alloc: Global,
    front: &[u8],
    line: &[u8],
    number: u32,
    cause: Cause,
) {
    let text = joined(rt, alloc, &[front, line, b"\nfly\n"]);
    assert_fault(rt, alloc, &text, number, cause);
}

/// The schedule that the text is.
fn read(rt: &impl Abort, alloc: Global, name: &str, text: &[u8]) -> Schedule {
    let read = read_schedule(alloc, text);
    assert!(rt; read.is_ok(), "{name}");
    read.ok().expect(rt, "a schedule")
}

/// The text is read, and written as it was.
fn assert_written_again(rt: &impl Abort, alloc: Global, name: &str, text: &[u8]) {
    let schedule = read(rt, alloc, name, text);
    let written = write_schedule(alloc, &schedule).ok().expect(rt, "memory");
    assert_eq!(rt; written.bytes(), text, "{name}");
}
