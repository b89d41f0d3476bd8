//! Texts that are refused: the first bad line of each, and why.

use super::*;

/// First lines, without their end, each with its cause.
const BAD_HEADERS: [(&[u8], Cause); 25] = [
    (b"", Cause::NoHeader),
    (b"open", Cause::NoHeader),
    (b"hybris", Cause::NoHeader),
    (b"hybris 2 f 0 k 1 liars -", Cause::NoHeader),
    (b"Hybris 1 f 0 k 1 liars -", Cause::NoHeader),
    (b" hybris 1 f 0 k 1 liars -", Cause::NoHeader),
    (b"hybris  1 f 0 k 1 liars -", Cause::NoHeader),
    (b"hybris 1", Cause::BadParams),
    (b"hybris 1 k 1 f 0 liars -", Cause::BadParams),
    (b"hybris 1 f 4 k 1 liars -", Cause::BadParams),
    (b"hybris 1 f -1 k 1 liars -", Cause::BadParams),
    (b"hybris 1 f 00 k 1 liars -", Cause::BadParams),
    (b"hybris 1 f 0 k 0 liars -", Cause::BadParams),
    (b"hybris 1 f 0 k 5 liars -", Cause::BadParams),
    (b"hybris 1 f 0 k 1 liar -", Cause::BadParams),
    (b"hybris 1 f 0 k 1 liars", Cause::BadParams),
    (b"hybris 1 f 0 k 1 liars 1", Cause::BadParams),
    (b"hybris 1 f 1 k 1 liars 3", Cause::BadParams),
    (b"hybris 1 f 1 k 1 liars 1,0", Cause::BadParams),
    (b"hybris 1 f 1 k 1 liars 1,1", Cause::BadParams),
    (b"hybris 1 f 1 k 1 liars 0,", Cause::BadParams),
    (b"hybris 1 f 1 k 1 liars 0, 1", Cause::BadParams),
    (b"hybris 1 f 1 k 1 liars 00", Cause::BadParams),
    (b"hybris 1 f 0 k 1 liars - ", Cause::BadParams),
    (b"hybris 1 f 0 k 1 liars - f 0", Cause::BadParams),
];

/// Event lines in a store whose clouds 0 and 2 are Byzantine, each with its cause.
const BAD_EVENTS: [(&[u8], Cause); 71] = [
    (b"", Cause::BadWord),
    (b"fly", Cause::BadWord),
    (b" open", Cause::BadWord),
    (b"Open", Cause::BadWord),
    (b"hybris 1 f 1 k 1 liars 0,2", Cause::BadWord),
    (b"open ", Cause::Extra),
    (b"open 1", Cause::Extra),
    (b"do", Cause::BadNumber),
    (b"do 0 get a", Cause::BadNumber),
    (b"do 4097 get a", Cause::BadNumber),
    (b"do 01 get a", Cause::BadNumber),
    (b"do  1 get a", Cause::BadNumber),
    (b"do 1", Cause::BadWord),
    (b"do 1 set a", Cause::BadWord),
    (b"do 1 get", Cause::BadKey),
    (b"do 1 get A", Cause::BadKey),
    (b"do 1 get a ", Cause::Extra),
    (b"do 1 put a", Cause::BadHex),
    (b"do 1 put a 6", Cause::BadHex),
    (b"do 1 put a 6A", Cause::BadHex),
    (b"do 1 put a 0g", Cause::BadHex),
    (b"do 1 put a 00 ", Cause::Extra),
    (b"do 1 delete A", Cause::BadKey),
    (b"do 1 collect a 1", Cause::Extra),
    (b"do 1 put _a 01", Cause::BadKey),
    (b"do 1 delete _a", Cause::BadKey),
    (b"do 1 swap", Cause::BadKey),
    (b"do 1 swap a 0 0 01", Cause::BadKey),
    (b"do 1 swap _a", Cause::BadNumber),
    (b"do 1 swap _a 4294967295 0 01", Cause::BadNumber),
    (b"do 1 swap _a 0", Cause::BadNumber),
    (b"do 1 swap _a 0 4097 01", Cause::BadNumber),
    (b"do 1 swap _a 0 0", Cause::BadHex),
    (b"do 1 swap _a 0 0 01 ", Cause::Extra),
    (b"invoke 1 swap _a 0 01 01", Cause::BadNumber),
    (b"invoke", Cause::BadNumber),
    (b"invoke 4097 get a", Cause::BadNumber),
    (b"invoke 1 open", Cause::BadWord),
    (b"invoke 1 put : 00", Cause::BadKey),
    (b"invoke 1 put a -0", Cause::BadHex),
    (b"invoke 1 get a b", Cause::Extra),
    (b"give", Cause::BadNumber),
    (b"give 0", Cause::BadNumber),
    (b"give 4294967296", Cause::BadNumber),
    (b"give 1 ", Cause::Extra),
    (b"tick 0", Cause::BadNumber),
    (b"tick 4097", Cause::BadNumber),
    (b"tick 1 1", Cause::Extra),
    (b"stop", Cause::BadNumber),
    (b"stop 4097", Cause::BadNumber),
    (b"stop 1\r", Cause::BadNumber),
    (b"lie", Cause::BadNumber),
    (b"lie 1 1 1 a 1 1 stored", Cause::BadNumber),
    (b"lie 3 1 1 a 1 1 stored", Cause::BadNumber),
    (b"lie 16 1 1 a 1 1 stored", Cause::BadNumber),
    (b"lie 256 1 1 a 1 1 stored", Cause::BadNumber),
    (b"lie 0 0 1 a 1 1 stored", Cause::BadNumber),
    (b"lie 0 4097 1 a 1 1 stored", Cause::BadNumber),
    (b"lie 0 1 0 a 1 1 stored", Cause::BadNumber),
    (b"lie 0 1 4294967296 a 1 1 stored", Cause::BadNumber),
    (b"lie 0 1 1 A 1 1 stored", Cause::BadKey),
    (b"lie 0 1 1 a 0 1 stored", Cause::BadNumber),
    (b"lie 0 1 1 a 4294967295 1 stored", Cause::BadNumber),
    (b"lie 0 1 1 a 1 0 stored", Cause::BadNumber),
    (b"lie 0 1 1 a 1 4097 stored", Cause::BadNumber),
    (b"lie 0 1 1 a 1 1", Cause::BadWord),
    (b"lie 0 1 1 a 1 1 held", Cause::BadWord),
    (b"lie 0 1 1 a 1 1 body", Cause::BadHex),
    (b"lie 0 1 1 a 1 1 body FF", Cause::BadHex),
    (b"lie 0 1 1 a 1 1 stored true", Cause::Extra),
    (b"lie 0 1 1 a 1 1 bad 400", Cause::Extra),
];

#[test]
fn first_line_is_judged_first(rt: HostRuntime) {
    for (header, cause) in BAD_HEADERS {
        assert_bad_line(&rt, rt.alloc(), b"", header, 1, cause);
    }
}

#[test]
fn line_end_is_judged_last(rt: HostRuntime) {
    for (text, line, cause) in [
        (b"".as_slice(), 1, Cause::NoHeader),
        (b"hybris 1 f 0 k 5 liars -".as_slice(), 1, Cause::BadParams),
        (b"hybris 1 f 0 k 1 liars -".as_slice(), 1, Cause::NoLineEnd),
        (
            b"hybris 1 f 0 k 1 liars -\nopen".as_slice(),
            2,
            Cause::NoLineEnd,
        ),
        (
            b"hybris 1 f 0 k 1 liars -\nopen ".as_slice(),
            2,
            Cause::Extra,
        ),
        (
            b"hybris 1 f 0 k 1 liars -\ntick 0".as_slice(),
            2,
            Cause::BadNumber,
        ),
    ] {
        assert_fault(&rt, rt.alloc(), text, line, cause);
    }
}

#[test]
fn first_bad_line_of_an_event_is_named(rt: HostRuntime) {
    let front = b"hybris 1 f 1 k 1 liars 0,2\nopen\ntick 1\n";
    for (line, cause) in BAD_EVENTS {
        assert_bad_line(&rt, rt.alloc(), front, line, 4, cause);
    }
}

#[test]
fn first_bad_word_is_the_cause(rt: HostRuntime) {
    for (line, cause) in [
        (b"do 0 set A 6 x".as_slice(), Cause::BadNumber),
        (b"do 1 set A 6 x".as_slice(), Cause::BadWord),
        (b"do 1 put A 6 x".as_slice(), Cause::BadKey),
        (b"do 1 put a 6 x".as_slice(), Cause::BadHex),
        (b"do 1 put a 06 x".as_slice(), Cause::Extra),
        (b"do 1 swap a 01 0 6 x".as_slice(), Cause::BadKey),
        (b"do 1 swap _a 01 0 6 x".as_slice(), Cause::BadNumber),
        (b"do 1 swap _a 1 0 6 x".as_slice(), Cause::BadHex),
        (b"lie 1 0 0 A 0 0 held x".as_slice(), Cause::BadNumber),
        (b"lie 0 1 1 A 0 0 held x".as_slice(), Cause::BadKey),
        (b"lie 0 1 1 a 1 0 held x".as_slice(), Cause::BadNumber),
        (b"lie 0 1 1 a 1 1 held x".as_slice(), Cause::BadWord),
        (b"lie 0 1 1 a 1 1 gone x".as_slice(), Cause::Extra),
    ] {
        assert_bad_line(&rt, rt.alloc(), LIARS, line, 2, cause);
    }
}
