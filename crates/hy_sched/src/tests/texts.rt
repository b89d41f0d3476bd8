//! Texts of schedules that are read and written again.

use super::*;
use hy_record::{Action, CloudSay, Key, Stamp};

/// Schedules by what each shows: operations that run at once and step by step, forged answers,
/// crashes, collections, and coded values.
const WORKED: [(&str, &[u8]); 21] = [
    (
        "put then get",
        b"hybris 1 f 0 k 1 liars -\nopen\ndo 1 put a 616263\ndo 1 get a\n",
    ),
    ("empty schedule", b"hybris 1 f 0 k 1 liars -\n"),
    (
        "put step by step",
        b"hybris 1 f 1 k 1 liars -\nopen\ninvoke 1 put a 01\ngive 1\ngive 2\ngive 3\ngive 4\n\
        give 5\ngive 6\ngive 7\ngive 8\n",
    ),
    (
        "repeated update is kept",
        b"hybris 1 f 1 k 1 liars -\nopen\ninvoke 1 put a 01\ngive 1\ngive 2\ngive 3\ngive 4\n\
        give 5\ngive 6\ngive 7\ngive 7\ngive 8\ngive 9\n",
    ),
    (
        "repeated ack counts once",
        b"hybris 1 f 1 k 1 liars -\nopen\ninvoke 1 put a 01\ngive 1\ngive 2\ngive 3\ngive 4\n\
        give 5\ngive 5\n",
    ),
    (
        "overwritten put orders first",
        b"hybris 1 f 0 k 1 liars -\nopen\nopen\ninvoke 1 put a 01\ninvoke 2 put a 02\ngive 1\n\
        give 2\ngive 3\ngive 4\ngive 5\ngive 6\ngive 7\ngive 8\ngive 10\ngive 9\ngive 11\n\
        give 12\ndo 1 get a\n",
    ),
    (
        "tick reaches spare clouds",
        b"hybris 1 f 1 k 1 liars -\nopen\ninvoke 1 put a 01\ngive 1\ngive 2\ngive 3\ngive 5\n\
        tick 1\ngive 7\ngive 8\ngive 9\ngive 10\n",
    ),
    (
        "lying body is rejected",
        b"hybris 1 f 1 k 1 liars 0\nopen\ninvoke 1 put a 01\ngive 1\ngive 2\ngive 4\ngive 5\n\
        lie 0 1 1 a 1 1 stored\ngive 6\ngive 7\ninvoke 1 get a\ngive 8\ngive 9\n\
        lie 0 1 2 a 1 1 body 00\ngive 11\ngive 12\n",
    ),
    (
        "stale body is rejected",
        b"hybris 1 f 1 k 1 liars 0\nopen\ndo 1 put a 01\nlie 0 1 1 a 1 1 stored\ngive 6\n\
        give 7\ndo 1 put a 02\nlie 0 1 2 a 2 1 stored\ngive 13\ngive 14\ndo 1 get a\n\
        lie 0 1 3 a 2 1 body 01\ngive 18\ngive 19\n",
    ),
    (
        "collected under reader",
        b"hybris 1 f 0 k 1 liars -\nopen\nopen\ndo 1 put a 01\ninvoke 2 get a\ngive 7\ngive 8\n\
        do 1 put a 02\ndo 1 collect a\ngive 9\ngive 22\ngive 23\ngive 25\ngive 26\ngive 27\n\
        give 28\ngive 29\n",
    ),
    (
        "update after client stopped",
        b"hybris 1 f 0 k 1 liars -\nopen\nopen\ninvoke 1 put a 01\ngive 1\ngive 2\ngive 3\n\
        give 4\nstop 1\ngive 5\ndo 2 get a\n",
    ),
    (
        "empty value coded",
        b"hybris 1 f 1 k 2 liars -\nopen\ndo 1 put a -\ndo 1 get a\n",
    ),
    (
        "coded put with padding",
        b"hybris 1 f 1 k 2 liars 0\nopen\ndo 1 put a 010203\nlie 0 1 1 a 1 1 stored\ngive 8\n\
        give 9\ndo 1 get a\nlie 0 1 2 a 1 1 missing\ngive 15\ngive 16\n",
    ),
    (
        "get of absent key",
        b"hybris 1 f 0 k 1 liars -\nopen\ndo 1 get a\n",
    ),
    (
        "delete then get",
        b"hybris 1 f 0 k 1 liars -\nopen\ndo 1 put a 01\ndo 1 delete a\ndo 1 get a\n",
    ),
    (
        "busy client ignores do",
        b"hybris 1 f 0 k 1 liars -\nopen\ninvoke 1 put a 01\ndo 1 get a\nstop 1\n",
    ),
    (
        "largest shape",
        b"hybris 1 f 3 k 4 liars -\nopen\ndo 1 put a 01020304\n",
    ),
    (
        "more liars than faults",
        b"hybris 1 f 1 k 1 liars 0,1,2\nopen\ninvoke 1 put a 01\ngive 1\ngive 2\n\
        lie 0 1 1 a 1 1 stored\nlie 1 1 1 a 1 1 stored\ngive 5\ngive 6\ndo 1 get a\n",
    ),
    (
        "swap sequence",
        b"hybris 1 f 0 k 1 liars -\nopen\nopen\ndo 1 swap _a 0 0 01\ndo 2 swap _a 0 0 02\n\
        do 2 swap _a 1 1 03\ndo 1 get _a\n",
    ),
    (
        "repeated swap acts once",
        b"hybris 1 f 0 k 1 liars -\nopen\nopen\ninvoke 1 swap _a 0 0 01\ngive 1\ngive 2\n\
        give 3\ngive 4\ngive 5\ndo 2 swap _a 1 1 02\ngive 5\ngive 13\n",
    ),
    (
        "competing swaps",
        b"hybris 1 f 0 k 1 liars -\nopen\nopen\ninvoke 1 swap _a 0 0 01\n\
        invoke 2 swap _a 0 0 02\ngive 1\ngive 2\ngive 3\ngive 4\ngive 5\ngive 6\ngive 7\n\
        give 8\ngive 9\ngive 10\ngive 11\ngive 12\n",
    ),
];

/// Schedules whose words are at the ends of their ranges.
const AT_EDGES: [(&str, &[u8]); 2] = [
    (
        "the first and the last numbers of each word",
        b"hybris 1 f 0 k 4 liars 0,1,2,3\ninvoke 1 get a\ninvoke 4096 delete k-1_.z\ngive 1\n\
        give 4294967295\nlie 0 1 1 a 1 1 conflict\n\
        lie 3 4096 4294967295 zz 4294967294 4096 body 00ff\ntick 1\ntick 4096\nstop 1\n\
        stop 4096\ndo 1 collect 0\ninvoke 1 swap _ 0 0 -\n\
        do 4096 swap _9.z 4294967294 4096 00ff\n",
    ),
    (
        "all answers",
        b"hybris 1 f 3 k 4 liars 0,1,2,3,4,5,6,7,8,9\nlie 9 1 1 a 1 1 stored\n\
        lie 9 1 1 a 1 1 conflict\nlie 9 1 1 a 1 1 body -\nlie 9 1 1 a 1 1 body 07\n\
        lie 9 1 1 a 1 1 missing\nlie 9 1 1 a 1 1 gone\nlie 9 1 1 a 1 1 bad\n",
    ),
];

#[test]
fn worked_schedules_are_read_and_written(rt: HostRuntime) {
    for (name, text) in WORKED {
        assert_written_again(&rt, rt.alloc(), name, text);
    }
}

#[test]
fn words_at_the_ends_of_their_ranges_are_read_and_written(rt: HostRuntime) {
    for (name, text) in AT_EDGES {
        assert_written_again(&rt, rt.alloc(), name, text);
    }
}

/// The key of one letter.
fn key(rt: &impl Abort) -> Key {
    Key::read(b"a").ok().expect(rt, "a key")
}

/// The one event of the schedule that has this line alone.
fn only_event(rt: &impl Abort, alloc: Global, line: &[u8]) -> Event {
    let text = joined(rt, alloc, &[LIARS, line]);
    let schedule = read(rt, alloc, "one event", &text);
    let mut events = schedule.events.into_items();
    events.pop().expect(rt, "one event")
}

/// An answer of cloud 2 to operation 3 of client 1, about timestamp 4 5.
fn lie(rt: &impl Abort, say: CloudSay) -> Event {
    Event::Lie {
        cloud: 2,
        client: 1,
        op: 3,
        key: key(rt),
        stamp: Stamp::new(4, 5).expect(rt, "a timestamp"),
        say,
    }
}

#[test]
fn header_is_told(rt: HostRuntime) {
    for (text, params) in [
        (
            HEADER,
            Params {
                f: 0,
                k: 1,
                liars: 0,
            },
        ),
        (
            LIARS,
            Params {
                f: 1,
                k: 1,
                liars: 5,
            },
        ),
        (
            b"hybris 1 f 3 k 4 liars 0,9\n".as_slice(),
            Params {
                f: 3,
                k: 4,
                liars: 513,
            },
        ),
    ] {
        assert_eq!(rt; read(&rt, rt.alloc(), "a first line", text).params, params);
    }
}

#[test]
fn events_are_told(rt: HostRuntime) {
    let client = 7;
    for (line, event) in [
        (b"open\n".as_slice(), Event::Join),
        (b"give 7\n".as_slice(), Event::Give { number: 7 }),
        (b"tick 7\n".as_slice(), Event::Tick { client }),
        (b"stop 7\n".as_slice(), Event::Stop { client }),
    ] {
        assert_eq!(rt; only_event(&rt, rt.alloc(), line), event);
    }
}

#[test]
fn requests_are_told(rt: HostRuntime) {
    let get = only_event(&rt, rt.alloc(), b"do 7 get a\n");
    let collect = only_event(&rt, rt.alloc(), b"do 7 collect a\n");
    let delete = only_event(&rt, rt.alloc(), b"invoke 8 delete a\n");
    let key = key(&rt);
    let action = Action::Get { key };
    assert_eq!(rt; get, Event::Do { client: 7, action });
    let action = Action::Collect { key };
    assert_eq!(rt; collect, Event::Do { client: 7, action });
    let action = Action::Delete { key };
    assert_eq!(rt; delete, Event::Invoke { client: 8, action });
}

#[test]
fn swap_is_told_with_the_timestamp_that_it_expects(rt: HostRuntime) {
    let swap = only_event(&rt, rt.alloc(), b"invoke 8 swap _a 3 2 01\n");
    let Event::Invoke { client, action } = swap else {
        panic!(rt; "no request");
    };
    let Action::Swap {
        key,
        expected,
        value,
    } = action
    else {
        panic!(rt; "no swap");
    };
    assert_eq!(rt; client, 8);
    assert_eq!(rt; key.bytes(), b"_a".as_slice());
    assert_eq!(rt; (expected.sn(), expected.cid()), (3, 2));
    assert_eq!(rt; value.bytes(), [1].as_slice());
}

#[test]
fn forged_answers_are_told(rt: HostRuntime) {
    for (line, say) in [
        (
            b"lie 2 1 3 a 4 5 stored\n".as_slice(),
            CloudSay::Stored { fresh: true },
        ),
        (b"lie 2 1 3 a 4 5 conflict\n".as_slice(), CloudSay::Conflict),
        (b"lie 2 1 3 a 4 5 missing\n".as_slice(), CloudSay::Missing),
        (b"lie 2 1 3 a 4 5 gone\n".as_slice(), CloudSay::Gone),
        (b"lie 2 1 3 a 4 5 bad\n".as_slice(), CloudSay::Bad(400)),
    ] {
        assert_eq!(rt; only_event(&rt, rt.alloc(), line), lie(&rt, say));
    }
}
