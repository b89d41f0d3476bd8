//! Orders of small logs, point by point, of a large one, and of histories.

use super::*;
use hy_order::{History, read_report};
use hy_record::{Key, Stamp};
use std::alloc::Global;
use std::process::Abort;

/// As many puts as fill a log of 131,072 points.
const PUTS: u32 = 32_768;

/// Two gets that overlap: the second reads first.
const TWO_GETS: &[u8] = b"op 1 1 put a 31 1 4 done 1 1\n\
op 2 2 get a 5 10 value 31 1 1\n\
op 3 3 get a 6 9 value 31 1 1\n\
order a\n\
end 3 1\n";

/// A get that is invoked before the put that it finds, a put that is overwritten before it returns,
/// a delete, a put without a timestamp left, operations that run, a collection, and another key.
const ALL_KINDS: &[u8] = b"op 1 1 get a 1 9 value 32 1 2\n\
op 2 3 put a 31 2 8 done 1 3\n\
op 3 2 put a 32 3 7 done 1 2\n\
op 4 1 get a 10 11 value 31 1 3\n\
op 5 4 delete a 12 13 done 2 4\n\
op 6 1 get a 14 15 none 2 4\n\
op 7 5 put a 33 16 17 exhausted 2 4\n\
op 8 6 put a 34 18 - update 0 1\n\
op 9 7 get a 19 - fetch 0 1\n\
op 10 8 collect a 20 21 collected 2\n\
op 11 8 put b 35 22 23 done 1 8\n\
order a\n\
order b\n\
end 11 2\n";

fn key(rt: &impl Abort, name: &[u8]) -> Key {
    Key::read(name).ok().expect(rt, "a key")
}

fn stamp(rt: &impl Abort, sn: u32, cid: u32) -> Stamp {
    Stamp::new(sn, cid).expect(rt, "a timestamp")
}

/// The client begins an operation of key a.
fn begin(rt: &impl Abort, op: u32, client: u32, act: ActKind) -> Point {
    let key = key(rt, b"a");
    Point::Begin {
        op,
        client,
        key,
        act,
    }
}

fn put(rt: &impl Abort, op: u32, client: u32) -> Point {
    begin(rt, op, client, ActKind::Put)
}

fn get(rt: &impl Abort, op: u32, client: u32) -> Point {
    begin(rt, op, client, ActKind::Get)
}

/// The client begins a swap that expects this timestamp.
fn swap(rt: &impl Abort, op: u32, client: u32, sn: u32, cid: u32) -> Point {
    let expected = stamp(rt, sn, cid);
    begin(rt, op, client, ActKind::Swap(expected))
}

/// It tries to write the first timestamp, and finds the second.
fn tries(rt: &impl Abort, op: u32, own: (u32, u32), found: (u32, u32)) -> Point {
    let found = stamp(rt, found.0, found.1);
    let stamp = stamp(rt, own.0, own.1);
    Point::Try { op, stamp, found }
}

fn ask(rt: &impl Abort, op: u32, sn: u32, cid: u32) -> Point {
    let found = stamp(rt, sn, cid);
    Point::Ask { op, found }
}

fn set(rt: &impl Abort, op: u32, sn: u32, cid: u32, applied: bool) -> Point {
    let stamp = stamp(rt, sn, cid);
    Point::Set { op, stamp, applied }
}

fn applied(rt: &impl Abort, op: u32, sn: u32, cid: u32) -> Point {
    set(rt, op, sn, cid, true)
}

fn refused(rt: &impl Abort, op: u32, sn: u32, cid: u32) -> Point {
    set(rt, op, sn, cid, false)
}

fn end(op: u32) -> Point {
    Point::End { op }
}

fn log_of(rt: &impl Abort, alloc: Global, points: &[Point]) -> PointLog {
    let points = Vec::from_slice(alloc, points).ok().expect(rt, "memory");
    PointLog::of(points)
}

/// The order of key a by the log of these points.
fn has_order(rt: &impl Abort, alloc: Global, points: &[Point], expected: &[u32]) {
    let log = log_of(rt, alloc, points);
    let order = order_of(alloc, &log, &key(rt, b"a"));
    let order = order.ok().expect(rt, "memory");
    assert_eq!(rt; order.key.bytes(), b"a".as_slice());
    assert_eq!(rt; order.ops.items(), expected);
}

/// The keys of the log of these points, each with its order.
fn has_orders(rt: &impl Abort, alloc: Global, points: &[Point], expected: &[(&[u8], &[u32])]) {
    let log = log_of(rt, alloc, points);
    let orders = orders_of(alloc, &log).ok().expect(rt, "memory");
    assert_eq!(rt; orders.items().len(), expected.len());
    for (order, (name, ops)) in orders.items().iter().zip(expected) {
        assert_eq!(rt; order.key.bytes(), *name);
        assert_eq!(rt; order.ops.items(), *ops);
    }
}

/// The order of the key by the timestamps of the history.
fn has_stamp_order(
    rt: &impl Abort,
    alloc: Global,
    history: &History,
    name: &[u8],
    expected: &[u32],
) {
    let order = stamp_order(alloc, history, &key(rt, name));
    let order = order.ok().expect(rt, "memory");
    assert_eq!(rt; order.key.bytes(), name);
    assert_eq!(rt; order.ops.items(), expected);
}

fn history(rt: &impl Abort, alloc: Global, report: &[u8]) -> History {
    let report = read_report(alloc, report).ok().expect(rt, "a report");
    report.history
}

#[test]
fn overwritten_put_orders_first(rt: HostRuntime) {
    let points = [
        put(&rt, 1, 1),
        put(&rt, 2, 2),
        ask(&rt, 1, 0, 0),
        ask(&rt, 2, 0, 0),
        applied(&rt, 2, 1, 2),
        refused(&rt, 1, 1, 1),
        end(2),
        end(1),
        get(&rt, 3, 1),
        ask(&rt, 3, 1, 2),
        end(3),
    ];
    has_order(&rt, rt.alloc(), points.as_slice(), [1, 2, 3].as_slice());
}

#[test]
fn overwritten_put_stands_just_before_its_overwriter(rt: HostRuntime) {
    let points = [
        put(&rt, 1, 1),
        put(&rt, 2, 2),
        ask(&rt, 1, 0, 0),
        ask(&rt, 2, 0, 0),
        get(&rt, 3, 3),
        ask(&rt, 3, 0, 0),
        end(3),
        applied(&rt, 2, 1, 2),
        end(2),
        get(&rt, 4, 3),
        ask(&rt, 4, 1, 2),
        refused(&rt, 1, 1, 1),
        end(1),
        end(4),
    ];
    has_order(&rt, rt.alloc(), points.as_slice(), [3, 1, 2, 4].as_slice());
}

#[test]
fn overwritten_puts_at_one_point_stand_by_timestamp(rt: HostRuntime) {
    let points = [
        put(&rt, 1, 1),
        ask(&rt, 1, 0, 0),
        put(&rt, 2, 2),
        ask(&rt, 2, 0, 0),
        applied(&rt, 1, 1, 1),
        end(1),
        put(&rt, 3, 1),
        ask(&rt, 3, 1, 1),
        put(&rt, 4, 3),
        ask(&rt, 4, 1, 1),
        applied(&rt, 4, 2, 3),
        refused(&rt, 3, 2, 1),
        refused(&rt, 2, 1, 2),
        end(2),
        end(3),
        end(4),
    ];
    has_order(&rt, rt.alloc(), points.as_slice(), [1, 2, 3, 4].as_slice());
}

#[test]
fn pending_applied_write_stands_between_gets(rt: HostRuntime) {
    let points = [
        put(&rt, 1, 1),
        ask(&rt, 1, 0, 0),
        get(&rt, 2, 2),
        ask(&rt, 2, 0, 0),
        applied(&rt, 1, 1, 1),
        end(2),
        get(&rt, 3, 2),
        ask(&rt, 3, 1, 1),
        end(3),
    ];
    has_order(&rt, rt.alloc(), points.as_slice(), [2, 1, 3].as_slice());
}

#[test]
fn pending_operations_without_effect_are_not_listed(rt: HostRuntime) {
    let points = [
        put(&rt, 1, 1),
        ask(&rt, 1, 0, 0),
        put(&rt, 2, 2),
        ask(&rt, 2, 0, 0),
        applied(&rt, 2, 1, 2),
        refused(&rt, 1, 1, 1),
        end(2),
        get(&rt, 3, 3),
        ask(&rt, 3, 1, 2),
        put(&rt, 4, 4),
        ask(&rt, 4, 1, 2),
    ];
    has_order(&rt, rt.alloc(), points.as_slice(), [2].as_slice());
}

/// Of swaps that expect (0, 0), one is applied, one refused at its try, and one finds (1, 1) first;
/// then one that expects (1, 1) is applied, and one refused, and neither returns.
#[test]
fn swaps_stand_where_they_find_the_record(rt: HostRuntime) {
    let points = [
        swap(&rt, 1, 1, 0, 0),
        swap(&rt, 2, 2, 0, 0),
        ask(&rt, 1, 0, 0),
        ask(&rt, 2, 0, 0),
        tries(&rt, 1, (1, 1), (0, 0)),
        tries(&rt, 2, (1, 2), (1, 1)),
        end(2),
        end(1),
        swap(&rt, 3, 3, 0, 0),
        swap(&rt, 4, 4, 1, 1),
        swap(&rt, 5, 5, 1, 1),
        ask(&rt, 4, 1, 1),
        ask(&rt, 5, 1, 1),
        ask(&rt, 3, 1, 1),
        end(3),
        tries(&rt, 4, (2, 4), (1, 1)),
        tries(&rt, 5, (2, 5), (2, 4)),
        get(&rt, 6, 6),
        ask(&rt, 6, 2, 4),
        end(6),
    ];
    has_order(
        &rt,
        rt.alloc(),
        points.as_slice(),
        [1, 2, 3, 4, 6].as_slice(),
    );
}

#[test]
fn each_key_has_its_order(rt: HostRuntime) {
    let points = [
        Point::Begin {
            op: 1,
            client: 1,
            key: key(&rt, b"b"),
            act: ActKind::Delete,
        },
        put(&rt, 2, 2),
        ask(&rt, 2, 0, 0),
        ask(&rt, 1, 0, 0),
        applied(&rt, 1, 1, 1),
        Point::Begin {
            op: 3,
            client: 3,
            key: key(&rt, b"c"),
            act: ActKind::Get,
        },
        get(&rt, 4, 4),
        ask(&rt, 4, 0, 0),
        applied(&rt, 2, 1, 2),
        end(4),
        end(1),
        end(2),
    ];
    let expected = [
        (b"a".as_slice(), [4, 2].as_slice()),
        (b"b".as_slice(), [1].as_slice()),
        (b"c".as_slice(), [].as_slice()),
    ];
    has_orders(&rt, rt.alloc(), points.as_slice(), expected.as_slice());
}

#[test]
fn gets_stand_by_moment_or_by_invocation(rt: HostRuntime) {
    let points = [
        put(&rt, 1, 1),
        ask(&rt, 1, 0, 0),
        applied(&rt, 1, 1, 1),
        end(1),
        get(&rt, 2, 2),
        get(&rt, 3, 3),
        ask(&rt, 3, 1, 1),
        ask(&rt, 2, 1, 1),
        end(3),
        end(2),
    ];
    has_order(&rt, rt.alloc(), points.as_slice(), [1, 3, 2].as_slice());
    let history = history(&rt, rt.alloc(), TWO_GETS);
    has_stamp_order(&rt, rt.alloc(), &history, b"a", [1, 2, 3].as_slice());
}

#[test]
fn finished_operations_stand_by_timestamp(rt: HostRuntime) {
    let history = history(&rt, rt.alloc(), ALL_KINDS);
    has_stamp_order(
        &rt,
        rt.alloc(),
        &history,
        b"a",
        [3, 1, 2, 4, 5, 6].as_slice(),
    );
    has_stamp_order(&rt, rt.alloc(), &history, b"b", [11].as_slice());
    has_stamp_order(&rt, rt.alloc(), &history, b"c", [].as_slice());
}

/// A point of the put of this number, by which all puts begin, or read, or write, or return.
fn crowd_point(rt: &impl Abort, part: u32, op: u32) -> Point {
    match part {
        0 => put(rt, op, op),
        1 => ask(rt, op, 0, 0),
        2 => set(rt, op, 1, op, op == PUTS),
        _ => end(op),
    }
}

/// Puts of as many clients, of which all but the last are overwritten by the last at one point.
fn crowd(rt: &impl Abort, alloc: Global) -> Vec<Point> {
    let mut points: Vec<Point> = Vec::new(alloc);
    for part in 0..4 {
        for op in (1..=PUTS).rev() {
            let point = crowd_point(rt, part, op);
            points.push(point).ok().expect(rt, "memory");
        }
    }
    points
}

#[test]
fn large_log_is_ordered(rt: HostRuntime) {
    let points = crowd(&rt, rt.alloc());
    assert_eq!(rt; points.len(), 131_072);
    let numbers: Vec<u32> = (1..=PUTS).collect(rt.alloc()).ok().expect(&rt, "memory");
    has_order(&rt, rt.alloc(), points.as_slice(), numbers.as_slice());
    let expected = [(b"a".as_slice(), numbers.as_slice())];
    has_orders(&rt, rt.alloc(), points.as_slice(), expected.as_slice());
}
