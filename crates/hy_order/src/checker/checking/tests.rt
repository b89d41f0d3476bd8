//! Orders of small histories, and the verdicts on them.

use super::*;
use crate::read_report;
use hy_base::Numbers;
use std::process::Abort;
use std::test::Fail;

/// Two puts of a key, one after the other.
const TWO_PUTS: &[u8] = b"op 1 1 put a 31 1 2 done 0 0\n\
op 2 2 put a 32 3 4 done 0 0\n\
order a\n\
end 2 1\n";

/// A put of a key, and then a get that answers its value.
const PUT_AND_GET: &[u8] = b"op 1 1 put a 616263 2 8 done 0 0\n\
op 2 2 get a 9 13 value 616263 0 0\n\
order a\n\
end 2 1\n";

/// Two puts, a get of the second, a delete, a get that finds it, a collection, an unfinished put and
/// an unfinished get, a put without a timestamp left, and a put of another key.
///
/// The second begins where the first ends; the gets overlap the writes that they see.
const ALL_KINDS: &[u8] = b"op 1 1 put a 31 1 3 done 0 0\n\
op 2 2 put a 32 3 5 done 0 0\n\
op 3 3 get a 4 6 value 32 0 0\n\
op 4 4 delete a 7 9 done 0 0\n\
op 5 5 get a 8 10 none 0 0\n\
op 6 6 collect a 11 12 collected 1\n\
op 7 7 put a 33 13 - store 0 1\n\
op 8 8 get a 14 - fetch 0 1\n\
op 9 9 put a 34 15 16 exhausted 0 0\n\
op 10 10 put b 35 17 18 done 0 0\n\
order a\n\
order b\n\
end 10 2\n";

/// The verdict on the numbers as an order of the key.
fn verdict(
    alloc: Global,
    history: &History,
    key: Key,
    numbers: &[u32],
) -> Result<Verdict, NoMemory> {
    let ops = Numbers::of(Vec::from_slice(alloc, numbers)?);
    check(alloc, history, &Order { key, ops })
}

/// The numbers have the verdicts, as orders of the key in the history that the text of a report has.
fn all_have(
    rt: &impl Abort,
    alloc: Global,
    text: &[u8],
    key: &[u8],
    orders: &[(&[u32], Verdict)],
) -> Result<(), Fail> {
    let key = Key::read(key).ok().ok_or("a key")?;
    let history = read_report(alloc, text)?.history;
    for (numbers, expected) in orders {
        assert_eq!(rt;
            verdict(alloc, &history, key, numbers)?,
            *expected,
            "at {numbers:?}"
        );
    }
    Ok(())
}

#[test]
fn legal_orders_and_those_with_other_operations(rt: HostRuntime) -> Result<(), Fail> {
    all_have(
        &rt,
        rt.alloc(),
        PUT_AND_GET,
        b"a",
        &[
            (&[1, 2], Verdict::Legal),
            (&[1], Verdict::Missing(2)),
            (&[2, 1], Verdict::Early(1, 2)),
        ],
    )?;
    all_have(
        &rt,
        rt.alloc(),
        ALL_KINDS,
        b"b",
        &[(&[10], Verdict::Legal), (&[], Verdict::Missing(10))],
    )?;
    all_have(
        &rt,
        rt.alloc(),
        ALL_KINDS,
        b"a",
        &[
            (&[1, 2, 3, 4, 5], Verdict::Legal),
            (&[1, 2, 3, 4, 5, 7], Verdict::Legal),
            (&[], Verdict::Missing(1)),
            (&[1, 2, 4, 5], Verdict::Missing(3)),
            (&[1, 2, 3, 5], Verdict::Missing(4)),
            (&[11, 5, 5, 3, 2], Verdict::Missing(1)),
            (&[0, 1, 2, 3, 4, 5], Verdict::Stranger(0)),
            (&[1, 2, 3, 4, 5, 11], Verdict::Stranger(11)),
            (
                &[1, 2, 3, 4, 5, 4_294_967_295],
                Verdict::Stranger(4_294_967_295),
            ),
            (&[1, 2, 3, 4, 5, 6], Verdict::Stranger(6)),
            (&[1, 2, 3, 4, 5, 8], Verdict::Stranger(8)),
            (&[1, 2, 3, 4, 5, 9], Verdict::Stranger(9)),
            (&[1, 1, 2, 3, 10, 4, 5, 8], Verdict::Stranger(10)),
        ],
    )
}

#[test]
fn orders_of_the_right_operations(rt: HostRuntime) -> Result<(), Fail> {
    all_have(
        &rt,
        rt.alloc(),
        TWO_PUTS,
        b"a",
        &[(&[2, 1], Verdict::Early(1, 2))],
    )?;
    all_have(
        &rt,
        rt.alloc(),
        ALL_KINDS,
        b"a",
        &[
            (&[1, 2, 3, 4, 5, 1], Verdict::Twice(1)),
            (&[5, 2, 3, 2, 3, 4, 1], Verdict::Twice(2)),
            (&[1, 2, 3, 4, 5, 7, 7], Verdict::Twice(7)),
            (&[5, 3, 2, 1, 4], Verdict::Early(3, 5)),
            (&[1, 4, 5, 3, 2], Verdict::Early(3, 4)),
            (&[1, 2, 3, 4, 7, 5], Verdict::Early(5, 7)),
            (&[3, 1, 2, 4, 5], Verdict::Early(1, 3)),
            (&[2, 1, 3, 4, 5], Verdict::Wrong(3)),
            (&[1, 3, 2, 4, 5], Verdict::Wrong(3)),
            (&[1, 2, 3, 5, 4], Verdict::Wrong(5)),
            (&[1, 3, 2, 5, 4], Verdict::Wrong(3)),
        ],
    )
}

#[test]
fn names_the_first_illegal_order(rt: HostRuntime) -> Result<(), Fail> {
    let a = Key::read(b"a").ok().ok_or("a key")?;
    let b = Key::read(b"b").ok().ok_or("another key")?;
    for (orders, expected) in [
        (b"order a 1\norder b 2\n".as_slice(), None),
        (
            b"order a 1\norder b\n".as_slice(),
            Some((b, Verdict::Missing(2))),
        ),
        (
            b"order a 1 1\norder b\n".as_slice(),
            Some((a, Verdict::Twice(1))),
        ),
    ] {
        let mut text = Vec::from_slice(rt.alloc(), b"op 1 1 put a 31 1 2 done 0 0\n")?;
        text.extend_from_slice(b"op 2 1 put b 32 3 4 done 0 0\n")?;
        text.extend_from_slice(orders)?;
        text.extend_from_slice(b"end 2 2\n")?;
        let report = read_report(rt.alloc(), text.as_slice())?;
        assert_eq!(rt;
            first_illegal(rt.alloc(), &report)?,
            expected,
            "at {orders:?}"
        );
    }
    Ok(())
}

/// Two swaps that expect no record, one after the other, and both done.
const TWO_SWAPS: &[u8] = b"op 1 1 swap _a 0 0 01 1 2 swapped 1 1\n\
op 2 2 swap _a 0 0 02 3 4 swapped 1 2\n\
order _a 1 2\n\
end 2 1\n";

/// A swap, one that was told the timestamp of the first, one without a reply, and a get.
///
/// The second overlaps the third, which leaves a timestamp that is unknown.
const SWAPS_AND_GET: &[u8] = b"op 1 1 swap _a 0 0 01 1 2 swapped 1 1\n\
op 2 2 swap _a 0 0 02 3 9 changed 1 1\n\
op 3 3 swap _a 1 1 03 5 - update 0 1\n\
op 4 4 get _a 6 7 value 03 2 3\n\
order _a 1 2 3 4\n\
end 4 1\n";

#[test]
fn swap_verdicts(rt: HostRuntime) -> Result<(), Fail> {
    all_have(
        &rt,
        rt.alloc(),
        TWO_SWAPS,
        b"_a",
        &[(&[1, 2], Verdict::Wrong(2))],
    )?;
    all_have(
        &rt,
        rt.alloc(),
        SWAPS_AND_GET,
        b"_a",
        &[
            (&[1, 2, 3, 4], Verdict::Legal),
            (&[1, 3, 2, 4], Verdict::Legal),
            (&[1, 2, 4], Verdict::Wrong(4)),
            (&[1, 3, 4], Verdict::Missing(2)),
            (&[3, 1, 2, 4], Verdict::Early(1, 3)),
        ],
    )
}
