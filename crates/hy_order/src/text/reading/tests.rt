use super::*;
use crate::text::writing::write_report;
use hy_base::TextFault;
use hy_text::{push_number, push_number_word};
use std::process::Abort;
use std::test::Fail;

const WHOLE: &[u8] = b"op 1 1 put a 00ff 1 7 done 1 1\n\
op 2 2 get a 8 12 value 00ff 1 1\n\
op 3 1 delete b 13 - update 0 1\n\
op 4 3 collect d 14 20 collected 0\n\
op 5 3 get c-1_. 21 - watch 1 2\n\
order a 1 2\n\
order b\n\
order c-1_. 4294967295 1 1\n\
held a 1 1 0,2,9\n\
held b 0 0 -\n\
end 5 3\n";

const FIRST: &[u8] = b"op 1 1 put a - 1 7 done 1 1\n";

const ORDERED: &[u8] = b"op 1 1 put a - 1 7 done 1 1\norder a 1\n";

const HELD: &[u8] = b"op 1 1 put a - 1 7 done 1 1\norder a 1\nheld a 1 1 0\n";

const ENDED: &[u8] = b"op 1 1 put a - 1 7 done 1 1\norder a 1\nheld a 1 1 0\nend 1 1\n";

/// Lines of a second operation, by the cause of the first bad word of each.
const BAD_OPERATIONS: [(Cause, &[u8]); 5] = [
    (
        Cause::BadNumber,
        b"op 3 1 get a 8 - read 0 1
op 02 1 get a 8 - read 0 1
op  2 1 get a 8 - read 0 1
op 2 0 get a 8 - read 0 1
op 2 4294967296 get a 8 - read 0 1
op 2 1 get a 1 - read 0 1
op 2 1 get a 9223372036854775809 - read 0 1
op 2 1 get a 8 8 none 0 0
op 2 1 get a 8 9223372036854775809 none 0 0
op 2 1 get a 8 + read 0 1
op 2 1 collect a 8 9 collected -1
op 2 1 get a 8 9 none 4294967295 0
op 2 1 get a 8 9 none 0 4294967296
op 2 1 collect a 8 9 collected 4294967296
op 2 1 get a 8 - read 4294967296 1
op 2 1 get a 8 - read 0 4294967296
op 2 1 get a 8 - read 0
op 2 1 get a 8 - read 0 1\r",
    ),
    (
        Cause::BadWord,
        b"op 2 1 fly a 8 - read 0 1
op 2 1 get a 8 9 done 1 1
op 2 1 delete a 8 9 none 0 0
op 2 1 delete a 8 - store 0 1",
    ),
    (Cause::BadKey, b"op 2 1 get A 8 - read 0 1"),
    (Cause::BadHex, b"op 2 1 put a 0 8 - read 0 1"),
    (Cause::Extra, b"op 2 1 get a 8 - read 0 1 "),
];

/// Lines after a text, with their number, by the cause of the first bad word of each.
const BAD_LINES: [(&[u8], u32, Cause, &[u8]); 10] = [
    (FIRST, 2, Cause::BadWord, b"\nheld a 1 1 -"),
    (FIRST, 2, Cause::BadKey, b"order b 1"),
    (
        FIRST,
        2,
        Cause::BadNumber,
        b"order a 0\norder a 1 \norder a 1 4294967296",
    ),
    (
        ORDERED,
        3,
        Cause::BadWord,
        b"op 2 1 get a 8 - read 0 1\norder b 1",
    ),
    (ORDERED, 3, Cause::BadKey, b"held A 1 1 -"),
    (
        ORDERED,
        3,
        Cause::BadNumber,
        b"held a 4294967295 1 -\nheld a 1 1 1,0\nheld a 1 1 0,\nheld a 1 1 10\nheld a 1 1",
    ),
    (ORDERED, 3, Cause::Extra, b"held a 1 1 - -"),
    (HELD, 4, Cause::BadKey, b"held a 1 1 -\nheld Z 1 1 -"),
    (HELD, 4, Cause::BadNumber, b"end 2 1\nend 1 2"),
    (ENDED, 5, Cause::Extra, b"held b 1 1 -\n"),
];

fn fault(line: u32, cause: Cause) -> Option<TextError> {
    Some(TextError::Fault(TextFault { line, cause }))
}

/// The text with the line after it, and then what a report ends with.
fn with_line(alloc: Global, text: &[u8], line: &[u8]) -> Result<Vec<u8>, NoMemory> {
    let mut whole = Vec::from_slice(alloc, text)?;
    whole.extend_from_slice(line)?;
    whole.extend_from_slice(b"\nend 1 1\n")?;
    Ok(whole)
}

#[test]
fn report_is_read_and_written(rt: HostRuntime) -> Result<(), Fail> {
    for text in [
        WHOLE,
        b"end 0 0\n".as_slice(),
        b"op 1 4294967295 delete a 9223372036854775807 9223372036854775808 exhausted 4294967294 4294967295\norder a 1\nheld a 4294967294 4294967295 0,1,2,3,4,5,6,7,8,9\nend 1 1\n".as_slice(),
        b"op 1 1 get a 9223372036854775808 - read 4294967295 4294967295\norder a\nend 1 1\n".as_slice(),
        b"op 1 1 collect a 1 2 collected 4294967295\nend 1 0\n".as_slice(),
    ] {
        let report = read_report(rt.alloc(), text)?;
        let written = write_report(rt.alloc(), &report)?;
        assert_eq!(rt; written.bytes(), text);
    }
    Ok(())
}

/// Each of the lines is refused in its place after the text, for this cause.
fn all_are_refused(
    rt: &impl Abort,
    alloc: Global,
    front: &[u8],
    number: u32,
    cause: Cause,
    lines: &[u8],
) -> Result<(), Fail> {
    for line in lines.split(|byte| *byte == b'\n') {
        let text = with_line(alloc, front, line)?;
        assert_eq!(rt;
            read_report(alloc, text.as_slice()).err(),
            fault(number, cause),
            "at {line:?}"
        );
    }
    Ok(())
}

#[test]
fn first_bad_word_is_named(rt: HostRuntime) -> Result<(), Fail> {
    for (cause, lines) in BAD_OPERATIONS {
        all_are_refused(&rt, rt.alloc(), FIRST, 2, cause, lines)?;
    }
    for (front, number, cause, lines) in BAD_LINES {
        all_are_refused(&rt, rt.alloc(), front, number, cause, lines)?;
    }
    all_are_refused(&rt, rt.alloc(), HELD, 4, Cause::Extra, b"end 1 1 ")
}

#[test]
fn missing_end_is_named(rt: HostRuntime) {
    for (text, line, cause) in [
        (b"".as_slice(), 1, Cause::NoEnd),
        (FIRST, 2, Cause::NoEnd),
        (HELD, 4, Cause::NoEnd),
        (b"end 0 0".as_slice(), 1, Cause::NoLineEnd),
        (b"end 0 0\nend 0 0".as_slice(), 2, Cause::Extra),
    ] {
        assert_eq!(rt;
            read_report(rt.alloc(), text).err(),
            fault(line, cause),
            "at {text:?}"
        );
    }
}

#[test]
fn long_value_is_refused(rt: HostRuntime) -> Result<(), Fail> {
    for (bytes, cause) in [(4_096, Cause::BadNumber), (4_097, Cause::LongValue)] {
        let mut line = Vec::from_slice(rt.alloc(), b"op 2 1 put a ")?;
        for _ in 0..bytes {
            line.extend_from_slice(b"00")?;
        }
        line.extend_from_slice(b" 8 9 done 1")?;
        let text = with_line(rt.alloc(), FIRST, line.as_slice())?;
        assert_eq!(rt;
            read_report(rt.alloc(), text.as_slice()).err(),
            fault(2, cause)
        );
    }
    Ok(())
}

/// Appends the line of a get that is told at once that its key is absent.
fn push_get(out: &mut Vec<u8>, number: u32, key: u8) -> Result<(), NoMemory> {
    let step = 2 * u64::from(number);
    out.extend_from_slice(b"op ")?;
    push_number(out, number.into())?;
    out.extend_from_slice(b" 1 get ")?;
    out.push(key)?;
    push_number_word(out, step)?;
    push_number_word(out, step + 1)?;
    out.extend_from_slice(b" none 0 0\n")?;
    Ok(())
}

#[test]
fn many_orders_and_long_ones_are_read(rt: HostRuntime) -> Result<(), Fail> {
    let mut text = Vec::new(rt.alloc());
    for number in 1..=40 {
        push_get(&mut text, number, b'a' + (number % 11) as u8)?;
    }
    for key in 0..11u8 {
        text.extend_from_slice(b"order ")?;
        text.push(b'a' + key)?;
        for number in 1..=40 {
            if key == 0 || number % 11 == u32::from(key) {
                push_number_word(&mut text, number.into())?;
            }
        }
        text.push(b'\n')?;
    }
    text.extend_from_slice(b"end 40 11\n")?;
    let report = read_report(rt.alloc(), &text)?;
    let first = report.orders.items().first().ok_or("eleven orders")?;
    assert_eq!(rt; report.orders.items().len(), 11);
    assert_eq!(rt; first.ops.items().len(), 40);
    assert_eq!(rt; write_report(rt.alloc(), &report)?.bytes(), text.as_slice());
    Ok(())
}

#[test]
fn late_bad_line_is_named(rt: HostRuntime) -> Result<(), Fail> {
    let mut text = Vec::new(rt.alloc());
    for number in 1..=16_500 {
        push_get(&mut text, number, b'a')?;
    }
    text.extend_from_slice(b"op 16501 1 fly a 40000 - read 0 1\n")?;
    assert_eq!(rt;
        read_report(rt.alloc(), &text).err(),
        fault(16_501, Cause::BadWord)
    );
    Ok(())
}
