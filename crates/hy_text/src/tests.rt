use super::*;
use hy_base::{Cause, MAX_TEXT_VALUE, NoMemory, TextError, TextFault};
use hy_record::{Phase, Stamp};
use std::test::Fail;

#[test]
fn lines_end_or_not(rt: HostRuntime) {
    let mut lines = Lines::of(b"do 1\n\nopen");
    let mut first = lines.next().expect(&rt, "a line");
    assert!(rt; first.ended);
    assert_eq!(rt; first.words.next_word(), b"do".as_slice());
    assert_eq!(rt; first.words.end(), Err(Cause::Extra));
    assert_eq!(rt; first.words.next_word(), b"1".as_slice());
    assert_eq!(rt; first.words.end(), Ok(()));
    assert_eq!(rt; first.words.next_word(), b"".as_slice());

    let mut second = lines.next().expect(&rt, "an empty line");
    assert!(rt; second.ended);
    assert_eq!(rt; second.words.end(), Err(Cause::Extra));
    assert_eq!(rt; second.words.next_word(), b"".as_slice());
    assert_eq!(rt; second.words.end(), Ok(()));

    let third = lines.next().expect(&rt, "a line without end");
    assert!(rt; !third.ended);
    assert!(rt; lines.next().is_none());
    assert!(rt; Lines::of(b"").next().is_none());
}

#[test]
fn lists_are_split_at_commas(rt: HostRuntime) {
    let mut clouds = Words::split(b"0,2,", b',');
    for cloud in [b"0".as_slice(), b"2".as_slice(), b"".as_slice()] {
        assert_eq!(rt; clouds.end(), Err(Cause::Extra));
        assert_eq!(rt; clouds.next_word(), cloud);
    }
    assert_eq!(rt; clouds.end(), Ok(()));
}

#[test]
fn keywords_are_whole_words(rt: HostRuntime) {
    assert_eq!(rt; read_keyword(b"open", b"open"), Ok(()));
    assert_eq!(rt; read_keyword(b"opens", b"open"), Err(Cause::BadWord));
    assert_eq!(rt; read_keyword(b"", b"open"), Err(Cause::BadWord));
}

#[test]
fn numbers_have_one_form(rt: HostRuntime) -> Result<(), Fail> {
    let refused = Err(Cause::BadNumber);
    for (word, number) in [
        (b"0".as_slice(), Ok(0)),
        (b"7".as_slice(), Ok(7)),
        (b"4294967295".as_slice(), Ok(4_294_967_295)),
        (b"18446744073709551615".as_slice(), Ok(u64::MAX)),
        (b"18446744073709551616".as_slice(), refused),
        (b"99999999999999999999".as_slice(), refused),
        (b"".as_slice(), refused),
        (b"-".as_slice(), refused),
        (b"+1".as_slice(), refused),
        (b"00".as_slice(), refused),
        (b"01".as_slice(), refused),
        (b"1a".as_slice(), refused),
    ] {
        assert_eq!(rt; read_number(word, 0, u64::MAX), number, "at {word:?}");
    }
    assert_eq!(rt; read_u32(b"4294967295", 1, u32::MAX), Ok(u32::MAX));
    assert_eq!(rt;
        read_u32(b"4294967296", 1, u32::MAX),
        refused.map(|_: u64| 0)
    );
    let mut out = Vec::new(rt.alloc());
    push_number(&mut out, 0)?;
    push_number(&mut out, u64::MAX)?;
    assert_eq!(rt; out.as_slice(), b"018446744073709551615".as_slice());
    Ok(())
}

#[test]
fn ranges_hold_their_ends(rt: HostRuntime) {
    for (word, number) in [
        (b"0".as_slice(), Err(Cause::BadNumber)),
        (b"1".as_slice(), Ok(1)),
        (b"4096".as_slice(), Ok(4_096)),
        (b"4097".as_slice(), Err(Cause::BadNumber)),
    ] {
        assert_eq!(rt; read_u32(word, 1, 4_096), number, "at {word:?}");
    }
}

#[test]
fn values_have_one_form(rt: HostRuntime) -> Result<(), Fail> {
    for (word, value) in [
        (b"-".as_slice(), b"".as_slice()),
        (b"00".as_slice(), b"\x00".as_slice()),
        (b"09afff".as_slice(), b"\x09\xaf\xff".as_slice()),
    ] {
        let read = read_value(rt.alloc(), word, 3)
            .ok()
            .ok_or("the word prints a value")?;
        assert_eq!(rt; read.bytes(), value, "at {word:?}");
        let mut out = Vec::new(rt.alloc());
        push_value(&mut out, value)?;
        assert_eq!(rt; out.as_slice(), word);
    }
    for word in [
        b"".as_slice(),
        b"0".as_slice(),
        b"0A".as_slice(),
        b"0g".as_slice(),
        b"0/".as_slice(),
        b"0:".as_slice(),
        b"`0".as_slice(),
        b"--".as_slice(),
        b"0102030A".as_slice(),
    ] {
        assert_eq!(rt;
            read_value(rt.alloc(), word, 3).err(),
            Some(LineError::Bad(Cause::BadHex)),
            "at {word:?}"
        );
    }
    Ok(())
}

#[test]
fn long_values_are_told_apart(rt: HostRuntime) -> Result<(), Fail> {
    let digits = vec![in rt.alloc(); b'7'; 2 * MAX_TEXT_VALUE + 2]?;
    let limit = read_value(rt.alloc(), &digits[2..], MAX_TEXT_VALUE)
        .ok()
        .ok_or("the value is within the limit")?;
    assert_eq!(rt; limit.bytes().len(), MAX_TEXT_VALUE);
    assert_eq!(rt;
        read_value(rt.alloc(), &digits, MAX_TEXT_VALUE).err(),
        Some(LineError::Bad(Cause::LongValue))
    );
    assert_eq!(rt;
        read_value(rt.alloc(), &digits[1..], MAX_TEXT_VALUE).err(),
        Some(LineError::Bad(Cause::BadHex))
    );
    Ok(())
}

#[test]
fn keys_are_their_bytes(rt: HostRuntime) -> Result<(), Fail> {
    let key = read_key(b"a-9_.").ok().ok_or("the word spells a key")?;
    let mut out = Vec::new(rt.alloc());
    push_key(&mut out, &key)?;
    assert_eq!(rt; out.as_slice(), b"a-9_.".as_slice());
    for word in [b"".as_slice(), b"A".as_slice(), b"a/b".as_slice()] {
        assert_eq!(rt; read_key(word).err(), Some(Cause::BadKey), "at {word:?}");
    }
    Ok(())
}

#[test]
fn errors_are_told_at_their_line(rt: HostRuntime) {
    let cause = Cause::BadHex;
    let bad = LineError::from(cause);
    assert_eq!(rt;
        bad.at_line(2),
        TextError::Fault(TextFault { line: 2, cause })
    );
    assert_eq!(rt; LineError::from(NoMemory).at_line(2), TextError::NoMemory);
    assert_eq!(rt; cause_name(cause), "BadHex");
    assert_eq!(rt; cause_name(Cause::NoEnd), "NoEnd");
}

#[test]
fn phases_have_their_words(rt: HostRuntime) {
    for (word, phase) in [
        (b"read".as_slice(), Phase::Read),
        (b"store".as_slice(), Phase::Store),
        (b"update".as_slice(), Phase::Update),
        (b"fetch".as_slice(), Phase::Fetch),
        (b"watch".as_slice(), Phase::Watch),
        (b"reread".as_slice(), Phase::Reread),
        (b"olds".as_slice(), Phase::Olds),
        (b"drop".as_slice(), Phase::Drop),
        (b"forget".as_slice(), Phase::Forget),
    ] {
        assert_eq!(rt; read_phase(word), Ok(phase));
        assert_eq!(rt; phase.word(), word);
    }
    assert_eq!(rt; read_phase(b"reads"), Err(Cause::BadWord));
    assert_eq!(rt; read_phase(b""), Err(Cause::BadWord));
    assert_eq!(rt;
        read_named(&[Verb::Get, Verb::Delete], b"delete"),
        Ok(Verb::Delete)
    );
}

#[test]
fn actions_have_one_form(rt: HostRuntime) -> Result<(), Fail> {
    for text in [
        b"put a 00ff".as_slice(),
        b"put k-1_.z -".as_slice(),
        b"get a".as_slice(),
        b"delete a".as_slice(),
        b"collect a".as_slice(),
        b"swap _a 0 0 00ff".as_slice(),
        b"swap _ 4294967294 4096 -".as_slice(),
        b"get _a".as_slice(),
    ] {
        let mut words = Words::split(text, b' ');
        let action = read_action(rt.alloc(), &mut words, Verbs::All, 4096)?;
        assert_eq!(rt; words.end(), Ok(()), "at {text:?}");
        let mut out = Vec::new(rt.alloc());
        push_action(&mut out, &action)?;
        assert_eq!(rt; &out[1..], text);
    }
    for (text, cause) in [
        (b"fly A 0".as_slice(), Cause::BadWord),
        (b"put A 0".as_slice(), Cause::BadKey),
        (b"put a 0".as_slice(), Cause::BadHex),
        (b"put a".as_slice(), Cause::BadHex),
        (b"collect".as_slice(), Cause::BadKey),
        (b"put _a 0".as_slice(), Cause::BadKey),
        (b"delete _a".as_slice(), Cause::BadKey),
        (b"swap a 0 4097 0".as_slice(), Cause::BadKey),
        (b"swap _a 0 4097 0".as_slice(), Cause::BadNumber),
        (b"swap _a 0 0 0".as_slice(), Cause::BadHex),
    ] {
        assert_eq!(rt;
            read_action(rt.alloc(), &mut Words::split(text, b' '), Verbs::All, 4096).err(),
            Some(LineError::Bad(cause)),
            "at {text:?}"
        );
    }
    for text in [b"collect a".as_slice(), b"swap _a 0 0 -".as_slice()] {
        assert_eq!(rt;
            read_action(
                rt.alloc(),
                &mut Words::split(text, b' '),
                Verbs::OfValues,
                4096
            )
            .err(),
            Some(LineError::Bad(Cause::BadWord)),
            "at {text:?}"
        );
    }
    Ok(())
}

#[test]
fn timestamps_are_in_range(rt: HostRuntime) -> Result<(), Fail> {
    let refused = Err(Cause::BadNumber);
    for (text, any, written) in [
        (b"1 1".as_slice(), Ok(()), Ok(())),
        (b"4294967294 4096".as_slice(), Ok(()), Ok(())),
        (b"0 0".as_slice(), Ok(()), refused),
        (b"0 1".as_slice(), Ok(()), refused),
        (b"1 0".as_slice(), Ok(()), refused),
        (b"1 4097".as_slice(), Ok(()), refused),
        (b"4294967294 4294967295".as_slice(), Ok(()), refused),
        (b"4294967295 1".as_slice(), refused, refused),
        (b"1".as_slice(), refused, refused),
    ] {
        let read = read_stamp(&mut Words::split(text, b' '), 0, u32::MAX);
        assert_eq!(rt; read.map(|_| ()), any, "at {text:?}");
        let read = read_stamp(&mut Words::split(text, b' '), 1, 4_096);
        assert_eq!(rt; read.map(|_| ()), written, "at {text:?}");
    }
    let stamp = Stamp::new(7, 4_096).ok_or("a timestamp")?;
    let mut out = Vec::new(rt.alloc());
    push_stamp(&mut out, &stamp)?;
    assert_eq!(rt; out.as_slice(), b" 7 4096".as_slice());
    Ok(())
}

#[test]
fn sets_of_clouds_have_one_list(rt: HostRuntime) -> Result<(), Fail> {
    for (word, clouds) in [
        (b"-".as_slice(), 0),
        (b"0".as_slice(), 1),
        (b"0,2,9".as_slice(), 517),
        (b"15".as_slice(), 32_768),
        (b"0,1,2,3,4,5,6,7,8,9,10,11,12,13,14,15".as_slice(), 65_535),
    ] {
        assert_eq!(rt; read_clouds(word, 15), Ok(clouds), "at {word:?}");
        let mut out = Vec::new(rt.alloc());
        push_clouds(&mut out, clouds)?;
        assert_eq!(rt; &out[1..], word);
    }
    for word in [
        b"".as_slice(),
        b"0,".as_slice(),
        b",0".as_slice(),
        b"1,0".as_slice(),
        b"0,0".as_slice(),
        b"00".as_slice(),
        b"-,0".as_slice(),
        b"10".as_slice(),
    ] {
        assert_eq!(rt; read_clouds(word, 9), Err(Cause::BadNumber), "at {word:?}");
    }
    Ok(())
}

#[test]
fn lines_are_taken_by_their_first_word(rt: HostRuntime) {
    let mut cursor = Cursor::of(b"op 1\nend");
    assert_eq!(rt; cursor.next_keyword(), Some(b"op".as_slice()));
    let mut first = cursor.take().expect(&rt, "a line");
    assert_eq!(rt;
        (first.number, first.keyword, first.ended),
        (1, b"op".as_slice(), true)
    );
    assert_eq!(rt; first.words.next_word(), b"1".as_slice());
    let extra = TextError::Fault(TextFault {
        line: 2,
        cause: Cause::Extra,
    });
    assert_eq!(rt; cursor.fault(Cause::Extra), extra);
    assert_eq!(rt; cursor.end(), Err(extra));
    let last = cursor.take().expect(&rt, "a line without end");
    assert_eq!(rt;
        (last.number, last.keyword, last.ended),
        (2, b"end".as_slice(), false)
    );
    assert_eq!(rt; last.words.end(), Ok(()));
    assert_eq!(rt; cursor.next_keyword(), None);
    assert_eq!(rt; cursor.end(), Ok(()));
    assert!(rt; cursor.take().is_none());
}
