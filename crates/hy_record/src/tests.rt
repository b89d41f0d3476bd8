use super::*;
use hy_base::Blob;
use std::alloc::Global;
use std::process::Abort;
use std::test::Fail;

#[test]
fn stamps_end_before_the_last_number(rt: HostRuntime) -> Result<(), Fail> {
    assert!(rt; Stamp::new(4_294_967_295, 1).is_none());
    let last = Stamp::new(4_294_967_294, 7).ok_or("the last stamp")?;
    assert!(rt; last.after(1).is_none());
    let first = Stamp::zero().after(9).ok_or("the first stamp")?;
    assert_eq!(rt; (first.sn(), first.cid()), (1, 9));
    assert!(rt; first < last);
    let second = Stamp::new(2, 1).ok_or("a stamp")?;
    assert!(rt; first < second, "the number decides before the client");
    Ok(())
}

#[test]
fn keys_are_read_or_refused(rt: HostRuntime) -> Result<(), Fail> {
    let longest = [b'z'; 64];
    let key = Key::read(&longest).ok().ok_or("64 bytes")?;
    assert_eq!(rt; key.bytes(), longest.as_slice());
    assert!(rt; Key::read(&[b'z'; 65]) == Err(KeyFault::TooLong(65)));
    assert!(rt; Key::read(b"") == Err(KeyFault::Empty));
    assert!(rt; Key::read(b"a-z_0.9").is_ok());
    for (text, place) in [("A", 0), ("ab/c", 2), ("a b", 1), ("k\n", 1)] {
        assert!(rt;
            Key::read(text.as_bytes()) == Err(KeyFault::BadByte(place)),
            "at {text:?}"
        );
    }
    let short = Key::read(b"k1").ok().ok_or("a key")?;
    let long = Key::read(b"k10").ok().ok_or("a key")?;
    let next = Key::read(b"k2").ok().ok_or("a key")?;
    assert!(rt; short < long && long < next && short != long);
    Ok(())
}

#[test]
fn actions_and_replies_compare_by_what_they_carry(rt: HostRuntime) -> Result<(), Fail> {
    let alloc = rt.alloc();
    let key = Key::read(b"a").ok().ok_or("a key")?;
    let put = Action::Put {
        key,
        value: Blob::copy_of(alloc, b"x")?,
    };
    assert!(rt;
        put == Action::Put {
            key,
            value: Blob::copy_of(alloc, b"x")?
        }
    );
    assert!(rt; put != Action::Get { key });
    assert!(rt; Reply::Done(Stamp::zero()) != Reply::Absent(Stamp::zero()));
    Ok(())
}

const RECORD_OF_ABC: &[u8] =
    b"010100000001000000010000000300010001ba7816bf8f01cfea414140de5dae2223b00361a396177a9cb410ff61f20015ad";

fn bytes_of(rt: &impl Abort, alloc: Global, digits: &[u8]) -> Vec<u8> {
    hex::decode(alloc, digits)
        .ok()
        .expect(rt, "hexadecimal digits")
}

/// A record of three bytes with as many hashes as it needs, spelled in this many bytes.
fn spelled(rt: &impl Abort, alloc: Global, f: u8, k: u8, clouds: u16) -> Result<Vec<u8>, Fail> {
    let kind = if k == 1 { 1 } else { 2 };
    let count = if k == 1 {
        1u8
    } else {
        2u8.wrapping_mul(f).wrapping_add(k)
    };
    let mut bytes = vec![in alloc; 1, kind, 0, 0, 0, 7, 0, 0, 0, 9, 0, 0, 0, 3, f, k]?;
    bytes.extend_from_slice(&clouds.to_be_bytes())?;
    for i in 0..count {
        for _ in 0..32 {
            bytes.push(i)?;
        }
    }
    let record = Record::decode(alloc, &bytes).ok().ok_or("a record")?;
    assert!(rt; record.encode(alloc).ok().ok_or("its spelling")?.bytes() == bytes.as_slice());
    Ok(bytes)
}

/// The bytes with the text written over them at the place.
fn changed(alloc: Global, bytes: &[u8], place: usize, text: &[u8]) -> Result<Vec<u8>, Fail> {
    let behind = place.wrapping_add(text.len());
    let mut bad = Vec::from_slice(alloc, bytes.get(..place).ok_or("a front")?)?;
    bad.extend_from_slice(text)?;
    bad.extend_from_slice(bytes.get(behind..).ok_or("a rest")?)?;
    Ok(bad)
}

#[test]
fn hashes_are_those_of_the_standard(rt: HostRuntime) -> Result<(), Fail> {
    let alloc = rt.alloc();
    for (text, digits) in [
        (
            "",
            b"e3b0c44298fc1c149afbf4c8996fb92427ae41e4649b934ca495991b7852b855",
        ),
        (
            "abc",
            b"ba7816bf8f01cfea414140de5dae2223b00361a396177a9cb410ff61f20015ad",
        ),
    ] {
        let hash = sha(text.as_bytes());
        assert!(rt;
            hash.bytes() == bytes_of(&rt, alloc, digits.as_slice()).as_slice(),
            "of {text:?}"
        );
    }
    assert!(rt; Hash::of([7; 32]) != sha(b"abc"));
    Ok(())
}

#[test]
fn record_of_abc_is_read_back(rt: HostRuntime) -> Result<(), Fail> {
    let alloc = rt.alloc();
    let stamp = Stamp::new(1, 1).ok_or("a stamp")?;
    let bytes = bytes_of(&rt, alloc, RECORD_OF_ABC);
    let record = Record::value(alloc, stamp, 3, 0, 1, 1, &[sha(b"abc")])
        .ok()
        .ok_or("the record")?;
    assert!(rt; record.encode(alloc).ok().ok_or("its bytes")?.bytes() == bytes.as_slice());
    let read = Record::decode(alloc, &bytes)
        .ok()
        .ok_or("the record again")?;
    assert_eq!(rt;
        (
            read.size(),
            read.f(),
            read.k(),
            read.clouds(),
            read.fragment_len()
        ),
        (3, 0, 1, 1, 3)
    );
    assert!(rt; read.stamp() == stamp && read.kind() == Kind::Whole);
    assert!(rt; read.is_valid(0, b"abc") && !read.is_valid(0, b"abd") && !read.is_valid(1, b"abc"));
    assert!(rt; read.hash(1).is_none() && read.hash(0) == Some(sha(b"abc")));
    Ok(())
}

#[test]
fn record_bytes_and_faults(rt: HostRuntime) -> Result<(), Fail> {
    let alloc = rt.alloc();
    let bytes = bytes_of(&rt, alloc, RECORD_OF_ABC);
    assert_eq!(rt; bytes.len(), 50);
    let shorter = bytes.get(..49).ok_or("49 bytes")?;
    assert!(rt; matches!(Record::decode(alloc, shorter), Err(RecordFault::Short(49))));
    let mut longer = bytes.clone()?;
    longer.push(0)?;
    assert!(rt; matches!(Record::decode(alloc, &longer), Err(RecordFault::Extra(50))));
    for (place, byte, fault) in [
        (1, 3, RecordFault::BadKind(3)),
        (0, 2, RecordFault::BadVersion(2)),
        (17, 3, RecordFault::BadShape(16)),
    ] {
        let bad = changed(alloc, &bytes, place, &[byte])?;
        assert!(rt;
            Record::decode(alloc, &bad).err() == Some(fault),
            "at {place}"
        );
    }
    Ok(())
}

#[test]
fn a_tombstone_has_ten_bytes(rt: HostRuntime) -> Result<(), Fail> {
    let alloc = rt.alloc();
    let stamp = Stamp::new(2, 1).ok_or("a stamp")?;
    let tomb = Record::tomb(alloc, stamp).ok().ok_or("a tombstone")?;
    let copy = tomb.copy(alloc).ok().ok_or("a copy")?;
    assert!(rt;
        copy.encode(alloc).ok().ok_or("its bytes")?.bytes()
            == bytes_of(&rt, alloc, b"01000000000200000001").as_slice()
    );
    assert!(rt; copy.kind() == Kind::Tomb && copy.stamp() == stamp && copy.hash(0).is_none());
    assert_eq!(rt;
        (
            copy.size(),
            copy.f(),
            copy.k(),
            copy.clouds(),
            copy.fragment_len()
        ),
        (0, 0, 0, 0, 0)
    );
    assert!(rt; !copy.is_valid(0, b"") && copy.known() == &tomb);
    Ok(())
}

#[test]
fn each_place_of_a_record_is_judged(rt: HostRuntime) -> Result<(), Fail> {
    let alloc = rt.alloc();
    for (f, k, clouds) in [(0, 1, 1), (1, 2, 7), (2, 3, 31), (3, 4, 127)] {
        let bytes = spelled(&rt, alloc, f, k, clouds)?;
        for end in 0..bytes.len() {
            let front = &bytes[..end];
            assert!(rt;
                Record::decode(alloc, front).err() == Some(RecordFault::Short(end)),
                "{f} {k}: {end} bytes"
            );
        }
        for (place, text, fault) in [
            (0, b"\0\0\0\0".as_slice(), RecordFault::BadVersion(0)),
            (0, b"\x0c".as_slice(), RecordFault::BadVersion(12)),
            (0, b"\xff".as_slice(), RecordFault::BadVersion(255)),
            (1, b"\x03\0\0\0".as_slice(), RecordFault::BadKind(3)),
            (2, b"\0\0\0\0".as_slice(), RecordFault::BadShape(2)),
            (2, b"\xff\xff\xff\xff".as_slice(), RecordFault::BadShape(2)),
            (6, b"\0\0\0\0".as_slice(), RecordFault::BadShape(6)),
            (10, b"\0\x10\0\x01".as_slice(), RecordFault::BadShape(10)),
            (14, b"\x04".as_slice(), RecordFault::BadShape(14)),
            (15, b"\x05".as_slice(), RecordFault::BadShape(15)),
            (15, b"\0".as_slice(), RecordFault::BadShape(15)),
            (16, b"\x80\0".as_slice(), RecordFault::BadShape(16)),
            (16, b"\0\0".as_slice(), RecordFault::BadShape(16)),
        ] {
            let bad = changed(alloc, &bytes, place, text)?;
            assert!(rt;
                Record::decode(alloc, &bad).err() == Some(fault),
                "{f} {k}: at {place}"
            );
        }
    }
    Ok(())
}

#[test]
fn names_at_the_edges(rt: HostRuntime) -> Result<(), Fail> {
    let alloc = rt.alloc();
    for (key, sn, cid, name) in [
        ("a", 1, 1, "/o/a/0000000100000001"),
        (".", 0, 0, "/o/./0000000000000000"),
        ("..", 4_294_967_294, 4_294_967_295, "/o/../fffffffeffffffff"),
    ] {
        let key = Key::read(key.as_bytes()).ok().ok_or("a key")?;
        let stamp = Stamp::new(sn, cid).ok_or("a stamp")?;
        assert!(rt;
            name_of(alloc, &key, stamp).ok().ok_or("a name")?.bytes() == name.as_bytes(),
            "{name}"
        );
        let (read, at) = read_name(name.as_bytes()).ok_or("a key and a timestamp")?;
        assert!(rt; read == key && at == stamp, "{name}");
    }
    for name in [
        "/o/a/ffffffff00000001",
        "/o/a/000000010000000A",
        "/o/a/00000001000000010",
        "/o/a0000000100000001",
        "/o//0000000100000001",
        "/o/A/0000000100000001",
        "/p/a/0000000100000001",
        "",
    ] {
        assert!(rt; read_name(name.as_bytes()).is_none(), "{name}");
    }
    Ok(())
}

#[test]
fn stamps_keep_their_order(rt: HostRuntime) -> Result<(), Fail> {
    let alloc = rt.alloc();
    let one = Stamp::new(1, 2).ok_or("a stamp")?;
    let two = Stamp::new(2, 1).ok_or("a stamp")?;
    assert!(rt; one.is_below(&two) && !two.is_below(&one) && one.is_same(&one));
    let none = Stamps::of(Vec::new(alloc));
    assert_eq!(rt; none.items().len(), 0);
    let first = Stamps::of(vec![in alloc; one]?);
    assert!(rt; first == Stamps::of(vec![in alloc; one]?) && first != none);
    assert_eq!(rt; none.into_items().len(), 0);
    assert_eq!(rt; MAX_STAMPS, 256);
    Ok(())
}

#[test]
fn the_longest_spelling_has_338_bytes(rt: HostRuntime) -> Result<(), Fail> {
    let alloc = rt.alloc();
    assert_eq!(rt; spelled(&rt, alloc, 3, 4, 127)?.len(), 338);
    assert_eq!(rt; spelled(&rt, alloc, 3, 1, 15)?.len(), 50);
    record_lists_a_quorum();
    record_spellings_are_short();
    record_spellings_are_apart();
    records_are_read_back();
    Ok(())
}
