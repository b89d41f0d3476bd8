ghost use Rattle.std.specs.Prelude.{IsTrue};
ghost use Rattle.hy_mwire.specs.Message.{IsSendable, IsFramedAsk, IsFramedSay};

use super::*;
use hy_base::Blob;
use hy_record::{Key, MetaAsk, MetaSay, Record, Stamp, Stamps};
use std::alloc::Global;
use std::process::Abort;
use std::test::Fail;

/// A frame of each kind, for operation 1 of client 1 on the key `a`, and a second one where there may be a record or none.
const FRAMES: &str = "0000000101
0000000b0200000001000000010161
0000003d0300000001000000010161010100000001000000010000000300010001ba7816bf8f01cfea414140de5dae2223b00361a396177a9cb410ff61f20015ad
0000001304000000010000000101610000000100000001
0000000b0500000001000000010161
0000001d0600000001000000010161000200000001000000010000000100000002
000000058100000001
0000000c820000000100000001016100
000000168200000001000000010161010100fffffffe00000007
0000001383000000010000000101610000000100000001
0000001384000000010000000101610000000100000001
0000001385000000010000000101610000000100000001
0000001d8600000001000000010161000200000001000000010000000100000002
0000000b8700000001000000010161
0000000188";

const READ: &str = "0000000b0200000001000000010161";

fn bytes_of(rt: &impl Abort, alloc: Global, digits: &str) -> Vec<u8> {
    hex::decode(alloc, digits.as_bytes())
        .ok()
        .expect(rt, "hexadecimal digits")
}

fn stamp_of(sn: u32, cid: u32) -> Result<Stamp, Fail> {
    Ok(Stamp::new(sn, cid).ok_or("a timestamp")?)
}

fn key_a() -> Result<Key, Fail> {
    Ok(Key::read(b"a").ok().ok_or("a key")?)
}

fn record_of(rt: &impl Abort, alloc: Global, digits: &str) -> Result<Record, Fail> {
    let bytes = bytes_of(rt, alloc, digits);
    Ok(Record::decode(alloc, &bytes).ok().ok_or("a record")?)
}

/// The timestamps (1, 1) and (1, 2).
fn two_stamps(rt: &impl Abort, alloc: Global) -> Result<Stamps, Fail> {
    let (one, two) = (stamp_of(1, 1)?, stamp_of(1, 2)?);
    assert!(rt; one.is_below(&two));
    Ok(Stamps::of(vec![in alloc; one, two]?))
}

/// What a client asks, in the order of its frames.
fn asks(rt: &impl Abort, alloc: Global) -> Result<Vec<Message>, Fail> {
    let (client, op, key) = (1, 1, key_a()?);
    let stamp = stamp_of(1, 1)?;
    let rec = record_of(
        rt,
        alloc,
        "010100000001000000010000000300010001ba7816bf8f01cfea414140de5dae2223b00361a396177a9cb410ff61f20015ad",
    )?;
    let stamps = two_stamps(rt, alloc)?;
    let asks = vec![in alloc;
        Message::Join,
        Message::Ask(MetaAsk::Read { client, op, key }),
        Message::Ask(MetaAsk::Update {
            client,
            op,
            key,
            rec
        }),
        Message::Ask(MetaAsk::Watch {
            client,
            op,
            key,
            stamp
        }),
        Message::Ask(MetaAsk::Olds { client, op, key }),
        Message::Ask(MetaAsk::Forget {
            client,
            op,
            key,
            stamps
        }),
    ]?;
    Ok(asks)
}

/// What the service answers, in the order of its frames.
fn says(rt: &impl Abort, alloc: Global) -> Result<Vec<Message>, Fail> {
    let (client, op, key) = (1, 1, key_a()?);
    let stamp = stamp_of(1, 1)?;
    let rec = Some(record_of(rt, alloc, "0100fffffffe00000007")?);
    let stamps = two_stamps(rt, alloc)?;
    let says = vec![in alloc;
        Message::Joined { client },
        Message::Say(MetaSay::Has {
            client,
            op,
            key,
            rec: None
        }),
        Message::Say(MetaSay::Has {
            client,
            op,
            key,
            rec
        }),
        Message::Say(MetaSay::Applied {
            client,
            op,
            key,
            stamp
        }),
        Message::Say(MetaSay::Kept {
            client,
            op,
            key,
            stamp
        }),
        Message::Say(MetaSay::Fired {
            client,
            op,
            key,
            stamp
        }),
        Message::Say(MetaSay::OldList {
            client,
            op,
            key,
            stamps
        }),
        Message::Say(MetaSay::Forgot { client, op, key }),
        Message::Full,
    ]?;
    Ok(says)
}

/// Whether a frame can carry the request.
fn is_framed_ask(ask: &MetaAsk) -> bool
    ensures { IsTrue result → IsFramedAsk ask.now }
{
    match ask {
        MetaAsk::Read { .. } => true,
        MetaAsk::Update { .. } => true,
        MetaAsk::Watch { .. } => true,
        MetaAsk::Olds { .. } => true,
        MetaAsk::Forget { .. } => true,
        MetaAsk::Swap { .. } => false,
    }
}

/// Whether a frame can carry the answer.
fn is_framed_say(say: &MetaSay) -> bool
    ensures { IsTrue result → IsFramedSay say.now }
{
    match say {
        MetaSay::Has { .. } => true,
        MetaSay::Applied { .. } => true,
        MetaSay::Kept { .. } => true,
        MetaSay::Fired { .. } => true,
        MetaSay::OldList { .. } => true,
        MetaSay::Forgot { .. } => true,
        MetaSay::Swapped { .. } => false,
        MetaSay::Changed { .. } => false,
    }
}

/// Whether the message can be sent.
fn is_sendable(message: &Message) -> bool
    ensures { IsTrue result → IsSendable message.now }
{
    match message {
        Message::Join => true,
        Message::Joined { client } => *client > 0,
        Message::Full => true,
        Message::Ask(ask) => is_framed_ask(ask),
        Message::Say(say) => is_framed_say(say),
    }
}

fn frame_of(rt: &impl Abort, alloc: Global, message: &Message) -> Result<Blob, Fail> {
    let sendable = is_sendable(message);
    assert!(rt; sendable);
    Ok(encode(alloc, message).ok().ok_or("a frame")?)
}

fn reader_of(alloc: Global, bytes: &[u8]) -> Result<Reader, Fail> {
    let mut reader = Reader::new(alloc).ok().ok_or("a reader")?;
    reader.feed(alloc, bytes).ok().ok_or("the bytes are taken")?;
    Ok(reader)
}

/// The message that is next has this frame.
fn expect_next(
    rt: &impl Abort,
    alloc: Global,
    reader: &mut Reader,
    frame: &[u8],
) -> Result<(), Fail> {
    let message = reader
        .next(alloc)
        .ok()
        .ok_or("no fault")?
        .ok_or("a message")?;
    let written = frame_of(rt, alloc, &message)?;
    assert!(rt; written.bytes() == frame, "{message:?}");
    Ok(())
}

fn expect_none(rt: &impl Abort, alloc: Global, reader: &mut Reader) -> Result<(), Fail> {
    let next = reader.next(alloc).ok().ok_or("no fault")?;
    assert!(rt; next.is_none());
    Ok(())
}

#[test]
fn each_message_has_its_frame(rt: HostRuntime) -> Result<(), Fail> {
    let alloc = rt.alloc();
    let mut messages = asks(&rt, alloc)?;
    messages.append(&mut says(&rt, alloc)?)?;
    assert_eq!(rt; messages.len(), FRAMES.lines().count());
    for (message, digits) in messages.iter().zip(FRAMES.lines()) {
        let written = frame_of(&rt, alloc, message)?;
        assert!(rt;
            written.bytes() == bytes_of(&rt, alloc, digits).as_slice(),
            "{digits}"
        );
    }
    Ok(())
}

/// The frame is read whole, cut at each place, and in single bytes.
fn read_in_pieces(rt: &impl Abort, alloc: Global, frame: &[u8]) -> Result<(), Fail> {
    let mut bytewise = reader_of(alloc, b"")?;
    for end in 0..frame.len() {
        let (front, rest) = frame.split_at(end);
        let mut reader = reader_of(alloc, front)?;
        expect_none(rt, alloc, &mut reader)?;
        assert_eq!(rt; reader.left(), end);
        reader.feed(alloc, rest).ok().ok_or("the rest is taken")?;
        expect_next(rt, alloc, &mut reader, frame)?;
        assert_eq!(rt; reader.left(), 0);
        bytewise.feed(alloc, &[frame[end]]).ok().ok_or("a byte")?;
    }
    expect_next(rt, alloc, &mut bytewise, frame)
}

#[test]
fn frames_are_read_however_they_are_cut(rt: HostRuntime) -> Result<(), Fail> {
    let alloc = rt.alloc();
    let mut stream = reader_of(alloc, b"")?;
    for digits in FRAMES.lines() {
        let frame = bytes_of(&rt, alloc, digits);
        read_in_pieces(&rt, alloc, &frame)?;
        stream.feed(alloc, &frame).ok().ok_or("a frame")?;
    }
    for digits in FRAMES.lines() {
        let frame = bytes_of(&rt, alloc, digits);
        expect_next(&rt, alloc, &mut stream, &frame)?;
    }
    expect_none(&rt, alloc, &mut stream)
}

/// What the bytes come to as the first of a stream, in one piece and in single ones.
fn first_fault(rt: &impl Abort, alloc: Global, bytes: &[u8]) -> Result<Option<FrameFault>, Fail> {
    let mut whole = reader_of(alloc, b"")?;
    let fault = whole.feed(alloc, bytes).err();
    let mut bytewise = reader_of(alloc, b"")?;
    let mut same = None;
    for byte in bytes {
        same = bytewise.feed(alloc, &[*byte]).err();
    }
    assert!(rt; fault == same, "in {bytes:?}");
    assert!(rt; fault == whole.next(alloc).err());
    assert!(rt; fault == bytewise.next(alloc).err());
    Ok(fault)
}

#[test]
fn each_byte_of_a_frame_counts(rt: HostRuntime) -> Result<(), Fail> {
    let alloc = rt.alloc();
    for (place, fault) in [
        (0, Some(FrameFault::TooLong(4_278_190_091))),
        (1, Some(FrameFault::TooLong(16_711_691))),
        (2, Some(FrameFault::TooLong(65_291))),
        (3, None),
        (4, Some(FrameFault::BadKind(255, 0))),
        (13, Some(FrameFault::BadBody(0))),
        (14, Some(FrameFault::BadBody(0))),
    ] {
        let mut bytes = bytes_of(&rt, alloc, READ);
        assert!(rt; place < bytes.len());
        bytes[place] = 0xff;
        assert!(rt; first_fault(&rt, alloc, &bytes)? == fault, "at {place}");
    }
    for place in 5..13 {
        let mut bytes = bytes_of(&rt, alloc, READ);
        assert!(rt; place < bytes.len());
        bytes[place] = 0xff;
        let mut reader = reader_of(alloc, &bytes)?;
        expect_next(&rt, alloc, &mut reader, &bytes)?;
    }
    Ok(())
}

/// Frames without a message: of no bytes, with bytes left over or too few, and with parts that break a rule.
const UNREADABLE: &str = "00000000
000000020100
000000028800
000000058100000000
0000000481000001
00000006810000000100
0000000a02000000010000000100
0000000b0200000001000000010141
0000000c020000000100000001016100
0000000c820000000100000001016102
0000000d82000000010000000101610000
000000130400000001000000010161ffffffff00000001
0000001d0600000001000000010161000200000001000000020000000100000002
0000001d0600000001000000010161000300000001000000010000000100000002
0000000d06000000010000000101610101";

#[test]
fn broken_frames_are_named(rt: HostRuntime) -> Result<(), Fail> {
    let alloc = rt.alloc();
    for digits in UNREADABLE.lines() {
        let bytes = bytes_of(&rt, alloc, digits);
        assert!(rt;
            first_fault(&rt, alloc, &bytes)? == Some(FrameFault::BadBody(0)),
            "{digits}"
        );
    }
    for (digits, fault) in [
        ("0000000100", Some(FrameFault::BadKind(0, 0))),
        ("0000000107", Some(FrameFault::BadKind(7, 0))),
        ("0000000180", Some(FrameFault::BadKind(128, 0))),
        ("00001001", Some(FrameFault::TooLong(4_097))),
        ("00001000", None),
    ] {
        let bytes = bytes_of(&rt, alloc, digits);
        assert!(rt; first_fault(&rt, alloc, &bytes)? == fault, "{digits}");
    }
    Ok(())
}

#[test]
fn frame_reader_pieces(rt: HostRuntime) -> Result<(), Fail> {
    let alloc = rt.alloc();
    let read = bytes_of(&rt, alloc, READ);
    let long = Some(FrameFault::TooLong(4_097));
    let (front, rest) = read.split_at(read.len().min(5));
    let mut reader = reader_of(alloc, front)?;
    expect_none(&rt, alloc, &mut reader)?;
    reader.feed(alloc, rest).ok().ok_or("the rest")?;
    expect_next(&rt, alloc, &mut reader, &read)?;
    assert!(rt; reader.feed(alloc, b"\0\0\x10\x01").err() == long);
    assert!(rt; reader.feed(alloc, &read).err() == long);
    assert!(rt; reader.next(alloc).err() == long);
    assert_eq!(rt; reader.left(), 4);
    Ok(())
}

#[test]
fn a_fault_waits_behind_the_messages_before_it(rt: HostRuntime) -> Result<(), Fail> {
    let alloc = rt.alloc();
    let read = bytes_of(&rt, alloc, READ);
    let strange = Some(FrameFault::BadKind(255, 15));
    let mut reader = reader_of(alloc, &read)?;
    reader.feed(alloc, b"\0\0\0\x01\xff").ok().ok_or("a piece")?;
    reader.feed(alloc, &read).ok().ok_or("one more")?;
    expect_next(&rt, alloc, &mut reader, &read)?;
    assert!(rt; reader.feed(alloc, b"").err() == strange);
    assert!(rt; reader.feed(alloc, &read).err() == strange);
    assert!(rt; reader.next(alloc).err() == strange);
    assert_eq!(rt; reader.left(), 20);
    Ok(())
}
