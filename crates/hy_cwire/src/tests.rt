//! Requests and answers, each whole and in single bytes, and what they come to in words.

mod answers;
mod requests;
mod sizes;

use super::*;
use hy_base::NoMemory;
use hy_record::{CloudAct, CloudSay, Wish};
use std::alloc::Global;
use std::process::Abort;

/// What a request asks for, in words.
fn wish_words(alloc: Global, wish: &Wish) -> Result<String, NoMemory> {
    let key = wish.key.bytes();
    let (sn, cid) = (wish.stamp.sn(), wish.stamp.cid());
    let words = match &wish.act {
        CloudAct::Put(body) => {
            let count = body.bytes().len();
            format!(in alloc; "put {key:?} {sn} {cid}, {count} bytes")?
        }
        CloudAct::Get => format!(in alloc; "get {key:?} {sn} {cid}")?,
        CloudAct::Delete => format!(in alloc; "delete {key:?} {sn} {cid}")?,
    };
    Ok(words)
}

/// What an answer says, in words.
fn say_words(alloc: Global, say: &CloudSay) -> Result<String, NoMemory> {
    let words = match say {
        CloudSay::Stored { fresh: true } => format!(in alloc; "stored, fresh")?,
        CloudSay::Stored { fresh: false } => format!(in alloc; "stored")?,
        CloudSay::Conflict => format!(in alloc; "conflict")?,
        CloudSay::Body(body) => format!(in alloc; "body {:?}", body.bytes())?,
        CloudSay::Missing => format!(in alloc; "missing")?,
        CloudSay::Gone => format!(in alloc; "gone")?,
        CloudSay::Bad(status) => format!(in alloc; "bad {status}")?,
    };
    Ok(words)
}

/// A fault, with the status that tells it.
fn fault_words(alloc: Global, fault: HttpFault) -> Result<String, NoMemory> {
    let words = format!(in alloc; "{fault:?}, {}", status_for(&fault))?;
    Ok(words)
}

/// What the reader gives next, in words.
fn next_ask(rt: &impl Abort, alloc: Global, reader: &mut AskReader) -> String {
    let words = match reader.next() {
        Ok(None) => format!(in alloc; "nothing").map_err(NoMemory::from),
        Ok(Some(wish)) => wish_words(alloc, &wish),
        Err(fault) => fault_words(alloc, fault),
    };
    words.ok().expect(rt, "memory")
}

/// The same of an answer.
fn next_say(rt: &impl Abort, alloc: Global, reader: &mut SayReader) -> String {
    let words = match reader.next() {
        Ok(None) => format!(in alloc; "nothing").map_err(NoMemory::from),
        Ok(Some(say)) => say_words(alloc, &say),
        Err(fault) => fault_words(alloc, fault),
    };
    words.ok().expect(rt, "memory")
}

fn ask_reader(rt: &impl Abort, alloc: Global) -> AskReader {
    AskReader::new(alloc).ok().expect(rt, "memory")
}

fn say_reader(rt: &impl Abort, alloc: Global, asked: WishKind) -> SayReader {
    SayReader::new(alloc, asked).ok().expect(rt, "memory")
}

/// The text is a request that comes to this, and so it is in single bytes; it is given once, and no
/// end cuts it.
fn asks(rt: &impl Abort, alloc: Global, text: &[u8], words: &str) {
    let mut whole = ask_reader(rt, alloc);
    let mut bytewise = ask_reader(rt, alloc);
    let fault = whole.feed(alloc, text).err();
    let mut same = None;
    for byte in text {
        same = bytewise.feed(alloc, &[*byte]).err();
    }
    assert!(rt; fault == same, "{words}");
    assert!(rt; whole.end().err() == fault, "{words}");
    assert_eq!(rt; next_ask(rt, alloc, &mut whole).as_str(), words);
    assert_eq!(rt; next_ask(rt, alloc, &mut bytewise).as_str(), words);
    assert!(rt; whole.next().err() == fault, "{words}");
    assert!(rt; fault.is_some() || whole.next() == Ok(None), "{words}");
}

/// The same of an answer, to a request of this kind.
fn says(rt: &impl Abort, alloc: Global, asked: WishKind, text: &[u8], words: &str) {
    let mut whole = say_reader(rt, alloc, asked);
    let mut bytewise = say_reader(rt, alloc, asked);
    let fault = whole.feed(alloc, text).err();
    let mut same = None;
    for byte in text {
        same = bytewise.feed(alloc, &[*byte]).err();
    }
    assert!(rt; fault == same, "{words}");
    assert!(rt; whole.end().err() == fault, "{words}");
    assert_eq!(rt; next_say(rt, alloc, &mut whole).as_str(), words);
    assert_eq!(rt; next_say(rt, alloc, &mut bytewise).as_str(), words);
    assert!(rt; whole.next().err() == fault, "{words}");
    assert!(rt; fault.is_some() || whole.next() == Ok(None), "{words}");
}
