//! Writing requests and answers.

ghost use Rattle.std.specs.Prelude.{◌≡◌, ◌++◌, [], IfOk, OnOk, IsTrue, ◌≤◌, length};
ghost use Rattle.hy_record.specs.declared.cloud.CloudAct.TheVariants as acts;
ghost use Rattle.hy_record.specs.Key.{is_key};
ghost use Rattle.hy_record.specs.Name.{object_name};
ghost use Rattle.hy_record.specs.Stamp.{IsStamp};
ghost use Rattle.std.specs.Fmt.{decimal};
ghost use Rattle.hy_cwire.specs.Writing.{IsSendable, IsSendableAct, IsSendableSay, act_bytes, ask_bytes, say_bytes, answer_bytes, length_line, close_lines, host_line, bare_answer};

use hy_base::{Blob, MAX_VALUE, NoMemory};
use hy_record::{CloudAct, CloudSay, Wish, name_of};
use itoa::Buffer;
use std::alloc::Global;

/// The request, to the cloud at this port of the loopback address.
pub fn write_ask(alloc: Global, wish: &Wish, port: u16) -> Result<Blob, NoMemory>
    requires { IsSendableAct wish.now.act }
    ensures bytes { IfOk result (λ bytes. bytes ≡ ask_bytes wish.now port) }
    ensures known { OnOk result (IsSendable wish.now) }
{
    let name = name_in(alloc, wish)?;
    let mut out = Vec::new(alloc);
    push_act(&mut out, &wish.act, name.bytes(), port)?;
    Ok(Blob::of(out))
}

/// Writes the request about the object of this name.
fn push_act(out: &mut Vec<u8>, act: &CloudAct, name: &[u8], port: u16) -> Result<(), NoMemory>
    requires { IsSendableAct act.now }
    ensures { OnOk result
        (out.new.items ≡ out.old.items ++ act_bytes act.now (name.now ++ host_line port)) }
{
    match act {
        CloudAct::Put(body) => push_put(out, body.bytes(), name, port),
        CloudAct::Get => push_bare(out, b"GET ", name, port),
        CloudAct::Delete => push_bare(out, b"DELETE ", name, port),
    }
}

/// Writes a request to hold these bytes.
fn push_put(out: &mut Vec<u8>, body: &[u8], name: &[u8], port: u16) -> Result<(), NoMemory>
    requires { length body.now ≤ MAX_VALUE }
    ensures { OnOk result (out.new.items
        ≡ out.old.items ++ act_bytes (acts.Put body.now) (name.now ++ host_line port)) }
{
    push_start(out, b"PUT ", name, port)?;
    push_length(out, body.len())?;
    push_end(out)?;
    out.extend_from_slice(body)?;
    Ok(())
}

/// Writes a request without a body.
fn push_bare(out: &mut Vec<u8>, method: &[u8], name: &[u8], port: u16) -> Result<(), NoMemory>
    ensures { OnOk result (out.new.items
        ≡ out.old.items ++ (method.now ++ ((name.now ++ host_line port) ++ close_lines))) }
{
    push_start(out, method, name, port)?;
    push_end(out)
}

/// The name of the object that the request is about.
fn name_in(alloc: Global, wish: &Wish) -> Result<Blob, NoMemory>
    ensures name { IfOk result (λ name. name ≡ object_name wish.now.key wish.now.stamp) }
    ensures spelled { IsTrue (is_key wish.now.key) }
    ensures ranged { IsStamp wish.now.stamp }
{
    // Reading them tells the proof what a key and a timestamp are.
    let _key = wish.key.bytes();
    let _number = wish.stamp.sn();
    name_of(alloc, &wish.key, wish.stamp)
}

/// The answer. Of `Bad` only the statuses that the profile writes.
pub fn write_say(alloc: Global, say: &CloudSay) -> Result<Blob, NoMemory>
    requires { IsSendableSay say.now }
    ensures { IfOk result (λ bytes. bytes ≡ say_bytes say.now) }
{
    match say {
        CloudSay::Stored { fresh: true } => answer(alloc, b"201 Created"),
        CloudSay::Stored { fresh: false } => answer(alloc, b"200 OK"),
        CloudSay::Conflict => answer(alloc, b"409 Conflict"),
        CloudSay::Body(body) => answer_with(alloc, b"200 OK", body.bytes()),
        CloudSay::Missing => answer(alloc, b"404 Not Found"),
        CloudSay::Gone => bare(alloc),
        CloudSay::Bad(411) => answer(alloc, b"411 Length Required"),
        CloudSay::Bad(413) => answer(alloc, b"413 Content Too Large"),
        CloudSay::Bad(501) => answer(alloc, b"501 Not Implemented"),
        CloudSay::Bad(_) => answer(alloc, b"400 Bad Request"),
    }
}

/// An answer without a body.
fn answer(alloc: Global, status: &[u8]) -> Result<Blob, NoMemory>
    ensures { IfOk result (λ bytes. bytes ≡ answer_bytes status.now []) }
{
    answer_with(alloc, status, b"")
}

/// An answer with this body.
fn answer_with(alloc: Global, status: &[u8], body: &[u8]) -> Result<Blob, NoMemory>
    ensures { IfOk result (λ bytes. bytes ≡ answer_bytes status.now body.now) }
{
    let mut out = Vec::from_slice(alloc, b"HTTP/1.1 ")?;
    out.extend_from_slice(status)?;
    out.extend_from_slice(b"\r\n")?;
    push_length(&mut out, body.len())?;
    push_end(&mut out)?;
    out.extend_from_slice(body)?;
    Ok(Blob::of(out))
}

/// The answer that has no body and no length.
fn bare(alloc: Global) -> Result<Blob, NoMemory>
    ensures { IfOk result (λ bytes. bytes ≡ bare_answer) }
{
    let mut out = Vec::from_slice(alloc, b"HTTP/1.1 204 No Content\r\n")?;
    push_end(&mut out)?;
    Ok(Blob::of(out))
}

/// Writes the first line of a request and its host.
fn push_start(out: &mut Vec<u8>, method: &[u8], name: &[u8], port: u16) -> Result<(), NoMemory>
    ensures { OnOk result
        (out.new.items ≡ out.old.items ++ (method.now ++ (name.now ++ host_line port))) }
{
    out.extend_from_slice(method)?;
    out.extend_from_slice(name)?;
    push_host(out, port)?;
    Ok(())
}

/// Writes the rest of the first line, and the host.
fn push_host(out: &mut Vec<u8>, port: u16) -> Result<(), NoMemory>
    ensures { OnOk result (out.new.items ≡ out.old.items ++ host_line port) }
{
    out.extend_from_slice(b" HTTP/1.1\r\nHost: 127.0.0.1:")?;
    push_number(out, u64::from(port))?;
    out.extend_from_slice(b"\r\n")?;
    Ok(())
}

/// Writes the field of the length.
fn push_length(out: &mut Vec<u8>, length: usize) -> Result<(), NoMemory>
    ensures { OnOk result (out.new.items ≡ out.old.items ++ length_line length) }
{
    out.extend_from_slice(b"Content-Length: ")?;
    push_number(out, length as u64)?;
    out.extend_from_slice(b"\r\n")?;
    Ok(())
}

/// Writes that the connection is closed, and the end of the head.
fn push_end(out: &mut Vec<u8>) -> Result<(), NoMemory>
    ensures { OnOk result (out.new.items ≡ out.old.items ++ close_lines) }
{
    out.extend_from_slice(b"Connection: close\r\n\r\n")?;
    Ok(())
}

/// Writes the number in decimal digits.
fn push_number(out: &mut Vec<u8>, number: u64) -> Result<(), NoMemory>
    ensures { OnOk result (out.new.items ≡ out.old.items ++ decimal number) }
{
    let mut buffer = Buffer::new();
    out.extend_from_slice(buffer.format(number).as_bytes())?;
    Ok(())
}
