//! The lines that tell how a job went.

ghost use Rattle.std.specs.Prelude.{◌≡◌, ◌∷◌, [], ◌++◌, IfOk, OnOk};
ghost use Rattle.std.specs.Fmt.{decimal};
ghost use Rattle.hy_text.specs.Line.{line_text, spaced};
ghost use Rattle.hy_text.specs.Stamp.{stamp_words};
ghost use Rattle.hy_top.specs.Line.{arrivals_line, bad_frames_line, bad_input_line, legal_line, illegal_line, not_yet_line, refusal_line, too_large_line, verdict_words};

use crate::status::Status;
use hy_base::{Blob, NoMemory, TextFault};
use hy_order::Verdict;
use hy_record::{Key, Stamp};
use hy_text::{cause_name, push_number_word, push_stamp, push_word};
use std::alloc::Global;

/// The line of a refusal; a status that is none has no line.
pub(crate) fn refusal_line(alloc: Global, status: &Status) -> Result<Blob, NoMemory>
    ensures { IfOk result (λ text. text ≡ refusal_line status.now) }
{
    match status {
        Status::BadWords => Blob::copy_of(alloc, b"bad words\n"),
        Status::ReadFault => Blob::copy_of(alloc, b"read fault\n"),
        Status::NetFault => Blob::copy_of(alloc, b"net fault\n"),
        Status::TooLong => Blob::copy_of(alloc, b"too long\n"),
        Status::SessionsFull => Blob::copy_of(alloc, b"sessions full\n"),
        Status::NotYet { have, need } => not_yet_line(alloc, *have, *need),
        Status::Exhausted(stamp) => Ok(Blob::of(stamp_line(alloc, b"exhausted", stamp)?)),
        Status::TooLarge(size) => too_large_line(alloc, *size),
        Status::BadFrames(place) => bad_frames_line(alloc, *place),
        Status::BadInput(fault) => bad_input_line(alloc, *fault),
        Status::Illegal(key, verdict) => illegal_line(alloc, key, *verdict),
        Status::Done | Status::WriteFault | Status::NoMemory => Ok(Blob::of(Vec::new(alloc))),
    }
}

/// The line that names the first bad line of an input.
fn bad_input_line(alloc: Global, fault: TextFault) -> Result<Blob, NoMemory>
    ensures { IfOk result (λ text. text ≡ bad_input_line fault) }
{
    let mut line = Vec::from_slice(alloc, b"bad input")?;
    push_number_word(&mut line, fault.line.into())?;
    push_word(&mut line, cause_name(fault.cause).as_bytes())?;
    line.push(b'\n')?;
    Ok(Blob::of(line))
}

/// The line that names the first frame that is none of a request.
fn bad_frames_line(alloc: Global, place: u64) -> Result<Blob, NoMemory>
    ensures { IfOk result (λ text. text ≡ bad_frames_line place) }
{
    let mut line = Vec::from_slice(alloc, b"bad frames")?;
    push_number_word(&mut line, place)?;
    line.push(b'\n')?;
    Ok(Blob::of(line))
}

/// The line that tells how many orders a report has, all of them legal.
pub(crate) fn legal_line(alloc: Global, count: usize) -> Result<Blob, NoMemory>
    ensures { IfOk result (λ text. text ≡ legal_line count) }
{
    let mut line = Vec::from_slice(alloc, b"legal")?;
    push_number_word(&mut line, count as u64)?;
    line.push(b'\n')?;
    Ok(Blob::of(line))
}

/// The line that tells how many arrivals a server took.
pub(crate) fn arrivals_line(alloc: Global, count: u32) -> Result<Blob, NoMemory>
    ensures { IfOk result (λ text. text ≡ arrivals_line count) }
{
    let mut line = Vec::from_slice(alloc, b"arrivals")?;
    push_number_word(&mut line, count.into())?;
    line.push(b'\n')?;
    Ok(Blob::of(line))
}

/// The line that tells what an operation without a reply has, and what it needs.
fn not_yet_line(alloc: Global, have: u32, need: u32) -> Result<Blob, NoMemory>
    ensures { IfOk result (λ text. text ≡ not_yet_line have need) }
{
    let mut line = Vec::from_slice(alloc, b"not yet")?;
    push_number_word(&mut line, have.into())?;
    push_number_word(&mut line, need.into())?;
    line.push(b'\n')?;
    Ok(Blob::of(line))
}

/// The line that tells how many bytes a value has that is too large.
fn too_large_line(alloc: Global, size: u64) -> Result<Blob, NoMemory>
    ensures { IfOk result (λ text. text ≡ too_large_line size) }
{
    let mut line = Vec::from_slice(alloc, b"too large")?;
    push_number_word(&mut line, size)?;
    line.push(b'\n')?;
    Ok(Blob::of(line))
}

/// The line of this word and a timestamp.
pub(crate) fn stamp_line(alloc: Global, word: &[u8], stamp: &Stamp) -> Result<Vec<u8>, NoMemory>
    ensures { IfOk result (λ line. line.items ≡ line_text (word.now ∷ stamp_words stamp.now)) }
{
    let mut line = Vec::from_slice(alloc, word)?;
    push_stamp(&mut line, stamp)?;
    line.push(b'\n')?;
    Ok(line)
}

/// The line that names the first illegal order of a report and what is wrong with it.
fn illegal_line(alloc: Global, key: &Key, verdict: Verdict) -> Result<Blob, NoMemory>
    ensures { IfOk result (λ text. text ≡ illegal_line key.now verdict) }
{
    let mut line = Vec::from_slice(alloc, b"illegal")?;
    push_word(&mut line, key.bytes())?;
    push_verdict(&mut line, verdict)?;
    line.push(b'\n')?;
    Ok(Blob::of(line))
}

/// Appends the words that tell the verdict, each with a space before it.
fn push_verdict(line: &mut Vec<u8>, verdict: Verdict) -> Result<(), NoMemory>
    ensures { OnOk result (line.new.items ≡ line.old.items ++ spaced (verdict_words verdict)) }
{
    match verdict {
        Verdict::Legal => push_word(line, b"legal"),
        Verdict::Missing(number) => push_fault(line, b"missing", number),
        Verdict::Stranger(number) => push_fault(line, b"stranger", number),
        Verdict::Twice(number) => push_fault(line, b"twice", number),
        Verdict::Wrong(number) => push_fault(line, b"wrong", number),
        Verdict::Early(earlier, later) => {
            push_fault(line, b"early", earlier)?;
            push_number_word(line, later.into())
        }
    }
}

/// Appends the name of a violation and the number of an operation.
fn push_fault(line: &mut Vec<u8>, name: &[u8], number: u32) -> Result<(), NoMemory>
    ensures { OnOk result (line.new.items ≡ line.old.items ++ spaced (name.now ∷ decimal number ∷ [])) }
{
    push_word(line, name)?;
    push_number_word(line, number.into())
}
