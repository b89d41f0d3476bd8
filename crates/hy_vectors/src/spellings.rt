//! Worked spellings of names, records and frames.

ghost use Rattle.std.specs.Prelude.{◌≡◌, ◌++◌, IfOk, OnOk, codes};
ghost use Rattle.hy_vectors.specs.Vectors.{first_stamp, join_line, name_line, read_line, tomb_line};

use hy_base::NoMemory;
use hy_mwire::{Message, encode};
use hy_record::{Key, MetaAsk, Record, Stamp, name_of};
use hy_text::{push_number_word, push_value_word, push_word};
use std::alloc::Global;

/// The first timestamp of client 1.
fn first_stamp() -> Result<Stamp, NoMemory>
    ensures { IfOk result (λ stamp. stamp ≡ first_stamp) }
{
    Stamp::new(1, 1).ok_or(NoMemory)
}

/// The key `a`.
fn key() -> Result<Key, NoMemory>
    ensures { IfOk result (λ key. key ≡ codes "a") }
{
    Key::read(b"a").map_err(|_| NoMemory)
}

/// Appends the line of the name.
pub(crate) fn push_name(alloc: Global, out: &mut Vec<u8>) -> Result<(), NoMemory>
    ensures { OnOk result (out.new.items ≡ out.old.items ++ name_line) }
{
    let name = name_of(alloc, &key()?, first_stamp()?)?;
    out.extend_from_slice(b"name a")?;
    push_number_word(out, 1)?;
    push_number_word(out, 1)?;
    push_word(out, name.bytes())?;
    out.push(b'\n')?;
    Ok(())
}

/// Appends the line of the record.
pub(crate) fn push_tomb(alloc: Global, out: &mut Vec<u8>) -> Result<(), NoMemory>
    ensures { OnOk result (out.new.items ≡ out.old.items ++ tomb_line) }
{
    let tomb = Record::tomb(alloc, first_stamp()?)?;
    out.extend_from_slice(b"tomb")?;
    push_number_word(out, 1)?;
    push_number_word(out, 1)?;
    push_value_word(out, tomb.encode(alloc)?.bytes())?;
    out.push(b'\n')?;
    Ok(())
}

/// Appends the line of the frame that asks for a session.
pub(crate) fn push_join(alloc: Global, out: &mut Vec<u8>) -> Result<(), NoMemory>
    ensures { OnOk result (out.new.items ≡ out.old.items ++ join_line) }
{
    let frame = encode(alloc, &Message::Join)?;
    out.extend_from_slice(b"frame join")?;
    push_value_word(out, frame.bytes())?;
    out.push(b'\n')?;
    Ok(())
}

/// Appends the line of the frame that asks for a record.
pub(crate) fn push_read(alloc: Global, out: &mut Vec<u8>) -> Result<(), NoMemory>
    ensures { OnOk result (out.new.items ≡ out.old.items ++ read_line) }
{
    let read = MetaAsk::Read {
        client: 1,
        op: 1,
        key: key()?,
    };
    let frame = encode(alloc, &Message::Ask(read))?;
    out.extend_from_slice(b"frame read")?;
    push_number_word(out, 1)?;
    push_number_word(out, 1)?;
    push_word(out, b"a")?;
    push_value_word(out, frame.bytes())?;
    out.push(b'\n')?;
    Ok(())
}
