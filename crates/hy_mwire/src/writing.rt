//! Writing a message as a frame.

ghost use Rattle.std.specs.Prelude.{◌≡◌, ◌≤◌, ◌+◌, ◌-◌, ◌++◌, ◌∷◌, [], length, drop, IfOk, OnOk};
ghost use Rattle.byteorder.specs.Endian.{big_bytes};
ghost use Rattle.hy_record.specs.Stamp.{IsStamp};
ghost use Rattle.hy_record.specs.Record.{IsRecord};
ghost use Rattle.hy_record.specs.Spelling.{stamp_bytes, record_bytes};
ghost use Rattle.hy_mwire.specs.Message.{IsOperation, AreStamps, IsRecordIfAny, IsAsk, IsSay, IsFramedAsk, IsFramedSay, IsSendable, IsMessage};
ghost use Rattle.hy_mwire.specs.Kind.{kind_byte};
ghost use Rattle.hy_mwire.specs.Frames.{operation_bytes, stamps_bytes, found_bytes, ask_fields, say_fields, message_fields, message_kind, ask_kind, say_kind, body_of, frame_of};

use crate::front::MAX_FRAME;
use crate::kind::{AskKind, MessageKind, SayKind};
use crate::message::Message;
use byteorder::{BigEndian, ByteOrder};
use hy_base::{Blob, NoMemory};
use hy_record::{Key, MetaAsk, MetaSay, Record, Stamp, Stamps};
use std::alloc::Global;

/// The frame of the message.
pub fn encode(alloc: Global, message: &Message) -> Result<Blob, NoMemory>
    requires { IsSendable message.now }
    ensures frame { IfOk result (λ frame. frame ≡ frame_of message.now) }
    ensures known { OnOk result (IsMessage message.now) }
{
    let mut frame = vec![in alloc; 0; 4]?;
    push_body(alloc, &mut frame, message)?;
    write_length(&mut frame);
    Ok(Blob::of(frame))
}

/// The frame of what is asked.
pub fn encode_ask(alloc: Global, ask: &MetaAsk) -> Result<Blob, NoMemory>
    requires { IsFramedAsk ask.now }
    ensures frame { IfOk result (λ frame. frame ≡ frame_of (Message.Ask ask.now)) }
    ensures known { OnOk result (IsAsk ask.now) }
{
    let mut frame = vec![in alloc; 0; 4]?;
    push_ask(alloc, &mut frame, ask)?;
    write_length(&mut frame);
    Ok(Blob::of(frame))
}

/// Writes the length of the body over the four bytes that were left before it.
fn write_length(frame: &mut Vec<u8>)
    requires room { 4 ≤ length frame.old.items }
    requires few { length frame.old.items ≤ MAX_FRAME + 4 }
    ensures { frame.new.items ≡ big_bytes 4 (length frame.old.items - 4) ++ drop 4 frame.old.items }
{
    let size = frame.len() - 4;
    BigEndian::write_u32(frame, size as u32);
}

/// Writes the kind and the parts of the message.
fn push_body(alloc: Global, out: &mut Vec<u8>, message: &Message) -> Result<(), NoMemory>
    requires { IsSendable message.now }
    ensures bytes { OnOk result (out.new.items ≡ out.old.items ++ body_of message.now) }
    ensures known { OnOk result (IsMessage message.now) }
{
    match message {
        Message::Join => push_kind(out, MessageKind::Join),
        Message::Joined { client } => {
            push_kind(out, MessageKind::Joined)?;
            push_u32(out, *client)
        }
        Message::Full => push_kind(out, MessageKind::Full),
        Message::Ask(ask) => push_ask(alloc, out, ask),
        Message::Say(say) => push_say(alloc, out, say),
    }
}

/// Writes what is asked.
fn push_ask(alloc: Global, out: &mut Vec<u8>, ask: &MetaAsk) -> Result<(), NoMemory>
    requires { IsFramedAsk ask.now }
    ensures bytes { OnOk result (out.new.items ≡ out.old.items ++ kind_byte (MessageKind.Ask (ask_kind ask.now)) ∷ ask_fields ask.now) }
    ensures known { OnOk result (IsAsk ask.now) }
{
    match ask {
        MetaAsk::Read { client, op, key } => {
            push_operation(out, MessageKind::Ask(AskKind::Read), *client, *op, key)
        }
        MetaAsk::Update {
            client,
            op,
            key,
            rec,
        } => {
            push_operation(out, MessageKind::Ask(AskKind::Update), *client, *op, key)?;
            push_record(alloc, out, rec)
        }
        MetaAsk::Watch {
            client,
            op,
            key,
            stamp,
        } => {
            push_operation(out, MessageKind::Ask(AskKind::Watch), *client, *op, key)?;
            push_stamp(out, stamp)
        }
        MetaAsk::Olds { client, op, key } => {
            push_operation(out, MessageKind::Ask(AskKind::Olds), *client, *op, key)
        }
        MetaAsk::Forget {
            client,
            op,
            key,
            stamps,
        } => {
            push_operation(out, MessageKind::Ask(AskKind::Forget), *client, *op, key)?;
            push_stamps(out, stamps)
        }
        MetaAsk::Swap { .. } => unreachable!(),
    }
}

/// Writes what is answered.
fn push_say(alloc: Global, out: &mut Vec<u8>, say: &MetaSay) -> Result<(), NoMemory>
    requires { IsFramedSay say.now }
    ensures bytes { OnOk result (out.new.items ≡ out.old.items ++ kind_byte (MessageKind.Say (say_kind say.now)) ∷ say_fields say.now) }
    ensures known { OnOk result (IsSay say.now) }
{
    match say {
        MetaSay::Has {
            client,
            op,
            key,
            rec,
        } => {
            push_operation(out, MessageKind::Say(SayKind::Has), *client, *op, key)?;
            push_found(alloc, out, rec)
        }
        MetaSay::Applied {
            client,
            op,
            key,
            stamp,
        } => {
            push_operation(out, MessageKind::Say(SayKind::Applied), *client, *op, key)?;
            push_stamp(out, stamp)
        }
        MetaSay::Kept {
            client,
            op,
            key,
            stamp,
        } => {
            push_operation(out, MessageKind::Say(SayKind::Kept), *client, *op, key)?;
            push_stamp(out, stamp)
        }
        MetaSay::Fired {
            client,
            op,
            key,
            stamp,
        } => {
            push_operation(out, MessageKind::Say(SayKind::Fired), *client, *op, key)?;
            push_stamp(out, stamp)
        }
        MetaSay::OldList {
            client,
            op,
            key,
            stamps,
        } => {
            push_operation(out, MessageKind::Say(SayKind::OldList), *client, *op, key)?;
            push_stamps(out, stamps)
        }
        MetaSay::Forgot { client, op, key } => {
            push_operation(out, MessageKind::Say(SayKind::Forgot), *client, *op, key)
        }
        MetaSay::Swapped { .. } | MetaSay::Changed { .. } => unreachable!(),
    }
}

/// Writes the byte of the kind.
fn push_kind(out: &mut Vec<u8>, kind: MessageKind) -> Result<(), NoMemory>
    ensures { OnOk result (out.new.items ≡ out.old.items ++ kind_byte kind ∷ []) }
{
    out.push(kind.byte())?;
    Ok(())
}

/// Writes the byte of the kind and the operation.
fn push_operation(
    out: &mut Vec<u8>,
    kind: MessageKind,
    client: u32,
    op: u32,
    key: &Key,
) -> Result<(), NoMemory>
    ensures bytes { OnOk result (out.new.items ≡ out.old.items ++ kind_byte kind ∷ operation_bytes client op key.now) }
    ensures known { OnOk result (IsOperation client op key.now) }
{
    push_kind(out, kind)?;
    push_u32(out, client)?;
    push_u32(out, op)?;
    let text = key.bytes();
    out.push(text.len() as u8)?;
    out.extend_from_slice(text)?;
    Ok(())
}

/// Writes whether there is a record, and the record.
fn push_found(alloc: Global, out: &mut Vec<u8>, rec: &Option<Record>) -> Result<(), NoMemory>
    ensures bytes { OnOk result (out.new.items ≡ out.old.items ++ found_bytes rec.now) }
    ensures known { OnOk result (IsRecordIfAny rec.now) }
{
    match rec {
        None => {
            out.push(0)?;
            Ok(())
        }
        Some(rec) => {
            out.push(1)?;
            push_record(alloc, out, rec)
        }
    }
}

/// Writes the spelling of the record.
fn push_record(alloc: Global, out: &mut Vec<u8>, rec: &Record) -> Result<(), NoMemory>
    ensures bytes { OnOk result (out.new.items ≡ out.old.items ++ record_bytes rec.now) }
    ensures known { OnOk result (IsRecord rec.now) }
{
    let spelled = rec.known().encode(alloc)?;
    out.extend_from_slice(spelled.bytes())?;
    Ok(())
}

/// Writes the number of the timestamps, and each.
fn push_stamps(out: &mut Vec<u8>, stamps: &Stamps) -> Result<(), NoMemory>
    ensures bytes { OnOk result (out.new.items ≡ out.old.items ++ stamps_bytes stamps.now) }
    ensures known { OnOk result (AreStamps stamps.now) }
{
    let stamps = stamps.items();
    let mut count = [0; 2];
    BigEndian::write_u16(&mut count, stamps.len() as u16);
    out.extend_from_slice(&count)?;
    for stamp in stamps {
        push_stamp(out, stamp)?;
    }
    Ok(())
}

/// Writes the two numbers of the timestamp.
fn push_stamp(out: &mut Vec<u8>, stamp: &Stamp) -> Result<(), NoMemory>
    ensures bytes { OnOk result (out.new.items ≡ out.old.items ++ stamp_bytes stamp.now) }
    ensures known { OnOk result (IsStamp stamp.now) }
{
    push_u32(out, stamp.sn())?;
    push_u32(out, stamp.cid())
}

/// Writes the number, highest byte first.
fn push_u32(out: &mut Vec<u8>, number: u32) -> Result<(), NoMemory>
    ensures { OnOk result (out.new.items ≡ out.old.items ++ big_bytes 4 number) }
{
    let mut bytes = [0; 4];
    BigEndian::write_u32(&mut bytes, number);
    out.extend_from_slice(&bytes)?;
    Ok(())
}
