//! Reading what stands behind the length of a frame.

ghost use Rattle.std.specs.Prelude.{◌≡◌, ◌≤◌, length, IfOk, IsTrue};
ghost use Rattle.hy_record.specs.Stamps.{is_rising};
ghost use Rattle.hy_mwire.specs.declared.body.BodyFault.TheVariants as faults;
ghost use Rattle.hy_mwire.specs.Reading.{Gives, bytes_at, number_at, ended, key_at, operation_at, stamp_in, stamps_at, stamps_in, record_in, found_in, joined_in, ask_in, say_in, message_in};

use crate::kind::{AskKind, MessageKind, SayKind};
use crate::message::Message;
use byteorder::{BigEndian, ByteOrder};
use hy_base::NoMemory;
use hy_record::{Key, MAX_STAMPS, MetaAsk, MetaSay, Record, RecordFault, Stamp, Stamps};
use std::alloc::{AllocError, AllocFailed, Global};

/// The bytes of a timestamp.
const STAMP_SIZE: usize = 8;

/// Why no message was read.
#[derive(Clone, Copy, Debug)]
pub(crate) enum BodyFault {
    /// The bytes are no message of their kind.
    Bad,
    /// Memory ran out.
    NoMemory,
}

impl From<NoMemory> for BodyFault {
    ghost from_gives = { λ _ e. e ≡ faults.NoMemory };

    fn from(_e: NoMemory) -> BodyFault {
        BodyFault::NoMemory
    }
}

impl From<AllocError> for BodyFault {
    ghost from_gives = { λ _ e. e ≡ faults.NoMemory };

    fn from(_e: AllocError) -> BodyFault {
        BodyFault::NoMemory
    }
}

impl<T: Drop> From<AllocFailed<T>> for BodyFault {
    ghost from_gives = { λ _ e. e ≡ faults.NoMemory };

    fn from(_e: AllocFailed<T>) -> BodyFault {
        BodyFault::NoMemory
    }
}

/// An operation of a client on a key.
#[derive(Debug, Drop)]
pub(crate) struct Operation {
    client: u32,
    op: u32,
    key: Key,
}

/// The message of this kind whose parts are all of the bytes.
#[tactic(auto, unfolding(crate::specs::Reading::message_in))]
pub(crate) fn message_of(
    alloc: Global,
    kind: MessageKind,
    bytes: &[u8],
) -> Result<Message, BodyFault>
    ensures { Gives (λ said. said) result (message_in kind bytes.now) }
{
    match kind {
        MessageKind::Join => whole(Message::Join, bytes),
        MessageKind::Joined => joined_of(bytes),
        MessageKind::Full => whole(Message::Full, bytes),
        MessageKind::Ask(kind) => match operation_of(bytes) {
            Ok((operation, rest)) => ask_of(alloc, kind, &operation, rest),
            Err(fault) => Err(fault),
        },
        MessageKind::Say(kind) => match operation_of(bytes) {
            Ok((operation, rest)) => say_of(alloc, kind, &operation, rest),
            Err(fault) => Err(fault),
        },
    }
}

/// The message, where nothing stands behind it.
fn whole(message: Message, bytes: &[u8]) -> Result<Message, BodyFault>
    ensures { Gives (λ said. said) result (ended message bytes.now) }
{
    match bytes {
        [] => Ok(message),
        [_, ..] => Err(BodyFault::Bad),
    }
}

/// The number of a client that joined.
#[tactic(auto, unfolding(crate::specs::Reading::joined_in))]
fn joined_of(bytes: &[u8]) -> Result<Message, BodyFault>
    ensures { Gives (λ said. said) result (joined_in bytes.now) }
{
    let (client, rest) = u32_at(bytes)?;
    if client == 0 {
        return Err(BodyFault::Bad);
    }
    whole(Message::Joined { client }, rest)
}

/// What a client asks.
#[tactic(auto, unfolding(crate::specs::Reading::ask_in))]
fn ask_of(
    alloc: Global,
    kind: AskKind,
    operation: &Operation,
    bytes: &[u8],
) -> Result<Message, BodyFault>
    ensures { Gives (λ said. said) result (ask_in kind operation.now bytes.now) }
{
    let client = operation.client;
    let op = operation.op;
    let key = operation.key;
    match kind {
        AskKind::Read => whole(Message::Ask(MetaAsk::Read { client, op, key }), bytes),
        AskKind::Update => {
            let rec = record_of(alloc, bytes)?;
            Ok(Message::Ask(MetaAsk::Update {
                client,
                op,
                key,
                rec,
            }))
        }
        AskKind::Watch => {
            let stamp = stamp_of(bytes)?;
            Ok(Message::Ask(MetaAsk::Watch {
                client,
                op,
                key,
                stamp,
            }))
        }
        AskKind::Olds => whole(Message::Ask(MetaAsk::Olds { client, op, key }), bytes),
        AskKind::Forget => {
            let stamps = list_of(alloc, bytes)?;
            Ok(Message::Ask(MetaAsk::Forget {
                client,
                op,
                key,
                stamps,
            }))
        }
    }
}

/// What the service answers.
#[tactic(auto, unfolding(crate::specs::Reading::say_in))]
fn say_of(
    alloc: Global,
    kind: SayKind,
    operation: &Operation,
    bytes: &[u8],
) -> Result<Message, BodyFault>
    ensures { Gives (λ said. said) result (say_in kind operation.now bytes.now) }
{
    let client = operation.client;
    let op = operation.op;
    let key = operation.key;
    match kind {
        SayKind::Has => {
            let rec = found_of(alloc, bytes)?;
            Ok(Message::Say(MetaSay::Has {
                client,
                op,
                key,
                rec,
            }))
        }
        SayKind::Applied => {
            let stamp = stamp_of(bytes)?;
            Ok(Message::Say(MetaSay::Applied {
                client,
                op,
                key,
                stamp,
            }))
        }
        SayKind::Kept => {
            let stamp = stamp_of(bytes)?;
            Ok(Message::Say(MetaSay::Kept {
                client,
                op,
                key,
                stamp,
            }))
        }
        SayKind::Fired => {
            let stamp = stamp_of(bytes)?;
            Ok(Message::Say(MetaSay::Fired {
                client,
                op,
                key,
                stamp,
            }))
        }
        SayKind::OldList => {
            let stamps = list_of(alloc, bytes)?;
            Ok(Message::Say(MetaSay::OldList {
                client,
                op,
                key,
                stamps,
            }))
        }
        SayKind::Forgot => whole(Message::Say(MetaSay::Forgot { client, op, key }), bytes),
    }
}

/// The record, if there is one.
#[tactic(auto, unfolding(crate::specs::Reading::found_in))]
fn found_of(alloc: Global, bytes: &[u8]) -> Result<Option<Record>, BodyFault>
    ensures { Gives (λ rec. rec) result (found_in bytes.now) }
{
    match bytes {
        [0] => Ok(None),
        [1, rest @ ..] => {
            let rec = record_of(alloc, rest)?;
            Ok(Some(rec))
        }
        _ => Err(BodyFault::Bad),
    }
}

/// The record that all of the bytes spell.
#[tactic(auto, unfolding(crate::specs::Reading::record_in))]
fn record_of(alloc: Global, bytes: &[u8]) -> Result<Record, BodyFault>
    ensures { Gives (λ rec. rec) result (record_in bytes.now) }
{
    match Record::decode(alloc, bytes) {
        Ok(rec) => Ok(rec),
        Err(RecordFault::NoMemory) => Err(BodyFault::NoMemory),
        Err(_) => Err(BodyFault::Bad),
    }
}

/// The timestamp that all of the bytes are.
#[tactic(auto, unfolding(crate::specs::Reading::stamp_in))]
fn stamp_of(bytes: &[u8]) -> Result<Stamp, BodyFault>
    ensures { Gives (λ stamp. stamp) result (stamp_in bytes.now) }
{
    let (sn, rest) = u32_at(bytes)?;
    let (cid, rest) = u32_at(rest)?;
    match (Stamp::new(sn, cid), rest) {
        (Some(stamp), []) => Ok(stamp),
        _ => Err(BodyFault::Bad),
    }
}

/// The list of timestamps that all of the bytes are.
#[tactic(auto, unfolding(crate::specs::Reading::stamps_in))]
fn list_of(alloc: Global, bytes: &[u8]) -> Result<Stamps, BodyFault>
    ensures { Gives (λ stamps. stamps) result (stamps_in bytes.now) }
{
    let (count, rest) = u16_at(bytes)?;
    if count as usize > MAX_STAMPS {
        return Err(BodyFault::Bad);
    }
    let (items, rest) = stamps_of(alloc, count, rest)?;
    if !is_rising_list(&items) {
        return Err(BodyFault::Bad);
    }
    match rest {
        [] => Ok(Stamps::of(items)),
        [_, ..] => Err(BodyFault::Bad),
    }
}

/// Whether each timestamp is below the next.
fn is_rising_list(stamps: &[Stamp]) -> bool
    ensures { result ≡ is_rising stamps.now }
{
    let [first, others @ ..] = stamps else {
        return true;
    };
    let mut last = first;
    for stamp in others {
        if !last.is_below(stamp) {
            return false;
        }
        last = stamp;
    }
    true
}

/// So many timestamps, and the bytes behind them.
fn stamps_of(alloc: Global, count: u16, bytes: &[u8]) -> Result<(Vec<Stamp>, &[u8]), BodyFault>
    ensures value { Gives (λ x. (x.0.items, x.1.now)) result (stamps_at count bytes.now) }
    ensures count { IfOk result (λ x. length x.0.items ≡ count) }
{
    let mut stamps = Vec::new(alloc);
    let mut rest = bytes;
    for _ in 0..count {
        let (front, after) = front_of(STAMP_SIZE, rest)?;
        let stamp = stamp_of(front)?;
        stamps.push(stamp)?;
        rest = after;
    }
    Ok((stamps, rest))
}

/// The client, the number and the key of an operation, and the bytes behind them.
#[tactic(auto, unfolding(crate::specs::Reading::operation_at))]
fn operation_of(bytes: &[u8]) -> Result<(Operation, &[u8]), BodyFault>
    ensures { Gives (λ x. (x.0, x.1.now)) result (operation_at bytes.now) }
{
    let (client, rest) = u32_at(bytes)?;
    let (op, rest) = u32_at(rest)?;
    match key_of(rest) {
        Ok((key, rest)) => Ok((Operation { client, op, key }, rest)),
        Err(fault) => Err(fault),
    }
}

/// A key behind its length, and the bytes behind it.
#[tactic(auto, unfolding(crate::specs::Reading::key_at))]
fn key_of(bytes: &[u8]) -> Result<(Key, &[u8]), BodyFault>
    ensures { Gives (λ x. (x.0, x.1.now)) result (key_at bytes.now) }
{
    let (size, rest) = u8_at(bytes)?;
    let (text, rest) = front_of(size as usize, rest)?;
    match Key::read(text) {
        Ok(key) => Ok((key, rest)),
        Err(_) => Err(BodyFault::Bad),
    }
}

/// So many bytes, and those behind them.
fn front_of(count: usize, bytes: &[u8]) -> Result<(&[u8], &[u8]), BodyFault>
    ensures { Gives (λ x. (x.0.now, x.1.now)) result (bytes_at count bytes.now) }
{
    if bytes.len() < count {
        return Err(BodyFault::Bad);
    }
    Ok(bytes.split_at(count))
}

/// The number in the first four bytes, and the bytes behind it.
fn u32_at(bytes: &[u8]) -> Result<(u32, &[u8]), BodyFault>
    ensures { Gives (λ x. (x.0, x.1.now)) result (number_at 4 bytes.now) }
{
    if bytes.len() < 4 {
        return Err(BodyFault::Bad);
    }
    let (front, rest) = bytes.split_at(4);
    Ok((BigEndian::read_u32(front), rest))
}

/// The number in the first two bytes, and the bytes behind it.
fn u16_at(bytes: &[u8]) -> Result<(u16, &[u8]), BodyFault>
    ensures { Gives (λ x. (x.0, x.1.now)) result (number_at 2 bytes.now) }
{
    if bytes.len() < 2 {
        return Err(BodyFault::Bad);
    }
    let (front, rest) = bytes.split_at(2);
    Ok((BigEndian::read_u16(front), rest))
}

/// The first byte, and the bytes behind it.
fn u8_at(bytes: &[u8]) -> Result<(u8, &[u8]), BodyFault>
    ensures { Gives (λ x. (x.0, x.1.now)) result (number_at 1 bytes.now) }
{
    match bytes {
        [] => Err(BodyFault::Bad),
        [byte, rest @ ..] => Ok((*byte, rest)),
    }
}
