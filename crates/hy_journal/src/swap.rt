//! The entry of a swap: no frame carries one, so it is written and read here.

ghost use Rattle.std.specs.Prelude.{◌≡◌, ◌≤◌, ◌<◌, ◌+◌, ◌^◌, IfOk, OnOk, MatchOption, length, drop};
ghost use Rattle.hy_record.specs.Spelling.{SpellsRecord};
ghost use Rattle.hy_journal.specs.Entry.{IsSwap, swap_block, swap_bytes, HasEntry};
ghost use Rattle.hy_journal.specs.Swap.{HasBlock, LacksBlock, watch_frame, watch_in, HasWatch, LacksWatch, HasFields, LacksFields, LacksRecord, LacksSwap};

use crate::entry::Entry;
use byteorder::{BigEndian, ByteOrder};
use hy_base::NoMemory;
use hy_mwire::{Front, Message, encode_ask, frames_are_read_back, front_of};
use hy_record::{Key, MetaAsk, Record, RecordFault, Stamp};
use std::alloc::Global;

/// The byte that names a swap.
const SWAP: u8 = 7;

/// A watch, whose parts a swap has before its record.
#[derive(Debug, Drop)]
pub(crate) struct Watched {
    client: u32,
    op: u32,
    key: Key,
    stamp: Stamp,
}

/// The bytes of the swap's entry.
pub(crate) fn write_swap(
    alloc: Global,
    client: u32,
    op: u32,
    key: &Key,
    expected: &Stamp,
    rec: &Record,
) -> Result<Vec<u8>, NoMemory>
    ensures bytes { IfOk result (λ bytes.
        bytes.items ≡ swap_bytes client op key.now expected.now rec.now) }
    ensures known { OnOk result (IsSwap client op key.now expected.now rec.now) }
{
    let watch = MetaAsk::Watch {
        client,
        op,
        key: *key,
        stamp: *expected,
    };
    let frame = encode_ask(alloc, &watch)?.into_bytes();
    let spelled = rec.known().encode(alloc)?.into_bytes();
    let bytes = block_of(alloc, &frame, &spelled)?;
    Ok(bytes)
}

/// The block of the parts behind the kind of a frame, and of a spelling.
#[tactic(auto, unfolding(crate::specs::Entry::swap_block))]
fn block_of(alloc: Global, frame: &[u8], spelled: &[u8]) -> Result<Vec<u8>, NoMemory>
    requires some { 5 ≤ length frame.now }
    requires few { length frame.now + length spelled.now < 2 ^ 32 }
    ensures { IfOk result (λ bytes. bytes.items ≡ swap_block (drop 5 frame.now) spelled.now) }
{
    let (_, fields) = frame.split_at(5);
    let size = 1 + fields.len() + spelled.len();
    let mut bytes = vec![in alloc; 0; 4]?;
    BigEndian::write_u32(&mut bytes, size as u32);
    bytes.push(SWAP)?;
    bytes.extend_from_slice(fields)?;
    bytes.extend_from_slice(spelled)?;
    Ok(bytes)
}

/// The swap's entry in front of the bytes, and how many bytes it has; none where no whole entry of
/// a swap with a gate behind it stands there.
pub(crate) fn swap_at(alloc: Global, bytes: &[u8]) -> Result<Option<(Entry, usize)>, NoMemory>
    ensures { IfOk result (λ found. MatchOption found (LacksSwap bytes.now)
        (λ x. HasEntry bytes.now x.0 x.1)) }
{
    let Some((fields, spelled)) = block_at(bytes) else {
        return Ok(None);
    };
    let Some(watch) = watch_of(alloc, fields)? else {
        return Ok(None);
    };
    let Some(rec) = record_of(alloc, spelled)? else {
        return Ok(None);
    };
    let size = 5 + fields.len() + spelled.len();
    let ask = MetaAsk::Swap {
        client: watch.client,
        op: watch.op,
        key: watch.key,
        expected: watch.stamp,
        rec,
    };
    Ok(Some((Entry::Ask(ask), size)))
}

/// The record that the bytes spell, if they spell one.
fn record_of(alloc: Global, bytes: &[u8]) -> Result<Option<Record>, NoMemory>
    ensures { IfOk result (λ found. MatchOption found (LacksRecord bytes.now)
        (λ rec. SpellsRecord bytes.now rec)) }
{
    match Record::decode(alloc, bytes) {
        Ok(rec) => Ok(Some(rec)),
        Err(RecordFault::NoMemory) => Err(NoMemory),
        Err(_) => Ok(None),
    }
}

/// The parts of a watch and the spelling of a record in a block of the kind of a swap, by its
/// length and that of the key; none where none stands there with a gate behind it.
fn block_at(bytes: &[u8]) -> Option<(&[u8], &[u8])>
    ensures { MatchOption result (LacksBlock bytes.now)
        (λ x. HasBlock bytes.now x.0.now x.1.now) }
{
    if bytes.len() < 4 {
        return None;
    }
    let size = BigEndian::read_u32(bytes) as usize;
    let (_, rest) = bytes.split_at(4);
    if rest.len() <= size {
        return None;
    }
    if size < 10 {
        return None;
    }
    let long = 17 + rest[9] as usize;
    if rest[0] != SWAP {
        return None;
    }
    if size < 1 + long {
        return None;
    }
    let parts = &rest[1..size];
    Some(parts.split_at(long))
}

/// The watch with these fields.
fn watch_of(alloc: Global, fields: &[u8]) -> Result<Option<Watched>, NoMemory>
    requires { length fields.now ≤ 272 }
    ensures { IfOk result (λ found. MatchOption found (LacksFields fields.now)
        (λ watch. HasFields fields.now watch)) }
{
    let frame = watch_frame(alloc, fields)?;
    match watch_at(alloc, &frame)? {
        Some(watch) => Ok(Some(watch)),
        None => Ok(None),
    }
}

/// The frame of a watch with these fields, if one has them.
fn watch_frame(alloc: Global, fields: &[u8]) -> Result<Vec<u8>, NoMemory>
    requires { length fields.now ≤ 272 }
    ensures { IfOk result (λ frame. frame.items ≡ watch_frame fields.now) }
{
    let mut frame = vec![in alloc; 0; 4]?;
    BigEndian::write_u32(&mut frame, fields.len() as u32 + 1);
    frame.push(4)?;
    frame.extend_from_slice(fields)?;
    Ok(frame)
}

/// The watch whose frame the bytes are.
fn watch_at(alloc: Global, frame: &[u8]) -> Result<Option<Watched>, NoMemory>
    ensures { IfOk result (λ found. MatchOption found (LacksWatch frame.now)
        (λ watch. HasWatch frame.now watch)) }
{
    frames_are_read_back();
    match front_of(alloc, 0, frame)? {
        Front::Message(message, size) => {
            if size != frame.len() {
                return Ok(None);
            }
            match watch_in(message) {
                Some(watch) => Ok(Some(watch)),
                None => Ok(None),
            }
        }
        Front::Partial => Ok(None),
        Front::Fault(_fault) => Ok(None),
    }
}

/// The watch that the message is, if it is one.
fn watch_in(message: Message) -> Option<Watched>
    ensures { result ≡ watch_in message }
{
    match message {
        Message::Ask(ask) => match ask {
            MetaAsk::Watch {
                client,
                op,
                key,
                stamp,
            } => Some(Watched {
                client,
                op,
                key,
                stamp,
            }),
            MetaAsk::Read { .. }
            | MetaAsk::Update { .. }
            | MetaAsk::Olds { .. }
            | MetaAsk::Forget { .. }
            | MetaAsk::Swap { .. } => None,
        },
        Message::Join | Message::Joined { .. } | Message::Full | Message::Say(_) => None,
    }
}
