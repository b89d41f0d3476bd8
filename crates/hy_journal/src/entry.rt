//! The entries of a journal, and their bytes.

ghost use Rattle.std.specs.Prelude.{◌≡◌, ◌++◌, ◌∷◌, [], IfOk, OnOk, MatchOption, Some, None, true};
ghost use Rattle.hy_mwire.specs.Front.{AreBytes};
ghost use Rattle.hy_mwire.specs.declared.message.Message.TheVariants as messages;
ghost use Rattle.hy_mwire.specs.Frames.{frame_of};
ghost use Rattle.hy_mwire.specs.Message.{IsAsk, IsFramedAsk};
ghost use Rattle.hy_journal.specs.declared.entry.Entry.TheVariants as kinds;
ghost use Rattle.hy_journal.specs.Entry.{is_kept, IsEntry, entry_bytes, entry_in, HasEntry, LacksEntry};

use crate::swap::{swap_at, write_swap};
use hy_base::NoMemory;
use hy_mwire::{Front, Message, encode, encode_ask, frames_are_read_back, front_of};
use hy_record::MetaAsk;
use std::alloc::Global;

/// What a journal keeps of a call.
#[derive(Debug, Drop)]
pub enum Entry {
    /// A session was asked for, and given.
    Join,
    /// A request that changes what the service keeps was served.
    Ask(MetaAsk),
}

/// Whether the request changes what a service keeps.
#[tactic(auto, unfolding(crate::specs::Entry::is_kept))]
pub(crate) fn is_kept(ask: &MetaAsk) -> bool
    ensures { result ≡ is_kept ask.now }
{
    match ask {
        MetaAsk::Update { .. } | MetaAsk::Forget { .. } | MetaAsk::Swap { .. } => true,
        MetaAsk::Read { .. } | MetaAsk::Watch { .. } | MetaAsk::Olds { .. } => false,
    }
}

/// The bytes of the entry of a session, and the closed gate behind it.
#[tactic(auto, unfolding(crate::specs::Entry::entry_bytes))]
pub(crate) fn join_bytes(alloc: Global) -> Result<Vec<u8>, NoMemory>
    ensures { IfOk result (λ bytes. bytes.items ≡ entry_bytes kinds.Join ++ 0 ∷ []) }
{
    let bytes = encode(alloc, &Message::Join)?.into_bytes();
    closed(bytes)
}

/// The bytes of the request's entry, and the closed gate behind it.
#[tactic(auto, unfolding(crate::specs::Entry::entry_bytes, crate::specs::Entry::IsEntry, crate::specs::Entry::is_kept))]
pub(crate) fn ask_bytes(alloc: Global, ask: &MetaAsk) -> Result<Vec<u8>, NoMemory>
    requires kept { is_kept ask.now ≡ true }
    ensures bytes { IfOk result (λ bytes. bytes.items ≡ entry_bytes (kinds.Ask ask.now) ++ 0 ∷ []) }
    ensures known { OnOk result (IsEntry (kinds.Ask ask.now)) }
{
    match ask {
        MetaAsk::Swap {
            client,
            op,
            key,
            expected,
            rec,
        } => {
            let bytes = write_swap(alloc, *client, *op, key, expected, rec)?;
            closed(bytes)
        }
        MetaAsk::Update { .. } => framed(alloc, ask),
        MetaAsk::Forget { .. } => framed(alloc, ask),
        MetaAsk::Read { .. } | MetaAsk::Watch { .. } | MetaAsk::Olds { .. } => unreachable!(),
    }
}

/// The frame of what is asked, and a closed gate behind it.
fn framed(alloc: Global, ask: &MetaAsk) -> Result<Vec<u8>, NoMemory>
    requires { IsFramedAsk ask.now }
    ensures bytes { IfOk result (λ bytes. bytes.items ≡ frame_of (messages.Ask ask.now) ++ 0 ∷ []) }
    ensures known { OnOk result (IsAsk ask.now) }
{
    let bytes = encode_ask(alloc, ask)?.into_bytes();
    closed(bytes)
}

/// The bytes, and a closed gate behind them.
fn closed(bytes: Vec<u8>) -> Result<Vec<u8>, NoMemory>
    ensures { IfOk result (λ closed. closed.items ≡ bytes.items ++ 0 ∷ []) }
{
    let mut bytes = bytes;
    bytes.push(0)?;
    Ok(bytes)
}

/// The entry that the message is, if it is one.
#[tactic(auto, unfolding(crate::specs::Entry::is_kept))]
fn entry_of(message: Message) -> Option<Entry>
    ensures { result ≡ entry_in message }
{
    match message {
        Message::Join => Some(Entry::Join),
        Message::Ask(ask) => {
            if is_kept(&ask) {
                Some(Entry::Ask(ask))
            } else {
                None
            }
        }
        Message::Joined { .. } | Message::Full | Message::Say(_) => None,
    }
}

/// The entry in front of the bytes, and how many bytes it has; none where no whole entry with a
/// gate behind it stands there.
pub(crate) fn entry_at(alloc: Global, bytes: &[u8]) -> Result<Option<(Entry, usize)>, NoMemory>
    ensures { IfOk result (λ found. MatchOption found (LacksEntry bytes.now)
        (λ x. HasEntry bytes.now x.0 x.1)) }
{
    frames_are_read_back();
    match front_of(alloc, 0, bytes)? {
        Front::Message(message, size) => {
            if size == bytes.len() {
                return Ok(None);
            }
            match entry_of(message) {
                Some(entry) => Ok(Some((entry, size))),
                None => Ok(None),
            }
        }
        Front::Partial => Ok(None),
        Front::Fault(_fault) => match swap_at(alloc, bytes)? {
            Some(swap) => Ok(Some(swap)),
            None => Ok(None),
        },
    }
}
