//! A keeper over a disk in memory, and requests one after another.

ghost use Rattle.std.specs.Prelude.{◌≡◌, ◌≤◌, ◌++◌, ◌-◌, [], List, ℕ, All, IfOk, OnOk, length, map};
ghost use Rattle.hy_base.specs.declared.limits.TheConstants.{MAX_INPUT};
ghost use Rattle.hy_mwire.specs.declared.message.Message.TheVariants as messages;
ghost use Rattle.hy_mwire.specs.Frames.{frame_of, frames_of};
ghost use Rattle.hy_mwire.specs.Message.{IsFramedSay, IsSendable};
ghost use Rattle.hy_disk.specs.MemDisk.{Reach};
ghost use Rattle.hy_journal.specs.declared.entry.Entry.{Entry as TheEntry};
ghost use Rattle.hy_journal.specs.File.{Holds};
ghost use Rattle.hy_journal.specs.Keeper.{FindsSome, disk_of};
ghost use Rattle.hy_journal.specs.Requests.{IsRequest};
ghost use Rattle.hy_journal.specs.Kept.{Kept};
ghost use Rattle.hy_journal.specs.Playing.{file_of, files_of, CanReopen, IsReady, GoesOn, IsPlayed};

use crate::fault::{KeepFault, OpenFault};
use crate::keeper::Keeper;
use hy_base::NoMemory;
use hy_disk::MemDisk;
use hy_mwire::{Message, encode};
use hy_record::{MetaAsk, MetaSay};
use std::alloc::Global;

/// The bytes of the disk's room, which suffice for every input.
pub const KEPT_ROOM: usize = 33_554_432;

/// The frames of what a keeper answers to the requests, over a new disk on which the call of this
/// number fails, counted from 1; 0 is for none.
///
/// Where it fails the disk is opened again, as it is, and the next request is served.
pub fn kept_answers(alloc: Global, stop: u32, requests: &[Message]) -> Result<Vec<u8>, NoMemory>
    requires each { All IsRequest requests.now }
    requires few { length (frames_of requests.now) ≤ MAX_INPUT }
    ensures { IfOk result (λ output. Kept (stop - 4) [] [] requests.now output.items) }
{
    let mut keeper = first_keeper(alloc, stop)?;
    let mut output = Vec::new(alloc);
    for request in requests {
        keeper = answered(alloc, keeper, request, &mut output)?;
    }
    Ok(output)
}

/// The keeper of a new disk on which the call of this number fails.
fn first_keeper(alloc: Global, stop: u32) -> Result<Keeper<MemDisk>, NoMemory>
    ensures { IfOk result (λ keeper. IsPlayed stop keeper [] []) }
{
    let failing = vec![in alloc; stop]?;
    let disk = MemDisk::new(alloc, KEPT_ROOM, failing)?;
    match Keeper::open(alloc, disk) {
        Ok(keeper) => Ok(keeper),
        Err((disk, fault)) => match fault {
            OpenFault::NoMemory => Err(NoMemory),
            OpenFault::DiskFault => {
                let again = reopened(alloc, disk)?;
                Ok(again)
            }
            OpenFault::TooLong(_) => unreachable!(),
            OpenFault::BadEntry(_) => unreachable!(),
        },
    }
}

/// The keeper that is opened after a call of the disk failed.
fn reopened(alloc: Global, disk: MemDisk) -> Result<Keeper<MemDisk>, NoMemory>
    requires { CanReopen disk }
    ensures finds { IfOk result (λ keeper. (entries more : List TheEntry) →
        Holds entries more (files_of disk) → FindsSome file_of files_of entries more keeper) }
    ensures reach { IfOk result (λ keeper. Reach disk (disk_of keeper) 3 1 1
        × ((disk_of keeper).faults ≡ disk.faults)) }
{
    match Keeper::open(alloc, disk) {
        Ok(keeper) => Ok(keeper),
        Err((_disk, fault)) => match fault {
            OpenFault::NoMemory => Err(NoMemory),
            OpenFault::DiskFault => unreachable!(),
            OpenFault::TooLong(_) => unreachable!(),
            OpenFault::BadEntry(_) => unreachable!(),
        },
    }
}

/// The keeper after the request, whose answers are put behind the output.
fn answered(
    alloc: Global,
    keeper: Keeper<MemDisk>,
    request: &Message,
    output: &mut Vec<u8>,
) -> Result<Keeper<MemDisk>, NoMemory>
    requires { IsReady keeper request.now }
    ensures { IfOk result (λ after.
        GoesOn keeper after request.now output.old.items output.new.items) }
{
    match request {
        Message::Join => {
            let after = joined(alloc, keeper, output)?;
            Ok(after)
        }
        Message::Ask(ask) => {
            let after = served(alloc, keeper, ask, output)?;
            Ok(after)
        }
        Message::Joined { .. } => unreachable!(),
        Message::Full => unreachable!(),
        Message::Say(_) => unreachable!(),
    }
}

/// The keeper after a join.
fn joined(
    alloc: Global,
    keeper: Keeper<MemDisk>,
    output: &mut Vec<u8>,
) -> Result<Keeper<MemDisk>, NoMemory>
    requires { IsReady keeper messages.Join }
    ensures { IfOk result (λ after.
        GoesOn keeper after messages.Join output.old.items output.new.items) }
{
    let mut keeper = keeper;
    match keeper.join(alloc) {
        Ok(client) => {
            push_frame(alloc, output, &Message::Joined { client })?;
            Ok(keeper)
        }
        Err(KeepFault::SessionsFull) => {
            push_frame(alloc, output, &Message::Full)?;
            Ok(keeper)
        }
        Err(KeepFault::NoMemory) => Err(NoMemory),
        Err(KeepFault::DiskFault) => {
            let again = reopened(alloc, keeper.into_disk())?;
            Ok(again)
        }
        Err(KeepFault::Broken) => unreachable!(),
        Err(KeepFault::Full(_)) => unreachable!(),
    }
}

/// The keeper after a request that it serves.
fn served(
    alloc: Global,
    keeper: Keeper<MemDisk>,
    ask: &MetaAsk,
    output: &mut Vec<u8>,
) -> Result<Keeper<MemDisk>, NoMemory>
    requires { IsReady keeper (messages.Ask ask.now) }
    ensures { IfOk result (λ after.
        GoesOn keeper after (messages.Ask ask.now) output.old.items output.new.items) }
{
    let mut keeper = keeper;
    match keeper.serve(alloc, ask) {
        Ok(says) => {
            push_says(alloc, output, says)?;
            Ok(keeper)
        }
        Err(KeepFault::NoMemory) => Err(NoMemory),
        Err(KeepFault::DiskFault) => {
            let again = reopened(alloc, keeper.into_disk())?;
            Ok(again)
        }
        Err(KeepFault::SessionsFull) => unreachable!(),
        Err(KeepFault::Broken) => unreachable!(),
        Err(KeepFault::Full(_)) => unreachable!(),
    }
}

/// Puts the frames of what the service says behind the output.
fn push_says(alloc: Global, output: &mut Vec<u8>, says: Vec<MetaSay>) -> Result<(), NoMemory>
    requires { All IsFramedSay says.items }
    ensures { OnOk result (output.new.items
        ≡ output.old.items ++ frames_of (map messages.Say says.items)) }
{
    let frames = frames_of_says(alloc, says)?;
    output.extend_from_slice(&frames)?;
    Ok(())
}

/// The frames of what the service says.
fn frames_of_says(alloc: Global, says: Vec<MetaSay>) -> Result<Vec<u8>, NoMemory>
    requires { All IsFramedSay says.items }
    ensures { IfOk result (λ frames. frames.items ≡ frames_of (map messages.Say says.items)) }
{
    let mut frames = Vec::new(alloc);
    for say in says {
        push_say(alloc, &mut frames, say)?;
    }
    Ok(frames)
}

/// Puts the frame of what the service says behind the output.
fn push_say(alloc: Global, output: &mut Vec<u8>, say: MetaSay) -> Result<(), NoMemory>
    requires { IsFramedSay say }
    ensures { OnOk result (output.new.items ≡ output.old.items ++ frame_of (messages.Say say)) }
{
    push_frame(alloc, output, &Message::Say(say))
}

/// Puts the message's frame behind the output.
fn push_frame(alloc: Global, output: &mut Vec<u8>, message: &Message) -> Result<(), NoMemory>
    requires { IsSendable message.now }
    ensures { OnOk result (output.new.items ≡ output.old.items ++ frame_of message.now) }
{
    let frame = encode(alloc, message)?;
    output.extend_from_slice(frame.bytes())?;
    Ok(())
}
