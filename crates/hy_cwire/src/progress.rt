//! How far a message has come.

ghost use Rattle.std.specs.Prelude.{◌≡◌, ◌≢◌, ◌≤◌, ◌<◌, ◌++◌, ℕ, List, Err, Result, length, take, MatchResult, IfOk, IfErr};
ghost use Rattle.hy_cwire.specs.declared.fault.HttpFault.{HttpFault};
ghost use Rattle.hy_cwire.specs.declared.fault.HttpFault.TheVariants as faults;
ghost use Rattle.hy_cwire.specs.declared.progress.Progress.{Progress};
ghost use Rattle.hy_cwire.specs.declared.progress.Progress.TheVariants as stages;
ghost use Rattle.hy_cwire.specs.Block.{HasNoBlock};
ghost use Rattle.hy_cwire.specs.Stages.{IsAt, IsLive, IsUnfinished, IsOpen, IsSound, Begins, answer_of, after_end};

use crate::block::{MAX_HEAD, end_in};
use crate::bytes::Bytes;
use crate::fault::HttpFault;
use hy_base::NoMemory;
use std::alloc::Global;

/// A head that a block can be.
pub trait Head: Sized + Drop {
    /// What a block comes to.
    ghost comes_to: { List ℕ → Result Self HttpFault → Type 0 };

    /// How many bytes of body a head announces.
    ghost size: { Self → ℕ };

    /// Reads the head that is the block.
    fn read(alloc: Global, block: &[u8]) -> Result<Self, HttpFault>
        requires { length block.now ≤ MAX_HEAD }
        ensures comes { result ≢ Err faults.NoMemory → comes_to block.now result }
        ensures uncut { (have want : ℕ) → result ≢ Err (faults.Cut have want) };

    /// How many bytes of body it announces.
    fn body_size(&self) -> usize
        ensures { result ≡ size self.now };
}

/// How far a message has come.
#[derive(Debug, Drop)]
pub enum Progress<H> {
    /// The block is not whole: its bytes so far.
    Head(Bytes),
    /// The head, and the bytes of the body so far, which is whole where they are as many as the head
    /// announces.
    Body(H, Bytes),
    /// The message was given.
    Given,
    /// This fault was answered.
    Broken(HttpFault),
}

/// Takes a piece; where memory runs out, all is as before.
pub(crate) fn fed<H: Head>(
    alloc: Global,
    progress: Progress<H>,
    piece: &[u8],
) -> Result<Progress<H>, Progress<H>>
    ensures sound { IsSound progress → IfOk result IsSound }
    ensures open { IsOpen progress → IfOk result IsOpen }
    ensures broken { ¬ (IsLive progress) → IfOk result (λ after. after ≡ progress) }
    ensures stands { MatchResult result
        (λ after. IsLive progress → (bytes : List ℕ) → IsAt H.comes_to H.size bytes progress
        → IsAt H.comes_to H.size (bytes ++ piece.now) after)
        (λ after. after ≡ progress) }
{
    match progress {
        Progress::Head(front) => match in_head(alloc, front, piece) {
            Ok(after) => Ok(after),
            Err(front) => Err(Progress::Head(front)),
        },
        Progress::Body(head, body) => match in_body(head, body, piece) {
            Ok((head, body)) => Ok(Progress::Body(head, body)),
            Err((head, body)) => Err(Progress::Body(head, body)),
        },
        Progress::Given => Ok(Progress::Given),
        Progress::Broken(fault) => Ok(Progress::Broken(fault)),
    }
}

/// Takes a piece of the block, and where the block ends in it, a piece of the body.
fn in_head<H: Head>(alloc: Global, front: Bytes, piece: &[u8]) -> Result<Progress<H>, Bytes>
    ensures sound { IfOk result IsSound }
    ensures open { IfOk result IsOpen }
    ensures stands { MatchResult result
        (λ after. HasNoBlock front → IsAt H.comes_to H.size (front ++ piece.now) after)
        (λ after. after ≡ front) }
{
    let mut front = front;
    let had = front.get().len();
    let near = &piece[..piece.len().min(MAX_HEAD.saturating_sub(had))];
    match end_in(front.get(), near) {
        Some(end) => match front.push(&piece[..end]) {
            Ok(()) => with_block(alloc, front, had, &piece[end..]),
            Err(NoMemory) => Err(front),
        },
        None if had + near.len() >= MAX_HEAD => Ok(Progress::Broken(HttpFault::HeadTooLong)),
        None => match front.push(near) {
            Ok(()) => Ok(Progress::Head(front)),
            Err(NoMemory) => Err(front),
        },
    }
}

/// Reads the head that is the block, and takes a piece of its body; else gives back what came before
/// the last piece.
fn with_block<H: Head>(
    alloc: Global,
    block: Bytes,
    had: usize,
    piece: &[u8],
) -> Result<Progress<H>, Bytes>
    requires { length block ≤ MAX_HEAD }
    ensures sound { IfOk result IsSound }
    ensures open { IfOk result IsOpen }
    ensures begins { MatchResult result
        (Begins H.comes_to H.size block piece.now)
        (λ after. after ≡ take had block) }
{
    let mut block = block;
    match begun(alloc, block.get(), piece) {
        Ok(progress) => Ok(progress),
        Err(NoMemory) => {
            block.truncate(had);
            Err(block)
        }
    }
}

/// What the block comes to, with a piece of the body.
fn begun<H: Head>(alloc: Global, block: &[u8], piece: &[u8]) -> Result<Progress<H>, NoMemory>
    requires { length block.now ≤ MAX_HEAD }
    ensures sound { IfOk result IsSound }
    ensures open { IfOk result IsOpen }
    ensures begins { IfOk result (Begins H.comes_to H.size block.now piece.now) }
{
    match H::read(alloc, block) {
        Ok(head) => {
            let size = head.body_size();
            let front = &piece[..piece.len().min(size)];
            let body = Bytes::with_room(alloc, size, front)?;
            Ok(Progress::Body(head, body))
        }
        Err(HttpFault::NoMemory) => Err(NoMemory),
        Err(fault) => Ok(Progress::Broken(fault)),
    }
}

/// Takes a piece of the body.
fn in_body<H: Head>(head: H, body: Bytes, piece: &[u8]) -> Result<(H, Bytes), (H, Bytes)>
    ensures { MatchResult result
        (λ after. (after.0 ≡ head)
        × (length body ≤ H.size head → after.1 ≡ take (H.size head) (body ++ piece.now)))
        (λ after. (after.0 ≡ head) × (after.1 ≡ body)) }
{
    let mut body = body;
    let due = head.body_size().saturating_sub(body.get().len());
    match body.push(&piece[..piece.len().min(due)]) {
        Ok(()) => Ok((head, body)),
        Err(NoMemory) => Err((head, body)),
    }
}

/// The peer closed: a message that is not whole is cut.
pub(crate) fn ended<H: Head>(progress: Progress<H>) -> Progress<H>
    ensures value { result ≡ after_end H.size progress }
    ensures stands { (bytes : List ℕ) → IsAt H.comes_to H.size bytes progress
        → IsAt H.comes_to H.size bytes result }
{
    match progress {
        Progress::Head(front) => { Progress::Broken(HttpFault::Cut(front.get().len() as u64, 0)) }
        Progress::Body(head, body) => {
            let have = body.get().len();
            let want = head.body_size();
            if have < want {
                Progress::Broken(HttpFault::Cut(have as u64, want as u64))
            } else {
                Progress::Body(head, body)
            }
        }
        Progress::Given => Progress::Given,
        Progress::Broken(fault) => Progress::Broken(fault),
    }
}

/// The fault that was answered, if there is one.
pub(crate) fn answer<H>(progress: &Progress<H>) -> Result<(), HttpFault>
    ensures { result ≡ answer_of progress.now }
{
    match progress {
        Progress::Broken(fault) => Err(*fault),
        Progress::Head(_) | Progress::Body(_, _) | Progress::Given => Ok(()),
    }
}

/// The head and the body of a message that is whole; else the message is as before.
pub(crate) fn whole<H: Head>(progress: Progress<H>) -> Result<(H, Vec<u8>), Progress<H>>
    ensures whole { IfOk result
        (λ m. (progress ≡ stages.Body m.0 m.1.items) × (H.size m.0 ≤ length m.1.items)) }
    ensures not_whole { IfErr result
        (λ after. (after ≡ progress) × IsUnfinished H.size progress) }
{
    match progress {
        Progress::Body(head, body) => {
            if body.get().len() < head.body_size() {
                Err(Progress::Body(head, body))
            } else {
                Ok((head, body.into_vec()))
            }
        }
        other => Err(other),
    }
}
