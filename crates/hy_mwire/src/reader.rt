//! A reader of frames, which is fed a stream piece by piece.

ghost use Rattle.std.specs.Prelude.{◌≡◌, ◌≢◌, ◌++◌, ℕ, List, [], Err, None, IfOk, length};
ghost use Rattle.hy_mwire.specs.declared.fault.FrameFault.TheVariants as faults;
ghost use Rattle.hy_mwire.specs.declared.message.Message.{Message};
ghost use Rattle.hy_mwire.specs.Front.{front_at};
ghost use Rattle.hy_mwire.specs.Seen.{Sees, IsWithin};
ghost use Rattle.hy_mwire.specs.HeldStream.{IsReady};
ghost use Rattle.hy_mwire.specs.Stream.{fresh_stream, with_piece, judged_stream, fed_answer, next_answer, after_next, said_in, StandsFor};

use crate::fault::FrameFault;
use crate::front::{Front, front_of};
use crate::message::Message;
use crate::unread::Unread;
use hy_base::NoMemory;
use std::alloc::Global;
use std::marker::Model;

/// A stream of frames, of which the messages in front were given.
///
/// Each frame is read once, when it is whole, and each byte is moved at most twice.
#[derive(Debug, Drop)]
pub struct Reader {
    unread: Unread,
    place: u64,
    ready: Option<Ready>,
    answered: Option<FrameFault>,
}

/// A message that was read and not given yet, and the bytes of its frame.
#[derive(Debug, Drop)]
struct Ready {
    message: Message,
    size: usize,
}

impl Model for Reader {
    ghost use Rattle.hy_mwire.specs.Stream.{Unread};

    ghost Value = { Unread };

    ghost use Rattle.hy_mwire.specs.HeldStream.{unread_of, IsHeldStream};

    ghost view = { unread_of };

    ghost invariant = { IsHeldStream };
}

impl Reader {
    /// A reader of a stream that has not begun.
    pub fn new(alloc: Global) -> Result<Reader, NoMemory>
        ensures fresh { IfOk result (λ reader. reader ≡ fresh_stream) }
        ensures stands { IfOk result (StandsFor [] []) }
    {
        Ok(Reader {
            unread: Unread::new(alloc),
            place: 0,
            ready: None,
            answered: None,
        })
    }

    /// Takes a piece of the stream, unless a fault was answered before. A fault that stands in front is then answered, and from then on.
    pub fn feed(&mut self, alloc: Global, piece: &[u8]) -> Result<(), FrameFault>
        ensures answer { result ≢ Err faults.NoMemory → result ≡ fed_answer (judged_stream (with_piece self.old piece.now)).answered }
        ensures after { result ≢ Err faults.NoMemory → self.new ≡ judged_stream (with_piece self.old piece.now) }
        ensures stands { result ≢ Err faults.NoMemory → self.old.answered ≡ None → (taken : List ℕ) (said : List Message)
            → StandsFor taken said self.old → StandsFor (taken ++ piece.now) said self.new }
        ensures memory { result ≡ Err faults.NoMemory → self.new ≡ self.old }
    {
        if let Some(fault) = self.answered {
            return Err(fault);
        }
        let had = self.unread.bytes().len();
        self.unread.push(piece)?;
        match front_unless_ready(alloc, &mut self.ready, self.place, self.unread.bytes()) {
            Ok(Front::Partial) => Ok(()),
            Ok(Front::Message(message, size)) => {
                self.ready = Some(Ready { message, size });
                Ok(())
            }
            Ok(Front::Fault(fault)) => {
                self.answered = Some(fault);
                Err(fault)
            }
            Err(NoMemory) => {
                self.unread.truncate(had);
                Err(FrameFault::NoMemory)
            }
        }
    }

    /// The next message; none where no fault stands and the bytes that are left are no whole frame.
    pub fn next(&mut self, alloc: Global) -> Result<Option<Message>, FrameFault>
        ensures answer { result ≢ Err faults.NoMemory → result ≡ next_answer self.old }
        ensures after { result ≢ Err faults.NoMemory → self.new ≡ after_next self.old }
        ensures stands { (taken : List ℕ) (said : List Message) → StandsFor taken said self.old → StandsFor taken (said ++ said_in result) self.new }
        ensures memory { result ≡ Err faults.NoMemory → self.new ≡ self.old }
    {
        if let Some(fault) = self.answered {
            return Err(fault);
        }
        match front_unless_ready(alloc, &mut self.ready, self.place, self.unread.bytes())? {
            Front::Partial => Ok(None),
            Front::Message(message, size) => {
                self.unread.read(size);
                self.place = self.place.saturating_add(size as u64);
                Ok(Some(message))
            }
            Front::Fault(fault) => {
                self.answered = Some(fault);
                Err(fault)
            }
        }
    }

    /// The bytes that were taken and that no message given has.
    pub fn left(&self) -> usize
        ensures { result ≡ length self.now.rest }
    {
        self.unread.bytes().len()
    }
}

/// What stands in front: the message that is ready, or what is read now.
fn front_unless_ready(
    alloc: Global,
    ready: &mut Option<Ready>,
    place: u64,
    bytes: &[u8],
) -> Result<Front, NoMemory>
    requires { IsReady (front_at place bytes.now) ready.old }
    ensures front { IfOk result (Sees (front_at place bytes.now)) }
    ensures within { IfOk result (IsWithin (length bytes.now)) }
    ensures none { ready.new ≡ None }
{
    match ready.take() {
        Some(ready) => Ok(Front::Message(ready.message, ready.size)),
        None => front_of(alloc, place, bytes),
    }
}
