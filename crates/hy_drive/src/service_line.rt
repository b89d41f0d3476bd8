//! The connection to the metadata service, and the messages that come on it.

ghost use Rattle.std.specs.Prelude.{◌≡◌, ◌≢◌, [], Some, IfOk, OnOk};
ghost use Rattle.hy_mwire.specs.declared.fault.FrameFault.TheVariants as faults;
ghost use Rattle.hy_drive.specs.Held.{HoldsService, Hears, Reads, StreamsOn};
ghost use Rattle.hy_drive.specs.State.{live};
ghost use Rattle.hy_drive.specs.declared.service_line.News.TheVariants as news;

use hy_base::NoMemory;
use hy_mwire::{FrameFault, Message, Reader};
use std::alloc::Global;

/// The connection, and its stream of frames.
#[derive(Debug, Drop)]
pub(crate) struct ServiceLine {
    pub(crate) conn: u32,
    pub(crate) reader: Reader,
}

/// What stands in front of a stream.
#[derive(Debug, Drop)]
pub(crate) enum News {
    /// No whole frame.
    Nothing,
    Said(Message),
    Wrong(FrameFault),
}

impl ServiceLine {
    /// A connection on which nothing came.
    pub(crate) fn new(alloc: Global, conn: u32) -> Result<ServiceLine, NoMemory>
        ensures { IfOk result (λ line. HoldsService (Some line) (live conn [] 0)) }
    {
        let reader = Reader::new(alloc)?;
        Ok(ServiceLine { conn, reader })
    }

    /// The stream goes on. A fault of it is told when it is read.
    fn feed(&mut self, alloc: Global, piece: &[u8]) -> Result<(), NoMemory>
        ensures { OnOk result (StreamsOn (Some self.old) (Some self.new) piece.now) }
    {
        match self.reader.feed(alloc, piece) {
            Ok(()) => Ok(()),
            Err(fault) => unless_memory(fault),
        }
    }

    /// What stands in front; a message is then gone.
    fn read(&mut self, alloc: Global) -> Result<News, NoMemory>
        ensures { IfOk result (Reads self.old self.new) }
    {
        match self.reader.next(alloc) {
            Ok(Some(message)) => Ok(News::Said(message)),
            Ok(None) => Ok(News::Nothing),
            Err(fault) => wrong(fault),
        }
    }
}

/// A fault of the stream is none here, unless it is that memory ran out.
fn unless_memory(fault: FrameFault) -> Result<(), NoMemory>
    ensures { OnOk result (fault ≢ faults.NoMemory) }
{
    match fault {
        FrameFault::NoMemory => Err(NoMemory),
        _ => Ok(()),
    }
}

/// A fault of the stream, unless it is that memory ran out.
fn wrong(fault: FrameFault) -> Result<News, NoMemory>
    ensures { IfOk result (λ told. (told ≡ news.Wrong fault) × (fault ≢ faults.NoMemory)) }
{
    match fault {
        FrameFault::NoMemory => Err(NoMemory),
        fault => Ok(News::Wrong(fault)),
    }
}

/// The stream of the connection goes on, if there is one.
pub(crate) fn feed(
    line: &mut Option<ServiceLine>,
    alloc: Global,
    piece: &[u8],
) -> Result<(), NoMemory>
    ensures { OnOk result (StreamsOn line.old line.new piece.now) }
{
    match line {
        Some(line) => line.feed(alloc, piece),
        None => Ok(()),
    }
}

/// The next message of the connection, if there is one; at a fault there is no connection any more.
pub(crate) fn next_message(
    line: &mut Option<ServiceLine>,
    alloc: Global,
) -> Result<Option<Message>, NoMemory>
    ensures { IfOk result (Hears line.old line.new) }
{
    let Some(held) = line else {
        return Ok(None);
    };
    match held.read(alloc)? {
        News::Nothing => Ok(None),
        News::Said(message) => Ok(Some(message)),
        News::Wrong(_fault) => {
            *line = None;
            Ok(None)
        }
    }
}
