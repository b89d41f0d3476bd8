//! The connections to clouds on which an answer is awaited.

ghost use Rattle.std.specs.Prelude.{◌≡◌, ◌≢◌, Some, IfOk, OnOk};
ghost use Rattle.hy_cwire.specs.declared.fault.HttpFault.TheVariants as faults;
ghost use Rattle.hy_record.specs.declared.cloud.CloudSay.TheVariants as says;
ghost use Rattle.hy_drive.specs.Held.{Awaits, ReadsLine, TakesLine, ReadsReply, ReadsOn, AreNone};

use crate::errand::Errand;
use hy_base::NoMemory;
use hy_cwire::{HttpFault, SayReader, WishKind};
use hy_record::{CloudSay, Cue};
use std::alloc::Global;
use std::collections::BTreeMap;

/// A connection: whom its answer is for, and what came of it.
#[derive(Debug, Drop)]
pub(crate) struct CloudLine {
    pub(crate) errand: Errand,
    pub(crate) reader: SayReader,
}

/// The connections by number.
#[derive(Drop)]
pub(crate) struct CloudLines {
    lines: BTreeMap<u32, CloudLine>,
}

impl CloudLines {
    /// No answer is awaited.
    pub(crate) fn new(alloc: Global) -> CloudLines
        ensures { AreNone result }
    {
        CloudLines {
            lines: BTreeMap::new(alloc),
        }
    }

    /// An answer to a request of this method is awaited on the connection.
    pub(crate) fn wait(
        &mut self,
        alloc: Global,
        conn: u32,
        errand: Errand,
        asked: WishKind,
    ) -> Result<(), NoMemory>
        ensures { OnOk result (Awaits self.old self.new conn errand asked) }
    {
        let reader = SayReader::new(alloc, asked)?;
        self.lines.insert(conn, CloudLine { errand, reader })?;
        Ok(())
    }

    /// Takes a piece of the answer on the connection: the answer, when it is whole, or that it
    /// could not be read. The connection counts no more then.
    pub(crate) fn read(
        &mut self,
        alloc: Global,
        conn: u32,
        piece: &[u8],
    ) -> Result<Option<Cue>, NoMemory>
        ensures { IfOk result (ReadsOn self.old self.new conn piece.now) }
    {
        match self.read_line(alloc, conn, piece)? {
            Some(say) => Ok(self.take(conn, say)),
            None => Ok(None),
        }
    }

    /// The answer on the connection goes on.
    fn read_line(
        &mut self,
        alloc: Global,
        conn: u32,
        piece: &[u8],
    ) -> Result<Option<CloudSay>, NoMemory>
        ensures { IfOk result (ReadsLine self.old self.new conn piece.now) }
    {
        match self.lines.get_mut(&conn) {
            Some(line) => line.read(alloc, piece),
            None => Ok(None),
        }
    }

    /// The connection counts no more: its answer, if one was awaited on it.
    pub(crate) fn take(&mut self, conn: u32, say: CloudSay) -> Option<Cue>
        ensures { TakesLine self.old self.new conn say result }
    {
        match self.lines.remove(&conn) {
            Some(line) => Some(line.errand.answer(say)),
            None => None,
        }
    }
}

impl CloudLine {
    /// Takes a piece of the answer.
    fn read(&mut self, alloc: Global, piece: &[u8]) -> Result<Option<CloudSay>, NoMemory>
        ensures errand { self.new.errand ≡ self.old.errand }
        ensures reads { IfOk result (ReadsReply self.old.reader self.new.reader piece.now) }
    {
        read(&mut self.reader, alloc, piece)
    }
}

/// Takes a piece of an answer. A fault of it is an answer that could not be read.
fn read(reader: &mut SayReader, alloc: Global, piece: &[u8]) -> Result<Option<CloudSay>, NoMemory>
    ensures { IfOk result (ReadsReply reader.old reader.new piece.now) }
{
    match reader.feed(alloc, piece) {
        Ok(()) => match reader.next() {
            Ok(Some(say)) => Ok(Some(say)),
            Ok(None) => Ok(None),
            Err(fault) => unreadable(fault),
        },
        Err(fault) => unreadable(fault),
    }
}

/// An answer that could not be read, unless it is that memory ran out.
fn unreadable(fault: HttpFault) -> Result<Option<CloudSay>, NoMemory>
    ensures { IfOk result
        (λ say. (say ≡ Some (says.Bad 0)) × (fault ≢ faults.NoMemory)) }
{
    match fault {
        HttpFault::NoMemory => Err(NoMemory),
        _ => Ok(Some(CloudSay::Bad(0))),
    }
}
