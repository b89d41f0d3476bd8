//! A cloud's server: what it keeps of its connections, and how it answers.

ghost use Rattle.std.specs.Prelude.{◌≡◌, ℕ, length, IfOk, OnOk};
ghost use Rattle.hy_base.specs.Moves.{came, InBuffer};
ghost use Rattle.hy_cwire.specs.Writing.{IsSendableSay};
ghost use Rattle.hy_serve.specs.Answer.{requests_of};
ghost use Rattle.hy_serve.specs.CloudRole.{CloudState, IsIdle, opened, closed, cloud_begun, answer_on};
ghost use Rattle.hy_serve.specs.CloudStanding.{StandsFor, Reacts, SetsLine, ReadsAt, Replies, IsSome, IsSmall, IsStocked};

use crate::answer::Answer;
use crate::cloud_lines::{Reading, read_on};
use hy_base::{Arrival, NoMemory};
use hy_cloud::Cloud;
use hy_cwire::{AskReader, status_for, write_say};
use hy_record::CloudSay;
use std::alloc::Global;
use std::collections::BTreeMap;

/// The connections that were ever opened, each with its request while it asks, and the objects.
#[derive(Drop)]
pub(crate) struct CloudServer {
    lines: BTreeMap<u32, Option<AskReader>>,
    cloud: Cloud,
}

impl CloudServer {
    /// No connection was opened, and nothing is held.
    pub(crate) fn new(alloc: Global) -> Result<CloudServer, NoMemory>
        ensures { IfOk result (λ server. (port arrivals : ℕ)
            → StandsFor server (cloud_begun port arrivals)) }
    {
        let cloud = Cloud::new(alloc)?;
        Ok(CloudServer {
            lines: BTreeMap::new(alloc),
            cloud,
        })
    }

    /// Takes what came, and gives the answer that is due.
    pub(crate) fn react(
        &mut self,
        alloc: Global,
        arrival: Arrival,
        buf: &[u8],
    ) -> Result<Option<Answer>, NoMemory>
        requires within { InBuffer (length buf.now) arrival }
        requires stands { IsSome self.old }
        ensures reacts { IfOk result (λ answer. (state : CloudState) → IsIdle state
            → StandsFor self.old state → Reacts state (came arrival buf.now) self.new answer) }
        ensures stands { OnOk result (IsSome self.new) }
    {
        match arrival {
            Arrival::Opened(conn) => {
                self.open(alloc, conn)?;
                Ok(None)
            }
            Arrival::Bytes(conn, count) => {
                let reading = self.read(alloc, conn, &buf[..count])?;
                self.answer(alloc, conn, reading)
            }
            Arrival::Closed(conn) => {
                self.close(conn);
                Ok(None)
            }
            Arrival::Quiet => Ok(None),
        }
    }

    /// A connection opens, where its number is new.
    fn open(&mut self, alloc: Global, conn: u32) -> Result<(), NoMemory>
        ensures { OnOk result (SetsLine self.old self.new conn opened) }
    {
        if !self.lines.contains_key(&conn) {
            let reader = AskReader::new(alloc)?;
            self.lines.insert(conn, Some(reader))?;
        }
        Ok(())
    }

    /// A connection counts no more.
    fn close(&mut self, conn: u32)
        ensures { SetsLine self.old self.new conn closed }
    {
        if let Some(line) = self.lines.get_mut(&conn) {
            *line = None;
        }
    }

    /// The bytes of a connection go on.
    fn read(&mut self, alloc: Global, conn: u32, piece: &[u8]) -> Result<Reading, NoMemory>
        ensures { IfOk result (ReadsAt self.old self.new conn piece.now) }
    {
        match self.lines.get_mut(&conn) {
            Some(line) => read_on(line, alloc, piece),
            None => Ok(Reading::Partial),
        }
    }

    /// The answer to what was read.
    fn answer(
        &mut self,
        alloc: Global,
        conn: u32,
        reading: Reading,
    ) -> Result<Option<Answer>, NoMemory>
        requires small { IsSmall reading }
        requires stocked { IsStocked self.old.cloud }
        ensures { IfOk result (Replies self.old self.new conn reading) }
    {
        match reading {
            Reading::Partial => Ok(None),
            Reading::Asks(wish) => {
                let say = self.cloud.serve(alloc, &wish)?;
                answer_with(alloc, conn, &say)
            }
            Reading::Wrong(fault) => {
                answer_with(alloc, conn, &CloudSay::Bad(status_for(&fault)))
            }
        }
    }
}

/// The answer, in its bytes.
fn answer_with(alloc: Global, conn: u32, say: &CloudSay) -> Result<Option<Answer>, NoMemory>
    requires { IsSendableSay say.now }
    ensures { IfOk result (λ answer. requests_of answer ≡ answer_on conn say.now) }
{
    let bytes = write_say(alloc, say)?;
    Ok(Some(Answer { conn, bytes }))
}
