//! The metadata server: what it keeps of its connections and sessions, and how it answers.

ghost use Rattle.std.specs.Prelude.{◌≡◌, ◌∷◌, ◌++◌, [], ℕ, length, All, IfOk, OnOk};
ghost use Rattle.hy_base.specs.Moves.{came, to_send, InBuffer};
ghost use Rattle.hy_mwire.specs.Frames.{frame_of};
ghost use Rattle.hy_mwire.specs.Message.{IsFramedAsk, IsFramedSay, IsSendable};
ghost use Rattle.hy_meta.specs.Run.{addressee_of};
ghost use Rattle.hy_serve.specs.MetaRole.{opened, closed, fed, in_session, is_talking, next_step, next_line, meta_begun, letter_to, letters_for};
ghost use Rattle.hy_serve.specs.MetaStanding.{line_of, home_of, StandsFor, SetsLine, TakesIn, Answers, ReadsNext, SendsAll, weight_at, Falls, requests_for, IsFramedStep};
ghost use Rattle.hy_serve.specs.declared.letter.Turn.TheVariants as turns;
ghost use Rattle.hy_serve.specs.declared.meta_lines.Step.TheVariants as steps;

use crate::letter::{Letter, Turn};
use crate::meta_lines::{MetaLine, Session, Step, addressee, feed, is_framed, read, set_session};
use hy_base::{Arrival, NoMemory};
use hy_meta::{Meta, Service, SessionsFull};
use hy_mwire::{Message, Reader, encode};
use hy_record::{MetaAsk, MetaSay};
use std::alloc::Global;
use std::collections::BTreeMap;

/// The connections that were ever opened, each with its session and stream while it is open, the
/// connection on which each client joined, and the service.
#[derive(Drop)]
pub(crate) struct MetaServer {
    lines: BTreeMap<u32, Option<MetaLine>>,
    homes: BTreeMap<u32, u32>,
    service: Service,
}

impl MetaServer {
    /// No connection was opened, and nothing was served.
    pub(crate) fn new(alloc: Global) -> Result<MetaServer, NoMemory>
        ensures { IfOk result (λ server. (port arrivals : ℕ)
            → StandsFor server (meta_begun port arrivals)) }
    {
        let service = Service::new(alloc)?;
        Ok(MetaServer {
            lines: BTreeMap::new(alloc),
            homes: BTreeMap::new(alloc),
            service,
        })
    }

    /// Takes what came, and answers the connection that is to be read, if there is one.
    pub(crate) fn take(
        &mut self,
        alloc: Global,
        arrival: Arrival,
        buf: &[u8],
    ) -> Result<Option<u32>, NoMemory>
        requires { InBuffer (length buf.now) arrival }
        ensures { IfOk result (TakesIn self.old self.new (came arrival buf.now)) }
    {
        match arrival {
            Arrival::Opened(conn) => {
                self.open(alloc, conn)?;
                Ok(None)
            }
            Arrival::Bytes(conn, count) => {
                self.feed(alloc, conn, &buf[..count])?;
                Ok(Some(conn))
            }
            Arrival::Closed(conn) => {
                self.close(conn);
                Ok(None)
            }
            Arrival::Quiet => Ok(None),
        }
    }

    /// Reads what comes next on the connection, and answers what is to be done.
    pub(crate) fn turn(&mut self, alloc: Global, conn: u32) -> Result<Turn, NoMemory>
        ensures reads { IfOk result (ReadsNext self.old self.new conn) }
        ensures falls { IfOk result (Falls self.old self.new conn) }
    {
        let step = self.read(alloc, conn)?;
        self.answer(alloc, conn, step)
    }

    /// Whether bytes can be sent on the connection.
    pub(crate) fn is_open(&self, conn: u32) -> bool
        ensures { result ≡ is_talking (line_of self.now conn) }
    {
        match self.lines.get(&conn) {
            Some(line) => line.is_some(),
            None => false,
        }
    }

    /// A connection counts no more.
    pub(crate) fn close(&mut self, conn: u32)
        ensures { SetsLine self.old self.new conn (closed (line_of self.old conn)) }
    {
        if let Some(line) = self.lines.get_mut(&conn) {
            *line = None;
        }
    }

    /// A connection opens, where its number is new.
    fn open(&mut self, alloc: Global, conn: u32) -> Result<(), NoMemory>
        ensures { OnOk result (SetsLine self.old self.new conn (opened (line_of self.old conn))) }
    {
        if !self.lines.contains_key(&conn) {
            let reader = Reader::new(alloc)?;
            let session = Session::Unasked;
            self.lines.insert(conn, Some(MetaLine { session, reader }))?;
        }
        Ok(())
    }

    /// The bytes of a connection go on.
    fn feed(&mut self, alloc: Global, conn: u32, piece: &[u8]) -> Result<(), NoMemory>
        ensures { OnOk result
            (SetsLine self.old self.new conn (fed piece.now (line_of self.old conn))) }
    {
        match self.lines.get_mut(&conn) {
            Some(line) => feed(line, alloc, piece),
            None => Ok(()),
        }
    }

    /// What comes next on a connection.
    fn read(&mut self, alloc: Global, conn: u32) -> Result<Step, NoMemory>
        ensures step { IfOk result (λ step. step ≡ next_step (line_of self.old conn)) }
        ensures line { OnOk result
            (SetsLine self.old self.new conn (next_line (line_of self.old conn))) }
    {
        match self.lines.get_mut(&conn) {
            Some(line) => read(line, alloc),
            None => Ok(Step::Waits),
        }
    }

    /// The session of an open connection is this now.
    fn set_session(&mut self, conn: u32, session: Session)
        ensures { SetsLine self.old self.new conn (in_session session (line_of self.old conn)) }
    {
        match self.lines.get_mut(&conn) {
            Some(line) => set_session(line, session),
            None => {}
        }
    }

    /// What is to be done at what came next on the connection.
    fn answer(&mut self, alloc: Global, conn: u32, step: Step) -> Result<Turn, NoMemory>
        requires { IsFramedStep step }
        ensures answers { IfOk result (Answers self.old self.new conn step) }
        ensures rests { IfOk result (λ turn. step ≡ steps.Waits → turn ≡ turns.Rests) }
        ensures weights { OnOk result ((c : ℕ) → weight_at self.new c ≡ weight_at self.old c) }
    {
        match step {
            Step::Waits => Ok(Turn::Rests),
            Step::Ends => Ok(Turn::Closes),
            Step::Joins => self.join(alloc, conn),
            Step::Asks(ask) => self.serve(alloc, ask),
        }
    }

    /// A client joins, if a session is left.
    fn join(&mut self, alloc: Global, conn: u32) -> Result<Turn, NoMemory>
        ensures answers { IfOk result (Answers self.old self.new conn steps.Joins) }
        ensures weights { OnOk result ((c : ℕ) → weight_at self.new c ≡ weight_at self.old c) }
    {
        match self.service.join() {
            Ok(client) => {
                self.homes.insert(client, conn)?;
                self.set_session(conn, Session::Of(client));
                letter(alloc, conn, &Message::Joined { client })
            }
            Err(SessionsFull) => {
                self.set_session(conn, Session::Refused);
                letter(alloc, conn, &Message::Full)
            }
        }
    }

    /// Serves a request. Its answers go to their clients.
    fn serve(&mut self, alloc: Global, ask: MetaAsk) -> Result<Turn, NoMemory>
        requires { IsFramedAsk ask }
        ensures answers { IfOk result (λ turn. (conn : ℕ)
            → Answers self.old self.new conn (steps.Asks ask) turn) }
        ensures lines { self.new.lines ≡ self.old.lines }
    {
        let says = self.service.serve(alloc, &ask)?;
        let letters = self.letters(alloc, says)?;
        Ok(Turn::Sends(letters))
    }

    /// The messages, each to the connection on which its client joined.
    fn letters(&self, alloc: Global, says: Vec<MetaSay>) -> Result<Vec<Letter>, NoMemory>
        ensures { IfOk result (λ letters. All IsFramedSay says.items
            → requests_for letters.items ≡ letters_for (home_of self.now) says.items) }
    {
        let mut letters = Vec::new(alloc);
        for say in says {
            self.post(alloc, &mut letters, say)?;
        }
        Ok(letters)
    }

    /// One more message, if a frame carries it.
    fn post(&self, alloc: Global, letters: &mut Vec<Letter>, say: MetaSay) -> Result<(), NoMemory>
        ensures { OnOk result (IsFramedSay say
            → requests_for letters.new.items ≡ requests_for letters.old.items
            ++ letter_to (home_of self.now (addressee_of say).client) say) }
    {
        if !is_framed(&say) {
            return Ok(());
        }
        self.post_framed(alloc, letters, say)?;
        Ok(())
    }

    /// One more message, to the connection on which its client joined.
    fn post_framed(
        &self,
        alloc: Global,
        letters: &mut Vec<Letter>,
        say: MetaSay,
    ) -> Result<(), NoMemory>
        requires { IsFramedSay say }
        ensures { OnOk result (requests_for letters.new.items ≡ requests_for letters.old.items
            ++ letter_to (home_of self.now (addressee_of say).client) say) }
    {
        if let Some(conn) = self.homes.get(&addressee(&say)) {
            let conn = *conn;
            let bytes = encode(alloc, &Message::Say(say))?;
            letters.push(Letter { conn, bytes })?;
        }
        Ok(())
    }
}

/// The frame of a message, as all that is to be sent.
fn letter(alloc: Global, conn: u32, message: &Message) -> Result<Turn, NoMemory>
    requires { IsSendable message.now }
    ensures { IfOk result (λ turn. SendsAll turn (to_send conn (frame_of message.now) ∷ [])) }
{
    let bytes = encode(alloc, message)?;
    Ok(Turn::Sends(vec![in alloc; Letter { conn, bytes }]?))
}
