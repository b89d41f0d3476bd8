//! The machine of a client over a net: what it keeps, what an arrival does to it, and what it does
//! next.

ghost use Rattle.std.specs.Prelude.{◌≡◌, ◌≤◌, ℕ, [], None, length, IfOk, OnOk};
ghost use Rattle.hy_base.specs.declared.arrival.Arrived.TheVariants as came_as;
ghost use Rattle.hy_mwire.specs.Message.{IsMessage};
ghost use Rattle.hy_base.specs.Moves.{came, InBuffer};
ghost use Rattle.hy_base.specs.Shape.{IsShape};
ghost use Rattle.hy_drive.specs.Role.{IsDrivable};
ghost use Rattle.hy_drive.specs.declared.job.Job.{Job as JobValue};
ghost use Rattle.hy_drive.specs.State.{DriveState, IsFree};
ghost use Rattle.hy_drive.specs.Standing.{StandsFor, IsHeld};
ghost use Rattle.hy_drive.specs.Stepping.{joined_state, is_service_of, IsOfNewClient, Refused, Takes, Follows, Hands, Tells, Begins, HearsAnswer, HearsSession, HasService, Counts, Awaited, Lost};

use crate::cloud_lines::CloudLines;
use crate::errand::Errand;
use crate::fault::DriveFault;
use crate::job::Job;
use crate::service_line::{ServiceLine, feed, next_message};
use hy_base::{Arrival, NoMemory};
use hy_client::{Client, InvokeFault};
use hy_cwire::WishKind;
use hy_mwire::Message;
use hy_record::{CloudSay, Cue, Out, Reply, Turn};
use std::alloc::Global;
use std::collections::VecDeque;

/// The connections, the client from its Joined on, the messages that are due to be sent, and the
/// inputs that are due to be handed to the client.
#[derive(Drop)]
pub(crate) struct Driver {
    service: Option<ServiceLine>,
    lines: CloudLines,
    client: Option<Client>,
    sends: VecDeque<Out>,
    inputs: VecDeque<Cue>,
}

/// What is to be done next.
#[derive(Drop)]
pub(crate) enum Next {
    /// The message is sent.
    Send(Out),
    /// Something was done, and more may follow.
    Again,
    /// Nothing is to be done but to wait.
    Idle,
    /// The operation has its reply.
    Replied(Reply),
}

impl Driver {
    /// Join was sent on this connection.
    pub(crate) fn new(alloc: Global, conn: u32) -> Result<Driver, NoMemory>
        ensures { IfOk result (λ driver. (job : JobValue) (arrivals : ℕ)
            → StandsFor job driver (joined_state arrivals conn)) }
    {
        let service = ServiceLine::new(alloc, conn)?;
        Ok(Driver {
            service: Some(service),
            lines: CloudLines::new(alloc),
            client: None,
            sends: VecDeque::new(alloc),
            inputs: VecDeque::new(alloc),
        })
    }

    /// Takes what came: the connection that is to be closed, if one gave its answer.
    pub(crate) fn take(
        &mut self,
        alloc: Global,
        arrival: Arrival,
        buf: &[u8],
    ) -> Result<Option<u32>, NoMemory>
        requires { InBuffer (length buf.now) arrival }
        ensures { IfOk result (Takes self.old self.new (came arrival buf.now)) }
    {
        match arrival {
            Arrival::Opened(_conn) => Ok(None),
            Arrival::Bytes(conn, count) => self.read(alloc, conn, &buf[..count]),
            Arrival::Closed(conn) => {
                self.close(conn)?;
                Ok(None)
            }
            Arrival::Quiet => {
                self.tick()?;
                Ok(None)
            }
        }
    }

    /// The connection is that to the service.
    fn is_service(&self, conn: u32) -> bool
        ensures { result ≡ is_service_of self.now.service conn }
    {
        match &self.service {
            Some(line) => line.conn == conn,
            None => false,
        }
    }

    /// The bytes of a connection go on.
    fn read(&mut self, alloc: Global, conn: u32, piece: &[u8]) -> Result<Option<u32>, NoMemory>
        ensures { IfOk result (Takes self.old self.new (came_as.Bytes conn piece.now)) }
    {
        if self.is_service(conn) {
            feed(&mut self.service, alloc, piece)?;
            return Ok(None);
        }
        match self.lines.read(alloc, conn, piece)? {
            Some(input) => {
                self.inputs.push_back(input)?;
                Ok(Some(conn))
            }
            None => Ok(None),
        }
    }

    /// A connection counts no more. A request whose answer was not whole has one that could not be
    /// had.
    fn close(&mut self, conn: u32) -> Result<(), NoMemory>
        ensures { OnOk result (Takes self.old self.new (came_as.Closed conn) None) }
    {
        if self.is_service(conn) {
            self.service = None;
            return Ok(());
        }
        match self.lines.take(conn, CloudSay::Bad(0)) {
            Some(input) => {
                self.inputs.push_back(input)?;
                Ok(())
            }
            None => Ok(()),
        }
    }

    /// A timeout, from Joined on.
    fn tick(&mut self) -> Result<(), NoMemory>
        ensures { OnOk result (Takes self.old self.new came_as.Quiet None) }
    {
        if self.client.is_some() {
            self.inputs.push_back(Cue::Tick)?;
        }
        Ok(())
    }

    /// What is to be done next: the messages that are due are sent, then the inputs that are due are
    /// handed in, then the next message of the service is heard.
    pub(crate) fn next(&mut self, alloc: Global, job: &Job) -> Result<Next, DriveFault>
        requires shape { IsShape job.now.f job.now.k }
        requires drives { IsDrivable job.now.action }
        requires held { IsHeld self.old }
        ensures { (state : DriveState) → IsFree state → StandsFor job.now self.old state
            → Follows job.now state self.new result }
    {
        match self.sends.pop_front() {
            Some(out) => Ok(Next::Send(out)),
            None => self.after_sends(alloc, job),
        }
    }

    /// The same, where no message is due.
    fn after_sends(&mut self, alloc: Global, job: &Job) -> Result<Next, DriveFault>
        requires shape { IsShape job.now.f job.now.k }
        requires drives { IsDrivable job.now.action }
        requires held { IsHeld self.old }
        ensures { (state : DriveState) → IsFree state → state.sends ≡ []
            → StandsFor job.now self.old state → Follows job.now state self.new result }
    {
        match self.inputs.pop_front() {
            Some(input) => self.hand(alloc, &input),
            None => self.listen(alloc, job),
        }
    }

    /// The input is handed to the client.
    fn hand(&mut self, alloc: Global, input: &Cue) -> Result<Next, DriveFault>
        ensures { (job : JobValue) → IsShape job.f job.k → Hands job self.old self.new input.now result }
    {
        match &mut self.client {
            Some(client) => {
                let Turn { sends, reply } = client.step(alloc, input)?;
                match reply {
                    Some(reply) => Ok(Next::Replied(reply)),
                    None => {
                        self.sends = VecDeque::from(sends.into_items());
                        Ok(Next::Again)
                    }
                }
            }
            None => Ok(Next::Again),
        }
    }

    /// The next message of the service is heard, if one is whole.
    fn listen(&mut self, alloc: Global, job: &Job) -> Result<Next, DriveFault>
        requires shape { IsShape job.now.f job.now.k }
        requires drives { IsDrivable job.now.action }
        requires held { IsHeld self.old }
        ensures { (state : DriveState) → IsFree state → state.sends ≡ [] → state.inputs ≡ []
            → StandsFor job.now self.old state → Follows job.now state self.new result }
    {
        match next_message(&mut self.service, alloc)? {
            Some(message) => self.hear(alloc, job, message),
            None => Ok(Next::Idle),
        }
    }

    /// What the message of the service does.
    fn hear(&mut self, alloc: Global, job: &Job, message: Message) -> Result<Next, DriveFault>
        requires shape { IsShape job.now.f job.now.k }
        requires drives { IsDrivable job.now.action }
        requires known { IsMessage message }
        ensures { Tells job.now self.old self.new message result }
    {
        if self.client.is_some() {
            self.hear_answer(message)
        } else {
            self.hear_session(alloc, job, message)
        }
    }

    /// The client takes answers.
    fn hear_answer(&mut self, message: Message) -> Result<Next, DriveFault>
        ensures { HearsAnswer self.old self.new message result }
    {
        match message {
            Message::Say(say) => {
                self.inputs.push_back(Cue::Meta(say))?;
                Ok(Next::Again)
            }
            Message::Join => Ok(Next::Again),
            Message::Joined { client: _ } => Ok(Next::Again),
            Message::Full => Ok(Next::Again),
            Message::Ask(_ask) => Ok(Next::Again),
        }
    }

    /// There is no client: it waits for its number.
    fn hear_session(
        &mut self,
        alloc: Global,
        job: &Job,
        message: Message,
    ) -> Result<Next, DriveFault>
        requires shape { IsShape job.now.f job.now.k }
        requires drives { IsDrivable job.now.action }
        requires known { IsMessage message }
        ensures { HearsSession job.now self.old self.new message result }
    {
        match message {
            Message::Joined { client } => self.begin(alloc, job, client),
            Message::Full => Err(DriveFault::SessionsFull),
            Message::Join => Ok(Next::Again),
            Message::Ask(_ask) => Ok(Next::Again),
            Message::Say(_say) => Ok(Next::Again),
        }
    }

    /// The client of this number begins the job's action.
    fn begin(&mut self, alloc: Global, job: &Job, number: u32) -> Result<Next, DriveFault>
        requires shape { IsShape job.now.f job.now.k }
        requires drives { IsDrivable job.now.action }
        requires known { 1 ≤ number }
        ensures { Begins job.now self.old self.new number result }
    {
        let mut client = Client::new(number, job.f, job.k);
        match client.invoke(alloc, &job.action) {
            Ok(sends) => {
                self.sends = VecDeque::from(sends);
                self.client = Some(client);
                Ok(Next::Again)
            }
            Err(fault) => Err(refusal(fault)),
        }
    }

    /// The connection to the service, while it takes messages.
    pub(crate) fn service(&self) -> Option<u32>
        ensures { HasService self.now result }
    {
        match &self.service {
            Some(line) => Some(line.conn),
            None => None,
        }
    }

    /// An answer to a request of this method is awaited on the connection.
    pub(crate) fn await_answer(
        &mut self,
        alloc: Global,
        conn: u32,
        errand: Errand,
        asked: WishKind,
    ) -> Result<(), NoMemory>
        ensures { OnOk result (Awaited self.old self.new conn errand asked) }
    {
        self.lines.wait(alloc, conn, errand, asked)
    }

    /// The answer to the request could not be had.
    pub(crate) fn lose(&mut self, errand: Errand) -> Result<(), NoMemory>
        ensures { OnOk result (Lost self.old self.new errand) }
    {
        self.inputs.push_back(errand.answer(CloudSay::Bad(0)))?;
        Ok(())
    }

    /// How far the operation is that has no reply.
    pub(crate) fn not_yet(&self) -> DriveFault
        ensures { Counts self.now result }
    {
        let running = match &self.client {
            Some(client) => client.running(),
            None => None,
        };
        match running {
            Some(running) => DriveFault::NotYet {
                have: running.have,
                need: running.need,
            },
            None => DriveFault::NotYet { have: 0, need: 1 },
        }
    }
}

/// Why a new client does not begin the action: its value is too large, or memory ran out.
fn refusal(fault: InvokeFault) -> DriveFault
    requires { IsOfNewClient fault }
    ensures { Refused fault result }
{
    match fault {
        InvokeFault::TooLarge(size) => DriveFault::TooLarge(size),
        InvokeFault::NoMemory => DriveFault::NoMemory,
        InvokeFault::Stopped | InvokeFault::Busy(_) | InvokeFault::WrongKey => unreachable!(),
    }
}
