//! The client.

ghost use Rattle.std.specs.Prelude.{◌≡◌, ◌+◌, ◌<◌, ◌≤◌, IfOk, OnOk, OnErr, IfSome, IfNone, IsOkUnless, Some, None, nat_lt, length, if◌then◌else◌};
ghost use Rattle.hy_base.specs.Shape.{IsShape};
ghost use Rattle.hy_record.specs.declared.turn.Cue.TheVariants as cues;
ghost use Rattle.hy_protocol.specs.Operations.{suits};
ghost use Rattle.hy_client.specs.Sizes.{size_refusal};
ghost use Rattle.hy_client.specs.declared.fault.InvokeFault.TheVariants as faults;

use crate::fault::InvokeFault;
use crate::last::{Last, key_of};
use crate::machine::Machine;
use hy_base::{Blob, MAX_VALUE, NoMemory};
use hy_record::{Action, Cue, Out, Phase, Turn};
use std::alloc::Global;

/// An operation that has no reply: its number, its phase, how much of what it awaits it has, and how much it needs.
#[derive(Clone, Copy, Debug, PartialEq, Eq)]
pub struct Running {
    pub op: u32,
    pub phase: Phase,
    pub have: u32,
    pub need: u32,
}

/// A client: it runs one operation at a time, and stands for a session.
#[derive(Debug, Drop)]
pub struct Client {
    cid: u32,
    f: u8,
    k: u8,
    /// How many operations it began.
    begun: u32,
    /// The last of them.
    last: Option<Last>,
    stopped: bool,
    ghost shape: { IsShape f k },
    ghost known: { 1 ≤ cid },
}

impl Client {
    ghost use Rattle.hy_protocol.specs.Session.{Session, fresh_session, is_running, session_turn, session_after, session_invoked, invoked_sends, session_stopped};
    ghost use Rattle.hy_client.specs.Clients.{StandsForSession, begun_of, invoke_refusal, running_of};

    /// The client of this number, in a store that bears f faulty clouds and cuts values into k parts.
    pub fn new(cid: u32, f: u8, k: u8) -> Client
        requires client { 1 ≤ cid }
        requires shape { IsShape f k }
        ensures stands { StandsForSession result (fresh_session f k cid) }
        ensures begun { begun_of result ≡ 0 }
    {
        Client {
            cid,
            f,
            k,
            begun: 0,
            last: None,
            stopped: false,
        }
    }

    /// Begins an operation, unless the client refuses it: what the operation sends first.
    pub fn invoke(&mut self, alloc: Global, action: &Action) -> Result<Vec<Out>, InvokeFault>
        requires few { begun_of self.old < 4294967295 }
        ensures refused { (s : Session) → StandsForSession self.old s → IfSome (invoke_refusal s action.now) (λ fault. result ≡ Err fault) }
        ensures accepted { (s : Session) → StandsForSession self.old s → invoke_refusal s action.now ≡ None → IsOkUnless result faults.NoMemory }
        ensures sends { IfOk result (λ sends. (s : Session) → StandsForSession self.old s → sends.items ≡ invoked_sends s action.now) }
        ensures ok { OnOk result ((s : Session) → StandsForSession self.old s → StandsForSession self.new (session_invoked s action.now)) }
        ensures err { OnErr result ((s : Session) → StandsForSession self.old s → StandsForSession self.new s) }
        ensures numbered { OnOk result (begun_of self.new ≡ begun_of self.old + 1) }
        ensures unnumbered { OnErr result (begun_of self.new ≡ begun_of self.old) }
    {
        if let Some(fault) = self.refusal(action) {
            return Err(fault);
        }
        let op = self.begun + 1;
        let (machine, sends) = Machine::start(alloc, self.f, self.k, self.cid, op, action)?;
        self.begun = op;
        self.last = Some(Last {
            key: key_of(action),
            machine,
            replied: false,
        });
        Ok(sends)
    }

    /// Why the client does not begin the action, if it does not.
    fn refusal(&self, action: &Action) -> Option<InvokeFault>
        ensures { (s : Session) → StandsForSession self.now s → result ≡ invoke_refusal s action.now }
    {
        if self.stopped {
            return Some(InvokeFault::Stopped);
        }
        if self.awaits_reply() {
            return Some(InvokeFault::Busy(self.begun));
        }
        if !suits(action) {
            return Some(InvokeFault::WrongKey);
        }
        size_refusal(action)
    }

    /// Whether the last operation has no reply.
    fn awaits_reply(&self) -> bool
        ensures { (s : Session) → StandsForSession self.now s → result ≡ is_running s }
    {
        match &self.last {
            Some(last) => !last.replied,
            None => false,
        }
    }

    /// Handles an input; one that the last operation does not await changes nothing.
    pub fn step(&mut self, alloc: Global, cue: &Cue) -> Result<Turn, NoMemory>
        ensures turn { IfOk result (λ turn. (s : Session) → StandsForSession self.old s → turn ≡ session_turn s cue.now) }
        ensures ok { OnOk result ((s : Session) → StandsForSession self.old s → StandsForSession self.new (session_after s cue.now)) }
        ensures err { OnErr result ((s : Session) → StandsForSession self.old s → StandsForSession self.new s) }
        ensures begun { begun_of self.new ≡ begun_of self.old }
    {
        if self.stopped {
            return Ok(Turn::quiet(alloc));
        }
        match &mut self.last {
            Some(last) => last.step(alloc, self.cid, self.begun, cue),
            None => Ok(Turn::quiet(alloc)),
        }
    }

    /// A retransmission timeout: what is unanswered is sent again.
    pub fn tick(&mut self, alloc: Global) -> Result<Turn, NoMemory>
        ensures turn { IfOk result (λ turn. (s : Session) → StandsForSession self.old s → turn ≡ session_turn s cues.Tick) }
        ensures ok { OnOk result ((s : Session) → StandsForSession self.old s → StandsForSession self.new (session_after s cues.Tick)) }
        ensures err { OnErr result ((s : Session) → StandsForSession self.old s → StandsForSession self.new s) }
        ensures begun { begun_of self.new ≡ begun_of self.old }
    {
        self.step(alloc, &Cue::Tick)
    }

    /// A crash: the client reacts to nothing any more.
    pub fn stop(&mut self)
        ensures stopped { (s : Session) → StandsForSession self.old s → StandsForSession self.new (session_stopped s) }
        ensures begun { begun_of self.new ≡ begun_of self.old }
    {
        self.stopped = true;
    }

    /// How many operations the client began.
    pub fn begun(&self) -> u32
        ensures value { result ≡ begun_of self.now }
        ensures session { (s : Session) → StandsForSession self.now s → result ≡ s.begun }
    {
        self.begun
    }

    /// The operation that has no reply; none where none was begun, or the last one has its reply.
    pub fn running(&self) -> Option<Running>
        ensures { (s : Session) → StandsForSession self.now s → result ≡ running_of s }
    {
        match &self.last {
            Some(last) => {
                if last.replied {
                    return None;
                }
                let progress = last.machine.progress();
                Some(Running {
                    op: self.begun,
                    phase: progress.phase,
                    have: progress.have,
                    need: progress.need,
                })
            }
            None => None,
        }
    }
}

/// The fault of a value that is too large.
fn size_refusal(action: &Action) -> Option<InvokeFault>
    ensures { result ≡ size_refusal action.now }
{
    match action {
        Action::Put { key: _, value } => too_large(value),
        Action::Get { key: _ } => None,
        Action::Delete { key: _ } => None,
        Action::Collect { key: _ } => None,
        Action::Swap {
            key: _,
            expected: _,
            value,
        } => too_large(value),
    }
}

/// The fault of these bytes, if they are more than a value may have.
fn too_large(value: &Blob) -> Option<InvokeFault>
    ensures { result ≡ (if nat_lt MAX_VALUE (length value.now) then Some (faults.TooLarge (length value.now)) else None) }
{
    let size = value.bytes().len();
    if size > MAX_VALUE as usize {
        Some(InvokeFault::TooLarge(size))
    } else {
        None
    }
}

/// Whether the action's key is of its kind: swaps alone write a compare-and-swap key, and write no other.
fn suits(action: &Action) -> bool
    ensures { result ≡ suits action.now }
{
    match action {
        Action::Put { key, value: _ } => !key.is_cell(),
        Action::Get { key: _ } => true,
        Action::Delete { key } => !key.is_cell(),
        Action::Collect { key: _ } => true,
        Action::Swap {
            key,
            expected: _,
            value: _,
        } => key.is_cell(),
    }
}
