//! A client of the simulator, and what is known of it beside its session.

ghost use Rattle.std.specs.Prelude.{◌≡◌, ◌≤◌, ◌<◌, ◌&&◌, false, IfOk, OnOk, MatchOption, is_some};
ghost use Rattle.std.specs.Option.{option_map};
ghost use Rattle.hy_base.specs.declared.limits.TheConstants.{MAX_VALUE};
ghost use Rattle.hy_meta.specs.Service.{stamp_of_record};
ghost use Rattle.hy_protocol.specs.Inputs.{has_of};
ghost use Rattle.hy_protocol.specs.Operations.{key_of, suits};
ghost use Rattle.hy_protocol.specs.Session.{Session, session_after, session_turn, session_invoked, session_stopped, invoked_sends, is_idle, is_running, session_progress, takes};
ghost use Rattle.hy_client.specs.Clients.{running_of};
ghost use Rattle.hy_log.specs.History.{told_progress};
ghost use Rattle.hy_world.specs.Seats.{StandsForSeat, begun_at, value_size, is_no_memory, heard_by};

use hy_base::NoMemory;
use hy_client::{Client, InvokeFault};
use hy_log::Heard;
use hy_operation::{Progress, stamp_of};
use hy_protocol::is_for;
use hy_record::{Action, Cue, Key, MetaSay, Out, Stamp, Turn};
use std::alloc::Global;

/// A client, with what its session says and the client does not tell.
#[derive(Debug, Drop)]
pub(crate) struct Seat {
    pub(crate) client: Client,
    pub(crate) number: u32,
    pub(crate) is_stopped: bool,
    /// The key of its last operation.
    pub(crate) key: Option<Key>,
}

impl Seat {
    /// Begins an operation on a value that is not too large, and answers what it sends first; none
    /// where the client is busy or stopped, or the key is not of the action's kind.
    pub(crate) fn begin(
        &mut self,
        alloc: Global,
        action: &Action,
    ) -> Result<Option<Vec<Out>>, NoMemory>
        requires room { begun_at self.old < 4294967295 }
        requires size { value_size action.now ≤ MAX_VALUE }
        ensures idle { IfOk result (λ sent. (s : Session) → StandsForSeat self.old s →
            is_some sent ≡ (is_idle s && suits action.now)) }
        ensures begins { IfOk result (λ sent. MatchOption sent ((s : Session) →
            StandsForSeat self.old s → StandsForSeat self.new s) (λ outs. (s : Session) →
            StandsForSeat self.old s → StandsForSeat self.new (session_invoked s action.now))) }
        ensures sends { IfOk result (λ sent. MatchOption sent (Unit {0}) (λ outs. (s : Session) →
            StandsForSeat self.old s → outs.items ≡ invoked_sends s action.now)) }
    {
        match self.client.invoke(alloc, action) {
            Ok(outs) => {
                self.key = Some(key_of(action));
                Ok(Some(outs))
            }
            Err(fault) => {
                check(fault)?;
                Ok(None)
            }
        }
    }

    /// Hands an input to the client.
    pub(crate) fn hand(&mut self, alloc: Global, cue: &Cue) -> Result<Turn, NoMemory>
        ensures turn { IfOk result (λ turn. (s : Session) → StandsForSeat self.old s →
            turn ≡ session_turn s cue.now) }
        ensures ok { OnOk result ((s : Session) → StandsForSeat self.old s →
            StandsForSeat self.new (session_after s cue.now)) }
    {
        let turn = self.client.step(alloc, cue)?;
        Ok(turn)
    }

    /// Whether the client's last operation awaits the input.
    pub(crate) fn takes(&self, cue: &Cue) -> bool
        ensures { (s : Session) → StandsForSeat self.now s → result ≡ takes s cue.now }
    {
        if self.is_stopped {
            return false;
        }
        if !self.is_running() {
            return false;
        }
        match &self.key {
            Some(key) => is_for(cue, self.number, self.client.begun(), key),
            None => false,
        }
    }

    /// What the client's operation of this number is told of the record by an input that was made
    /// at this step, if it takes it.
    pub(crate) fn hears(&self, client: u32, op: u32, made: u64, cue: &Cue) -> Option<Heard>
        ensures { (s : Session) → StandsForSeat self.now s →
            result ≡ heard_by s client op made cue.now }
    {
        match told_stamp(cue) {
            Some(stamp) => {
                if self.takes(cue) {
                    Some(Heard {
                        client,
                        op,
                        stamp,
                        made,
                    })
                } else {
                    None
                }
            }
            None => None,
        }
    }

    /// Whether the client's last operation has no reply.
    pub(crate) fn is_running(&self) -> bool
        ensures { (s : Session) → StandsForSeat self.now s → result ≡ is_running s }
    {
        match self.client.running() {
            Some(_running) => true,
            None => false,
        }
    }

    /// How far the client's last operation is, where that has no reply.
    pub(crate) fn progress(&self) -> Option<Progress>
        ensures { (s : Session) → StandsForSeat self.now s →
            result ≡ option_map told_progress (session_progress s) }
    {
        match self.client.running() {
            Some(running) => Some(Progress {
                phase: running.phase,
                have: running.have,
                need: running.need,
            }),
            None => None,
        }
    }

    /// The client crashes.
    pub(crate) fn stop(&mut self)
        ensures { (s : Session) → StandsForSeat self.old s →
            StandsForSeat self.new (session_stopped s) }
    {
        self.client.stop();
        self.is_stopped = true;
    }

    /// How many operations it began.
    pub(crate) fn begun(&self) -> u32
        ensures value { result ≡ begun_at self.now }
        ensures session { (s : Session) → StandsForSeat self.now s → result ≡ s.begun }
    {
        self.client.begun()
    }
}

/// The key of an action.
fn key_of(action: &Action) -> Key
    ensures { result ≡ key_of action.now }
{
    match action {
        Action::Put { key, value: _ } => *key,
        Action::Get { key } => *key,
        Action::Delete { key } => *key,
        Action::Collect { key } => *key,
        Action::Swap { key, .. } => *key,
    }
}

/// Fails where memory ran out; any other fault is the client's refusal.
fn check(fault: InvokeFault) -> Result<(), NoMemory>
    ensures { OnOk result (is_no_memory fault ≡ false) }
{
    match fault {
        InvokeFault::NoMemory => Err(NoMemory),
        InvokeFault::Stopped => Ok(()),
        InvokeFault::Busy(_op) => Ok(()),
        InvokeFault::TooLarge(_size) => Ok(()),
        InvokeFault::WrongKey => Ok(()),
    }
}

/// The timestamp of the record that an input tells.
fn told_stamp(cue: &Cue) -> Option<Stamp>
    ensures { result ≡ option_map stamp_of_record (has_of cue.now) }
{
    match cue {
        Cue::Meta(say) => match say {
            MetaSay::Has { rec, .. } => Some(stamp_of(rec)),
            MetaSay::Applied { .. } => None,
            MetaSay::Kept { .. } => None,
            MetaSay::Fired { .. } => None,
            MetaSay::OldList { .. } => None,
            MetaSay::Forgot { .. } => None,
            MetaSay::Swapped { .. } => None,
            MetaSay::Changed { .. } => None,
        },
        Cue::Cloud(_reply) => None,
        Cue::Tick => None,
    }
}
