//! The connections of the metadata server, and the messages that come on them.

ghost use Rattle.std.specs.Prelude.{◌≡◌, ◌≢◌, true, false, Err, Some, IfOk, OnOk};
ghost use Rattle.hy_mwire.specs.declared.fault.FrameFault.TheVariants as faults;
ghost use Rattle.hy_mwire.specs.Message.{IsFramedSay};
ghost use Rattle.hy_mwire.specs.Stream.{next_answer, after_next};
ghost use Rattle.hy_meta.specs.Run.{asker_of, addressee_of};
ghost use Rattle.hy_serve.specs.MetaRole.{fed, in_session, step_of, step_by, step_of_client, next_step, next_line};
ghost use Rattle.hy_serve.specs.MetaLines.{seen};

use hy_base::NoMemory;
use hy_mwire::{FrameFault, Message, Reader};
use hy_record::{MetaAsk, MetaSay};
use std::alloc::Global;

/// Who speaks on an open connection.
#[derive(Clone, Copy, Debug, PartialEq, Eq)]
pub(crate) enum Session {
    /// Nobody asked for a session yet.
    Unasked,
    /// The client that joined.
    Of(u32),
    /// A client that got no session.
    Refused,
}

/// What comes next on a connection.
#[derive(Debug, Drop)]
pub(crate) enum Step {
    /// No message yet, or the connection does not count.
    Waits,
    /// A fault, or a message that has no place here.
    Ends,
    /// A client wants to join.
    Joins,
    /// The client asks.
    Asks(MetaAsk),
}

/// An open connection: its session, and its stream.
#[derive(Debug, Drop)]
pub(crate) struct MetaLine {
    pub(crate) session: Session,
    pub(crate) reader: Reader,
}

/// The bytes of a connection go on. A fault in front is found when the connection is read.
pub(crate) fn feed(line: &mut Option<MetaLine>, alloc: Global, piece: &[u8]) -> Result<(), NoMemory>
    ensures { OnOk result (seen (Some line.new) ≡ fed piece.now (seen (Some line.old))) }
{
    match line {
        Some(line) => unless_starved(line.reader.feed(alloc, piece)),
        None => Ok(()),
    }
}

/// A fault of the stream is left to be found; want of memory is not.
fn unless_starved(taken: Result<(), FrameFault>) -> Result<(), NoMemory>
    ensures { OnOk result (taken ≢ Err faults.NoMemory) }
{
    match taken {
        Ok(()) => Ok(()),
        Err(FrameFault::NoMemory) => Err(NoMemory),
        Err(_fault) => Ok(()),
    }
}

/// The session of an open connection is this now.
pub(crate) fn set_session(line: &mut Option<MetaLine>, session: Session)
    ensures { seen (Some line.new) ≡ in_session session (seen (Some line.old)) }
{
    if let Some(line) = line {
        line.session = session;
    }
}

/// Reads what comes next. Behind an end the connection counts no more.
pub(crate) fn read(line: &mut Option<MetaLine>, alloc: Global) -> Result<Step, NoMemory>
    ensures step { IfOk result (λ step. step ≡ next_step (seen (Some line.old))) }
    ensures line { OnOk result (seen (Some line.new) ≡ next_line (seen (Some line.old))) }
{
    let Some(open) = line else {
        return Ok(Step::Waits);
    };
    let step = read_message(open, alloc)?;
    if let Step::Ends = step {
        *line = None;
    }
    Ok(step)
}

/// Reads the next message of an open connection.
fn read_message(line: &mut MetaLine, alloc: Global) -> Result<Step, NoMemory>
    ensures step { IfOk result (λ step.
        step ≡ step_of line.old.session (next_answer line.old.reader)) }
    ensures reader { OnOk result (line.new.reader ≡ after_next line.old.reader) }
    ensures session { line.new.session ≡ line.old.session }
{
    match line.reader.next(alloc) {
        Ok(None) => Ok(Step::Waits),
        Ok(Some(message)) => Ok(step_in(line.session, message)),
        Err(FrameFault::NoMemory) => Err(NoMemory),
        Err(_fault) => Ok(Step::Ends),
    }
}

/// What a message comes to in this session.
fn step_in(session: Session, message: Message) -> Step
    ensures { result ≡ step_by session message }
{
    match (session, message) {
        (Session::Unasked, Message::Join) => Step::Joins,
        (Session::Of(client), Message::Ask(ask)) => step_of_ask(client, ask),
        _ => Step::Ends,
    }
}

/// A client asks for itself alone.
fn step_of_ask(client: u32, ask: MetaAsk) -> Step
    ensures { result ≡ step_of_client client ask }
{
    if asker(&ask) == client {
        Step::Asks(ask)
    } else {
        Step::Ends
    }
}

/// The client that asks.
fn asker(ask: &MetaAsk) -> u32
    ensures { result ≡ (asker_of ask.now).client }
{
    match ask {
        MetaAsk::Read { client, .. }
        | MetaAsk::Update { client, .. }
        | MetaAsk::Watch { client, .. }
        | MetaAsk::Olds { client, .. }
        | MetaAsk::Forget { client, .. }
        | MetaAsk::Swap { client, .. } => *client,
    }
}

/// The client that a message is for.
pub(crate) fn addressee(say: &MetaSay) -> u32
    ensures { result ≡ (addressee_of say.now).client }
{
    match say {
        MetaSay::Has { client, .. }
        | MetaSay::Applied { client, .. }
        | MetaSay::Kept { client, .. }
        | MetaSay::Fired { client, .. }
        | MetaSay::OldList { client, .. }
        | MetaSay::Forgot { client, .. }
        | MetaSay::Swapped { client, .. }
        | MetaSay::Changed { client, .. } => *client,
    }
}

/// Whether a frame carries the message: an answer to a swap has none.
pub(crate) fn is_framed(say: &MetaSay) -> bool
    ensures carried { result ≡ true → IsFramedSay say.now }
    ensures other { result ≡ false → IsFramedSay say.now → ⊥ }
{
    match say {
        MetaSay::Has { .. }
        | MetaSay::Applied { .. }
        | MetaSay::Kept { .. }
        | MetaSay::Fired { .. }
        | MetaSay::OldList { .. }
        | MetaSay::Forgot { .. } => true,
        MetaSay::Swapped { .. } | MetaSay::Changed { .. } => false,
    }
}
