//! The words of the line of an operation.

ghost use Rattle.std.specs.Prelude.{◌≡◌, IfOk, ◌≤◌};
ghost use Rattle.hy_text.specs.Gives.{Gives, Takes, TakesExactly};
ghost use Rattle.hy_order.specs.History.{is_phase_of};
ghost use Rattle.hy_order.specs.ReportReading.{operation_of_words};
ghost use Rattle.hy_order.specs.WordReaders.{
  phase_word_of,
  write_reply_from,
  swap_reply_from,
  value_from,
  get_reply_from,
  collect_reply_from,
  reply_from,
  pending_from,
  replied_from,
  end_from,
};

use crate::operation::{End, Operation};
use crate::report::LAST_STEP;
use crate::text::slots::{read_any_stamp, read_number_after};
use hy_base::{Cause, MAX_COUNT, MAX_TEXT_VALUE};
use hy_record::{Action, Phase, Reply};
use hy_text::{
    LineError, LineKind, Verbs, Words, read_action, read_number, read_phase, read_u32, read_value,
};
use std::alloc::Global;
use std::marker::Model;

/// The lines of operations, after the last one's number and step.
#[derive(Drop)]
pub(crate) struct OperationLines {
    number: u32,
    step: u64,
}

impl Model for OperationLines {
    ghost use Rattle.std.specs.Prelude.{◌≤◌};
    ghost use Rattle.hy_order.specs.ReportReading.{Before};
    ghost use Rattle.hy_order.specs.declared.report.TheConstants.{LAST_STEP};

    ghost Value = { Before };

    ghost view = { λ lines. record { number = lines.number; step = lines.step } };

    ghost invariant = { λ lines. lines.step ≤ LAST_STEP };
}

impl OperationLines {
    /// The lines from the first on.
    pub(crate) fn new() -> OperationLines
        ensures { result ≡ record { number = 0; step = 0 } }
    {
        OperationLines { number: 0, step: 0 }
    }
}

impl LineKind for OperationLines {
    ghost use Rattle.hy_order.specs.ReportReading.{operation_lines};

    type Item = Operation;

    ghost kind = { operation_lines };

    fn is_due(&self, keyword: &[u8]) -> bool {
        keyword == b"op".as_slice()
    }

    fn read(
        &mut self,
        alloc: Global,
        _keyword: &[u8],
        words: &mut Words,
    ) -> Result<Operation, LineError> {
        let op = read_operation(alloc, self.number, self.step, words)?;
        self.number = op.number;
        self.step = op.invoked;
        Ok(op)
    }
}

/// The operation that the words after the keyword print; the last number and the last step stand before.
#[tactic(auto, unfolding(crate::specs::ReportReading::operation_of_words))]
fn read_operation(
    alloc: Global,
    last: u32,
    step: u64,
    words: &mut Words,
) -> Result<Operation, LineError>
    requires { step ≤ LAST_STEP }
    ensures gives { Gives result (operation_of_words last step words.old) }
    ensures range { IfOk result (λ op. op.invoked ≤ LAST_STEP) }
{
    let number = read_number_after(last, words.next_word())?;
    let client = read_u32(words.next_word(), 1, MAX_COUNT)?;
    let action = read_action(alloc, words, Verbs::All, MAX_COUNT)?;
    let invoked = read_number(words.next_word(), step + 1, LAST_STEP)?;
    let end = read_end(alloc, &action, invoked, words)?;
    words.end()?;
    Ok(Operation {
        number,
        client,
        action,
        invoked,
        end,
    })
}

/// The end of an operation with this action that was invoked at this step.
#[tactic(auto, unfolding(crate::specs::WordReaders::end_from))]
#[inline(always)]
fn read_end(
    alloc: Global,
    action: &Action,
    invoked: u64,
    words: &mut Words,
) -> Result<End, LineError>
    requires { invoked ≤ LAST_STEP }
    ensures { Takes result words.new (end_from action.now invoked words.old) }
{
    let word = words.next_word();
    if word == b"-".as_slice() {
        return Ok(read_pending(action, words)?);
    }
    read_replied(alloc, action, invoked, word, words)
}

/// The end of an operation with a reply, of the word that tells when and the words after it.
#[tactic(auto, unfolding(crate::specs::WordReaders::replied_from))]
#[inline(always)]
fn read_replied(
    alloc: Global,
    action: &Action,
    invoked: u64,
    word: &[u8],
    words: &mut Words,
) -> Result<End, LineError>
    requires { invoked ≤ LAST_STEP }
    ensures { Takes result words.new (replied_from action.now invoked word.now words.old) }
{
    let at = read_number(word, invoked + 1, LAST_STEP)?;
    let reply = read_reply(alloc, action, words)?;
    Ok(End::Replied { at, reply })
}

/// The end of an operation without a reply, of the words after its dash.
#[tactic(auto, unfolding(crate::specs::WordReaders::pending_from))]
fn read_pending(action: &Action, words: &mut Words) -> Result<End, Cause>
    ensures { TakesExactly result words.new (pending_from action.now words.old) }
{
    let phase = read_phase_of(action, words.next_word())?;
    let have = read_u32(words.next_word(), 0, MAX_COUNT)?;
    let need = read_u32(words.next_word(), 0, MAX_COUNT)?;
    Ok(End::Pending { phase, have, need })
}

/// The phase that the word names, where the action can be in it.
#[tactic(auto, unfolding(crate::specs::WordReaders::phase_word_of))]
fn read_phase_of(action: &Action, word: &[u8]) -> Result<Phase, Cause>
    ensures { result ≡ phase_word_of action.now word.now }
{
    let phase = read_phase(word)?;
    if has_phase(action, phase) {
        Ok(phase)
    } else {
        Err(Cause::BadWord)
    }
}

/// Whether an operation with this action can be in the phase.
fn has_phase(action: &Action, phase: Phase) -> bool
    ensures { result ≡ is_phase_of action.now phase }
{
    match action {
        Action::Put { .. } | Action::Swap { .. } => {
            matches!(phase, Phase::Read | Phase::Store | Phase::Update)
        }
        Action::Delete { .. } => matches!(phase, Phase::Read | Phase::Update),
        Action::Get { .. } => matches!(
            phase,
            Phase::Read | Phase::Fetch | Phase::Watch | Phase::Reread
        ),
        Action::Collect { .. } => matches!(phase, Phase::Olds | Phase::Drop | Phase::Forget),
    }
}

/// The reply of an operation with this action.
#[inline(always)]
fn read_reply(alloc: Global, action: &Action, words: &mut Words) -> Result<Reply, LineError>
    ensures { Takes result words.new (reply_from action.now words.old) }
{
    match action {
        Action::Put { .. } | Action::Delete { .. } => Ok(read_write_reply(words)?),
        Action::Get { .. } => read_get_reply(alloc, words),
        Action::Collect { .. } => Ok(read_collect_reply(words)?),
        Action::Swap { .. } => Ok(read_swap_reply(words)?),
    }
}

/// The reply of a put or a delete.
#[tactic(auto, unfolding(crate::specs::WordReaders::write_reply_from))]
#[inline(always)]
fn read_write_reply(words: &mut Words) -> Result<Reply, Cause>
    ensures { TakesExactly result words.new (write_reply_from words.old) }
{
    let word = words.next_word();
    if word == b"done".as_slice() {
        let stamp = read_any_stamp(words)?;
        return Ok(Reply::Done(stamp));
    }
    if word == b"exhausted".as_slice() {
        let stamp = read_any_stamp(words)?;
        return Ok(Reply::Exhausted(stamp));
    }
    Err(Cause::BadWord)
}

/// The reply of a swap.
#[tactic(auto, unfolding(crate::specs::WordReaders::swap_reply_from))]
fn read_swap_reply(words: &mut Words) -> Result<Reply, Cause>
    ensures { TakesExactly result words.new (swap_reply_from words.old) }
{
    let word = words.next_word();
    if word == b"swapped".as_slice() {
        let stamp = read_any_stamp(words)?;
        return Ok(Reply::Swapped(stamp));
    }
    if word == b"changed".as_slice() {
        let stamp = read_any_stamp(words)?;
        return Ok(Reply::Changed(stamp));
    }
    if word == b"exhausted".as_slice() {
        let stamp = read_any_stamp(words)?;
        return Ok(Reply::Exhausted(stamp));
    }
    Err(Cause::BadWord)
}

/// The reply of a get.
#[tactic(auto, unfolding(crate::specs::WordReaders::get_reply_from))]
#[inline(always)]
fn read_get_reply(alloc: Global, words: &mut Words) -> Result<Reply, LineError>
    ensures { Takes result words.new (get_reply_from words.old) }
{
    let word = words.next_word();
    if word == b"value".as_slice() {
        return read_value_reply(alloc, words);
    }
    if word == b"none".as_slice() {
        let stamp = read_any_stamp(words)?;
        return Ok(Reply::Absent(stamp));
    }
    Err(LineError::Bad(Cause::BadWord))
}

/// The value that a get was told, of the words after the keyword.
#[tactic(auto, unfolding(crate::specs::WordReaders::value_from))]
#[inline(always)]
fn read_value_reply(alloc: Global, words: &mut Words) -> Result<Reply, LineError>
    ensures { Takes result words.new (value_from words.old) }
{
    let value = read_value(alloc, words.next_word(), MAX_TEXT_VALUE)?;
    let stamp = read_any_stamp(words)?;
    Ok(Reply::Value(value, stamp))
}

/// The reply of a collection.
#[tactic(auto, unfolding(crate::specs::WordReaders::collect_reply_from))]
fn read_collect_reply(words: &mut Words) -> Result<Reply, Cause>
    ensures { TakesExactly result words.new (collect_reply_from words.old) }
{
    if words.next_word() != b"collected".as_slice() {
        return Err(Cause::BadWord);
    }
    let count = read_u32(words.next_word(), 0, MAX_COUNT)?;
    Ok(Reply::Collected(count))
}
