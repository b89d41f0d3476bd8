//! The top call: reads the words, does the job, and tells how it went.

ghost use Rattle.std.specs.Prelude.{◌≡◌, ◌≤◌, false, IfOk, map};
ghost use Rattle.std.specs.String.{string_bytes};
ghost use Rattle.hy_base.specs.Sink.{sink_use};
ghost use Rattle.hy_base.specs.Source.{source_use};
ghost use Rattle.hy_top.specs.Answer.{Answers, IsTold};
ghost use Rattle.hy_top.specs.Command.{IsReader, IsTalker};
ghost use Rattle.hy_top.specs.Job.{ComesTo, DoesOnText, status_due, text_due};
ghost use Rattle.hy_top.specs.NetUse.{net_use};
ghost use Rattle.hy_top.specs.Operate.{DoesOnStore};
ghost use Rattle.hy_top.specs.Vectors.{GivesVectors};
ghost use Rattle.hy_words.specs.Words.{IsRequest, is_misplaced};
ghost use Rattle.hy_words.specs.declared.command.StoreCommand.TheVariants as commands;

use crate::input::read_input;
use crate::line::refusal_line;
use crate::make_job::made_line;
use crate::server_job::{cloud_line, meta_line};
use crate::status::Status;
use crate::store_job::{operate, put_input};
use crate::text_job::output_on;
use hy_base::{Blob, Net, NoMemory, Sink, Source, write_all};
use hy_record::Action;
use hy_vectors::vectors;
use hy_words::{Command, Request, StoreCommand, TextCommand, read_command};
use std::alloc::Global;

/// Does the job that the words ask for, over this input, output and net, and tells how it went.
///
/// Each status but WriteFault and NoMemory comes exactly where the words and the input come to it and
/// its text was written.
pub fn run<S: Source, K: Sink, N: Net>(
    alloc: Global,
    words: &Vec<String>,
    input: &mut S,
    output: &mut K,
    net: &mut N,
) -> Status
    ensures answers { Answers (map string_bytes words.now.items)
        (source_use S.left S.faults input.old input.new)
        (net_use N.told N.tells N.taking_faults N.sending_faults net.old net.new)
        (sink_use K.written K.faults output.old output.new)
        result }
    ensures unread { ¬ IsReader (map string_bytes words.now.items) → input.new ≡ input.old }
    ensures untouched { ¬ IsTalker (map string_bytes words.now.items) → net.new ≡ net.old }
    ensures reads { S.faults input.old ≤ S.faults input.new }
    ensures writes { K.faults output.old ≤ K.faults output.new }
{
    let answer = answer_of(alloc, words, input, net);
    tell(alloc, answer, output)
}

/// What the job answers that the words ask for: its output, or why it is refused.
fn answer_of<S: Source, N: Net>(
    alloc: Global,
    words: &[String],
    input: &mut S,
    net: &mut N,
) -> Result<Blob, Status>
    ensures answer { ComesTo (map string_bytes words.now)
        (source_use S.left S.faults input.old input.new)
        (net_use N.told N.tells N.taking_faults N.sending_faults net.old net.new) result }
    ensures unread { ¬ IsReader (map string_bytes words.now) → input.new ≡ input.old }
    ensures untouched { ¬ IsTalker (map string_bytes words.now) → net.new ≡ net.old }
    ensures reads { S.faults input.old ≤ S.faults input.new }
{
    match read_command(words) {
        Ok(Command::OnText(command)) => read_and_make(alloc, command, input),
        Ok(Command::Make { seed, events }) => made_line(alloc, seed, events),
        Ok(Command::Vectors) => vectors_text(alloc),
        Ok(Command::Meta { port, arrivals }) => meta_line(alloc, net, port, arrivals),
        Ok(Command::Cloud { port, arrivals }) => cloud_line(alloc, net, port, arrivals),
        Ok(Command::OnStore(command, request)) => answer_on(alloc, command, &request, input, net),
        Err(_) => Err(Status::BadWords),
    }
}

/// What the command on a store answers. Only a put reads the input.
fn answer_on<S: Source, N: Net>(
    alloc: Global,
    command: StoreCommand,
    request: &Request,
    input: &mut S,
    net: &mut N,
) -> Result<Blob, Status>
    requires request { IsRequest request.now }
    requires placed { is_misplaced command request.now.key ≡ false }
    ensures answer { DoesOnStore command request.now
        (source_use S.left S.faults input.old input.new)
        (net_use N.told N.tells N.taking_faults N.sending_faults net.old net.new) result }
    ensures unread { (command ≡ commands.Put → ⊥) → input.new ≡ input.old }
    ensures reads { S.faults input.old ≤ S.faults input.new }
{
    let key = request.key;
    match command {
        StoreCommand::Put => put_input(alloc, request, input, net),
        StoreCommand::Get => operate(alloc, request, Action::Get { key }, net),
        StoreCommand::Delete => operate(alloc, request, Action::Delete { key }, net),
        StoreCommand::Collect => operate(alloc, request, Action::Collect { key }, net),
    }
}

/// The worked values of the formats.
fn vectors_text(alloc: Global) -> Result<Blob, Status>
    ensures { GivesVectors result }
{
    Ok(vectors(alloc)?)
}

/// What the command makes of the text that the input is.
fn read_and_make<S: Source>(
    alloc: Global,
    command: TextCommand,
    input: &mut S,
) -> Result<Blob, Status>
    ensures answer { DoesOnText command (source_use S.left S.faults input.old input.new) result }
    ensures reads { S.faults input.old ≤ S.faults input.new }
{
    let text = read_input(alloc, input)?;
    output_on(alloc, command, text)
}

/// Writes the text that tells the answer.
fn tell<K: Sink>(alloc: Global, answer: Result<Blob, Status>, output: &mut K) -> Status
    requires { ¬ (answer ≡ Err Status.WriteFault) }
    ensures told { IsTold answer (sink_use K.written K.faults output.old output.new) result }
    ensures writes { K.faults output.old ≤ K.faults output.new }
{
    let Ok((status, text)) = told_by(alloc, answer) else {
        return Status::NoMemory;
    };
    match write_all(output, text.bytes()) {
        Ok(()) => status,
        Err(_) => Status::WriteFault,
    }
}

/// The status and the text that tell the answer.
fn told_by(alloc: Global, answer: Result<Blob, Status>) -> Result<(Status, Blob), NoMemory>
    ensures status { IfOk result (λ told. told.0 ≡ status_due answer) }
    ensures text { IfOk result (λ told. told.1 ≡ text_due answer) }
{
    match answer {
        Ok(text) => Ok((Status::Done, text)),
        Err(status) => {
            let line = refusal_line(alloc, &status)?;
            Ok((status, line))
        }
    }
}
