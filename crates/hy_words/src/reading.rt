//! Reads the words of the command line.

ghost use Rattle.std.specs.Prelude.{◌≡◌, IfOk, false, map, string_bytes};
ghost use Rattle.hy_words.specs.Given.{is_option};
ghost use Rattle.hy_words.specs.Words.{IsInRange, IsPort, IsRequest, alone, command_by, command_of, is_misplaced, keep_of, key_for, make_of, on_store, port_of, request_of, served_of};

use crate::command::{Command, StoreCommand, TextCommand};
use crate::given::{given_of, is_option};
use crate::limits::{
    CLIENT_ARRIVALS, COLLECT_ARRIVALS, MAX_FIRST_PORT, MAX_PORT, MAX_SEED, SERVER_ARRIVALS,
};
use crate::name::{NAMES, Name};
use crate::operands::{Operands, first_word};
use crate::request::Request;
use hy_base::{Cause, MAX_COUNT, MAX_F, MAX_K, MAX_MADE};
use hy_record::Key;
use hy_text::{read_key, read_named, read_number, read_u32};

/// The command that the words ask for.
pub fn read_command(words: &[String]) -> Result<Command, Cause>
    ensures command { result ≡ command_of (map string_bytes words.now) }
    ensures range { IfOk result IsInRange }
{
    let (word, operands) = first_word(words);
    command_by(read_named(&NAMES, word)?, operands)
}

/// The command of the name, of the words behind it.
fn command_by(name: Name, words: &[String]) -> Result<Command, Cause>
    ensures command { result ≡ command_by name (map string_bytes words.now) }
    ensures range { IfOk result IsInRange }
{
    match name {
        Name::Replay => alone(Command::OnText(TextCommand::Replay), words),
        Name::Check => alone(Command::OnText(TextCommand::Check), words),
        Name::Keep => read_keep(words),
        Name::Make => read_make(words),
        Name::Vectors => alone(Command::Vectors, words),
        Name::Meta => {
            let (port, arrivals) = read_served(words)?;
            Ok(Command::Meta { port, arrivals })
        }
        Name::Cloud => {
            let (port, arrivals) = read_served(words)?;
            Ok(Command::Cloud { port, arrivals })
        }
        Name::Put => on_store(StoreCommand::Put, CLIENT_ARRIVALS, words),
        Name::Get => on_store(StoreCommand::Get, CLIENT_ARRIVALS, words),
        Name::Delete => on_store(StoreCommand::Delete, CLIENT_ARRIVALS, words),
        Name::Collect => on_store(StoreCommand::Collect, COLLECT_ARRIVALS, words),
    }
}

/// The command, where no word is behind its name.
fn alone(command: Command, words: &[String]) -> Result<Command, Cause>
    requires { IsInRange command }
    ensures command { result ≡ alone command (map string_bytes words.now) }
    ensures range { IfOk result IsInRange }
{
    Operands::of(words, &[]).end()?;
    Ok(command)
}

/// The seed and the count of a schedule that is to be made.
#[tactic(auto, unfolding(crate::specs::Words::make_of))]
fn read_make(words: &[String]) -> Result<Command, Cause>
    ensures command { result ≡ make_of (map string_bytes words.now) }
    ensures range { IfOk result IsInRange }
{
    let mut operands = Operands::of(words, &[]);
    let seed = read_number(operands.next_word(), 0, MAX_SEED)?;
    let events = read_u32(operands.next_word(), 0, MAX_MADE)?;
    operands.end()?;
    Ok(Command::Make { seed, events })
}

/// The number of the call that is to fail.
#[tactic(auto, unfolding(crate::specs::Words::keep_of))]
fn read_keep(words: &[String]) -> Result<Command, Cause>
    ensures command { result ≡ keep_of (map string_bytes words.now) }
    ensures range { IfOk result IsInRange }
{
    let mut operands = Operands::of(words, &[]);
    let stop = read_u32(operands.next_word(), 0, MAX_COUNT)?;
    operands.end()?;
    Ok(Command::OnText(TextCommand::Keep { stop }))
}

/// A port up to this one.
fn read_port(word: &[u8], last: u16) -> Result<u16, Cause>
    ensures port { result ≡ port_of last word.now }
    ensures range { IfOk result (IsPort last) }
{
    Ok(read_u32(word, 1, last.into())? as u16)
}

/// The port of a server, and how many arrivals it takes.
#[tactic(auto, unfolding(crate::specs::Words::served_of))]
fn read_served(words: &[String]) -> Result<(u16, u32), Cause>
    ensures served { result ≡ served_of (map string_bytes words.now) }
    ensures range { IfOk result (λ served. IsPort MAX_PORT served.0) }
{
    let mut given = given_of(words)?;
    let port = read_port(given.operands.next_word(), MAX_PORT)?;
    given.operands.end()?;
    Ok((port, given.arrivals.unwrap_or(SERVER_ARRIVALS)))
}

/// The command on a key of a store, where so many arrivals are taken if the option gives no number.
fn on_store(command: StoreCommand, usual: u32, words: &[String]) -> Result<Command, Cause>
    ensures command { result ≡ on_store command usual (map string_bytes words.now) }
    ensures range { IfOk result IsInRange }
{
    Ok(Command::OnStore(command, read_request(command, usual, words)?))
}

/// Whether a compare-and-swap key would be put or deleted: only a swap writes it.
fn is_misplaced(command: StoreCommand, key: &Key) -> bool
    ensures { result ≡ is_misplaced command key.now }
{
    match command {
        StoreCommand::Put | StoreCommand::Delete => key.is_cell(),
        StoreCommand::Get | StoreCommand::Collect => false,
    }
}

/// The key that the word spells, where it is no option.
#[tactic(auto, unfolding(crate::specs::Words::key_for))]
fn read_key_for(command: StoreCommand, word: &[u8]) -> Result<Key, Cause>
    ensures key { result ≡ key_for command word.now }
    ensures named { IfOk result (λ key. is_option key ≡ false) }
    ensures placed { IfOk result (λ key. is_misplaced command key ≡ false) }
{
    if is_option(word) {
        return Err(Cause::BadWord);
    }
    let key = read_key(word)?;
    if is_misplaced(command, &key) {
        return Err(Cause::BadKey);
    }
    Ok(key)
}

/// The store and the key.
#[tactic(auto, unfolding(crate::specs::Words::request_of))]
fn read_request(command: StoreCommand, usual: u32, words: &[String]) -> Result<Request, Cause>
    ensures request { result ≡ request_of command usual (map string_bytes words.now) }
    ensures range { IfOk result IsRequest }
    ensures placed { IfOk result (λ request. is_misplaced command request.key ≡ false) }
{
    let mut given = given_of(words)?;
    let f = read_u32(given.operands.next_word(), 0, MAX_F.into())? as u8;
    let k = read_u32(given.operands.next_word(), 1, MAX_K.into())? as u8;
    let meta = read_port(given.operands.next_word(), MAX_PORT)?;
    let clouds = read_port(given.operands.next_word(), MAX_FIRST_PORT)?;
    let key = read_key_for(command, given.operands.next_word())?;
    given.operands.end()?;
    Ok(Request {
        f,
        k,
        meta,
        clouds,
        key,
        arrivals: given.arrivals.unwrap_or(usual),
    })
}
