//! Actions in a text: a verb, the key, and what a put or a swap has besides.

ghost use Rattle.std.specs.Prelude.{◌≡◌, ◌++◌, [], ◌∷◌, OnOk};
ghost use Rattle.hy_text.specs.Action.{
  action_by,
  action_from,
  action_words,
  is_key_of,
  key_for,
  swap_by,
  verb_of,
  verb_word,
};
ghost use Rattle.hy_text.specs.Gives.{Takes};
ghost use Rattle.hy_text.specs.Line.{spaced};

use crate::error::LineError;
use crate::key::read_key;
use crate::stamp::{push_stamp, read_stamp};
use crate::table::{Named, read_named};
use crate::value::read_value;
use crate::word::Words;
use crate::writing::{push_value_word, push_word};
use hy_base::{Cause, MAX_TEXT_VALUE, NoMemory};
use hy_record::{Action, Key};
use std::alloc::Global;

/// The first word of an action.
#[derive(Clone, Copy, Debug, PartialEq, Eq)]
pub enum Verb {
    Put,
    Get,
    Delete,
    Collect,
    Swap,
}

/// The verbs that a text has.
#[derive(Clone, Copy, Debug, PartialEq, Eq)]
pub enum Verbs {
    /// All.
    All,
    /// All but swap.
    WithoutSwaps,
    /// Put, get and delete.
    OfValues,
}

/// All verbs.
const ALL_VERBS: [Verb; 5] = [
    Verb::Put,
    Verb::Get,
    Verb::Delete,
    Verb::Collect,
    Verb::Swap,
];

/// All verbs but swap.
const VERBS_WITHOUT_SWAPS: [Verb; 4] = [Verb::Put, Verb::Get, Verb::Delete, Verb::Collect];

/// The verbs that put, get and delete.
const VERBS_OF_VALUES: [Verb; 3] = [Verb::Put, Verb::Get, Verb::Delete];

impl Named for Verb {
    ghost word_of = { verb_word };

    fn word(self) -> &'static [u8] {
        match self {
            Verb::Put => b"put",
            Verb::Get => b"get",
            Verb::Delete => b"delete",
            Verb::Collect => b"collect",
            Verb::Swap => b"swap",
        }
    }
}

/// The action that the next words print: its verb is one of these, and the client of the timestamp that
/// a swap expects is at most `last`.
#[tactic(auto, unfolding(crate::specs::Action::action_from))]
pub fn read_action(
    alloc: Global,
    words: &mut Words,
    verbs: Verbs,
    last: u32,
) -> Result<Action, LineError>
    ensures { Takes result words.new (action_from verbs last words.old) }
{
    let verb = read_verb(verbs, words.next_word())?;
    let key = read_key_for(verb, words.next_word())?;
    read_action_by(alloc, verb, key, words, last)
}

/// The one of these verbs whose word this is.
fn read_verb(verbs: Verbs, word: &[u8]) -> Result<Verb, Cause>
    ensures { result ≡ verb_of verbs word.now }
{
    match verbs {
        Verbs::All => read_named(&ALL_VERBS, word),
        Verbs::WithoutSwaps => read_named(&VERBS_WITHOUT_SWAPS, word),
        Verbs::OfValues => read_named(&VERBS_OF_VALUES, word),
    }
}

/// The key that the word spells, of the kind that the verb takes.
#[tactic(auto, unfolding(crate::specs::Action::key_for))]
fn read_key_for(verb: Verb, word: &[u8]) -> Result<Key, Cause>
    ensures { result ≡ key_for verb word.now }
{
    let key = read_key(word)?;
    if is_key_of(verb, &key) {
        Ok(key)
    } else {
        Err(Cause::BadKey)
    }
}

/// Whether the verb takes keys of this kind: swaps alone write compare-and-swap keys, and write no other.
fn is_key_of(verb: Verb, key: &Key) -> bool
    ensures { result ≡ is_key_of verb key.now }
{
    match verb {
        Verb::Put | Verb::Delete => !key.is_cell(),
        Verb::Swap => key.is_cell(),
        Verb::Get | Verb::Collect => true,
    }
}

/// The action of the verb on the key, with the words after the key.
#[tactic(auto, unfolding(crate::specs::Action::action_by))]
fn read_action_by(
    alloc: Global,
    verb: Verb,
    key: Key,
    words: &mut Words,
    last: u32,
) -> Result<Action, LineError>
    ensures { Takes result words.new (action_by last verb key words.old) }
{
    match verb {
        Verb::Put => {
            let value = read_value(alloc, words.next_word(), MAX_TEXT_VALUE)?;
            Ok(Action::Put { key, value })
        }
        Verb::Get => Ok(Action::Get { key }),
        Verb::Delete => Ok(Action::Delete { key }),
        Verb::Collect => Ok(Action::Collect { key }),
        Verb::Swap => read_swap(alloc, key, words, last),
    }
}

/// The swap on the key, with the timestamp that it expects and its value.
#[tactic(auto, unfolding(crate::specs::Action::swap_by))]
fn read_swap(alloc: Global, key: Key, words: &mut Words, last: u32) -> Result<Action, LineError>
    ensures { Takes result words.new (swap_by last key words.old) }
{
    let expected = read_stamp(words, 0, last)?;
    let value = read_value(alloc, words.next_word(), MAX_TEXT_VALUE)?;
    Ok(Action::Swap {
        key,
        expected,
        value,
    })
}

/// Appends the words of the action, each with a space before it.
pub fn push_action(out: &mut Vec<u8>, action: &Action) -> Result<(), NoMemory>
    ensures { OnOk result (out.new.items ≡ out.old.items ++ spaced (action_words action.now)) }
{
    match action {
        Action::Put { key, value } => {
            push_verb(out, Verb::Put, key)?;
            push_value_word(out, value.bytes())
        }
        Action::Get { key } => push_verb(out, Verb::Get, key),
        Action::Delete { key } => push_verb(out, Verb::Delete, key),
        Action::Collect { key } => push_verb(out, Verb::Collect, key),
        Action::Swap {
            key,
            expected,
            value,
        } => {
            push_verb(out, Verb::Swap, key)?;
            push_stamp(out, expected)?;
            push_value_word(out, value.bytes())
        }
    }
}

/// Appends the verb and the key, each with a space before it.
fn push_verb(out: &mut Vec<u8>, verb: Verb, key: &Key) -> Result<(), NoMemory>
    ensures { OnOk result (out.new.items ≡ out.old.items ++ spaced (verb_word verb ∷ key.now ∷ [])) }
{
    push_word(out, verb.word())?;
    push_word(out, key.bytes())
}
