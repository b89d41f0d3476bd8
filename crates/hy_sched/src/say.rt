//! The answers of Byzantine clouds in a schedule: a word, and the bytes of a body.

ghost use Rattle.std.specs.Prelude.{◌≡◌, ◌++◌, OnOk};
ghost use Rattle.hy_text.specs.Gives.{Takes};
ghost use Rattle.hy_text.specs.Line.{spaced};
ghost use Rattle.hy_sched.specs.Say.{say_by, say_from, say_word, say_words};

use hy_base::{MAX_TEXT_VALUE, NoMemory};
use hy_record::CloudSay;
use hy_text::{LineError, Named, Words, push_value_word, push_word, read_named, read_value};
use std::alloc::Global;

/// The status of a bad answer in a schedule.
pub(crate) const BAD_STATUS: u16 = 400;

/// The kinds of answers that a schedule tells.
#[derive(Clone, Copy, Debug, PartialEq, Eq)]
pub(crate) enum SayKind {
    Stored,
    Conflict,
    Body,
    Missing,
    Gone,
    Bad,
}

/// All kinds of answers.
const SAY_KINDS: [SayKind; 6] = [
    SayKind::Stored,
    SayKind::Conflict,
    SayKind::Body,
    SayKind::Missing,
    SayKind::Gone,
    SayKind::Bad,
];

impl Named for SayKind {
    ghost word_of = { say_word };

    fn word(self) -> &'static [u8] {
        match self {
            SayKind::Stored => b"stored",
            SayKind::Conflict => b"conflict",
            SayKind::Body => b"body",
            SayKind::Missing => b"missing",
            SayKind::Gone => b"gone",
            SayKind::Bad => b"bad",
        }
    }
}

/// The answer that the next words print.
#[tactic(auto, unfolding(crate::specs::Say::say_from))]
pub(crate) fn read_say(alloc: Global, words: &mut Words) -> Result<CloudSay, LineError>
    ensures { Takes result words.new (say_from words.old) }
{
    let kind = read_named(&SAY_KINDS, words.next_word())?;
    read_say_by(alloc, kind, words)
}

/// The answer of the kind, with the words after that of the kind.
#[tactic(auto, unfolding(crate::specs::Say::say_by))]
fn read_say_by(alloc: Global, kind: SayKind, words: &mut Words) -> Result<CloudSay, LineError>
    ensures { Takes result words.new (say_by kind words.old) }
{
    match kind {
        SayKind::Stored => Ok(CloudSay::Stored { fresh: true }),
        SayKind::Conflict => Ok(CloudSay::Conflict),
        SayKind::Body => {
            let value = read_value(alloc, words.next_word(), MAX_TEXT_VALUE)?;
            Ok(CloudSay::Body(value))
        }
        SayKind::Missing => Ok(CloudSay::Missing),
        SayKind::Gone => Ok(CloudSay::Gone),
        SayKind::Bad => Ok(CloudSay::Bad(BAD_STATUS)),
    }
}

/// Appends the words of the answer, each with a space before it.
pub(crate) fn push_say(out: &mut Vec<u8>, say: &CloudSay) -> Result<(), NoMemory>
    ensures { OnOk result (out.new.items ≡ out.old.items ++ spaced (say_words say.now)) }
{
    match say {
        CloudSay::Stored { .. } => push_word(out, SayKind::Stored.word()),
        CloudSay::Conflict => push_word(out, SayKind::Conflict.word()),
        CloudSay::Body(value) => {
            push_word(out, SayKind::Body.word())?;
            push_value_word(out, value.bytes())
        }
        CloudSay::Missing => push_word(out, SayKind::Missing.word()),
        CloudSay::Gone => push_word(out, SayKind::Gone.word()),
        CloudSay::Bad(_) => push_word(out, SayKind::Bad.word()),
    }
}
