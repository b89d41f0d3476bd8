//! The option of a command, which stands anywhere among its operands.

ghost use Rattle.std.specs.Prelude.{◌≡◌, ◌<◌, IfSome, length, map, position, string_bytes};
ghost use Rattle.hy_base.specs.declared.limits.TheConstants.{MAX_COUNT};
ghost use Rattle.hy_words.specs.Given.{
  arrivals_of,
  given_of,
  given_with,
  is_option,
  with_next,
  with_own,
};

use crate::operands::{Operands, first_word};
use hy_base::{Cause, MAX_COUNT};
use hy_text::read_u32;
use std::marker::Model;

/// The words behind the name of a command: its operands, and how many arrivals the option gives, where it stands there.
#[derive(Drop)]
pub(crate) struct Given<'a> {
    pub(crate) operands: Operands<'a>,
    pub(crate) arrivals: Option<u32>,
}

impl<'a> Model for Given<'a> {
    ghost use Rattle.hy_words.specs.Given as specs;

    ghost Value = { specs.Given };

    ghost view = { λ given. record { operands = given.operands; arrivals = given.arrivals } };
}

/// Whether the word begins with a dash.
pub(crate) fn is_option(word: &[u8]) -> bool
    ensures { result ≡ is_option word.now }
{
    matches!(word, [b'-', ..])
}

/// Where the first option stands.
fn option_place(words: &[String]) -> Option<usize>
    ensures place { result ≡ position (λ word. is_option (string_bytes word)) words.now }
    ensures within { IfSome result (λ place. place < length words.now) }
{
    words.iter().position(|word| is_option(word.as_bytes()))
}

/// The operands of these words, and the option that stands first among them.
pub(crate) fn given_of(words: &[String]) -> Result<Given, Cause>
    ensures { result ≡ given_of (map string_bytes words.now) }
{
    match option_place(words) {
        Some(place) => {
            let word = words[place].as_bytes();
            given_with(&words[..place], word, &words[place + 1..])
        }
        None => Ok(Given {
            operands: Operands::of(words, &[]),
            arrivals: None,
        }),
    }
}

/// The words before an option, its word, and those after it.
#[tactic(auto, unfolding(crate::specs::Given::given_with))]
fn given_with<'a>(
    before: &'a [String],
    word: &[u8],
    after: &'a [String],
) -> Result<Given<'a>, Cause>
    ensures { result ≡ given_with (map string_bytes before.now) word.now (map string_bytes after.now) }
{
    if word == b"--arrivals".as_slice() {
        with_next(before, after)
    } else {
        with_own(before, word, after)
    }
}

/// The number of arrivals in the word behind the option.
fn with_next<'a>(before: &'a [String], after: &'a [String]) -> Result<Given<'a>, Cause>
    ensures { result ≡ with_next (map string_bytes before.now) (map string_bytes after.now) }
{
    let (word, rest) = first_word(after);
    Ok(Given {
        arrivals: Some(arrivals_of(word)?),
        operands: Operands::of(before, rest),
    })
}

/// The number of arrivals in the word of the option.
fn with_own<'a>(before: &'a [String], word: &[u8], after: &'a [String]) -> Result<Given<'a>, Cause>
    ensures { result ≡ with_own (map string_bytes before.now) word.now (map string_bytes after.now) }
{
    let Some(number) = word.strip_prefix(b"--arrivals=") else {
        return Err(Cause::BadWord);
    };
    Ok(Given {
        arrivals: Some(arrivals_of(number)?),
        operands: Operands::of(before, after),
    })
}

/// The number of arrivals that the word prints.
fn arrivals_of(word: &[u8]) -> Result<u32, Cause>
    ensures { result ≡ arrivals_of word.now }
{
    read_u32(word, 1, MAX_COUNT)
}
