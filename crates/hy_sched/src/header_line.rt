//! The first line of a schedule: the parameters of the store.

ghost use Rattle.std.specs.Prelude.{◌≡◌, ◌≤◌, IfOk};
ghost use Rattle.hy_text.specs.Gives.{TakesExactly};
ghost use Rattle.hy_sched.specs.Reading.{header_of, named_number, params_of_words};

use crate::params::Params;
use hy_base::{Cause, MAX_F, MAX_K, cloud_count};
use hy_text::{LineError, LineKind, Words, read_clouds, read_keyword, read_u32};
use std::alloc::Global;
use std::marker::Model;

/// The first line.
#[derive(Drop)]
pub(crate) struct HeaderLine {}

impl Model for HeaderLine {
    ghost Value = { Unit {0} };

    ghost view = { λ line. tt };
}

impl LineKind for HeaderLine {
    ghost use Rattle.hy_sched.specs.Reading.{header_line};

    type Item = Params;

    ghost kind = { header_line };

    fn is_due(&self, _keyword: &[u8]) -> bool {
        true
    }

    fn read(
        &mut self,
        _alloc: Global,
        keyword: &[u8],
        words: &mut Words,
    ) -> Result<Params, LineError> {
        let params = read_header(keyword, words)?;
        Ok(params)
    }
}

/// The parameters that the first line tells: its first two words are judged before the rest.
#[tactic(auto, unfolding(crate::specs::Reading::header_of))]
fn read_header(keyword: &[u8], words: &mut Words) -> Result<Params, Cause>
    ensures { result ≡ header_of keyword.now words.old }
{
    let version = words.next_word();
    if keyword == b"hybris".as_slice() && version == b"1".as_slice() {
        read_params(words).map_err(|_| Cause::BadParams)
    } else {
        Err(Cause::NoHeader)
    }
}

/// The parameters of a store.
#[tactic(auto, unfolding(crate::specs::Reading::params_of_words))]
fn read_params(words: &mut Words) -> Result<Params, Cause>
    ensures { result ≡ params_of_words words.old }
{
    let f = read_named_number(words, b"f", 0, MAX_F)?;
    let k = read_named_number(words, b"k", 1, MAX_K)?;
    read_keyword(words.next_word(), b"liars")?;
    let liars = read_clouds(words.next_word(), u32::from(cloud_count(f, k)) - 1)?;
    words.end()?;
    Ok(Params { f, k, liars })
}

/// The number from `low` to `high` after its name.
#[tactic(auto, unfolding(crate::specs::Reading::named_number))]
fn read_named_number(words: &mut Words, name: &[u8], low: u8, high: u8) -> Result<u8, Cause>
    ensures value { TakesExactly result words.new (named_number name.now low high words.old) }
    ensures range { IfOk result (λ number. (low ≤ number) × (number ≤ high)) }
{
    read_keyword(words.next_word(), name)?;
    let number = read_u32(words.next_word(), low.into(), high.into())?;
    Ok(number as u8)
}
