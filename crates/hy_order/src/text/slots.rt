//! The words of a report that stand in lines of several kinds: what a next number, a key, a timestamp or a set of clouds may be.

ghost use Rattle.std.specs.Prelude.{◌≡◌, ◌+◌, ◌<◌, ◌^◌, ◌≤◌, IfOk, MatchOption, None, Some};
ghost use Rattle.std.specs.Option.{option_copied};
ghost use Rattle.hy_text.specs.Gives.{Gives, TakesExactly};
ghost use Rattle.hy_order.specs.WordReaders.{
  number_after,
  due_key,
  is_above,
  key_above,
  store_clouds_of,
  any_stamp_from,
  numbers_of,
};

use hy_base::{Cause, MAX_COUNT, MAX_N, Numbers};
use hy_record::{Key, Stamp};
use hy_text::{LineError, Words, read_clouds, read_key, read_number, read_stamp, read_u32};
use std::alloc::Global;

/// The number after the last one.
pub(crate) fn read_number_after(last: u32, word: &[u8]) -> Result<u32, Cause>
    ensures value { result ≡ number_after last word.now }
    ensures next { IfOk result (λ number. number ≡ last + 1) }
{
    let next = u64::from(last) + 1;
    let number = read_number(word, next, next.min(u64::from(MAX_COUNT)))?;
    Ok(number as u32)
}

/// The key that is due.
pub(crate) fn read_due_key(key: &Key, word: &[u8]) -> Result<(), Cause>
    ensures { result ≡ due_key key.now word.now }
{
    if word == key.bytes() {
        Ok(())
    } else {
        Err(Cause::BadKey)
    }
}

/// Whether the key is above the last one, where there is one.
fn is_above(last: Option<Key>, key: &Key) -> bool
    ensures { result ≡ is_above last key.now }
{
    match last {
        None => true,
        Some(last) => last < *key,
    }
}

/// A key above the last one.
pub(crate) fn read_key_above(last: Option<Key>, word: &[u8]) -> Result<Key, Cause>
    ensures { result ≡ key_above last word.now }
{
    let key = read_key(word)?;
    if is_above(last, &key) {
        Ok(key)
    } else {
        Err(Cause::BadKey)
    }
}

/// The timestamp that the next two words print.
#[inline(always)]
pub(crate) fn read_any_stamp(words: &mut Words) -> Result<Stamp, Cause>
    ensures { TakesExactly result words.new (any_stamp_from words.old) }
{
    read_stamp(words, 0, MAX_COUNT)
}

/// The set of clouds of a store whose list is the word.
pub(crate) fn read_store_clouds(word: &[u8]) -> Result<u16, Cause>
    ensures { result ≡ store_clouds_of word.now }
{
    read_clouds(word, u32::from(MAX_N) - 1)
}

/// The numbers that all words print which are left.
pub(crate) fn read_numbers(alloc: Global, words: &mut Words) -> Result<Numbers, LineError>
    ensures { Gives result (numbers_of words.old) }
{
    let mut numbers = Vec::new(alloc);
    while words.end().is_err() {
        let number = read_u32(words.next_word(), 1, MAX_COUNT)?;
        numbers.push(number)?;
    }
    Ok(Numbers::of(numbers))
}
