//! Sets of clouds in a text: their numbers in increasing order with commas between, or a dash.

ghost use Rattle.std.specs.Prelude.{◌≡◌, ◌==◌, ◌<◌, ◌++◌, ◌∷◌, IfOk, OnOk, map};
ghost use Rattle.std.specs.Fmt.{decimal};
ghost use Rattle.hy_record.specs.Clouds.{clouds_of};
ghost use Rattle.hy_text.specs.Clouds.{as_set, cloud_set_of, cloud_word, rising_of};
ghost use Rattle.hy_text.specs.Line.{led_by};

use crate::number::read_u32;
use crate::word::Words;
use crate::writing::{push_number_word, push_numbers, push_word};
use hy_base::{Cause, MAX_CLOUDS, NoMemory};
use std::alloc::Global;

/// The set of clouds up to the last whose list the word is: bit i is cloud i.
#[tactic(auto, unfolding(crate::specs::Clouds::cloud_list_of))]
pub fn read_clouds(word: &[u8], last: u32) -> Result<u16, Cause>
    requires { last < MAX_CLOUDS }
    ensures { result ≡ cloud_set_of last word.now }
{
    if word == b"-".as_slice() {
        return Ok(0);
    }
    read_rising(&mut Words::split(word, b','), last)
}

/// The set of the numbers that all words print which are left, each above the one before it.
fn read_rising(words: &mut Words, last: u32) -> Result<u16, Cause>
    requires { last < MAX_CLOUDS }
    ensures { result ≡ as_set (rising_of 0 last words.old) }
{
    let mut clouds: u16 = 0;
    let mut least = 0;
    while words.end().is_err() {
        let cloud = read_u32(words.next_word(), least, last)?;
        clouds += 1 << cloud;
        least = cloud + 1;
    }
    Ok(clouds)
}

/// Appends a space and the list of the clouds of the set.
pub fn push_clouds(out: &mut Vec<u8>, clouds: u16) -> Result<(), NoMemory>
    ensures { OnOk result (out.new.items ≡ out.old.items ++ 32 ∷ cloud_word (clouds_of clouds)) }
{
    let clouds = cloud_numbers(*out.allocator(), clouds)?;
    push_cloud_list(out, &clouds)
}

/// Appends a space and the numbers with commas between, or a dash where there is none.
fn push_cloud_list(out: &mut Vec<u8>, clouds: &[u32]) -> Result<(), NoMemory>
    ensures { OnOk result (out.new.items ≡ out.old.items ++ 32 ∷ cloud_word clouds.now) }
{
    let Some((first, rest)) = clouds.split_first() else {
        return push_word(out, b"-");
    };
    push_number_word(out, u64::from(*first))?;
    push_numbers(out, b',', rest)?;
    Ok(())
}

/// The numbers of the clouds of the set, in increasing order.
fn cloud_numbers(alloc: Global, clouds: u16) -> Result<Vec<u32>, NoMemory>
    ensures { IfOk result (λ numbers. numbers.items ≡ clouds_of clouds) }
{
    let mut numbers = Vec::new(alloc);
    for cloud in 0..u32::from(MAX_CLOUDS) {
        if (clouds >> cloud) % 2 == 1 {
            numbers.push(cloud)?;
        }
    }
    Ok(numbers)
}
