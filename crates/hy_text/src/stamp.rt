//! Timestamps in a text: two words, the sequence number and the client.

ghost use Rattle.std.specs.Prelude.{◌≡◌, ◌++◌, OnOk};
ghost use Rattle.hy_text.specs.Gives.{TakesExactly};
ghost use Rattle.hy_text.specs.Line.{spaced};
ghost use Rattle.hy_text.specs.Stamp.{stamp_from, stamp_words};

use crate::number::read_u32;
use crate::word::Words;
use crate::writing::push_number_word;
use hy_base::{Cause, MAX_SN, NoMemory};
use hy_record::Stamp;

/// The timestamp that the next two words print: both numbers are from `least` on, and the client is
/// at most `last`.
#[tactic(auto, unfolding(crate::specs::Stamp::stamp_from))]
pub fn read_stamp(words: &mut Words, least: u32, last: u32) -> Result<Stamp, Cause>
    ensures { TakesExactly result words.new (stamp_from least last words.old) }
{
    let sn = read_u32(words.next_word(), least, MAX_SN)?;
    let cid = read_u32(words.next_word(), least, last)?;
    Ok(Stamp::new(sn, cid).unwrap())
}

/// Appends the words of the timestamp, each with a space before it.
pub fn push_stamp(out: &mut Vec<u8>, stamp: &Stamp) -> Result<(), NoMemory>
    ensures { OnOk result (out.new.items ≡ out.old.items ++ spaced (stamp_words stamp.now)) }
{
    push_number_word(out, stamp.sn().into())?;
    push_number_word(out, stamp.cid().into())
}
