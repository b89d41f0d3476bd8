//! Keys, under which values are stored.

ghost use Rattle.std.specs.Prelude.{◌≡◌, ◌==◌, ◌-◌, ◌≤◌, ◌++◌, IsTrue, length, drop, replicate};
ghost use Rattle.std.proofs.Common.{rules};
ghost use Rattle.std.specs.Cmp.{partial_order_from_own_ties};
ghost use Rattle.std.specs.Cmp.Rules.{comparing};
ghost use Rattle.std.specs.Cmp.Lexicographic.{pointwise, slice_cmp};
ghost use Rattle.std.specs.Ordering.{nat_cmp, as_partial_cmp};
ghost use Rattle.hy_record.specs.Key.{key_of, key_eq, is_key, is_key_byte, first_bad_byte, is_cell};

use hy_base::MAX_KEY;
use std::cmp::Ordering;
use std::marker::Model;

/// A key: 1 to 64 bytes of `a`-`z`, `0`-`9`, `-`, `_` and `.`, ordered byte by byte.
#[derive(Clone, Copy, Debug)]
pub struct Key {
    held: [u8; MAX_KEY],
    len: u8,
}

/// Why a text is no key.
#[derive(Clone, Copy, Debug, PartialEq, Eq)]
pub enum KeyFault {
    /// It is empty.
    Empty,
    /// It has so many bytes, more than a key may have.
    TooLong(usize),
    /// The byte at this place, the first such, is not one of a key.
    BadByte(usize),
}

impl Model for Key {
    ghost use Rattle.std.specs.Prelude.{List, ℕ};
    ghost use Rattle.hy_record.specs.HeldKey.{bytes_of, held_of, IsHeld, held_of-bytes_of};

    ghost Value = { List ℕ };

    ghost view = { bytes_of };

    ghost invariant = { IsHeld };

    ghost inverse = { held_of };

    ghost inverse_ok = { held_of-bytes_of };
}

impl Key {
    /// The key that the text spells.
    pub fn read(text: &[u8]) -> Result<Key, KeyFault>
        ensures { result ≡ key_of text.now }
    {
        if text.is_empty() {
            return Err(KeyFault::Empty);
        }
        if text.len() > MAX_KEY {
            return Err(KeyFault::TooLong(text.len()));
        }
        match first_bad_place(text) {
            Some(place) => Err(KeyFault::BadByte(place)),
            None => Ok(Key {
                held: padded(text),
                len: text.len() as u8,
            }),
        }
    }

    /// The bytes that spell the key.
    pub fn bytes(&self) -> &[u8]
        ensures value { result.now ≡ self.now }
        ensures key { IsTrue (is_key self.now) }
    {
        &self.held[..self.len as usize]
    }

    /// Whether the two are one.
    #[tactic(auto, unfolding(crate::specs::Key::key_eq))]
    pub fn is_same(&self, other: &Key) -> bool
        ensures { result ≡ key_eq self.now other.now }
    {
        *self == *other
    }

    /// Whether swaps alone write the key: it begins with an underscore.
    pub fn is_cell(&self) -> bool
        ensures { result ≡ is_cell self.now }
    {
        self.bytes().first() == Some(&b'_')
    }
}

/// The place of the first byte that may not stand in a key.
fn first_bad_place(text: &[u8]) -> Option<usize>
    ensures { result ≡ first_bad_byte text.now }
{
    text.iter().position(|byte| !may_stand(*byte))
}

/// The text, and zeros after it.
fn padded(text: &[u8]) -> [u8; MAX_KEY]
    requires { length text.now ≤ MAX_KEY }
    ensures { result ≡ text.now ++ replicate (MAX_KEY - length text.now) 0 }
{
    let mut held = [0; MAX_KEY];
    write_front(&mut held, text);
    held
}

/// Writes the text over the front of the array.
fn write_front(held: &mut [u8], text: &[u8])
    requires { length text.now ≤ length held.old }
    ensures { held.new ≡ text.now ++ drop (length text.now) held.old }
{
    held[..text.len()].copy_from_slice(text);
}

/// Whether the byte may stand in a key.
fn may_stand(byte: u8) -> bool
    ensures { result ≡ is_key_byte byte }
{
    matches!(byte, b'a'..=b'z' | b'0'..=b'9' | b'-' | b'_' | b'.')
}

impl PartialEq for Key {
    ghost eq = { pointwise ◌==◌ };

    ghost laws = { Prim.search (comparing, rules) };

    fn eq(&self, other: &Key) -> bool {
        self.bytes() == other.bytes()
    }
}

impl Eq for Key {
    ghost laws = { Prim.search (comparing, rules) };
}

impl Ord for Key {
    ghost cmp = { slice_cmp nat_cmp };

    ghost total = { Prim.search (comparing, rules) };

    ghost matches_partial_cmp = { Prim.search (comparing, rules) };

    ghost matches_eq = { Prim.search (comparing, rules) };

    fn cmp(&self, other: &Key) -> Ordering {
        self.bytes().cmp(other.bytes())
    }
}

impl PartialOrd for Key {
    ghost partial_cmp = { as_partial_cmp (slice_cmp nat_cmp) };

    ghost laws = { partial_order_from_own_ties (Prim.search (comparing, rules)) (Prim.search (comparing, rules)) };

    fn partial_cmp(&self, other: &Key) -> Option<Ordering> {
        Some(self.cmp(other))
    }
}
