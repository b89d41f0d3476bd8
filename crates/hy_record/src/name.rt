//! The names under which clouds hold fragments.

ghost use Rattle.std.specs.Prelude.{◌≡◌, ◌<◌, ◌^◌, ◌++◌, ℕ, List, IsTrue, IsSome, IfSome, IfOk, OnOk, Some, length};
ghost use Rattle.hy_record.specs.Stamp.{Timestamp, IsStamp};
ghost use Rattle.hy_record.specs.Key.{is_key};
ghost use Rattle.hy_record.specs.Name.{hex_number, name_text, object_name};

use crate::key::Key;
use crate::stamp::Stamp;
use byteorder::{BigEndian, ByteOrder};
use hy_base::{Blob, NoMemory};
use std::alloc::Global;

/// The name of what a write of this timestamp stored under the key: `/o/<key>/<sn><cid>`, each number in eight hexadecimal digits.
///
/// The key stands as it is, also where it is `.` or `..`.
pub fn name_of(alloc: Global, key: &Key, stamp: Stamp) -> Result<Blob, NoMemory>
    ensures { IfOk result (λ name. name ≡ object_name key.now stamp) }
{
    let mut name = Vec::from_slice(alloc, b"/o/")?;
    name.extend_from_slice(key.bytes())?;
    name.push(b'/')?;
    push_number(&mut name, stamp.sn())?;
    push_number(&mut name, stamp.cid())?;
    Ok(Blob::of(name))
}

/// Writes the number at the end, in eight digits.
#[tactic(auto, unfolding(crate::specs::Name::hex_number))]
fn push_number(out: &mut Vec<u8>, number: u32) -> Result<(), NoMemory>
    ensures { OnOk result (out.new.items ≡ out.old.items ++ hex_number number) }
{
    out.extend_from_slice(&digits_of(number))?;
    Ok(())
}

/// The number in eight digits.
#[tactic(auto, unfolding(crate::specs::Name::hex_number))]
fn digits_of(number: u32) -> [u8; 8]
    ensures { result ≡ hex_number number }
{
    let mut bytes = [0; 4];
    BigEndian::write_u32(&mut bytes, number);
    let mut digits = [0; 8];
    hex::encode_to_slice(bytes.as_slice(), &mut digits).unwrap();
    digits
}

/// The number that the eight digits spell.
fn number_of(digits: &[u8]) -> Option<u32>
    ensures found { IfSome result (λ n. digits.now ≡ hex_number n) }
    ensures only { (n : ℕ) → n < 2 ^ 32 → digits.now ≡ hex_number n → result ≡ Some n }
{
    let mut bytes = [0; 4];
    hex::decode_to_slice(digits, &mut bytes).ok()?;
    let number = BigEndian::read_u32(&bytes);
    if digits_of(number).as_slice() == digits {
        Some(number)
    } else {
        None
    }
}

/// The key and the digits of the two numbers.
fn parts_of(text: &[u8]) -> Option<(&[u8], &[u8], &[u8])>
    ensures found { IfSome result (λ p. text.now ≡ name_text p.0.now p.1.now p.2.now) }
    ensures sizes { IfSome result (λ p. (length p.1.now ≡ 8) × (length p.2.now ≡ 8)) }
    ensures only { (key sn cid : List ℕ) → length sn ≡ 8 → length cid ≡ 8 → text.now ≡ name_text key sn cid → IsSome result }
{
    let rest = text.strip_prefix(b"/o/")?;
    let (front, cid) = rest.split_last_chunk::<8>()?;
    let (front, sn) = front.split_last_chunk::<8>()?;
    let key = front.strip_suffix(b"/")?;
    Some((key, sn, cid))
}

/// The key and the timestamp that have this name.
pub fn read_name(text: &[u8]) -> Option<(Key, Stamp)>
    ensures found { IfSome result (λ p. text.now ≡ object_name p.0 p.1) }
    ensures only { (key : List ℕ) (stamp : Timestamp) → IsTrue (is_key key) → IsStamp stamp → text.now ≡ object_name key stamp → result ≡ Some (key, stamp) }
{
    let (key, sn, cid) = parts_of(text)?;
    let key = Key::read(key).ok()?;
    let sn = number_of(sn)?;
    let cid = number_of(cid)?;
    let stamp = Stamp::new(sn, cid)?;
    Some((key, stamp))
}
