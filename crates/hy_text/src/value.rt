//! Values in a text: two digits of lower-case hexadecimal for each byte, and a dash for the empty value.

ghost use Rattle.std.specs.Prelude.{◌≡◌, ◌<◌, ◌++◌, ◌/◌, IfOk, OnOk, OnErr, length, true};
ghost use Rattle.std.specs.List.{list_all};
ghost use Rattle.hy_text.specs.Slot.{is_lower_digit, is_hex_text, hex_value, hex_bytes, value_of, value_word};
ghost use Rattle.hy_text.specs.Gives.{Gives};

use crate::error::LineError;
use hy_base::{Blob, Cause, NoMemory};
use std::alloc::{AllocError, Global};

/// Whether the byte is a digit in lower-case hexadecimal.
fn is_digit(byte: u8) -> bool
    ensures { result ≡ is_lower_digit byte }
{
    matches!(byte, b'0'..=b'9' | b'a'..=b'f')
}

/// Whether the word has digits in lower-case hexadecimal alone.
///
/// It looks at each byte and leaves at none, so that the loop can take many bytes at once.
fn has_digits(word: &[u8]) -> bool
    ensures { result ≡ list_all is_lower_digit word.now }
{
    let mut all = true;
    for byte in word {
        all &= is_digit(*byte);
    }
    all
}

/// Whether the word is one pair of digits or more.
fn is_hex(word: &[u8]) -> bool
    ensures { result ≡ is_hex_text word.now }
{
    !word.is_empty() && word.len() % 2 == 0 && has_digits(word)
}

/// The value of a digit, taken without a branch: a letter is 64 or above.
fn digit_value(digit: u8) -> u8
    requires { is_lower_digit digit ≡ true }
    ensures value { result ≡ hex_value digit }
    ensures small { result < 16 }
{
    digit % 16 + digit / 64 * 9
}

/// The bytes of pairs of digits.
fn paired_bytes(alloc: Global, digits: &[u8]) -> Result<Vec<u8>, AllocError>
    requires { list_all is_lower_digit digits.now ≡ true }
    ensures { IfOk result (λ bytes. bytes.items ≡ hex_bytes digits.now) }
{
    let mut bytes = vec![in alloc; 0u8; digits.len() / 2]?;
    write_pairs(digits, bytes.as_mut_slice());
    Ok(bytes)
}

/// Writes the byte of each pair of digits to its place.
fn write_pairs(digits: &[u8], bytes: &mut [u8])
    requires digits { list_all is_lower_digit digits.now ≡ true }
    requires pairs { length bytes.old ≡ length digits.now / 2 }
    ensures { bytes.new ≡ hex_bytes digits.now }
{
    for place in 0..bytes.len() {
        let high = digit_value(digits[2 * place]);
        let low = digit_value(digits[2 * place + 1]);
        bytes[place] = high * 16 + low;
    }
}

/// The value of at most `limit` bytes that the word prints.
pub fn read_value(alloc: Global, word: &[u8], limit: usize) -> Result<Blob, LineError>
    ensures { Gives result (value_of limit word.now) }
{
    if word == b"-".as_slice() {
        return Ok(Blob::of(Vec::new(alloc)));
    }
    if !is_hex(word) {
        return Err(LineError::Bad(Cause::BadHex));
    }
    if word.len() / 2 > limit {
        return Err(LineError::Bad(Cause::LongValue));
    }
    Ok(Blob::of(paired_bytes(alloc, word)?))
}

/// Appends the printed form of the value.
pub fn push_value(out: &mut Vec<u8>, value: &[u8]) -> Result<(), NoMemory>
    ensures ok { OnOk result (out.new.items ≡ out.old.items ++ value_word value.now) }
    ensures err { OnErr result (out.new.items ≡ out.old.items) }
{
    if value.is_empty() {
        out.push(b'-')?;
        return Ok(());
    }
    let digits = hex::encode(*out.allocator(), value)?;
    out.extend_from_slice(digits.as_bytes())?;
    Ok(())
}
