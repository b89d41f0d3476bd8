//! Numbers in a text: decimal digits without leading zeros.

ghost use Rattle.std.specs.Prelude.{◌≡◌, ◌+◌, ◌*◌, ◌^◌, ◌<◌, ◌≤◌, ◌++◌, ◌↔◌, IfOk, IsTrue, OnOk, OnErr, length, slice_index};
ghost use Rattle.std.specs.Char.{digit_value};
ghost use Rattle.std.specs.Fmt.{decimal};
ghost use Rattle.std.specs.Option.{SomeIff};
ghost use Rattle.std.specs.Str.Parse.{digits_value, AllDigits};
ghost use Rattle.hy_text.specs.Slot.{number_of};

use hy_base::{Cause, NoMemory};
use itoa::Buffer;

/// The number with one more digit, where the byte is a digit and the number has at most 64 bits.
fn with_digit(number: u64, byte: u8) -> Option<u64>
    ensures { SomeIff result ((digit_value byte < 10) × (number * 10 + digit_value byte < 2 ^ 64))
        (number * 10 + digit_value byte) }
{
    if !byte.is_ascii_digit() {
        return None;
    }
    number.checked_mul(10)?.checked_add(u64::from(byte - b'0'))
}

/// The number that the digits write, where the word has digits alone and the number has at most 64 bits.
fn digits_number(word: &[u8]) -> Option<u64>
    ensures { SomeIff result (AllDigits 10 word.now × (digits_value 10 word.now < 2 ^ 64)) (digits_value 10 word.now) }
{
    let mut number: u64 = 0;
    for byte in word {
        number = with_digit(number, *byte)?;
    }
    Some(number)
}

/// Whether the word is not empty, and has a zero in front only where it is one byte long.
fn is_plain(word: &[u8]) -> bool
    ensures { IsTrue result ↔ ((0 < length word.now) × (slice_index word.now 0 ≡ 48 → length word.now ≡ 1)) }
{
    match word {
        [] => false,
        [_] => true,
        [first, ..] => *first != b'0',
    }
}

/// The number from `low` to `high` that the word prints.
pub fn read_number(word: &[u8], low: u64, high: u64) -> Result<u64, Cause>
    ensures value { result ≡ number_of low high word.now }
    ensures range { IfOk result (λ number. (low ≤ number) × (number ≤ high)) }
{
    match digits_number(word) {
        Some(number) if is_plain(word) && low <= number && number <= high => Ok(number),
        _ => Err(Cause::BadNumber),
    }
}

/// The number from `low` to `high` that the word prints, where both have 32 bits.
pub fn read_u32(word: &[u8], low: u32, high: u32) -> Result<u32, Cause>
    ensures value { result ≡ number_of low high word.now }
    ensures range { IfOk result (λ number. (low ≤ number) × (number ≤ high)) }
{
    let number = read_number(word, u64::from(low), u64::from(high))?;
    Ok(number as u32)
}

/// Appends the printed form of the number.
pub fn push_number(out: &mut Vec<u8>, number: u64) -> Result<(), NoMemory>
    ensures ok { OnOk result (out.new.items ≡ out.old.items ++ decimal number) }
    ensures err { OnErr result (out.new.items ≡ out.old.items) }
{
    let mut digits = Buffer::new();
    out.extend_from_slice(digits.format(number).as_bytes())?;
    Ok(())
}
