//! Words that are written after the first of a line, each with a space before it.
//!
//! Where memory runs out, a front of what is written was appended.

ghost use Rattle.std.specs.Prelude.{◌≡◌, ◌∷◌, ◌++◌, OnOk, map};
ghost use Rattle.std.specs.Fmt.{decimal};
ghost use Rattle.hy_text.specs.Line.{led_by};
ghost use Rattle.hy_text.specs.Slot.{value_word};

use crate::number::push_number;
use crate::value::push_value;
use hy_base::NoMemory;

/// Appends a space and the word.
pub fn push_word(out: &mut Vec<u8>, word: &[u8]) -> Result<(), NoMemory>
    ensures { OnOk result (out.new.items ≡ out.old.items ++ 32 ∷ word.now) }
{
    out.push(b' ')?;
    out.extend_from_slice(word)?;
    Ok(())
}

/// Appends a space and the number.
pub fn push_number_word(out: &mut Vec<u8>, number: u64) -> Result<(), NoMemory>
    ensures { OnOk result (out.new.items ≡ out.old.items ++ 32 ∷ decimal number) }
{
    out.push(b' ')?;
    push_number(out, number)?;
    Ok(())
}

/// Appends a space and the value.
pub fn push_value_word(out: &mut Vec<u8>, value: &[u8]) -> Result<(), NoMemory>
    ensures { OnOk result (out.new.items ≡ out.old.items ++ 32 ∷ value_word value.now) }
{
    out.push(b' ')?;
    push_value(out, value)?;
    Ok(())
}

/// Appends each number with the separator before it.
pub fn push_numbers(out: &mut Vec<u8>, separator: u8, numbers: &[u32]) -> Result<(), NoMemory>
    ensures { OnOk result (out.new.items ≡ out.old.items ++ led_by separator (map decimal numbers.now)) }
{
    for number in numbers {
        out.push(separator)?;
        push_number(out, u64::from(*number))?;
    }
    Ok(())
}
