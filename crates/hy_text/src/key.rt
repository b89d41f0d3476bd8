//! Keys in a text: their bytes as they are.

ghost use Rattle.std.specs.Prelude.{◌≡◌, ◌++◌, OnOk, OnErr};
ghost use Rattle.hy_text.specs.Slot.{key_word};

use hy_base::{Cause, NoMemory};
use hy_record::Key;

/// The key that the word spells.
pub fn read_key(word: &[u8]) -> Result<Key, Cause>
    ensures { result ≡ key_word word.now }
{
    match Key::read(word) {
        Ok(key) => Ok(key),
        Err(_) => Err(Cause::BadKey),
    }
}

/// Appends the printed form of the key.
pub fn push_key(out: &mut Vec<u8>, key: &Key) -> Result<(), NoMemory>
    ensures ok { OnOk result (out.new.items ≡ out.old.items ++ key.now) }
    ensures err { OnErr result (out.new.items ≡ out.old.items) }
{
    out.extend_from_slice(key.bytes())?;
    Ok(())
}
