//! The text of all worked values.

ghost use Rattle.std.specs.Prelude.{◌≡◌, IfOk};
ghost use Rattle.hy_vectors.specs.Vectors.{vectors_text};

use crate::codes::{push_hash, push_inverse, push_product, push_rebuild, push_split};
use crate::spellings::{push_join, push_name, push_read, push_tomb};
use hy_base::{Blob, NoMemory};
use std::alloc::Global;

/// The worked values, a line each: what a store of another make has to agree with.
pub fn vectors(alloc: Global) -> Result<Blob, NoMemory>
    ensures { IfOk result (λ text. text ≡ vectors_text) }
{
    let mut text = Vec::new(alloc);
    push_hash(&mut text, b"")?;
    push_hash(&mut text, b"abc")?;
    push_product(&mut text, 0x02, 0x80)?;
    push_inverse(&mut text, 0x02)?;
    push_product(&mut text, 0x02, 0x8e)?;
    push_split(alloc, &mut text)?;
    push_rebuild(alloc, &mut text)?;
    push_name(alloc, &mut text)?;
    push_tomb(alloc, &mut text)?;
    push_join(alloc, &mut text)?;
    push_read(alloc, &mut text)?;
    Ok(Blob::of(text))
}
