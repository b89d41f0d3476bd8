//! Worked values of the hash, of the field, and of the erasure code.

ghost use Rattle.std.specs.Prelude.{◌≡◌, ◌++◌, ◌<◌, IfOk, OnOk, length};
ghost use Rattle.hy_text.specs.Line.{spaced};
ghost use Rattle.hy_vectors.specs.Vectors.{four_fragments, four_words, fragments_line, hash_line, inverse_line, product_line, rebuild_line, split_line};

use hy_base::{Blob, NoMemory};
use hy_code::{Fragments, Pick, rebuild, split};
use hy_gf::Gf;
use hy_record::sha;
use hy_text::{push_number_word, push_value_word, push_word};
use std::alloc::Global;

/// Appends the line of the hash of the bytes.
pub(crate) fn push_hash(out: &mut Vec<u8>, bytes: &[u8]) -> Result<(), NoMemory>
    ensures { OnOk result (out.new.items ≡ out.old.items ++ hash_line bytes.now) }
{
    out.extend_from_slice(b"sha256")?;
    push_value_word(out, bytes)?;
    push_value_word(out, sha(bytes).bytes())?;
    out.push(b'\n')?;
    Ok(())
}

/// Appends the line of the product.
pub(crate) fn push_product(out: &mut Vec<u8>, a: u8, b: u8) -> Result<(), NoMemory>
    ensures { OnOk result (out.new.items ≡ out.old.items ++ product_line a b) }
{
    let product = Gf::of(a).times(Gf::of(b));
    out.extend_from_slice(b"times")?;
    push_value_word(out, &[a])?;
    push_value_word(out, &[b])?;
    push_value_word(out, &[product.byte()])?;
    out.push(b'\n')?;
    Ok(())
}

/// Appends the line of the inverse.
pub(crate) fn push_inverse(out: &mut Vec<u8>, a: u8) -> Result<(), NoMemory>
    requires { 0 < a }
    ensures { OnOk result (out.new.items ≡ out.old.items ++ inverse_line a) }
{
    let inverse = Gf::of(a).inverse();
    out.extend_from_slice(b"inverse")?;
    push_value_word(out, &[a])?;
    push_value_word(out, &[inverse.byte()])?;
    out.push(b'\n')?;
    Ok(())
}

/// The fragments of the bytes 1 and 2, cut into two parts for four clouds.
#[tactic(auto, unfolding(crate::specs::Vectors::four_fragments))]
fn four_fragments(alloc: Global) -> Result<Fragments, NoMemory>
    ensures each { IfOk result (λ fragments. fragments ≡ four_fragments) }
    ensures count { IfOk result (λ fragments. length fragments ≡ 4) }
{
    split(alloc, &[1, 2], 2, 4)
}

/// Appends the words of four fragments, each with a space before it.
fn push_four(out: &mut Vec<u8>, fragments: &Fragments) -> Result<(), NoMemory>
    requires { length fragments.now ≡ 4 }
    ensures { OnOk result (out.new.items ≡ out.old.items ++ spaced (four_words fragments.now)) }
{
    push_value_word(out, fragments.get(0))?;
    push_value_word(out, fragments.get(1))?;
    push_value_word(out, fragments.get(2))?;
    push_value_word(out, fragments.get(3))
}

/// Appends the line of the value and these fragments of it.
fn push_fragments(out: &mut Vec<u8>, fragments: &Fragments) -> Result<(), NoMemory>
    requires { length fragments.now ≡ 4 }
    ensures { OnOk result (out.new.items ≡ out.old.items ++ fragments_line fragments.now) }
{
    out.extend_from_slice(b"split")?;
    push_value_word(out, &[1, 2])?;
    push_number_word(out, 2)?;
    push_number_word(out, 4)?;
    push_four(out, fragments)?;
    out.push(b'\n')?;
    Ok(())
}

/// Appends the line of the value and its fragments.
pub(crate) fn push_split(alloc: Global, out: &mut Vec<u8>) -> Result<(), NoMemory>
    ensures { OnOk result (out.new.items ≡ out.old.items ++ split_line) }
{
    let fragments = four_fragments(alloc)?;
    push_fragments(out, &fragments)
}

/// Appends the line of the value that two fragments rebuild.
pub(crate) fn push_rebuild(alloc: Global, out: &mut Vec<u8>) -> Result<(), NoMemory>
    ensures { OnOk result (out.new.items ≡ out.old.items ++ rebuild_line) }
{
    let first = Pick {
        cloud: 2,
        bytes: Blob::copy_of(alloc, &[7])?,
    };
    let second = Pick {
        cloud: 3,
        bytes: Blob::copy_of(alloc, &[4])?,
    };
    let picks = vec![in alloc; first, second]?;
    let Ok(value) = rebuild(alloc, 2, 2, &picks) else {
        return Err(NoMemory);
    };
    out.extend_from_slice(b"rebuild")?;
    push_number_word(out, 2)?;
    push_number_word(out, 2)?;
    push_word(out, b"2:07")?;
    push_word(out, b"3:04")?;
    push_value_word(out, value.bytes())?;
    out.push(b'\n')?;
    Ok(())
}
