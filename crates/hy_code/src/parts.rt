//! The parts that a value is cut into.

ghost use Rattle.std.specs.Prelude.{◌≡◌, ◌<◌, ◌≤◌, IfOk, length, take, drop};
ghost use Rattle.hy_code.specs.Fragments.{part_of, parts_of};

use crate::pick::Pick;
use hy_base::{Blob, MAX_N, MAX_VALUE, NoMemory, fragment_size};
use std::alloc::Global;

/// The k parts of a value, each filled up with zeros.
pub(crate) fn parts(alloc: Global, value: &[u8], k: u8) -> Result<Vec<Pick>, NoMemory>
    requires one_part { 1 ≤ k }
    requires parts_fit { k ≤ MAX_N }
    requires size_fits { length value.now ≤ MAX_VALUE }
    ensures { IfOk result (λ parts. parts.items ≡ parts_of value.now k) }
{
    let size = fragment_size(value.len() as u32, k) as usize;
    let mut parts = Vec::with_capacity(alloc, k as usize)?;
    for number in 0..k {
        parts.push(part(alloc, value, size, number)?)?;
    }
    Ok(parts)
}

fn part(alloc: Global, value: &[u8], size: usize, number: u8) -> Result<Pick, NoMemory>
    requires number_fits { number < MAX_N }
    requires size_fits { size ≤ MAX_VALUE }
    ensures { IfOk result (λ pick. pick ≡ part_of value.now size number) }
{
    let start = number as usize * size;
    let mut bytes = Vec::with_capacity(alloc, size)?;
    bytes.extend_from_slice(cut(value, start, size))?;
    bytes.resize(size, 0)?;
    Ok(Pick {
        cloud: number,
        bytes: Blob::of(bytes),
    })
}

/// As many of `size` bytes from `start` on as there are.
fn cut(value: &[u8], start: usize, size: usize) -> &[u8]
    ensures { result.now ≡ take size (drop start value.now) }
{
    if start >= value.len() {
        return &[];
    }
    let rest = &value[start..];
    if size < rest.len() {
        &rest[..size]
    } else {
        rest
    }
}
