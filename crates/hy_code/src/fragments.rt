//! The fragments of a value.

ghost use Rattle.std.specs.Prelude.{◌≡◌, ◌++◌, ◌-◌, ◌<◌, ◌≤◌, ℕ, List, [], IfOk, length, map, slice_index_or, All};
ghost use Rattle.std.specs.List.{range_with_len};
ghost use Rattle.hy_code.specs.Fragments.{clouds, fragment_of, parts_of};
ghost use Rattle.hy_code.specs.Polynomial.{AreDifferent};
ghost use Rattle.hy_base.specs.Shape.{fragment_size as fragment_size_of};

use crate::block::Block;
use crate::parts::parts;
use crate::pick::Pick;
use crate::polynomials::Polynomials;
use hy_base::{MAX_N, MAX_VALUE, NoMemory, fragment_size};
use std::alloc::Global;
use std::marker::Model;

/// One fragment for each cloud, by the clouds' numbers from 0 on.
#[derive(Debug, Drop)]
pub struct Fragments {
    parts: Vec<Pick>,
    others: Block,
}

impl Model for Fragments {
    ghost Value = { List (List ℕ) };

    ghost view = { λ fragments. map (λ pick. pick.bytes) fragments.parts.items ++ fragments.others };
}

impl Fragments {
    /// The fragment for a cloud.
    pub fn get(&self, i: u8) -> &[u8]
        requires { i < length self.now }
        ensures { result.now ≡ slice_index_or self.now i [] }
    {
        let place = i as usize;
        if place < self.parts.len() {
            self.parts[place].bytes.bytes()
        } else {
            self.others.get(place - self.parts.len())
        }
    }
}

/// The fragments of a value for n clouds, of which any k rebuild it. The first k are its parts.
pub fn split(alloc: Global, value: &[u8], k: u8, n: u8) -> Result<Fragments, NoMemory>
    requires one_part { 1 ≤ k }
    requires parts_fit { k ≤ n }
    requires clouds_fit { n ≤ MAX_N }
    requires size_fits { length value.now ≤ MAX_VALUE }
    ensures each { IfOk result (λ fragments. fragments ≡ map (fragment_of value.now k) (range_with_len 0 n)) }
    ensures count { IfOk result (λ fragments. length fragments ≡ n) }
{
    let parts = parts(alloc, value, k)?;
    let others = others(alloc, value, &parts, k, n)?;
    Ok(Fragments { parts, others })
}

/// The fragments for the clouds from k on.
fn others(alloc: Global, value: &[u8], parts: &[Pick], k: u8, n: u8) -> Result<Block, NoMemory>
    requires one_part { 1 ≤ k }
    requires parts_fit { k ≤ n }
    requires size_fits { length value.now ≤ MAX_VALUE }
    requires parts { parts.now ≡ parts_of value.now k }
    requires sizes { All (λ pick. length pick.bytes ≡ fragment_size_of (length value.now) k) parts.now }
    requires different { AreDifferent (clouds parts.now) }
    ensures { IfOk result (λ others. others ≡ map (fragment_of value.now k) (range_with_len k (n - k))) }
{
    let size = fragment_size(value.len() as u32, k) as usize;
    let polynomials = Polynomials::through(alloc, parts)?;
    let count = (n - k) as usize;
    let mut bytes = Vec::with_capacity(alloc, count * size)?;
    for cloud in k..n {
        polynomials.append_row(size, cloud, &mut bytes)?;
    }
    Ok(Block::of(bytes, size, count))
}
