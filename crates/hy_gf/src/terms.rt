//! Rows that are computed while they are added to a row of bytes, 32 bytes at a time.

ghost use Rattle.std.specs.Prelude.{◌≡◌, ℕ, ◌+◌, ◌*◌, ◌<◌, ◌≤◌, length};
ghost use Rattle.hy_gf.specs.Lanes.{HasLanes};
ghost use Rattle.hy_gf.specs.Row.{IsAdded};

use crate::gf::Gf;
use crate::lanes::add_lanes;
use std::simd::prelude::*;

/// A row whose bytes are computed where they are wanted.
pub(crate) trait Terms {
    ghost count: { Self → ℕ };

    ghost term: { Self → ℕ → ℕ };

    /// The byte at a place.
    fn byte(&self, place: usize) -> u8
        requires { place < count self.now }
        ensures { result ≡ term self.now place };

    /// The 32 bytes from a place on.
    fn lanes(&self, place: usize) -> u8x32
        requires { place + 32 ≤ count self.now }
        ensures { HasLanes result (λ k. term self.now (place + k)) };
}

/// Adds the row to the bytes of `out`.
#[inline(always)]
pub(crate) fn add_terms<R: Terms>(terms: &R, out: &mut [u8])
    requires { R.count terms.now ≡ length out.old }
    ensures { IsAdded (R.term terms.now) (length out.old) out.old out.new }
{
    let blocks = out.len() / 32;
    add_blocks(terms, blocks, out);
    for place in 32 * blocks..out.len() {
        out[place] = Gf::of(out[place]).plus(Gf::of(terms.byte(place))).byte();
    }
}

/// Adds the first 32 bytes of the row, so many times.
#[inline(always)]
fn add_blocks<R: Terms>(terms: &R, blocks: usize, out: &mut [u8])
    requires count { R.count terms.now ≡ length out.old }
    requires within { 32 * blocks ≤ length out.old }
    ensures { IsAdded (R.term terms.now) (32 * blocks) out.old out.new }
{
    for block in 0..blocks {
        add_lanes(terms.lanes(32 * block), 32 * block, out);
    }
}
