//! Products of a row, as rows that can be added.

ghost use Rattle.std.specs.Prelude.{◌≡◌, length, min, slice_index};
ghost use Rattle.hy_gf.specs.Gf.{gf_sum, gf_product};
ghost use Rattle.hy_gf.specs.Lanes.{HasLanes};

use crate::gf::Gf;
use crate::lanes::{doubled_lanes, loaded, sums};
use crate::tables::Tables;
use crate::terms::Terms;
use std::simd::prelude::*;

/// The row itself, which is its product with 1.
#[derive(Drop)]
pub(crate) struct Once<'a> {
    pub(crate) row: &'a [u8],
}

/// A row times a factor, by look-ups.
#[derive(Drop)]
pub(crate) struct Looked<'a> {
    pub(crate) row: &'a [u8],
    pub(crate) tables: Tables,
}

/// A row times a factor, by eight doublings, after which the factor's bits say whether the row is added.
#[derive(Drop)]
pub(crate) struct Doubled<'a> {
    pub(crate) row: &'a [u8],
    pub(crate) factor: Gf,
}

/// The sum of two rows.
#[derive(Drop)]
pub(crate) struct Both<A, B> {
    pub(crate) first: A,
    pub(crate) second: B,
}

impl Terms for Once<'_> {
    ghost count = { λ once. length once.row.now };

    ghost term = { λ once place. slice_index once.row.now place };

    #[inline(always)]
    fn byte(&self, place: usize) -> u8 {
        self.row[place]
    }

    #[inline(always)]
    fn lanes(&self, place: usize) -> u8x32 {
        loaded(self.row, place)
    }
}

impl Terms for Looked<'_> {
    ghost count = { λ looked. length looked.row.now };

    ghost term = { λ looked place. gf_product looked.tables (slice_index looked.row.now place) };

    #[inline(always)]
    fn byte(&self, place: usize) -> u8 {
        self.tables.times(self.row[place])
    }

    #[inline(always)]
    fn lanes(&self, place: usize) -> u8x32 {
        self.tables.lanes(loaded(self.row, place))
    }
}

impl Terms for Doubled<'_> {
    ghost count = { λ doubled. length doubled.row.now };

    ghost term = { λ doubled place. gf_product doubled.factor (slice_index doubled.row.now place) };

    #[inline(always)]
    fn byte(&self, place: usize) -> u8 {
        self.factor.times(Gf::of(self.row[place])).byte()
    }

    #[inline(always)]
    fn lanes(&self, place: usize) -> u8x32 {
        times_by_doubling(self.factor, loaded(self.row, place))
    }
}

impl<A: Terms, B: Terms> Terms for Both<A, B> {
    ghost count = { λ both. min (A.count both.first) (B.count both.second) };

    ghost term = { λ both place. gf_sum (A.term both.first place) (B.term both.second place) };

    #[inline(always)]
    fn byte(&self, place: usize) -> u8 {
        self.first.byte(place) ^ self.second.byte(place)
    }

    #[inline(always)]
    fn lanes(&self, place: usize) -> u8x32 {
        sums(self.first.lanes(place), self.second.lanes(place))
    }
}

/// The products of the factor, lane by lane.
#[inline(always)]
fn times_by_doubling(factor: Gf, lanes: u8x32) -> u8x32
    ensures { HasLanes result (λ k. gf_product factor (slice_index lanes k)) }
{
    let mut products = u8x32::splat(0);
    for power in (0..8u32).rev() {
        products = doubled_lanes(products);
        if (factor.byte() >> power) & 1 == 1 {
            products = sums(products, lanes);
        }
    }
    products
}
