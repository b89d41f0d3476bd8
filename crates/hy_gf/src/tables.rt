//! The products of a factor with all bytes, by two look-ups.

ghost use Rattle.std.specs.Prelude.{◌≡◌, slice_index};
ghost use Rattle.hy_gf.specs.Gf.{gf_product};
ghost use Rattle.hy_gf.specs.Lanes.{HasLanes};
ghost use Rattle.hy_gf.specs.Tables.{half_products};

use crate::gf::{Gf, doubled};
use crate::lanes::{by_lower_half, by_upper_half, sums, twice};
use std::marker::Model;
use std::simd::prelude::*;

/// A factor, which contracts see as its byte, with its products with each half of a byte.
#[derive(Debug, Drop)]
pub struct Tables {
    factor: Gf,
    low: [u8; 16],
    high: [u8; 16],
}

impl Model for Tables {
    ghost use Rattle.std.specs.Prelude.{ℕ};
    ghost use Rattle.hy_gf.specs.Tables.{AreTables};

    ghost Value = { ℕ };

    ghost view = { λ tables. tables.factor };

    ghost invariant = { λ tables. AreTables tables.factor tables.low tables.high };
}

impl Tables {
    /// The tables of a factor.
    pub fn of(factor: Gf) -> Tables
        ensures { result ≡ factor }
    {
        Tables {
            factor,
            low: half_products(factor),
            high: half_products(factor.times(Gf::of(16))),
        }
    }

    /// The product of the factor and a byte: the sum of its products with the byte's halves.
    pub fn times(&self, byte: u8) -> u8
        ensures { result ≡ gf_product self.now byte }
    {
        self.low[(byte % 16) as usize] ^ self.high[(byte / 16) as usize]
    }

    /// The products of the factor, lane by lane.
    #[inline(always)]
    pub(crate) fn lanes(&self, lanes: u8x32) -> u8x32
        ensures { HasLanes result (λ k. gf_product self.now (slice_index lanes k)) }
    {
        let lower = by_lower_half(twice(&self.low), lanes);
        let upper = by_upper_half(twice(&self.high), lanes);
        sums(lower, upper)
    }
}

/// The products of a factor with the elements below 16.
fn half_products(factor: Gf) -> [u8; 16]
    ensures { result ≡ half_products factor }
{
    let one = factor.byte();
    let two = doubled(one);
    let four = doubled(two);
    let eight = doubled(four);
    let three = one ^ two;
    let twelve = four ^ eight;
    [
        0,
        one,
        two,
        three,
        four,
        four ^ one,
        four ^ two,
        four ^ three,
        eight,
        eight ^ one,
        eight ^ two,
        eight ^ three,
        twelve,
        twelve ^ one,
        twelve ^ two,
        twelve ^ three,
    ]
}
