//! Vectors of 32 bytes, lane by lane.

ghost use Rattle.std.specs.Prelude.{◌≡◌, ◌+◌, ◌*◌, ◌/◌, ◌%◌, ◌≤◌, length, slice_index};
ghost use Rattle.std.specs.Simd.Lanes.{chunk, put_chunk, zip2};
ghost use Rattle.hy_gf.specs.Gf.{gf_sum, gf_product};
ghost use Rattle.hy_gf.specs.Lanes.{HasLanes};

use crate::gf::REDUCTION;
use std::simd::prelude::*;

/// The bytes from a place on.
#[inline(always)]
pub(crate) fn loaded(bytes: &[u8], place: usize) -> u8x32
    requires { place + 32 ≤ length bytes.now }
    ensures { HasLanes result (λ k. slice_index bytes.now (place + k)) }
{
    u8x32::from_slice(&bytes[place..])
}

/// Adds the lanes to the bytes from a place on.
#[inline(always)]
pub(crate) fn add_lanes(lanes: u8x32, place: usize, bytes: &mut [u8])
    requires { place + 32 ≤ length bytes.old }
    ensures { bytes.new ≡ put_chunk place bytes.old (zip2 gf_sum (chunk place 32 bytes.old) lanes) }
{
    let sums = u8x32::from_slice(&bytes[place..]) ^ lanes;
    sums.copy_to_slice(&mut bytes[place..]);
}

/// The sums, lane by lane.
#[inline(always)]
pub(crate) fn sums(a: u8x32, b: u8x32) -> u8x32
    ensures { HasLanes result (λ k. gf_sum (slice_index a k) (slice_index b k)) }
{
    a ^ b
}

/// The products with x, lane by lane.
#[inline(always)]
pub(crate) fn doubled_lanes(lanes: u8x32) -> u8x32
    ensures { HasLanes result (λ k. gf_product 2 (slice_index lanes k)) }
{
    let reduction = lanes
        .simd_ge(u8x32::splat(128))
        .select(u8x32::splat(REDUCTION), u8x32::splat(0));
    (lanes + lanes) ^ reduction
}

/// The table, once in each half of the lanes.
#[inline(always)]
pub(crate) fn twice(table: &[u8; 16]) -> u8x32
    ensures { HasLanes result (λ k. slice_index table.now (k % 16)) }
{
    u8x16::from_slice(table).swizzle([
        0, 1, 2, 3, 4, 5, 6, 7, 8, 9, 10, 11, 12, 13, 14, 15, 0, 1, 2, 3, 4, 5, 6, 7, 8, 9, 10, 11,
        12, 13, 14, 15,
    ])
}

/// The entries of a table, which stands in both halves of its lanes, at the lower four bits of each lane.
#[inline(always)]
pub(crate) fn by_lower_half(table: u8x32, lanes: u8x32) -> u8x32
    ensures { HasLanes result (λ k. slice_index table (16 * (k / 16) + slice_index lanes k % 16)) }
{
    table.swizzle_dyn_within::<16>(lanes & u8x32::splat(15))
}

/// The same at the upper four bits.
#[inline(always)]
pub(crate) fn by_upper_half(table: u8x32, lanes: u8x32) -> u8x32
    ensures { HasLanes result (λ k. slice_index table (16 * (k / 16) + slice_index lanes k / 16)) }
{
    table.swizzle_dyn_within::<16>(lanes >> u8x32::splat(4))
}
