//! The polynomials through picked bytes, one for each place, and their bytes at other clouds.

ghost use Rattle.std.specs.Prelude.{◌≡◌, ◌==◌, ◌++◌, ◌<◌, ◌^◌, ℕ, [], IfOk, IfSome, OnOk, length, map, replicate, slice_index, slice_index_or, All};
ghost use Rattle.hy_gf.specs.Gf.{gf};
ghost use Rattle.hy_code.specs.Fragments.{clouds, row_at};
ghost use Rattle.hy_code.specs.Points.{ArePoints};
ghost use Rattle.hy_code.specs.Polynomial.{AreDifferent};
ghost use Rattle.hy_code.specs.Weights.{weight as weight_of, scale as scale_of, raised as raised_of};

use crate::pick::Pick;
use hy_base::NoMemory;
use hy_gf::{Gf, Product, mul_add, mul_add_four};
use std::alloc::Global;
use std::marker::Model;

/// The polynomials, which contracts see as the picks, with what the picks' clouds alone decide of each weight.
#[derive(Drop)]
pub(crate) struct Polynomials<'a> {
    picks: &'a [Pick],
    scales: Vec<Gf>,
}

impl<'a> Model for Polynomials<'a> {
    ghost use Rattle.std.specs.Prelude.{List};
    ghost use Rattle.hy_code.specs.declared.pick.Pick.{Pick};
    ghost use Rattle.hy_code.specs.Points.{ArePoints};

    ghost Value = { List Pick };

    ghost view = { λ polynomials. polynomials.picks.now };

    ghost invariant = { λ polynomials. ArePoints polynomials.picks.now polynomials.scales.items };
}

impl<'a> Polynomials<'a> {
    /// The polynomials through picks of different clouds.
    pub(crate) fn through(alloc: Global, picks: &'a [Pick]) -> Result<Polynomials<'a>, NoMemory>
        requires { AreDifferent (clouds picks.now) }
        ensures { IfOk result (λ polynomials. polynomials ≡ picks.now) }
    {
        let mut scales = Vec::with_capacity(alloc, picks.len())?;
        for pick in picks {
            known(pick.bytes.bytes());
            scales.push(scale(picks, pick.cloud))?;
        }
        Ok(Polynomials { picks, scales })
    }

    /// The bytes at a cloud that was picked, which are the pick's: as many as in each pick.
    pub(crate) fn held(&self, size: usize, cloud: u8) -> Option<&'a [u8]>
        requires { All (λ pick. length pick.bytes ≡ size) self.now }
        ensures { IfSome result (λ bytes. bytes.now ≡ row_at size self.now cloud) }
    {
        for pick in self.picks {
            if pick.cloud == cloud {
                return Some(pick.bytes.bytes());
            }
        }
        None
    }

    /// Appends the bytes at a cloud, as many as in each pick.
    pub(crate) fn append_row(
        &self,
        size: usize,
        cloud: u8,
        out: &mut Vec<u8>,
    ) -> Result<(), NoMemory>
        requires small { size < 2 ^ 32 }
        requires sizes { All (λ pick. length pick.bytes ≡ size) self.now }
        ensures { OnOk result (out.new.items ≡ out.old.items ++ row_at size self.now cloud) }
    {
        let start = out.len();
        out.resize(start + size, 0)?;
        self.fill(cloud, &mut out[start..]);
        Ok(())
    }

    /// Turns zeros, as many as there are bytes in each pick, into the bytes at a cloud.
    fn fill(&self, cloud: u8, out: &mut [u8])
        requires sizes { All (λ pick. length pick.bytes ≡ length out.old) self.now }
        requires zeros { out.old ≡ replicate (length out.old) 0 }
        ensures { out.new ≡ row_at (length out.old) self.now cloud }
    {
        if self.picks.len() == 4 {
            add_four(self.picks, &self.scales, cloud, out);
        } else {
            add_each(self.picks, &self.scales, cloud, out);
        }
    }
}

/// What the caller then knows of bytes.
fn known(bytes: &[u8])
    ensures { (place : ℕ) → slice_index bytes.now place < 256 }
{}

/// Adds what each pick counts for at a cloud to zeros.
fn add_each(picks: &[Pick], scales: &[Gf], cloud: u8, out: &mut [u8])
    requires points { ArePoints picks.now scales.now }
    requires sizes { All (λ pick. length pick.bytes ≡ length out.old) picks.now }
    requires zeros { out.old ≡ replicate (length out.old) 0 }
    ensures { out.new ≡ row_at (length out.old) picks.now cloud }
{
    for i in 0..picks.len() {
        let product = product(picks, scales, i, cloud);
        mul_add(product.row, product.factor, out);
    }
}

/// The same of four picks, in one pass.
fn add_four(picks: &[Pick], scales: &[Gf], cloud: u8, out: &mut [u8])
    requires four { length picks.now ≡ 4 }
    requires points { ArePoints picks.now scales.now }
    requires sizes { All (λ pick. length pick.bytes ≡ length out.old) picks.now }
    requires zeros { out.old ≡ replicate (length out.old) 0 }
    ensures { out.new ≡ row_at (length out.old) picks.now cloud }
{
    let first = product(picks, scales, 0, cloud);
    let second = product(picks, scales, 1, cloud);
    let third = product(picks, scales, 2, cloud);
    let fourth = product(picks, scales, 3, cloud);
    mul_add_four(&first, &second, &third, &fourth, out);
}

/// What pick i counts for in the bytes at a cloud.
fn product<'a>(picks: &'a [Pick], scales: &[Gf], i: usize, cloud: u8) -> Product<'a>
    requires within { i < length picks.now }
    requires points { ArePoints picks.now scales.now }
    ensures row { result.row.now ≡ slice_index_or (map (λ pick. pick.bytes) picks.now) i [] }
    ensures factor { result.factor ≡ weight_of gf ◌==◌ (clouds picks.now) (slice_index (clouds picks.now) i) cloud }
{
    let pick = &picks[i];
    let row = pick.bytes.bytes();
    let raised = raised(picks, pick.cloud, cloud);
    let factor = raised.times(scales[i]);
    Product { row, factor }
}

/// The product of 1 / (cloud - m) over the other clouds m of the picks.
fn scale(picks: &[Pick], cloud: u8) -> Gf
    ensures { result ≡ scale_of gf ◌==◌ (clouds picks.now) cloud }
{
    let at = Gf::of(cloud);
    let mut scale = Gf::of(1);
    for pick in picks {
        if pick.cloud != cloud {
            let place = Gf::of(pick.cloud);
            scale = scale.over(at.plus(place));
        }
    }
    scale
}

/// The product of target - m over the clouds m of the picks other than this one.
fn raised(picks: &[Pick], cloud: u8, target: u8) -> Gf
    ensures { result ≡ raised_of gf ◌==◌ (clouds picks.now) cloud target }
{
    let at = Gf::of(target);
    let mut raised = Gf::of(1);
    for pick in picks {
        if pick.cloud != cloud {
            let place = Gf::of(pick.cloud);
            raised = raised.times(at.plus(place));
        }
    }
    raised
}
