//! The value that picked fragments rebuild.

ghost use Rattle.std.specs.Prelude.{◌≡◌, ◌++◌, ◌<◌, ◌≤◌, ◌==◌, ◌^◌, ℕ, List, [], OnOk, length, take, All, IfSome, IfOk, IfErr, MatchOption};
ghost use Rattle.std.specs.List.{list_any};
ghost use Rattle.hy_base.specs.Shape.{fragment_size as fragment_size_of};
ghost use Rattle.hy_gf.specs.Gf.{IsElement};
ghost use Rattle.hy_code.specs.Fragments.{AreFragments, clouds, rebuilt_value, row_at};
ghost use Rattle.hy_code.specs.Polynomial.{AreDifferent, AreElements};
ghost use Rattle.hy_code.specs.Refusal.{refusal, wrong_length as wrong_length_of, repeated_cloud as repeated_cloud_of};

use crate::fault::RebuildFault;
use crate::pick::Pick;
use crate::polynomials::Polynomials;
use hy_base::{Blob, MAX_K, MAX_VALUE, NoMemory, fragment_size};
use std::alloc::Global;

/// The value of this size, from the first k picks.
pub fn rebuild(alloc: Global, size: u32, k: u8, picks: &Vec<Pick>) -> Result<Blob, RebuildFault>
    requires one_part { 1 ≤ k }
    requires parts_fit { k ≤ MAX_K }
    requires size_fits { size ≤ MAX_VALUE }
    ensures refused { IfSome (refusal size k picks.now.items) (λ fault. result ≡ Err fault) }
    ensures only_refused { IfErr result (λ fault. MatchOption (refusal size k picks.now.items) (fault ≡ RebuildFault.NoMemory) (λ due. fault ≡ due)) }
    ensures rebuilt { IfOk result (λ value. value ≡ rebuilt_value size k (take k picks.now.items)) }

    // Any k fragments of a value rebuild it.
    ensures any_parts { IfOk result (λ rebuilt. (value : List ℕ) → AreElements IsElement value → length value ≡ size → AreFragments value k (take k picks.now.items) → rebuilt ≡ value) }
{
    let used = k as usize;
    if picks.len() < used {
        return Err(RebuildFault::Few(picks.len()));
    }
    let first = &picks[..used];
    let fragment_size = fragment_size(size, k) as usize;
    if let Some(place) = wrong_length(fragment_size, first) {
        return Err(RebuildFault::Length(place));
    }
    if let Some(cloud) = repeated_cloud(first) {
        return Err(RebuildFault::Twice(cloud));
    }
    let value = parts_joined(alloc, size, k, first)?;
    Ok(Blob::of(value))
}

/// The place of the first pick that has not this many bytes.
fn wrong_length(size: usize, picks: &[Pick]) -> Option<usize>
    ensures { result ≡ wrong_length_of size picks.now }
{
    picks
        .iter()
        .position(|pick| pick.bytes.bytes().len() != size)
}

/// The first cloud, from the left, that stands earlier too.
fn repeated_cloud(picks: &[Pick]) -> Option<u8>
    ensures { result ≡ repeated_cloud_of [] picks.now }
{
    for (i, pick) in picks.iter().enumerate() {
        if has_cloud(&picks[..i], pick.cloud) {
            return Some(pick.cloud);
        }
    }
    None
}

fn has_cloud(picks: &[Pick], cloud: u8) -> bool
    ensures { result ≡ list_any (λ pick. pick.cloud == cloud) picks.now }
{
    picks.iter().any(|pick| pick.cloud == cloud)
}

/// The first `size` bytes of the k parts that lie on the polynomials through the picks.
fn parts_joined(alloc: Global, size: u32, k: u8, picks: &[Pick]) -> Result<Vec<u8>, NoMemory>
    requires one_part { 1 ≤ k }
    requires sizes { All (λ pick. length pick.bytes ≡ fragment_size_of size k) picks.now }
    requires different { AreDifferent (clouds picks.now) }
    ensures { IfOk result (λ value. value.items ≡ rebuilt_value size k picks.now) }
{
    let fragment_size = fragment_size(size, k) as usize;
    let polynomials = Polynomials::through(alloc, picks)?;
    let mut value = Vec::with_capacity(alloc, k as usize * fragment_size)?;
    for part in 0..k {
        append_part(&polynomials, fragment_size, part, &mut value)?;
    }
    value.truncate(size as usize);
    Ok(value)
}

/// Appends the bytes of a part: those that were picked, or those that lie on the polynomials.
fn append_part(
    polynomials: &Polynomials,
    size: usize,
    part: u8,
    value: &mut Vec<u8>,
) -> Result<(), NoMemory>
    requires small { size < 2 ^ 32 }
    requires sizes { All (λ pick. length pick.bytes ≡ size) polynomials.now }
    ensures { OnOk result (value.new.items ≡ value.old.items ++ row_at size polynomials.now part) }
{
    match polynomials.held(size, part) {
        Some(bytes) => {
            value.extend_from_slice(bytes)?;
            Ok(())
        }
        None => polynomials.append_row(size, part, value),
    }
}
