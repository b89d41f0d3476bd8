//! Fragments and rebuilt values against values from outside, and each way to pick k of them.

ghost use Rattle.std.specs.Prelude.{◌≡◌, ◌≤◌, length};

use super::*;
use hy_base::Blob;
use std::alloc::Global;
use std::process::Abort;
use std::test::Fail;

const TEXT: [u8; 11] = *b"fragment it";

fn pick(alloc: Global, cloud: u8, bytes: &[u8]) -> Result<Pick, Fail> {
    let bytes = Blob::copy_of(alloc, bytes)?;
    Ok(Pick { cloud, bytes })
}

// the fragments for the clouds whose bits are set
fn picked(alloc: Global, fragments: &Fragments, n: u8, bits: u16) -> Result<Vec<Pick>, Fail>
    requires { n ≤ length fragments.now }
{
    let mut picks = Vec::new(alloc);
    for cloud in 0..n {
        if cloud < 16 && (bits >> cloud) & 1 == 1 {
            picks.push(pick(alloc, cloud, fragments.get(cloud))?)?;
        }
    }
    Ok(picks)
}

#[test]
fn split_and_rebuild(rt: HostRuntime) -> Result<(), Fail> {
    let alloc = rt.alloc();
    let fragments = split(alloc, &[1, 2], 2, 4)?;
    for (cloud, byte) in [(0u8, 1u8), (1, 2), (2, 7), (3, 4)] {
        assert_eq!(rt; fragments.get(cloud), [byte].as_slice());
    }
    let picks = vec![in alloc; pick(alloc, 2, &[7])?, pick(alloc, 3, &[4])?]?;
    assert_eq!(rt; rebuild(alloc, 2, 2, &picks)?.bytes(), [1, 2].as_slice());
    Ok(())
}

#[test]
fn pads_the_last_part(rt: HostRuntime) -> Result<(), Fail> {
    let fragments = split(rt.alloc(), &[1, 2, 3], 2, 4)?;
    for (cloud, bytes) in [(0u8, [1u8, 2u8]), (1, [3, 0]), (2, [5, 6]), (3, [7, 4])] {
        assert_eq!(rt; fragments.get(cloud), bytes.as_slice());
    }
    Ok(())
}

#[test]
fn refuses_the_first_picks_alone(rt: HostRuntime) -> Result<(), Fail> {
    let alloc = rt.alloc();
    let one = vec![in alloc; pick(alloc, 2, &[7])?]?;
    assert_eq!(rt;
        rebuild(alloc, 2, 2, &one).err(),
        Some(RebuildFault::Few(1))
    );
    let same = vec![in alloc; pick(alloc, 2, &[7])?, pick(alloc, 2, &[7])?]?;
    assert_eq!(rt;
        rebuild(alloc, 2, 2, &same).err(),
        Some(RebuildFault::Twice(2))
    );
    let long = vec![in alloc; pick(alloc, 2, &[7])?, pick(alloc, 2, &[7, 8])?]?;
    assert_eq!(rt;
        rebuild(alloc, 2, 2, &long).err(),
        Some(RebuildFault::Length(1))
    );
    let mirrored = vec![in alloc;
        pick(alloc, 1, &[7])?,
        pick(alloc, 2, &[7])?,
        pick(alloc, 2, &[7])?,
        pick(alloc, 1, &[7])?,
    ]?;
    assert_eq!(rt;
        rebuild(alloc, 4, 4, &mirrored).err(),
        Some(RebuildFault::Twice(2))
    );
    let behind = vec![in alloc;
        pick(alloc, 2, &[7])?,
        pick(alloc, 3, &[4])?,
        pick(alloc, 3, &[4, 4])?,
    ]?;
    assert_eq!(rt; rebuild(alloc, 2, 2, &behind)?.bytes(), [1, 2].as_slice());
    Ok(())
}

#[test]
fn every_choice_of_fragments(rt: HostRuntime) -> Result<(), Fail> {
    let alloc = rt.alloc();
    for k in 1..5u8 {
        for n in k..11u8 {
            let fragments = split(alloc, &TEXT, k, n)?;
            for bits in 0..1u16 << n {
                if bits.count_ones() == k as u32 {
                    let picks = picked(alloc, &fragments, n, bits)?;
                    assert_eq!(rt; rebuild(alloc, 11, k, &picks)?.bytes(), TEXT.as_slice());
                }
            }
        }
    }
    Ok(())
}

// splits into parts, and rebuilds from the last fragments
fn comes_back(rt: &impl Abort, alloc: Global, k: u8, value: &[u8]) -> Result<(), Fail>
    requires one_part { 1 ≤ k }
    requires parts_fit { k ≤ 4 }
    requires size_fits { length value.now ≤ 1048576 }
{
    let fragments = split(alloc, value, k, 2 * k)?;
    let mut picks = Vec::new(alloc);
    for cloud in k..2 * k {
        picks.push(pick(alloc, cloud, fragments.get(cloud))?)?;
    }
    let rebuilt = rebuild(alloc, value.len() as u32, k, &picks)?;
    assert!(rt; rebuilt.bytes() == value, "{k} parts of {}", value.len());
    Ok(())
}

#[test]
fn sizes_at_the_edges(rt: HostRuntime) -> Result<(), Fail> {
    let value = vec![in rt.alloc(); 0xA5u8; 4096]?;
    for k in 1..5u8 {
        for size in [0, k as usize - 1, k as usize, k as usize + 1, 4096] {
            if let Some(front) = value.get(..size) {
                comes_back(&rt, rt.alloc(), k, front)?;
            }
        }
        comes_back(&rt, rt.alloc(), k, &TEXT[..1])?;
    }
    Ok(())
}

#[test]
fn the_largest_value(rt: HostRuntime) -> Result<(), Fail> {
    let mut value = Vec::with_capacity(rt.alloc(), 1_048_576)?;
    for i in 0..1_048_576u32 {
        value.push((i % 251) as u8)?;
    }
    assert_eq!(rt; value.len(), 1_048_576);
    comes_back(&rt, rt.alloc(), 4, &value)
}

#[test]
fn laws(_rt: HostRuntime) {
    one_polynomial();
    any_parts_rebuild();
    fragments_have_the_fragment_size();
    one_part_is_the_value();
    fragments_are_not_refused();
}
