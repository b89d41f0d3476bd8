//! What the first point of each kind tells of each operation of a log.

ghost use Rattle.std.specs.Prelude.{◌≡◌, ◌==◌, ℕ, Some, None, IfOk, OnOk, if◌then◌else◌};
ghost use Rattle.std.specs.Option.{option_or};
ghost use Rattle.hy_points.specs.Index.{AreFirsts, under, key_at};
ghost use Rattle.hy_points.specs.Lookups.{asking_at, setting_at, trying_at, ending_at};

use crate::point::Point;
use crate::telling::{Asking, Setting, Trying};
use hy_base::NoMemory;
use hy_record::Key;
use std::alloc::Global;
use std::collections::BTreeMap;

/// The key that each operation began on.
pub(crate) fn keys_of(alloc: Global, points: &[Point]) -> Result<BTreeMap<u32, Key>, NoMemory>
    ensures { IfOk result (λ keys. AreFirsts key_at points.now keys.entries) }
{
    let mut keys = BTreeMap::new(alloc);
    for point in points {
        if let Point::Begin { op, key, .. } = point {
            keep_first(&mut keys, *op, *key)?;
        }
    }
    Ok(keys)
}

/// The first reading of each operation.
pub(crate) fn askings_of(alloc: Global, points: &[Point]) -> Result<BTreeMap<u32, Asking>, NoMemory>
    ensures { IfOk result (λ askings. AreFirsts asking_at points.now askings.entries) }
{
    let mut askings = BTreeMap::new(alloc);
    for (place, point) in points.iter().enumerate() {
        if let Point::Ask { op, found } = point {
            let asking = Asking {
                place,
                found: *found,
            };
            keep_first(&mut askings, *op, asking)?;
        }
    }
    Ok(askings)
}

/// The first writing of each operation.
pub(crate) fn settings_of(
    alloc: Global,
    points: &[Point],
) -> Result<BTreeMap<u32, Setting>, NoMemory>
    ensures { IfOk result (λ settings. AreFirsts setting_at points.now settings.entries) }
{
    let mut settings = BTreeMap::new(alloc);
    for (place, point) in points.iter().enumerate() {
        if let Point::Set { op, stamp, applied } = point {
            let setting = Setting {
                place,
                stamp: *stamp,
                is_applied: *applied,
            };
            keep_first(&mut settings, *op, setting)?;
        }
    }
    Ok(settings)
}

/// The first try of each operation.
pub(crate) fn tryings_of(alloc: Global, points: &[Point]) -> Result<BTreeMap<u32, Trying>, NoMemory>
    ensures { IfOk result (λ tryings. AreFirsts trying_at points.now tryings.entries) }
{
    let mut tryings = BTreeMap::new(alloc);
    for (place, point) in points.iter().enumerate() {
        if let Point::Try { op, stamp, found } = point {
            let trying = Trying {
                place,
                stamp: *stamp,
                found: *found,
            };
            keep_first(&mut tryings, *op, trying)?;
        }
    }
    Ok(tryings)
}

/// The place of the return of each operation.
pub(crate) fn endings_of(alloc: Global, points: &[Point]) -> Result<BTreeMap<u32, usize>, NoMemory>
    ensures { IfOk result (λ endings. AreFirsts ending_at points.now endings.entries) }
{
    let mut endings = BTreeMap::new(alloc);
    for (place, point) in points.iter().enumerate() {
        if let Point::End { op } = point {
            keep_first(&mut endings, *op, place)?;
        }
    }
    Ok(endings)
}

/// Puts the value under the operation, where nothing stands there yet.
fn keep_first<V: Drop>(kept: &mut BTreeMap<u32, V>, op: u32, value: V) -> Result<(), NoMemory>
    ensures { OnOk result ((q : ℕ) → under kept.new.entries q
        ≡ option_or (under kept.old.entries q) (if op == q then Some value else None)) }
{
    kept.entry(op)?.or_insert(value);
    Ok(())
}
