//! The order of a key's operations, each at its moment.

ghost use Rattle.std.specs.Prelude.{◌≡◌, ℕ, List, IfOk, OnOk, ◌++◌, ◌∷◌, [], map, if◌then◌else◌};
ghost use Rattle.hy_order.specs.Keys.{sorted_keys};
ghost use Rattle.hy_points.specs.Atomic.{IsAtomicLog, AsksOnce};
ghost use Rattle.hy_points.specs.Orders.{OrdersLog};
ghost use Rattle.hy_record.specs.Key.{key_eq};
ghost use Rattle.hy_points.specs.Marks.{
  AreGrouped,
  begun_key,
  begun_keys,
  linearization_of,
  marks_of,
  marks_under,
  moment_cmp,
  op_of,
  order_by_stamp,
  order_under,
  orders_of,
  own_mark,
  point_mark,
  sorted_by,
};

use crate::index::LogIndex;
use crate::mark::Mark;
use crate::point::Point;
use crate::point_log::PointLog;
use hy_base::{NoMemory, Numbers};
use hy_order::{Order, Orders};
use hy_record::Key;
use std::alloc::Global;
use std::collections::{BTreeMap, BTreeSet};

/// The order of the key's operations by the log: each stands at its moment, and those of one moment
/// by timestamp.
///
/// It takes time n log n in the points.
#[tactic(auto, unfolding(crate::specs::Marks::linearization_of))]
pub fn order_of(alloc: Global, log: &PointLog, key: &Key) -> Result<Order, NoMemory>
    ensures key { IfOk result (λ order. order.key ≡ key.now) }
    ensures order { IfOk result (λ order. order.ops ≡ linearization_of log.now key.now) }
    ensures law { IsAtomicLog log.now → AsksOnce log.now →
        IfOk result (λ order. OrdersLog log.now key.now order.ops) }
    ensures by_stamp { IsAtomicLog log.now → AsksOnce log.now →
        IfOk result (λ order. order.ops ≡ order_by_stamp log.now key.now) }
{
    let index = LogIndex::of(alloc, log.items())?;
    let marks = marks_of(alloc, &index, key)?;
    let ops = numbers_in_order(alloc, marks)?;
    Ok(Order { key: *key, ops })
}

/// The order of each key on which the log begins an operation, by the keys' order, as `order_of`
/// gives it.
///
/// It takes time n log n in the points, whatever the number of keys.
pub fn orders_of(alloc: Global, log: &PointLog) -> Result<Orders, NoMemory>
    ensures { IfOk result (λ orders. orders ≡ orders_of log.now) }
{
    let index = LogIndex::of(alloc, log.items())?;
    let orders = all_orders(alloc, &index)?;
    Ok(Orders::of(orders))
}

/// The order of each key, by the keys' order.
fn all_orders(alloc: Global, index: &LogIndex) -> Result<Vec<Order>, NoMemory>
    ensures { IfOk result (λ orders. orders.items ≡ orders_of index.now) }
{
    let groups = marks_by_key(alloc, index)?;
    let keys = keys_begun(alloc, index.points())?;
    let orders = orders_under(alloc, &groups, &keys)?;
    Ok(orders)
}

/// The orders of the keys by the marks that stand under them.
fn orders_under(
    alloc: Global,
    groups: &BTreeMap<Key, Vec<Mark>>,
    keys: &[Key],
) -> Result<Vec<Order>, NoMemory>
    ensures { IfOk result (λ orders. orders.items ≡ map (order_under groups.now.entries) keys.now) }
{
    let mut orders = Vec::new(alloc);
    for key in keys {
        let order = order_under(alloc, groups, key)?;
        orders.push(order)?;
    }
    Ok(orders)
}

/// The order of the key by the marks that stand under it.
fn order_under(
    alloc: Global,
    groups: &BTreeMap<Key, Vec<Mark>>,
    key: &Key,
) -> Result<Order, NoMemory>
    ensures { IfOk result (λ order. order ≡ order_under groups.now.entries key.now) }
{
    let marks = marks_under(alloc, groups, key)?;
    let ops = numbers_in_order(alloc, marks)?;
    Ok(Order { key: *key, ops })
}

/// A copy of the marks that stand under the key.
fn marks_under(
    alloc: Global,
    groups: &BTreeMap<Key, Vec<Mark>>,
    key: &Key,
) -> Result<Vec<Mark>, NoMemory>
    ensures { IfOk result (λ marks. marks.items ≡ marks_under groups.now.entries key.now) }
{
    match groups.get(key) {
        Some(marks) => Ok(Vec::from_slice(alloc, marks)?),
        None => Ok(Vec::new(alloc)),
    }
}

/// The marks of each key, in the order of the beginnings.
#[tactic(auto, unfolding(crate::specs::Marks::marks_of))]
fn marks_by_key(alloc: Global, index: &LogIndex) -> Result<BTreeMap<Key, Vec<Mark>>, NoMemory>
    ensures { IfOk result (λ groups. AreGrouped index.now groups.entries) }
{
    let mut groups = BTreeMap::new(alloc);
    for point in index.points() {
        if let Some((key, mark)) = own_mark(index, point) {
            add_mark(alloc, &mut groups, key, mark)?;
        }
    }
    Ok(groups)
}

/// The mark of the operation that begins at the point, with its key.
fn own_mark(index: &LogIndex, point: &Point) -> Option<(Key, Mark)>
    ensures { result ≡ own_mark index.now point.now }
{
    match point {
        Point::Begin { op, key, act, .. } => {
            let mark = index.mark(key, *op, *act)?;
            Some((*key, mark))
        }
        _ => None,
    }
}

/// Adds the mark to those of the key.
fn add_mark(
    alloc: Global,
    groups: &mut BTreeMap<Key, Vec<Mark>>,
    key: Key,
    mark: Mark,
) -> Result<(), NoMemory>
    ensures { OnOk result ((k : List ℕ) → marks_under groups.new.entries k
        ≡ (if key_eq key k then marks_under groups.old.entries k ++ mark ∷ []
        else marks_under groups.old.entries k)) }
{
    let marks = groups.entry(key)?.or_insert(Vec::new(alloc));
    marks.push(mark)?;
    Ok(())
}

/// The keys on which the points begin operations, in increasing order.
fn keys_begun(alloc: Global, points: &[Point]) -> Result<Vec<Key>, NoMemory>
    ensures { IfOk result (λ keys. keys.items ≡ sorted_keys (begun_keys points.now)) }
{
    let mut keys = BTreeSet::new(alloc);
    for point in points {
        if let Some(key) = begun_key(point) {
            keys.insert(key)?;
        }
    }
    let mut begun = Vec::new(alloc);
    for key in keys {
        begun.push(key)?;
    }
    Ok(begun)
}

/// The key that the point begins an operation on.
fn begun_key(point: &Point) -> Option<Key>
    ensures { result ≡ begun_key point.now }
{
    match point {
        Point::Begin { key, .. } => Some(*key),
        _ => None,
    }
}

/// The marks of the key, in the order of the beginnings.
#[tactic(auto, unfolding(crate::specs::Marks::marks_of))]
fn marks_of(alloc: Global, index: &LogIndex, key: &Key) -> Result<Vec<Mark>, NoMemory>
    ensures { IfOk result (λ marks. marks.items ≡ marks_of index.now key.now) }
{
    let mut marks = Vec::new(alloc);
    for point in index.points() {
        if let Some(mark) = point_mark(index, key, point) {
            marks.push(mark)?;
        }
    }
    Ok(marks)
}

/// The mark of the operation that begins at the point, where it is one of the key.
fn point_mark(index: &LogIndex, key: &Key, point: &Point) -> Option<Mark>
    ensures { result ≡ point_mark index.now key.now point.now }
{
    match point {
        Point::Begin {
            op,
            key: own,
            act,
            ..
        } => {
            if own.is_same(key) {
                index.mark(key, *op, *act)
            } else {
                None
            }
        }
        _ => None,
    }
}

/// The numbers of the marks' operations, each mark at its moment.
fn numbers_in_order(alloc: Global, marks: Vec<Mark>) -> Result<Numbers, NoMemory>
    ensures { IfOk result (λ numbers. numbers ≡ map op_of (sorted_by moment_cmp marks.items)) }
{
    let marks = in_order(marks)?;
    let numbers = marks.iter().map(|mark| mark.op).collect(alloc)?;
    Ok(Numbers::of(numbers))
}

/// The marks by moment, and at one moment by timestamp.
fn in_order(marks: Vec<Mark>) -> Result<Vec<Mark>, NoMemory>
    ensures { IfOk result (λ sorted. sorted.items ≡ sorted_by moment_cmp marks.items) }
{
    let mut sorted = marks;
    sorted.sort()?;
    Ok(sorted)
}
