//! The operations of a log by number, and the applied writings of each key.

ghost use Rattle.std.specs.Prelude.{◌≡◌, ℕ, true, false, List, IfOk, OnOk, if◌then◌else◌};
ghost use Rattle.hy_record.specs.Key.{key_eq};
ghost use Rattle.hy_points.specs.Index.{
  AreFirsts,
  ArePeaks,
  applied_writing,
  key_at,
  peaks_under,
  raised,
};
ghost use Rattle.hy_points.specs.Lookups.{asking, setting, trying, has_ended};
ghost use Rattle.hy_points.specs.Marks.{
  operation_mark,
  write_mark,
  read_mark,
  mark_before,
  overwriting,
  swap_mark,
  tried_mark,
  unexpected,
};

use crate::firsts::{askings_of, endings_of, keys_of, settings_of, tryings_of};
use crate::mark::Mark;
use crate::peaks::{Peak, first_above, raise};
use crate::point::{ActKind, Point};
use crate::telling::{Asking, Setting, Trying};
use hy_base::NoMemory;
use hy_record::{Key, Stamp};
use std::alloc::Global;
use std::collections::BTreeMap;
use std::marker::Model;

/// A log, with what it has of each operation and of each key at hand.
#[derive(Drop)]
pub(crate) struct LogIndex<'a> {
    points: &'a [Point],
    askings: BTreeMap<u32, Asking>,
    settings: BTreeMap<u32, Setting>,
    tryings: BTreeMap<u32, Trying>,
    endings: BTreeMap<u32, usize>,
    peaks: BTreeMap<Key, Vec<Peak>>,
}

impl<'a> Model for LogIndex<'a> {
    ghost use Rattle.std.specs.Prelude.{List};
    ghost use Rattle.hy_points.specs.declared.point.Point.{Point};
    ghost use Rattle.hy_points.specs.Index.{IsIndex};

    ghost Value = { List Point };

    ghost view = { λ index. index.points.now };

    ghost invariant = { λ index. IsIndex index.points.now index.askings.entries
        index.settings.entries index.tryings.entries index.endings.entries index.peaks.entries };
}

impl<'a> LogIndex<'a> {
    /// The index of the log.
    pub(crate) fn of(alloc: Global, points: &'a [Point]) -> Result<LogIndex<'a>, NoMemory>
        ensures { IfOk result (λ index. index ≡ points.now) }
    {
        let keys = keys_of(alloc, points)?;
        Ok(LogIndex {
            points,
            askings: askings_of(alloc, points)?,
            settings: settings_of(alloc, points)?,
            tryings: tryings_of(alloc, points)?,
            endings: endings_of(alloc, points)?,
            peaks: peaks_of(alloc, points, &keys)?,
        })
    }

    /// The points of the log.
    pub(crate) fn points(&self) -> &'a [Point]
        ensures { result.now ≡ self.now }
    {
        self.points
    }

    /// The mark of an operation of the key, where it is listed.
    pub(crate) fn mark(&self, key: &Key, op: u32, act: ActKind) -> Option<Mark>
        ensures { result ≡ operation_mark self.now key.now op act }
    {
        match act {
            ActKind::Get => read_mark(op, self.has_ended(op), self.asking(op)),
            ActKind::Put | ActKind::Delete => self.write_mark(key, op),
            ActKind::Swap(expected) => self.swap_mark(op, &expected),
        }
    }

    /// The first reading of the operation.
    #[tactic(auto, unfolding(crate::specs::Lookups::asking))]
    fn asking(&self, op: u32) -> Option<Asking>
        ensures { result ≡ asking self.now op }
    {
        self.askings.get(&op).copied()
    }

    /// The first writing of the operation.
    #[tactic(auto, unfolding(crate::specs::Lookups::setting))]
    fn setting(&self, op: u32) -> Option<Setting>
        ensures { result ≡ setting self.now op }
    {
        self.settings.get(&op).copied()
    }

    /// The first try of the operation.
    #[tactic(auto, unfolding(crate::specs::Lookups::trying))]
    fn trying(&self, op: u32) -> Option<Trying>
        ensures { result ≡ trying self.now op }
    {
        self.tryings.get(&op).copied()
    }

    /// Whether the operation returned.
    #[tactic(auto, unfolding(crate::specs::Lookups::ending))]
    fn has_ended(&self, op: u32) -> bool
        ensures { result ≡ has_ended self.now op }
    {
        self.endings.get(&op).is_some()
    }

    /// The mark of a write.
    fn write_mark(&self, key: &Key, op: u32) -> Option<Mark>
        ensures { result ≡ write_mark self.now key.now op (setting self.now op) }
    {
        let set = self.setting(op)?;
        if set.is_applied {
            return Some(mark_at(set.place, set.stamp, op));
        }
        if !self.has_ended(op) {
            return None;
        }
        Some(mark_before(self.overwriting(key, &set.stamp), set.stamp, op))
    }

    /// The mark of a swap.
    fn swap_mark(&self, op: u32, expected: &Stamp) -> Option<Mark>
        ensures { result ≡ swap_mark (has_ended self.now op) expected.now op (asking self.now op)
            (trying self.now op) }
    {
        match self.trying(op) {
            Some(tried) => tried_mark(op, self.has_ended(op), expected, &tried),
            None => read_mark(
                op,
                self.has_ended(op),
                unexpected(expected, self.asking(op)),
            ),
        }
    }

    /// The place of the first applied writing of the key with a greater timestamp.
    #[tactic(auto, unfolding(crate::specs::Marks::overwriting))]
    fn overwriting(&self, key: &Key, stamp: &Stamp) -> Option<usize>
        ensures { result ≡ overwriting self.now key.now stamp.now }
    {
        match self.peaks.get(key) {
            Some(peaks) => first_above(peaks, stamp),
            None => None,
        }
    }
}

/// The mark of a write that was applied at the place.
fn mark_at(place: usize, stamp: Stamp, op: u32) -> Mark
    ensures { result
        ≡ record { place = place; is_at = true; stamp = stamp; reads = false; op = op } }
{
    Mark {
        place,
        is_at: true,
        stamp,
        reads: false,
        op,
    }
}

/// The mark of a write just before the place, or at the start.
fn mark_before(place: Option<usize>, stamp: Stamp, op: u32) -> Mark
    ensures { result ≡ mark_before op stamp place }
{
    Mark {
        place: place.unwrap_or(0),
        is_at: false,
        stamp,
        reads: false,
        op,
    }
}

/// The mark of a swap that tried: where that was applied, or where it returned.
fn tried_mark(op: u32, ended: bool, expected: &Stamp, tried: &Trying) -> Option<Mark>
    ensures { result ≡ tried_mark ended expected.now op tried.now }
{
    if expected.is_same(&tried.found) {
        return Some(mark_at(tried.place, tried.stamp, op));
    }
    let found = Asking {
        place: tried.place,
        found: tried.found,
    };
    read_mark(op, ended, Some(found))
}

/// What a swap found first, where it does not expect that.
fn unexpected(expected: &Stamp, asking: Option<Asking>) -> Option<Asking>
    ensures { result ≡ unexpected expected.now asking }
{
    let ask = asking?;
    if expected.is_same(&ask.found) {
        return None;
    }
    Some(ask)
}

/// The mark of a read, where it returned.
fn read_mark(op: u32, ended: bool, asking: Option<Asking>) -> Option<Mark>
    ensures { result ≡ read_mark ended op asking }
{
    let ask = asking?;
    if !ended {
        return None;
    }
    Some(Mark {
        place: ask.place,
        is_at: true,
        stamp: ask.found,
        reads: true,
        op,
    })
}

/// The applied writings of each key that raised its record.
fn peaks_of(
    alloc: Global,
    points: &[Point],
    keys: &BTreeMap<u32, Key>,
) -> Result<BTreeMap<Key, Vec<Peak>>, NoMemory>
    requires { AreFirsts key_at points.now keys.now.entries }
    ensures { IfOk result (λ peaks. ArePeaks points.now peaks.entries) }
{
    let mut peaks = BTreeMap::new(alloc);
    for (place, point) in points.iter().enumerate() {
        if let Some((key, stamp)) = applied_writing(keys, point) {
            add_peak(alloc, &mut peaks, key, place, stamp)?;
        }
    }
    Ok(peaks)
}

/// The key and the timestamp of an applied writing of an operation with a key.
fn applied_writing(keys: &BTreeMap<u32, Key>, point: &Point) -> Option<(Key, Stamp)>
    ensures { result ≡ applied_writing keys.now.entries point.now }
{
    match point {
        Point::Set {
            op,
            stamp,
            applied: true,
        } => {
            let key = keys.get(op)?;
            Some((*key, *stamp))
        }
        _ => None,
    }
}

/// Adds the applied writing to those of the key, where it raises the record.
fn add_peak(
    alloc: Global,
    peaks: &mut BTreeMap<Key, Vec<Peak>>,
    key: Key,
    place: usize,
    stamp: Stamp,
) -> Result<(), NoMemory>
    ensures { OnOk result ((k : List ℕ) → peaks_under peaks.new.entries k
        ≡ (if key_eq key k then raised (peaks_under peaks.old.entries k) place stamp
        else peaks_under peaks.old.entries k)) }
{
    let of_key = peaks.entry(key)?.or_insert(Vec::new(alloc));
    raise(of_key, place, stamp)?;
    Ok(())
}
