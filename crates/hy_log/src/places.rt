//! The operations of each key, each at its place.

ghost use Rattle.std.specs.Prelude.{◌≡◌, [], map, IfOk, OnOk};
ghost use Rattle.std.specs.BTreeMap.{insert_entry};
ghost use Rattle.std.specs.Cmp.Lexicographic.{slice_cmp};
ghost use Rattle.std.specs.List.Sorted.{IsStrictlySortedBy};
ghost use Rattle.std.specs.Map.{keys_of};
ghost use Rattle.std.specs.Ordering.{nat_cmp};
ghost use Rattle.hy_log.specs.Orders.{number_at, added, places_at, with_places, order_line};

use crate::place::Place;
use hy_base::{NoMemory, Numbers};
use hy_order::{Order, Orders};
use hy_record::Key;
use std::alloc::Global;
use std::collections::BTreeMap;
use std::marker::Model;

/// The numbers of the listed operations of a key, each at its place.
#[derive(Drop)]
pub(crate) struct Places {
    numbers: BTreeMap<Place, u32>,
}

impl Model for Places {
    ghost use Rattle.std.specs.Prelude.{List, ℕ};
    ghost use Rattle.hy_log.specs.declared.place.Place.{Place};

    ghost Value = { List (Place × ℕ) };

    ghost view = { λ places. places.numbers.entries };
}

impl Places {
    /// No operation.
    fn new(alloc: Global) -> Places
        ensures { result ≡ [] }
    {
        Places {
            numbers: BTreeMap::new(alloc),
        }
    }

    /// Adds an operation, if it is listed.
    fn add(&mut self, place: Option<Place>, number: u32) -> Result<(), NoMemory>
        ensures { OnOk result (self.new ≡ added place number self.old) }
    {
        if let Some(place) = place {
            self.numbers.insert(place, number)?;
        }
        Ok(())
    }

    /// The numbers in the order of their places.
    fn into_numbers(self, alloc: Global) -> Result<Numbers, NoMemory>
        ensures { IfOk result (λ numbers. numbers ≡ map number_at self) }
    {
        let mut numbers = Vec::new(alloc);
        for (_place, number) in self.numbers {
            numbers.push(number)?;
        }
        Ok(Numbers::of(numbers))
    }
}

/// The keys that puts, gets and deletes name, each with its listed operations.
#[derive(Drop)]
pub(crate) struct PlacesByKey {
    keys: BTreeMap<Key, Places>,
}

impl Model for PlacesByKey {
    ghost use Rattle.std.specs.Prelude.{List, ℕ};
    ghost use Rattle.hy_log.specs.declared.place.Place.{Place};

    ghost Value = { List (List ℕ × List (Place × ℕ)) };

    ghost view = { λ all. all.keys.entries };
}

impl PlacesByKey {
    /// No key.
    pub(crate) fn new(alloc: Global) -> PlacesByKey
        ensures { result ≡ [] }
    {
        PlacesByKey {
            keys: BTreeMap::new(alloc),
        }
    }

    /// Adds an operation of the key, at its place if it is listed.
    pub(crate) fn add(
        &mut self,
        alloc: Global,
        key: Key,
        place: Option<Place>,
        number: u32,
    ) -> Result<(), NoMemory>
        ensures { OnOk result (self.new
            ≡ with_places self.old key (added place number (places_at self.old key))) }
    {
        let places = self.keys.entry(key)?.or_insert(Places::new(alloc));
        places.add(place, number)
    }

    /// The order of each key, by the keys' order.
    pub(crate) fn into_orders(self, alloc: Global) -> Result<Orders, NoMemory>
        ensures orders { IfOk result (λ orders. orders ≡ map order_line self) }
        ensures sorted { OnOk result (IsStrictlySortedBy (slice_cmp nat_cmp) (keys_of self)) }
    {
        let mut orders = Vec::new(alloc);
        for (key, places) in self.keys {
            let ops = places.into_numbers(alloc)?;
            orders.push(Order { key, ops })?;
        }
        Ok(Orders::of(orders))
    }
}
