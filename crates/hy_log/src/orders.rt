//! The orders of a run: for each key its operations, each where it took effect.

ghost use Rattle.std.specs.Prelude.{◌≡◌, List, [], map, IfOk, OnOk};
ghost use Rattle.hy_order.specs.Keys.{register_key};
ghost use Rattle.hy_trace.specs.Deeds.{Params as TraceParams, Deed};
ghost use Rattle.hy_trace.specs.Report.{keys_of, order_of};
ghost use Rattle.hy_trace.specs.Trace.{IsTrace};
ghost use Rattle.hy_log.specs.Log.{Keeps};
ghost use Rattle.hy_log.specs.Orders.{course_place, placed_from, with_operation};

use crate::history::number_after;
use crate::log::{Log, Started};
use crate::place::{Place, listed_place};
use crate::places::PlacesByKey;
use hy_base::NoMemory;
use hy_order::Orders;
use hy_record::{Action, Key};
use std::alloc::Global;

impl Log {
    /// The order of each key that a put, a get, a delete or a swap names, by the keys' order.
    ///
    /// It takes time n log n in the operations. More than 4,294,967,295 of them are refused as want of
    /// memory.
    pub fn orders(&self, alloc: Global) -> Result<Orders, NoMemory>
        ensures { IfOk result (λ orders. (p : TraceParams) (t : List Deed) →
            IsTrace p t → Keeps self.now p t → orders ≡ map (order_of p t) (keys_of p t)) }
    {
        let places = self.places(alloc)?;
        let orders = places.into_orders(alloc)?;
        Ok(orders)
    }

    /// The listed operations of each key.
    fn places(&self, alloc: Global) -> Result<PlacesByKey, NoMemory>
        ensures { IfOk result (λ places. places
            ≡ placed_from self.now.courses 1 [] self.now.starts.items) }
    {
        let mut places = PlacesByKey::new(alloc);
        for (index, started) in self.starts.iter().enumerate() {
            let number = number_after(index)?;
            self.place(alloc, &mut places, number, started)?;
        }
        Ok(places)
    }

    /// Adds an operation to those of its key.
    fn place(
        &self,
        alloc: Global,
        places: &mut PlacesByKey,
        number: u32,
        started: &Started,
    ) -> Result<(), NoMemory>
        ensures { OnOk result (places.new
            ≡ with_operation self.now.courses number started.now places.old) }
    {
        match register_key(&started.beginning.action) {
            Some(key) => places.add(alloc, key, self.place_of(started), number),
            None => Ok(()),
        }
    }

    /// The place of an operation, if an order of its key lists it.
    fn place_of(&self, started: &Started) -> Option<Place>
        ensures { result ≡ course_place self.now.courses started.now }
    {
        let beginning = &started.beginning;
        let course = self.courses.get(beginning.client, beginning.op)?;
        listed_place(beginning, course)
    }
}

/// The key of a put, a get, a delete or a swap.
fn register_key(action: &Action) -> Option<Key>
    ensures { result ≡ register_key action.now }
{
    match action {
        Action::Put { key, .. }
        | Action::Get { key }
        | Action::Delete { key }
        | Action::Swap { key, .. } => Some(*key),
        Action::Collect { .. } => None,
    }
}
